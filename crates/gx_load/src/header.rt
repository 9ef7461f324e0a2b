//! The header of a data file: at which positions its columns are, of which kinds they are, and how
//! the key columns are named.

ghost use Rattle.std.specs.Prelude.{◌≡◌, ◌<◌, ◌≤◌, ◌+◌, ◌^◌, ◌⊎◌, ◌++◌, length, map, slice_get, vec_len, IfOk, Some};
ghost use Rattle.csv.specs.Records.{fields_of};
ghost use Rattle.gx_rows.specs.Columns.{names_of, position_of};
ghost use Rattle.gx_load.specs.LoadResults.{Gives};
ghost use Rattle.gx_load.specs.Cells.{trim};
ghost use Rattle.gx_load.specs.Loading.{key_names, column_position, positions_from};

use crate::cell::trim;
use crate::{LoadStop, RowStop};
use csv::ByteRecord;
use gx_rows::{NoMemory, RowType, ValueKind};
use std::alloc::Global;

// The first position of this name in the header; spaces and tabs around header fields do not count.
fn position_of(name: &str, header: &ByteRecord) -> Option<usize>
    ensures { result ≡ position_of name.now (map trim (fields_of header.now)) }
{
    let mut position = 0;
    'fields: while let Some(field) = header.get(position) {
        if trim(field) == name.as_bytes() {
            return Some(position);
        }
        position += 1;
    }
    None
}

// The position of a column in the header, which must have its name.
fn column_position(column: u32, name: &str, header: &ByteRecord) -> Result<usize, LoadStop>
    ensures { result ≡ column_position column name.now (fields_of header.now) }
{
    position_of(name, header).ok_or(LoadStop::Data(RowStop::Header(column)))
}

// The name of a key column.
fn key_name(keys: u32, column: u32) -> &'static str
    requires keyed { (keys ≡ 1) ⊎ (keys ≡ 2) }
    requires within { column < keys }
    ensures { slice_get (key_names keys) column ≡ Some result.now }
{
    match (keys, column) {
        (1, _) => "id",
        (_, 0) => "src",
        _ => "dst",
    }
}

/// The name of a column, the key columns first.
pub(crate) fn column_name(keys: u32, columns: &RowType, column: u32) -> &str
    requires keyed { (keys ≡ 1) ⊎ (keys ≡ 2) }
    requires within { column < keys + length columns.now }
    ensures { slice_get (key_names keys ++ names_of columns.now) column ≡ Some result.now }
{
    if column < keys {
        key_name(keys, column)
    } else {
        columns.name(column - keys)
    }
}

// The positions of the key columns and then of these columns.
fn positions_of(
    alloc: Global,
    keys: u32,
    columns: &RowType,
    header: &ByteRecord,
) -> Result<Vec<usize>, LoadStop>
    requires keyed { (keys ≡ 1) ⊎ (keys ≡ 2) }
    requires few { keys + length columns.now < 2 ^ 32 }
    ensures positions { Gives (λ v. v.items) result
        (positions_from 0 (key_names keys ++ names_of columns.now) (fields_of header.now)) }
    ensures count { IfOk result (λ v. vec_len v ≡ keys + length columns.now) }
{
    let count = keys + columns.len();
    let mut positions = Vec::with_capacity(alloc, count as usize).map_err(|_| NoMemory)?;
    for column in 0..count {
        let name = column_name(keys, columns, column);
        let position = column_position(column, name, header)?;
        positions.push(position).map_err(|_| NoMemory)?;
    }
    Ok(positions)
}

// The kinds of the columns.
fn kinds_of(alloc: Global, columns: &RowType) -> Result<Vec<ValueKind>, NoMemory>
    ensures { IfOk result (λ kinds. kinds.items ≡ map (λ c. c.1) columns.now) }
{
    let count = columns.len();
    let mut kinds = Vec::with_capacity(alloc, count as usize)?;
    for i in 0..count {
        kinds.push(columns.kind(i))?;
    }
    Ok(kinds)
}

/// The positions of the key columns and of the declared columns in a file, the kinds of the declared
/// columns, and how many fields the file's header has.
#[derive(Drop)]
pub(crate) struct Header {
    pub(crate) keys: u32,
    pub(crate) kinds: Vec<ValueKind>,
    pub(crate) width: usize,
    pub(crate) positions: Vec<usize>,
    ghost has_key: { 1 ≤ keys },
    ghost has_no_third_key: { keys ≤ 2 },
    ghost has_positions: { vec_len positions ≡ keys + vec_len kinds },
    ghost few: { vec_len positions < 2 ^ 32 },
}

impl Header {
    /// Finds the columns in this header.
    ///
    /// # Errors
    ///
    /// `Data` with the first column that the header lacks, `NoMemory`.
    pub(crate) fn of(
        alloc: Global,
        keys: u32,
        columns: &RowType,
        fields: &ByteRecord,
    ) -> Result<Header, LoadStop>
        requires keyed { (keys ≡ 1) ⊎ (keys ≡ 2) }
        requires few { keys + length columns.now < 2 ^ 32 }
        ensures positions { Gives (λ h. h.positions.items) result
            (positions_from 0 (key_names keys ++ names_of columns.now) (fields_of fields.now)) }
        ensures keys_kept { IfOk result (λ h. h.keys ≡ keys) }
        ensures kinds_kept { IfOk result (λ h. h.kinds.items ≡ map (λ c. c.1) columns.now) }
        ensures width_is_field_count { IfOk result (λ h. h.width ≡ length (fields_of fields.now)) }
    {
        let positions = positions_of(alloc, keys, columns, fields)?;
        Ok(Header {
            keys,
            kinds: kinds_of(alloc, columns)?,
            width: fields.len(),
            positions,
        })
    }
}
