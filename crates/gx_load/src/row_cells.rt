//! A record to a row. Each cell is read from the record itself, at its column's position, so that
//! no list of cells is made in between; rows of one or two values take no memory of their own.

ghost use Rattle.std.specs.Prelude.{◌≡◌, ◌==◌, ◌<◌, ◌+◌, ◌^◌, vec_len, slice_index_or, if◌then◌else◌, pos, Ok, IfOk};
ghost use Rattle.csv.specs.Records.{fields_of};
ghost use Rattle.gx_load.specs.LoadResults.{Gives};
ghost use Rattle.gx_load.specs.Loading.{cell_at, cells_of, key_at, row_of, value_at, values_from};

use crate::cell::int_of;
use crate::cell_value::{CellStop, cell_value};
use crate::header::Header;
use crate::{CellKind, LoadStop, RowStop};
use csv::ByteRecord;
use gx_rows::{NoMemory, Row, Value, ValueKind, Vid};
use std::alloc::Global;

// The bytes in the cell of a column.
fn cell_at<'a>(header: &Header, column: u32, fields: &'a ByteRecord) -> &'a [u8]
    requires { column < vec_len header.now.positions }
    ensures { result.now ≡ cell_at column header.now.positions.items (fields_of fields.now) }
{
    match fields.get(header.positions[column as usize]) {
        Some(cell) => cell,
        None => b"",
    }
}

// The key in a column, which must be a whole number.
fn key_at(header: &Header, row: u32, column: u32, fields: &ByteRecord) -> Result<i64, LoadStop>
    requires { column < vec_len header.now.positions }
    ensures { result ≡ key_at row column (cell_at column header.now.positions.items
        (fields_of fields.now)) }
{
    let kind = CellKind::NotInt;
    int_of(cell_at(header, column, fields)).ok_or(LoadStop::Data(RowStop::Cell {
        row,
        column,
        kind,
    }))
}

// The second key of a row, which is 0 if there is one key.
fn second_key(header: &Header, row: u32, fields: &ByteRecord) -> Result<i64, LoadStop>
    ensures { result ≡ (if header.now.keys == 1 then Ok (pos 0) else key_at row 1
        (cell_at 1 header.now.positions.items (fields_of fields.now))) }
{
    if header.keys == 1 {
        Ok(0)
    } else {
        key_at(header, row, 1, fields)
    }
}

// The value of the declared column at index `i`.
fn value_at(
    alloc: Global,
    header: &Header,
    row: u32,
    i: u32,
    fields: &ByteRecord,
    numbers: &mut Vec<i64>,
) -> Result<Value, LoadStop>
    requires { i < vec_len header.now.kinds }
    ensures { Gives (λ value. value) result (value_at row (header.now.keys + i)
        (slice_index_or header.now.kinds.items i ValueKind.Int)
        (cell_at (header.now.keys + i) header.now.positions.items (fields_of fields.now))) }
{
    let column = header.keys + i;
    let cell = cell_at(header, column, fields);
    match cell_value(alloc, header.kinds[i as usize], cell, numbers) {
        Ok(value) => Ok(value),
        Err(CellStop::Refused(kind)) => Err(LoadStop::Data(RowStop::Cell { row, column, kind })),
        Err(CellStop::NoMemory) => Err(LoadStop::NoMemory),
    }
}

// The values of a row, in the order of its columns.
fn values_of(
    alloc: Global,
    header: &Header,
    row: u32,
    fields: &ByteRecord,
    numbers: &mut Vec<i64>,
) -> Result<Vec<Value>, LoadStop>
    ensures values { Gives (λ v. v.items) result (values_from row header.now.keys
        header.now.kinds.items header.now.positions.items (fields_of fields.now)) }
    ensures few { IfOk result (λ v. vec_len v < 2 ^ 32) }
{
    let count = header.kinds.len() as u32;
    let mut values = Vec::with_capacity(alloc, count as usize).map_err(|_| NoMemory)?;
    for i in 0..count {
        let value = value_at(alloc, header, row, i, fields, numbers)?;
        values.push(value).map_err(|_| NoMemory)?;
    }
    Ok(values)
}

// The row of the values, in the order of its columns.
fn row_of_values(
    alloc: Global,
    header: &Header,
    row: u32,
    fields: &ByteRecord,
    numbers: &mut Vec<i64>,
) -> Result<Row, LoadStop>
    ensures { Gives (λ r. r) result (values_from row header.now.keys
        header.now.kinds.items header.now.positions.items (fields_of fields.now)) }
{
    match header.kinds.len() {
        1 => Ok(Row::one(value_at(alloc, header, row, 0, fields, numbers)?)),
        2 => {
            let first = value_at(alloc, header, row, 0, fields, numbers)?;
            let second = value_at(alloc, header, row, 1, fields, numbers)?;
            Ok(Row::two(first, second))
        }
        _ => Ok(Row::of(values_of(alloc, header, row, fields, numbers)?)),
    }
}

// The keys and the values of a row.
fn cells_of(
    alloc: Global,
    header: &Header,
    row: u32,
    fields: &ByteRecord,
    numbers: &mut Vec<i64>,
) -> Result<(Vid, Vid, Row), LoadStop>
    ensures { Gives (λ r. r) result (cells_of header.now.keys header.now.kinds.items
        header.now.positions.items row (fields_of fields.now)) }
{
    let first = key_at(header, row, 0, fields)?;
    let second = second_key(header, row, fields)?;
    let values = row_of_values(alloc, header, row, fields, numbers)?;
    Ok((Vid(first), Vid(second), values))
}

/// The row of this number, whose record must have as many fields as the header. The numbers of lists
/// are read into `numbers`.
///
/// # Errors
///
/// `Data` with the first refused position, `NoMemory`.
pub(crate) fn row_of(
    alloc: Global,
    header: &Header,
    row: u32,
    fields: &ByteRecord,
    numbers: &mut Vec<i64>,
) -> Result<(Vid, Vid, Row), LoadStop>
    ensures { Gives (λ r. r) result (row_of header.now.keys header.now.kinds.items
        header.now.width header.now.positions.items row (fields_of fields.now)) }
{
    if fields.len() == header.width {
        cells_of(alloc, header, row, fields, numbers)
    } else {
        Err(LoadStop::Data(RowStop::Shape(row)))
    }
}
