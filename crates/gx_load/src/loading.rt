//! The rows of a data file, record by record.

ghost use Rattle.std.specs.Prelude.{◌≡◌, ◌<◌, ◌≤◌, ◌+◌, ◌^◌, ◌⊎◌, length, All, IfOk};
ghost use Rattle.gx_load.specs.Fitting.{FitsColumns};
ghost use Rattle.gx_load.specs.LoadResults.{Gives};
ghost use Rattle.gx_load.specs.Loading.{MOST_ROWS, row_of, rows_from, rows_of_csv};

use crate::header::Header;
use crate::records::Records;
use crate::row_cells::row_of;
use crate::{LoadStop, RowStop};
use csv::ByteRecord;
use gx_rows::{LimitKind, NoMemory, Row, RowType, Vid};
use std::alloc::Global;

// The rows of these records, which come after the header; each is read into `fields` first.
fn rows_from(
    alloc: Global,
    header: &Header,
    records: &mut Records,
    fields: &mut ByteRecord,
) -> Result<Vec<(Vid, Vid, Row)>, LoadStop>
    ensures { Gives (λ v. v.items) result (rows_from (row_of header.now.keys
        header.now.kinds.items header.now.width header.now.positions.items) 1 records.old) }
{
    let most = LimitKind::FileRows.most() as u32;
    let mut numbers = Vec::new(alloc);
    let mut rows = Vec::new(alloc);
    let mut row = 1;
    'rows: while records.take(fields)? {
        if row > most {
            return Err(LoadStop::TooManyRows);
        }
        rows.push(row_of(alloc, header, row, fields, &mut numbers)?)
            .map_err(|_| NoMemory)?;
        row += 1;
    }
    Ok(rows)
}

/// The rows of a CSV file under these columns, with `keys` key columns before them: 1 for vertices
/// (`id`, and 0 for the second key), 2 for edges (`src` and `dst`). Each row has one value for each
/// column, of the column's kind.
///
/// # Errors
///
/// `Data` with the first refused position, `TooManyRows` if there are more than 500,000 rows and
/// none of the first 500,000 is refused, `NoMemory`.
pub fn rows_of(
    alloc: Global,
    bytes: &[u8],
    keys: u32,
    columns: &RowType,
) -> Result<Vec<(Vid, Vid, Row)>, LoadStop>
    requires short { length bytes.now < 2 ^ 32 }
    requires keyed { (keys ≡ 1) ⊎ (keys ≡ 2) }
    requires few { keys + length columns.now < 2 ^ 32 }
    ensures rows { Gives (λ v. v.items) result (rows_of_csv keys columns.now bytes.now) }
    ensures fits { IfOk result (λ v. All (λ r. FitsColumns columns.now r.2) v.items) }
    ensures few_rows { IfOk result (λ v. length v.items ≤ MOST_ROWS) }
{
    let mut records = Records::of(alloc, bytes);
    let mut fields = ByteRecord::new(alloc);
    if !records.take(&mut fields)? {
        return Err(LoadStop::Data(RowStop::Header(0)));
    }
    let header = Header::of(alloc, keys, columns, &fields)?;
    rows_from(alloc, &header, &mut records, &mut fields)
}
