//! Why loading stops, and at which row and column.

ghost use Rattle.std.specs.Prelude.{◌≡◌, ◌⊎◌, ◌++◌, option_map, slice_get};
ghost use Rattle.gx_rows.specs.Columns.{names_of};
ghost use Rattle.gx_load.specs.Loading.{column_name_of, key_names};
ghost use Rattle.gx_load.specs.declared.load_stop.LoadStop.TheVariants as load_stop;

use crate::header::column_name;
use gx_rows::{NoMemory, RowType};

/// What a cell was refused as.
#[derive(Clone, Copy, Debug, PartialEq, Eq)]
pub enum CellKind {
    /// Not a whole number of 64 bits.
    NotInt,
    /// Neither `true` nor `false`.
    NotBool,
    /// Not UTF-8.
    NotText,
    /// A text of more than 1,024 bytes.
    TextTooLong,
    /// Not a list of whole numbers of 64 bits.
    NotIds,
    /// A list of more than 1,000,000 entries.
    ListTooLong,
}

/// A refused position of a data file. Rows count from 1 and do not count the header; columns count
/// from 0, the key columns first and then the declared ones in their order.
#[derive(Clone, Copy, Debug, PartialEq, Eq)]
pub enum RowStop {
    /// The header lacks this column.
    Header(u32),
    /// This row has another number of fields than the header.
    Shape(u32),
    /// This cell has no value of its column's kind.
    Cell {
        /// The cell's row.
        row: u32,
        /// The cell's column.
        column: u32,
        /// What it was refused as.
        kind: CellKind,
    },
    /// This line of an edge list, counted from 1, is not an edge.
    Line(u32),
}

/// Why a data file was not loaded.
#[derive(Clone, Copy, Debug, PartialEq, Eq)]
pub enum LoadStop {
    /// The first refused position.
    Data(RowStop),
    /// The file has more than 500,000 rows, and none of the first 500,000 is refused.
    TooManyRows,
    /// Out of memory.
    NoMemory,
}

impl RowStop {
    /// The name of the column that was refused, counted as the refusal counts them. `None` if a row
    /// or a line was refused, or if the file has no such column. The call does not allocate.
    pub fn column_name(self, keys: u32, columns: &RowType) -> Option<&str>
        requires { (keys ≡ 1) ⊎ (keys ≡ 2) }
        ensures { option_map (λ name. name.now) result ≡ column_name_of keys columns.now self }
    {
        match self {
            RowStop::Header(column) => name_if_any(keys, columns, column),
            RowStop::Cell { column, .. } => name_if_any(keys, columns, column),
            RowStop::Shape(_) | RowStop::Line(_) => None,
        }
    }
}

// The name of a column, if the file has so many.
fn name_if_any(keys: u32, columns: &RowType, column: u32) -> Option<&str>
    requires { (keys ≡ 1) ⊎ (keys ≡ 2) }
    ensures { option_map (λ name. name.now) result ≡ slice_get
        (key_names keys ++ names_of columns.now) column }
{
    if column < keys || column - keys < columns.len() {
        Some(column_name(keys, columns, column))
    } else {
        None
    }
}

impl From<NoMemory> for LoadStop {
    ghost from_gives = { λ _ stop. stop ≡ load_stop.NoMemory };

    fn from(_error: NoMemory) -> LoadStop {
        LoadStop::NoMemory
    }
}
