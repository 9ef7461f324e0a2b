//! Loading of files.

ghost use Rattle.std.specs.Prelude.{◌≡◌, ◌<◌, ◌^◌, IfOk, length};

use crate::kept::keep;
use crate::totals::Totals;
use gx_load::{LoadStop, edge_list_of, rows_of};
use gx_rows::{NoMemory, Row, RowType, Text, Value, ValueKind, Vid};
use std::alloc::Global;

/// A kind of file.
#[derive(Clone, Copy)]
pub enum FileKind {
    /// A CSV file with the columns `id` and `a`.
    Vertices,
    /// A CSV file with the columns `src`, `dst` and `a`.
    Edges,
    /// An edge list.
    EdgeList,
}

impl FileKind {
    /// The kind of file of this name.
    pub fn of_word(word: &str) -> Option<FileKind> {
        match word {
            "vertices" => Some(FileKind::Vertices),
            "edges" => Some(FileKind::Edges),
            "edge_list" => Some(FileKind::EdgeList),
            _ => None,
        }
    }

    /// Loads the bytes of such a file `rounds` times, and keeps the rows to the end. The column `a`
    /// is of kind `kind`; an edge list has none. The totals are those of the last rows.
    ///
    /// # Errors
    ///
    /// Those of `rows_of` and `edge_list_of`; `NoMemory` also if there are 2^32 bytes or more.
    pub fn measure(
        self,
        alloc: Global,
        kind: ValueKind,
        bytes: &[u8],
        rounds: u32,
    ) -> Result<Totals, LoadStop> {
        if bytes.len() > u32::MAX as usize {
            return Err(LoadStop::NoMemory);
        }
        let columns = columns_of(alloc, kind)?;
        let mut results = Vec::new(alloc);
        for _ in 0..rounds {
            keep(&mut results, self.rows(alloc, &columns, bytes)?)?;
        }
        match results.last() {
            Some(rows) => Ok(totals_of(rows.as_slice())),
            None => Ok(Totals::none()),
        }
    }

    fn rows(
        self,
        alloc: Global,
        columns: &RowType,
        bytes: &[u8],
    ) -> Result<Vec<(Vid, Vid, Row)>, LoadStop>
        requires short { length bytes.now < 2 ^ 32 }
        requires one_column { length columns.now ≡ 1 }
    {
        match self {
            FileKind::Vertices => rows_of(alloc, bytes, 1, columns),
            FileKind::Edges => rows_of(alloc, bytes, 2, columns),
            FileKind::EdgeList => edge_list_of(alloc, bytes, false),
        }
    }
}

/// The kind of values of this name.
pub fn kind_of_word(word: &str) -> Option<ValueKind> {
    match word {
        "int" => Some(ValueKind::Int),
        "text" => Some(ValueKind::Text),
        "bool" => Some(ValueKind::Bool),
        "ids" => Some(ValueKind::Ids),
        _ => None,
    }
}

fn columns_of(alloc: Global, kind: ValueKind) -> Result<RowType, NoMemory>
    ensures { IfOk result (λ columns. length columns ≡ 1) }
{
    let mut columns = Vec::new(alloc);
    columns.push((Text::of(alloc, "a")?, kind))?;
    Ok(RowType::of(columns))
}

fn totals_of(rows: &[(Vid, Vid, Row)]) -> Totals {
    let mut totals = Totals::none();
    for (first, second, row) in rows {
        let keys = second.0.wrapping_mul(2).wrapping_add(first.0);
        totals = totals.with(keys.wrapping_add(number_in(row)));
    }
    totals
}

// The number of a row of one value: an int itself, 1 for true, the length of a text or a list.
fn number_in(row: &Row) -> i64 {
    match row.as_slice() {
        [Value::Int(number)] => *number,
        [Value::Bool(truth)] => i64::from(*truth),
        [Value::Text(text)] => length_of(text.as_str().len()),
        [Value::Ids(ids)] => length_of(ids.as_slice().len()),
        _ => 0,
    }
}

fn length_of(len: usize) -> i64 {
    i64::try_from(len).unwrap_or(0)
}
