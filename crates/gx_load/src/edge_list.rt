//! The edges of an edge list, line by line.

ghost use Rattle.std.specs.Prelude.{◌≡◌, ◌<◌, ◌≤◌, ◌^◌, length, All, IfOk, option_map};
ghost use Rattle.csv.specs.Reading.{strip_bom};
ghost use Rattle.gx_load.specs.Cells.{words_of};
ghost use Rattle.gx_load.specs.EdgeLists.{edge_at, edge_between, edge_row, ends_in, is_line_space, rows_of_edge_list};
ghost use Rattle.gx_load.specs.LoadResults.{Gives};
ghost use Rattle.gx_load.specs.Loading.{MOST_ROWS};

use crate::cell::number_of;
use crate::edge_lines::{EdgeLine, EdgeLines};
use crate::words::{Separator, Words};
use crate::{LoadStop, RowStop};
use gx_rows::{LimitKind, NoMemory, Row, Value, Vid};
use std::alloc::Global;

// The text after the byte order mark, if it begins with one.
#[tactic(auto, unfolding(csv::specs::Reading::strip_bom))]
fn after_bom(text: &[u8]) -> &[u8]
    ensures rest { result.now ≡ strip_bom text.now }
    ensures shorter { length result.now ≤ length text.now }
{
    match text {
        [0xef, 0xbb, 0xbf, rest @ ..] => rest,
        _ => text,
    }
}

// The two ends of an edge: the numbers that the line's first two words spell.
fn ends_in(line: &[u8]) -> Option<(i64, i64)>
    ensures { result ≡ ends_in (words_of is_line_space line.now) }
{
    let mut words = Words::of(line, Separator::LineSpace);
    let source = words.take()?;
    let target = words.take()?;
    Some((number_of(source)?, number_of(target)?))
}

// The edge between these two; in an oriented list the source is not the larger.
fn edge_between(oriented: bool, ends: (i64, i64)) -> (Vid, Vid, Row)
    ensures { result ≡ edge_between oriented ends }
{
    let (source, target) = ends;
    let row = Row::one(Value::Int(1));
    if oriented && target < source {
        (Vid(target), Vid(source), row)
    } else {
        (Vid(source), Vid(target), row)
    }
}

// The edge of a line, which must begin with two numbers.
fn edge_at(oriented: bool, line: EdgeLine) -> Result<(Vid, Vid, Row), LoadStop>
    ensures { result ≡ edge_at oriented (line.entry.number, line.entry.text.now) }
{
    match ends_in(line.text) {
        Some(ends) => Ok(edge_between(oriented, ends)),
        None => Err(LoadStop::Data(RowStop::Line(line.number))),
    }
}

/// The edges of an edge list. A line has the source and the destination of an edge, with spaces,
/// tabs or carriage returns around and between them, and what comes after these is ignored. Empty
/// lines and lines that begin with `#` are skipped. Each edge has a row of one value, the whole
/// number 1. If `oriented`, an edge whose source is the larger is swapped.
///
/// # Errors
///
/// `Data` with the first line that does not begin with two whole numbers, `TooManyRows` if there are
/// more than 500,000 edges and none of the first 500,000 is refused, `NoMemory`.
pub fn edge_list_of(
    alloc: Global,
    bytes: &[u8],
    oriented: bool,
) -> Result<Vec<(Vid, Vid, Row)>, LoadStop>
    requires short { length bytes.now < 2 ^ 32 }
    ensures rows { Gives (λ v. v.items) result (rows_of_edge_list oriented bytes.now) }
    ensures each_row_is_one { IfOk result (λ v. All (λ r. r.2 ≡ edge_row) v.items) }
    ensures few_rows { IfOk result (λ v. length v.items ≤ MOST_ROWS) }
{
    let most = LimitKind::FileRows.most() as u32;
    let mut lines = EdgeLines::of(after_bom(bytes));
    let mut rows = Vec::new(alloc);
    let mut row = 1;
    'rows: while let Some(line) = lines.take() {
        if row > most {
            return Err(LoadStop::TooManyRows);
        }
        rows.push(edge_at(oriented, line)?).map_err(|_| NoMemory)?;
        row += 1;
    }
    Ok(rows)
}
