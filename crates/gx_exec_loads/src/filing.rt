//! Rows are filed by part: their positions, and not they themselves.

ghost use Rattle.std.specs.Prelude.{◌≡◌, ◌<◌, ◌≤◌, IfOk};
ghost use Rattle.gx_exec_loads.specs.Filing.{IsFiled, kind_in};
ghost use Rattle.gx_exec_loads.specs.Filing as filing;

use crate::positions::Positions;
use gx_cuts::{place, vertex_part};
use gx_plan::Kind;
use gx_rows::{Cut, NoMemory, Row, Vid};
use gx_types::{Typed, TypedStmt};
use std::alloc::Global;

/// What the rows are that statement `s` loads.
pub(crate) fn kind_of(typed: &Typed, s: u32) -> Kind
    ensures { result ≡ kind_in typed.now s }
{
    // A load of a well-typed script has a number from 1 to the number of statements.
    let before = s.saturating_sub(1);
    if before >= typed.len() {
        return Kind::Edges;
    }
    match typed.statement(before + 1) {
        TypedStmt::Vertices { .. } => Kind::Vertices,
        _ => Kind::Edges,
    }
}

/// The positions of these rows, by part.
///
/// # Errors
///
/// `NoMemory` if memory for the positions runs out, or if there are 2^32 rows or more.
pub(crate) fn filed(
    alloc: Global,
    kind: Kind,
    cut: Cut,
    parts: u32,
    rows: &[(Vid, Vid, Row)],
) -> Result<Positions, NoMemory>
    requires { 1 ≤ parts }
    ensures { IfOk result (IsFiled (filing.part_of_row kind cut parts) parts rows.now) }
{
    if rows.len() > u32::MAX as usize {
        return Err(NoMemory);
    }
    let mut positions = Positions::new(alloc, parts)?;
    let mut rest = rows;
    let mut n = 0;
    while let [row, after @ ..] = rest {
        positions.add(part_of_row(kind, cut, parts, n, row), n)?;
        rest = after;
        n += 1;
    }
    Ok(positions)
}

// The part of the row at position `n`.
fn part_of_row(kind: Kind, cut: Cut, parts: u32, n: u32, row: &(Vid, Vid, Row)) -> u32
    requires { 1 ≤ parts }
    ensures exact { result ≡ filing.part_of_row kind cut parts n row.now }
    ensures below { result < parts }
{
    // All rows are in a lone part, whatever the cut.
    if parts == 1 {
        return 0;
    }
    match kind {
        Kind::Vertices => vertex_part(parts, row.0.0),
        Kind::Edges => place(cut, parts, row.0.0, row.1.0, n as u64),
    }
}
