//! The vertices that a partition lacks.

ghost use Rattle.std.specs.Prelude.{◌≡◌, ◌<◌, ◌∷◌, ◌++◌, IfOk, IsPermutation, OnOk, [], filter, unwrap_or};
ghost use Rattle.std.specs.Map.{keys_of};
ghost use Rattle.std.specs.Option.{option_copied};
ghost use Rattle.gx_index.specs.Ends.{IsSetOf};
ghost use Rattle.gx_index.specs.Ids.{HasDistinctIds, IsAscending};
ghost use Rattle.gx_gops.specs.AllEdges.{edges_of_parts};
ghost use Rattle.gx_gops.specs.Tables.{HasSameIds, both_ends, default_rows, ends_in_part, is_missing, table_of};

use crate::lists::append;
use gx_cuts::vertex_part;
use gx_epart::EPart;
use gx_index::distinct_ids;
use gx_rows::{NoMemory, Row, Vid};
use gx_vpart::{VPart, VRows};
use std::alloc::Global;
use std::rc::Rc;

/// The rows of vertex partition `part` of `parts`, and the default row for each end of the edges
/// that is in this partition and has no row. If no row is missing, the rows are shared as a whole,
/// and otherwise the texts and lists in them.
///
/// # Errors
///
/// `NoMemory` if memory for the rows runs out, or if there are 2^32 of them or more.
pub fn add_missing(
    alloc: Global,
    rows: Option<&VPart>,
    edges: &[Rc<EPart>],
    default: &Row,
    part: u32,
    parts: u32,
) -> Result<VPart, NoMemory>
    requires { part < parts }
    ensures { IfOk result (λ table. table ≡ table_of (unwrap_or (option_copied rows.entry) []
        ++ default_rows default.now (ends_in_part part parts (edges_of_parts edges.now)))) }
{
    match rows {
        Some(rows) => with_missing(alloc, rows, edges, default, part, parts),
        None => with_missing(alloc, &no_rows(alloc)?, edges, default, part, parts),
    }
}

// The rows, and the default row for each missing end.
fn with_missing(
    alloc: Global,
    rows: &VPart,
    edges: &[Rc<EPart>],
    default: &Row,
    part: u32,
    parts: u32,
) -> Result<VPart, NoMemory>
    requires { part < parts }
    ensures { IfOk result (λ table. table ≡ table_of (rows.now
        ++ default_rows default.now (ends_in_part part parts (edges_of_parts edges.now)))) }
{
    let missing = missing_ends(alloc, rows, edges, part, parts)?;
    let ids = missing.as_slice();
    // The call takes no time; its clause says that the rows ascend.
    let _ascending = rows.rows();
    if ids.is_empty() {
        return shared(alloc, rows);
    }
    let all = rows_and_defaults(alloc, rows, ids, default)?;
    table_of_runs(alloc, all)
}

// A partition with no row.
fn no_rows(alloc: Global) -> Result<VPart, NoMemory>
    ensures { IfOk result (λ part. part ≡ []) }
{
    VPart::of(alloc, Vec::new(alloc))
}

// The ends of edges that are in the partition and have no row, ascending.
fn missing_ends(
    alloc: Global,
    rows: &VPart,
    edges: &[Rc<EPart>],
    part: u32,
    parts: u32,
) -> Result<Vec<Vid>, NoMemory>
    requires { part < parts }
    ensures { IfOk result (λ ids. IsSetOf
        (filter (is_missing rows.now part parts) (both_ends (edges_of_parts edges.now))) ids.items) }
{
    let mut ids = Vec::new(alloc);
    let mut rest = edges;
    while let [first, after @ ..] = rest {
        append_missing_ends(&mut ids, rows, first, part, parts)?;
        rest = after;
    }
    distinct_ids(alloc, ids.as_slice())
}

// The missing ends of one edge partition, after the other identifiers.
fn append_missing_ends(
    ids: &mut Vec<Vid>,
    rows: &VPart,
    edges: &EPart,
    part: u32,
    parts: u32,
) -> Result<(), NoMemory>
    requires { part < parts }
    ensures { OnOk result (HasSameIds ids.new.items
        (ids.old.items ++ filter (is_missing rows.now part parts) (both_ends edges.now))) }
{
    append_missing(ids, rows, edges.distinct_ends(), part, parts)
}

// Those of the identifiers that are missing, after the other ones.
fn append_missing(
    ids: &mut Vec<Vid>,
    rows: &VPart,
    ends: &[Vid],
    part: u32,
    parts: u32,
) -> Result<(), NoMemory>
    requires { part < parts }
    ensures { OnOk result (ids.new.items
        ≡ ids.old.items ++ filter (is_missing rows.now part parts) ends.now) }
{
    let mut rest = ends;
    while let [end, after @ ..] = rest {
        append_if_missing(ids, rows, *end, part, parts)?;
        rest = after;
    }
    Ok(())
}

fn append_if_missing(
    ids: &mut Vec<Vid>,
    rows: &VPart,
    id: Vid,
    part: u32,
    parts: u32,
) -> Result<(), NoMemory>
    requires { part < parts }
    ensures { OnOk result (ids.new.items
        ≡ ids.old.items ++ filter (is_missing rows.now part parts) (id ∷ [])) }
{
    if vertex_part(parts, id.0) == part && rows.row(id).is_none() {
        append(ids, id)?;
    }
    Ok(())
}

// The same rows. With none taken away, they are shared as a whole.
fn shared(alloc: Global, rows: &VPart) -> Result<VPart, NoMemory>
    ensures { IfOk result (λ same. same ≡ rows.now) }
{
    rows.minus(&no_rows(alloc)?)
}

// A copy of each row, and then of the default row for each of these identifiers.
fn rows_and_defaults(
    alloc: Global,
    rows: &VPart,
    ids: &[Vid],
    default: &Row,
) -> Result<Vec<(Vid, Row)>, NoMemory>
    ensures { IfOk result (λ all. all.items ≡ rows.now ++ default_rows default.now ids.now) }
{
    let mut all = Vec::with_capacity(alloc, rows.rows().count() + ids.len())?;
    append_rows(&mut all, rows.rows())?;
    append_defaults(&mut all, ids, default)?;
    Ok(all)
}

// A copy of each of these rows, after the other rows.
fn append_rows(all: &mut Vec<(Vid, Row)>, rows: VRows<'_>) -> Result<(), NoMemory>
    ensures { OnOk result (all.new.items ≡ all.old.items ++ rows.entry) }
{
    'rows: for (id, row) in rows {
        append(all, (id, row.copy()?))?;
    }
    Ok(())
}

// A copy of the default row for each of these identifiers, after the other rows.
fn append_defaults(all: &mut Vec<(Vid, Row)>, ids: &[Vid], default: &Row) -> Result<(), NoMemory>
    ensures { OnOk result (all.new.items ≡ all.old.items ++ default_rows default.now ids.now) }
{
    let mut rest = ids;
    while let [id, after @ ..] = rest {
        append(all, (*id, default.copy()?))?;
        rest = after;
    }
    Ok(())
}

// The partition of these rows, of which the first ones and the last ones ascend. A stable sort
// merges them in one pass.
fn table_of_runs(alloc: Global, mut rows: Vec<(Vid, Row)>) -> Result<VPart, NoMemory>
    requires { HasDistinctIds (keys_of rows.items) }
    ensures ascending { IfOk result (λ part. IsAscending (keys_of part)) }
    ensures same { IfOk result (λ part. IsPermutation rows.items part) }
{
    if rows.len() > u32::MAX as usize {
        return Err(NoMemory);
    }
    rows.sort_by_key(|row| row.0)?;
    VPart::of(alloc, rows)
}
