//! From lent rows in any order to a partition of vertices.
//!
//! They are sorted as identifiers with references, and not at all if they ascend. Each row that is
//! kept is then copied once, in order, to where it stays.

ghost use Rattle.std.specs.Prelude.{◌≡◌, ◌<◌, ◌≤◌, ◌^◌, IfOk, length, true, vec_len};
ghost use Rattle.std.specs.Map.{keys_of, values_of};
ghost use Rattle.std.specs.Ordering.{is_lt};
ghost use Rattle.gx_gops.specs.Tables.{table_of};
ghost use Rattle.gx_index.specs.Ids.{IsAscending, id_cmp};
ghost use Rattle.gx_vpart.specs.LentRows.{vertices_lent};

use crate::lists::append;
use gx_chunks::{Rows, RowsBuilder};
use gx_rows::{NoMemory, Row, Vid};
use gx_vpart::VPart;
use std::alloc::Global;

/// The partition of each identifier that occurs, with a copy of its first row. A copy shares the
/// texts and lists of its row.
///
/// # Errors
///
/// `NoMemory` if memory for the sort or for the partition runs out, or if there are 2^32 rows or
/// more.
pub fn table_of_lent(alloc: Global, rows: Vec<(Vid, &Row)>) -> Result<VPart, NoMemory>
    ensures { IfOk result (λ table. table ≡ table_of (vertices_lent rows.entry.items)) }
{
    if rows.len() > u32::MAX as usize {
        return Err(NoMemory);
    }
    if ascend(rows.as_slice()) {
        return partition(alloc, rows.as_slice());
    }
    let first = first_rows(rows)?;
    partition(alloc, first.as_slice())
}

// The partition of rows that ascend. Each row is copied.
fn partition(alloc: Global, rows: &[(Vid, &Row)]) -> Result<VPart, NoMemory>
    requires few { length rows.now < 2 ^ 32 }
    requires ascending { IsAscending (keys_of (vertices_lent rows.now)) }
    ensures { IfOk result (λ table. table ≡ vertices_lent rows.now) }
{
    let (ids, copies) = columns(alloc, rows)?;
    VPart::from_sorted(alloc, ids, copies)
}

// The identifiers, and copies of the rows.
fn columns(alloc: Global, rows: &[(Vid, &Row)]) -> Result<(Vec<Vid>, Rows), NoMemory>
    ensures ids { IfOk result (λ c. c.0.items ≡ keys_of (vertices_lent rows.now)) }
    ensures rows { IfOk result (λ c. c.1 ≡ values_of (vertices_lent rows.now)) }
{
    let mut ids = Vec::with_capacity(alloc, rows.len())?;
    let mut copies = RowsBuilder::with_capacity(alloc, rows.len())?;
    let mut rest = rows;
    while let [vertex, after @ ..] = rest {
        append(&mut ids, vertex.0)?;
        copies.push(vertex.1.copy()?)?;
        rest = after;
    }
    Ok((ids, copies.finish()?))
}

// Whether each identifier is less than the next.
fn ascend(rows: &[(Vid, &Row)]) -> bool
    ensures { result ≡ true → IsAscending (keys_of (vertices_lent rows.now)) }
{
    rows.is_sorted_by(|a, b| precedes(a, b))
}

fn precedes(a: &(Vid, &Row), b: &(Vid, &Row)) -> bool
    ensures { result ≡ is_lt (id_cmp a.now.0 b.now.0) }
{
    a.0.cmp(&b.0).is_lt()
}

// Each identifier that occurs, ascending, with its first row: a stable sort keeps that one first.
fn first_rows<'a>(mut rows: Vec<(Vid, &'a Row)>) -> Result<Vec<(Vid, &'a Row)>, NoMemory>
    ensures exact { IfOk result
        (λ table. vertices_lent table.items ≡ table_of (vertices_lent rows.entry.items)) }
    ensures ascending { IfOk result
        (λ table. IsAscending (keys_of (vertices_lent table.items))) }
    ensures few { IfOk result (λ table. vec_len table ≤ vec_len rows.entry) }
{
    rows.sort_by_key(|row| row.0)?;
    rows.dedup_by_key(|row| row.0);
    Ok(rows)
}
