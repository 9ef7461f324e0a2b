//! Vertices to make partitions of.

ghost use Rattle.std.specs.Prelude.{◌≡◌, IfOk};
ghost use Rattle.std.specs.Map.{keys_of};
ghost use Rattle.gx_index.specs.Ids.{HasDistinctIds, IsAscending};

use crate::shape::Shape;
use gx_index::distinct_ids;
use gx_rows::{NoMemory, Row, Vid};
use gx_vpart::VPart;
use std::alloc::Global;

// An odd number: products with it, modulo 2^64, are in another order than the factors.
const SCATTER: i64 = 0x9e37_79b9_7f4a_7c1;

/// `count` vertices in scattered order, whose identifiers are the first multiples of `stride`, from
/// 0 on. Each has the row of its identifier.
///
/// # Errors
///
/// `NoMemory` if memory for the rows runs out.
pub fn vertices(
    alloc: Global,
    shape: Shape,
    count: u32,
    stride: i64,
) -> Result<Vec<(Vid, Row)>, NoMemory>
    ensures { IfOk result (λ rows. HasDistinctIds (keys_of rows.items)) }
{
    let ids = multiples(alloc, count, stride)?;
    let mut rows = rows_of_ids(alloc, shape, ids.as_slice())?;
    rows.sort_unstable_by_key(|r| r.0.0.wrapping_mul(SCATTER));
    Ok(rows)
}

/// The same vertices in the same order.
///
/// # Errors
///
/// `NoMemory` if memory for the rows runs out.
pub fn copies(alloc: Global, rows: &[(Vid, Row)]) -> Result<Vec<(Vid, Row)>, NoMemory>
    ensures { IfOk result (λ copies. copies.items ≡ rows.now) }
{
    Ok(Vec::from_clones(alloc, rows)?)
}

/// The partition of these vertices.
///
/// # Errors
///
/// `NoMemory` if memory for the partition runs out, or if there are 2^32 vertices or more.
pub fn partition_of(alloc: Global, rows: Vec<(Vid, Row)>) -> Result<VPart, NoMemory>
    requires { HasDistinctIds (keys_of rows.items) }
{
    if rows.len() > u32::MAX as usize {
        return Err(NoMemory);
    }
    VPart::of(alloc, rows)
}

/// The partition of `vertices` with the same arguments.
///
/// # Errors
///
/// `NoMemory` if memory for the partition runs out.
pub fn partition(alloc: Global, shape: Shape, count: u32, stride: i64) -> Result<VPart, NoMemory> {
    partition_of(alloc, vertices(alloc, shape, count, stride)?)
}

fn multiples(alloc: Global, count: u32, stride: i64) -> Result<Vec<Vid>, NoMemory>
    ensures { IfOk result (λ ids. IsAscending ids.items) }
{
    let mut ids = Vec::with_capacity(alloc, count as usize)?;
    for i in 0..count {
        ids.push(Vid(i64::from(i).wrapping_mul(stride)))?;
    }
    distinct_ids(alloc, ids.as_slice())
}

fn rows_of_ids(alloc: Global, shape: Shape, ids: &[Vid]) -> Result<Vec<(Vid, Row)>, NoMemory>
    ensures { IfOk result (λ rows. keys_of rows.items ≡ ids.now) }
{
    let mut rows = Vec::new(alloc);
    let mut rest = ids;
    while let [id, after @ ..] = rest {
        rows.push((*id, shape.row(alloc, id.0)?))?;
        rest = after;
    }
    Ok(rows)
}
