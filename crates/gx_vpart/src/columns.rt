//! From vertices to their identifiers and rows.

ghost use Rattle.std.specs.Prelude.{◌≡◌, ◌∷◌, ◌++◌, IfOk, IsPermutation, IsSortedByKey, OnOk, [], map};
ghost use Rattle.std.specs.Map.{keys_of, values_of};
ghost use Rattle.gx_index.specs.Ids.{id_cmp};
ghost use Rattle.gx_vpart.specs.Slots.{AreSortedColumns};

use gx_chunks::{Rows, RowsBuilder};
use gx_rows::{NoMemory, Row, Vid};
use std::alloc::Global;

/// The identifiers in ascending order, and the rows in the same order. Vertices that ascend already
/// are not moved: the sort finds that they are in order.
pub fn columns(alloc: Global, mut rows: Vec<(Vid, Row)>) -> Result<(Vec<Vid>, Rows), NoMemory>
    ensures { IfOk result (λ c. AreSortedColumns rows.items c.0.items c.1) }
{
    rows.sort_unstable_by_key(|r| r.0);
    split(alloc, rows)
}

fn split(alloc: Global, rows: Vec<(Vid, Row)>) -> Result<(Vec<Vid>, Rows), NoMemory>
    ensures ids { IfOk result (λ c. c.0.items ≡ keys_of rows.items) }
    ensures rows { IfOk result (λ c. c.1 ≡ values_of rows.items) }
{
    let mut ids = Vec::with_capacity(alloc, rows.len())?;
    let mut builder = RowsBuilder::with_capacity(alloc, rows.len())?;
    for (v, row) in rows {
        ids.push(v)?;
        builder.push(row)?;
    }
    Ok((ids, builder.finish()?))
}
