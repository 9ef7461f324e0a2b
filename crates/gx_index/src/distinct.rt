//! Distinct identifiers of a list.

ghost use Rattle.std.specs.Prelude.{◌≡◌, IfOk, IsPermutation, IsSorted};
ghost use Rattle.gx_index.specs.Ends.{IsSetOf};
ghost use Rattle.gx_index.specs.Ids.{id_cmp};

use gx_rows::{NoMemory, Vid};
use std::alloc::Global;

/// The same identifiers in ascending order, each once. Identifiers that ascend, and a few runs of
/// them one after another, are ordered in one pass for each.
///
/// # Errors
///
/// `NoMemory` if memory for the list runs out.
pub fn distinct_ids(alloc: Global, ids: &[Vid]) -> Result<Vec<Vid>, NoMemory>
    ensures { IfOk result (λ distinct. IsSetOf ids.now distinct.items) }
{
    let mut distinct = Vec::from_slice(alloc, ids)?;
    distinct.sort()?;
    distinct.dedup();
    Ok(distinct)
}
