//! From items in a row to slots under a mask.

ghost use Rattle.std.specs.Prelude.{◌≡◌, ◌<◌, ◌++◌, ◌∷◌, IfOk, OnOk, Some, true, false, length, slice_get, slice_set, [], List};
ghost use Rattle.gx_rows.specs.declared.value.Value.{Value as Cell};
ghost use Rattle.gx_vpart.specs.Slots.{IsSpreadUpTo, item_for, items_after, spread_items, thinned_mask};

use gx_chunks::RowsBuilder;
use gx_mask::Mask;
use gx_rows::{NoMemory, Row};
use std::alloc::Global;

/// The mask without those of its slots at which the bools, one for each, are false.
pub fn thin(alloc: Global, mask: &Mask, bools: &[bool]) -> Result<Mask, NoMemory>
    ensures { IfOk result (λ m. m ≡ thinned_mask mask.now bools.now) }
{
    let mut thinned = Mask::new(alloc, mask.len())?;
    let mut rest = bools;
    for slot in 0..mask.len() {
        let (keeps, after) = next_bool(mask.test(slot), rest);
        put(&mut thinned, slot, keeps);
        rest = after;
    }
    Ok(thinned)
}

fn next_bool(there: bool, rest: &[bool]) -> (bool, &[bool])
    ensures item { result.0 ≡ item_for false there rest.now }
    ensures after { result.1.now ≡ items_after there rest.now }
{
    if !there {
        return (false, rest);
    }
    match rest.split_first() {
        Some((keeps, after)) => (*keeps, after),
        None => (false, rest),
    }
}

fn put(mask: &mut Mask, slot: u32, value: bool)
    requires { slice_get mask.old slot ≡ Some false }
    ensures { mask.new ≡ slice_set mask.old slot value }
{
    if value {
        mask.set(slot);
    }
}

/// Adds the row of the next slot that the mask has, from `slot` on, and an empty row for each slot
/// before it. `slot` is the first one that has no row yet, and so is the result afterwards. If the
/// mask has no further slot, the row is dropped.
pub fn push_masked(
    alloc: Global,
    builder: &mut RowsBuilder,
    mask: &Mask,
    slot: u32,
    row: Row,
) -> Result<u32, NoMemory>
    ensures { (rows : List (List Cell)) → IsSpreadUpTo [] mask.now rows slot builder.old
        → IfOk result (λ next. IsSpreadUpTo [] mask.now (rows ++ row ∷ []) next builder.new) }
{
    let next = skip_unmasked(alloc, builder, mask, slot)?;
    if next < mask.len() {
        builder.push(row)?;
        return Ok(next + 1);
    }
    Ok(next)
}

// Adds an empty row for each slot up to the next one that the mask has, which is the result.
fn skip_unmasked(
    alloc: Global,
    builder: &mut RowsBuilder,
    mask: &Mask,
    slot: u32,
) -> Result<u32, NoMemory>
    ensures same_rows { (rows : List (List Cell)) → IsSpreadUpTo [] mask.now rows slot builder.old
        → IfOk result (λ next. IsSpreadUpTo [] mask.now rows next builder.new) }
    ensures masked { IfOk result
        (λ next. next < length mask.now → slice_get mask.now next ≡ Some true) }
{
    let mut next = slot;
    'unmasked: while next < mask.len() && !mask.test(next) {
        builder.push(empty_row(alloc))?;
        next += 1;
    }
    Ok(next)
}

/// Adds an empty row for each slot from `slot` on, the first one that has no row yet.
pub fn push_rest(
    alloc: Global,
    builder: &mut RowsBuilder,
    mask: &Mask,
    slot: u32,
) -> Result<(), NoMemory>
    ensures { (rows : List (List Cell)) → IsSpreadUpTo [] mask.now rows slot builder.old
        → OnOk result (builder.new ≡ spread_items {A = List Cell} [] mask.now rows) }
{
    'rest: for _next in slot..mask.len() {
        builder.push(empty_row(alloc))?;
    }
    Ok(())
}

/// A row with no value, for a slot that does not count.
pub fn empty_row(alloc: Global) -> Row
    ensures { result ≡ [] }
{
    Row::of(Vec::new(alloc))
}
