//! The loops that apply a closure, item by item.

ghost use Rattle.std.specs.Prelude.{◌≡◌, ◌∷◌, ◌++◌, All, IfOk, OnOk, [], filter_map, map};
ghost use Rattle.std.specs.Option.{option_copied};
ghost use Rattle.gx_traverse.specs.Calls.{MayCallAtVertex, ReturnsAtVertex};
ghost use Rattle.gx_rows.specs.declared.row_key.RowKey.TheVariants as row_key;
ghost use Rattle.gx_traverse.specs.Steps.{stopped_at};
ghost use Rattle.gx_traverse.specs.Traversal.{IsTraversal};
ghost use Rattle.gx_vpart.specs.JoinCalls.{MayCallAtPair, MayCallBeside, ReturnsAtPair, ReturnsBeside};
ghost use Rattle.gx_vpart.specs.Operators.{
  has_changed,
  has_no_partner,
  has_partner,
  is_changed,
  join_key,
  vertex_key,
  with_partner,
};
ghost use Rattle.gx_vpart.specs.Slots.{IsSpreadWithBools, spread_items};

use crate::beside::Beside;
use crate::slots::{empty_row, push_masked, push_rest};
use crate::vrows::VRows;
use gx_chunks::{Rows, RowsBuilder};
use gx_mask::Mask;
use gx_rows::{EvalStop, NoMemory, PartStop, Row, RowKey, Vid};
use gx_traverse::stop_at;
use std::alloc::Global;

/// What `f` returns for each row, in order.
pub fn traverse_rows<B: Drop, F: Fn(Vid, &Row) -> Result<B, EvalStop>>(
    alloc: Global,
    rows: VRows<'_>,
    f: F,
) -> Result<Vec<B>, PartStop>
    requires { All (MayCallAtVertex (F.pre f)) rows }
    ensures { IsTraversal (ReturnsAtVertex (F.post f)) vertex_key rows.entry
        (λ ys values. values.items ≡ ys) result }
{
    let mut values = Vec::new(alloc);
    'rows: for (v, row) in rows {
        match f(v, row) {
            Ok(value) => push(&mut values, value)?,
            Err(stop) => return Err(stop_at_vertex(v, stop)),
        }
    }
    Ok(values)
}

/// The rows that `f` returns for each row, at the slots of the mask.
pub fn map_rows<F: Fn(Vid, &Row) -> Result<Row, EvalStop>>(
    alloc: Global,
    mask: &Mask,
    rows: VRows<'_>,
    f: F,
) -> Result<Rows, PartStop>
    requires { All (MayCallAtVertex (F.pre f)) rows }
    ensures { IsTraversal (ReturnsAtVertex (F.post f)) vertex_key rows.entry
        (λ ys new. new ≡ spread_items [] mask.now ys) result }
{
    let mut builder = RowsBuilder::with_capacity(alloc, mask.len() as usize)?;
    let mut slot = 0;
    'rows: for (v, row) in rows {
        match f(v, row) {
            Ok(value) => slot = push_masked(alloc, &mut builder, mask, slot, value)?,
            Err(stop) => return Err(stop_at_vertex(v, stop)),
        }
    }
    push_rest(alloc, &mut builder, mask, slot)?;
    Ok(builder.finish()?)
}

/// The rows that `f` returns for each row and the one beside it, if there is one, at the slots of
/// the mask.
pub fn map_beside<F: Fn(Vid, &Row, Option<&Row>) -> Result<Row, EvalStop>>(
    alloc: Global,
    mask: &Mask,
    rows: Beside<'_>,
    f: F,
) -> Result<Rows, PartStop>
    requires { All (MayCallBeside (F.pre f)) rows }
    ensures { IsTraversal (ReturnsBeside (F.post f)) join_key rows.entry
        (λ ys new. new ≡ spread_items [] mask.now ys) result }
{
    let mut builder = RowsBuilder::with_capacity(alloc, mask.len() as usize)?;
    let mut slot = 0;
    'rows: for (v, row, other) in rows {
        match f(v, row, other) {
            Ok(value) => slot = push_masked(alloc, &mut builder, mask, slot, value)?,
            Err(stop) => return Err(stop_at_vertex(v, stop)),
        }
    }
    push_rest(alloc, &mut builder, mask, slot)?;
    Ok(builder.finish()?)
}

/// Which rows have one beside them, and what `f` returns for these, at the slots of the mask; an
/// empty row is at the slots of the others.
pub fn map_pairs<F: Fn(Vid, &Row, &Row) -> Result<Row, EvalStop>>(
    alloc: Global,
    mask: &Mask,
    rows: Beside<'_>,
    f: F,
) -> Result<(Vec<bool>, Rows), PartStop>
    requires { All (MayCallAtPair (F.pre f)) (filter_map with_partner rows) }
    ensures { IsTraversal (ReturnsAtPair (F.post f)) join_key (filter_map with_partner rows.entry)
        (λ ys v. (v.0.items ≡ map has_partner rows.entry)
        × IsSpreadWithBools [] mask.now v.0.items ys v.1) result }
{
    let mut bools = room_for_bools(alloc, mask.len())?;
    let mut builder = RowsBuilder::with_capacity(alloc, mask.len() as usize)?;
    let mut slot = 0;
    'rows: for (v, row, other) in rows {
        push(&mut bools, other.is_some())?;
        let Some(other) = other else {
            slot = push_masked(alloc, &mut builder, mask, slot, empty_row(alloc))?;
            continue;
        };
        match f(v, row, other) {
            Ok(value) => slot = push_masked(alloc, &mut builder, mask, slot, value)?,
            Err(stop) => return Err(stop_at_vertex(v, stop)),
        }
    }
    push_rest(alloc, &mut builder, mask, slot)?;
    Ok((bools, builder.finish()?))
}

/// Which rows have none beside them.
pub fn without_partner(alloc: Global, rows: Beside<'_>) -> Result<Vec<bool>, NoMemory>
    ensures { IfOk result (λ bools. bools.items ≡ map has_no_partner rows.entry) }
{
    let mut bools = Vec::new(alloc);
    'rows: for (_v, _row, other) in rows {
        push(&mut bools, other.is_none())?;
    }
    Ok(bools)
}

/// Which rows have another row beside them.
pub fn changed(alloc: Global, rows: Beside<'_>) -> Result<Vec<bool>, NoMemory>
    ensures { IfOk result (λ bools. bools.items ≡ map has_changed rows.entry) }
{
    let mut bools = Vec::new(alloc);
    'rows: for (_v, row, other) in rows {
        push(&mut bools, differs(other, row))?;
    }
    Ok(bools)
}

fn stop_at_vertex(v: Vid, stop: EvalStop) -> PartStop
    ensures { result ≡ stopped_at (row_key.Vertex v) stop }
{
    stop_at(RowKey::Vertex(v), stop)
}

fn differs(old: Option<&Row>, new: &Row) -> bool
    ensures { result ≡ is_changed (option_copied old.entry) new.now }
{
    match old {
        Some(old) => old != new,
        None => false,
    }
}

fn room_for_bools(alloc: Global, count: u32) -> Result<Vec<bool>, NoMemory>
    ensures { IfOk result (λ bools. bools.items ≡ []) }
{
    Ok(Vec::with_capacity(alloc, count as usize)?)
}

/// One more item.
pub fn push<B: Drop>(items: &mut Vec<B>, item: B) -> Result<(), NoMemory>
    ensures { OnOk result (items.new.items ≡ items.old.items ++ item ∷ []) }
{
    items.push(item)?;
    Ok(())
}
