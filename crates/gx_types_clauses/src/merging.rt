//! The fifth check: merges of sent values, and of the columns of edges.

ghost use Rattle.std.specs.Prelude.{◌≡◌, [], ◌≤◌, IfOk, length, map, nat_eq, vec_len, zip};
ghost use Rattle.std.specs.List.{list_all};
ghost use Rattle.std.specs.Cmp.Lexicographic.{pointwise};
ghost use Rattle.std.specs.Str.{bytes_eq};
ghost use Rattle.gx_rows.specs.Columns.{names_of};
ghost use Rattle.gx_types_clauses.specs.Merging as merging;
ghost use Rattle.gx_types_clauses.specs.SameColumns.{is_same_kind, kinds_in};
ghost use Rattle.gx_types_clauses.specs.ClauseBounds.{IsColumnList};
ghost use Rattle.gx_types_clauses.specs.StmtStops.{StmtReturns};

use crate::columns::are_same_kinds;
use crate::words::merge_of_written;
use crate::{SharedType, StmtStop, TypeKind};
use gx_merge::MergeKind;
use gx_rows::{NoMemory, RowType, Text, ValueKind};
use gx_syntax_tree::ColumnMerge;
use sqlite_items::Items;
use std::alloc::Global;

/// The merges as they are run.
///
/// # Errors
///
/// `NoMemory` if memory for them runs out.
pub fn merge_kinds(alloc: Global, merges: &Items<ColumnMerge>) -> Result<Items<MergeKind>, NoMemory>
    ensures { IfOk result (λ kinds. kinds ≡ merging.merge_kinds merges.now) }
{
    let mut kinds = Items::new(alloc);
    'merges: for merge in merges.as_slice() {
        kinds.push(merge_of_written(merge.by))?;
    }
    Ok(kinds)
}

/// The columns of the merged message, from the kinds of the values of each send.
///
/// # Errors
///
/// `ColumnsDiffer` if a send has another number of values than there are merges; `MergeKind` if a
/// merge does not take its kind, or two sends differ in kinds; `NoMemory` if memory runs out.
pub fn message_type(
    alloc: Global,
    merges: &Items<ColumnMerge>,
    sent: &Items<Items<ValueKind>>,
) -> Result<SharedType, StmtStop>
    requires { IsColumnList (map (λ m. m.name) merges.now) }
    ensures { StmtReturns result (merging.message_columns merges.now sent.now) }
{
    let none = Items::new(alloc);
    let kinds = first_kinds(sent, &none);
    if kinds.len() != merges.len() || !have_length(sent, merges.len()) {
        return Err(StmtStop::refused(TypeKind::ColumnsDiffer));
    }
    if !are_all_same(sent, kinds) {
        return Err(StmtStop::refused(TypeKind::MergeKind));
    }
    merged_type(alloc, merges, kinds)
}

/// The columns of merged edges.
///
/// # Errors
///
/// `ColumnsDiffer` if the merges are not one for each column, by its name in order; `MergeKind` if
/// a merge does not take its kind; `NoMemory` if memory runs out.
pub fn grouped_type(
    alloc: Global,
    merges: &Items<ColumnMerge>,
    edges: &RowType,
) -> Result<SharedType, StmtStop>
    requires { IsColumnList (map (λ m. m.name) merges.now) }
    ensures { StmtReturns result (merging.grouped_columns merges.now edges.now) }
{
    if !have_names_of(merges, edges) {
        return Err(StmtStop::refused(TypeKind::ColumnsDiffer));
    }
    let kinds = kinds_of(alloc, edges)?;
    merged_type(alloc, merges, &kinds)
}

// The columns that merges of these kinds give.
fn merged_type(
    alloc: Global,
    merges: &Items<ColumnMerge>,
    kinds: &Items<ValueKind>,
) -> Result<SharedType, StmtStop>
    requires { IsColumnList (map (λ m. m.name) merges.now) }
    ensures { StmtReturns result (merging.merged_columns merges.now kinds.now) }
{
    if !take_each(merges, kinds) {
        return Err(StmtStop::refused(TypeKind::MergeKind));
    }
    let columns = given_columns(alloc, merges, kinds)?;
    Ok(SharedType::of(alloc, columns)?)
}

// The kinds of the first send, or else `none`.
fn first_kinds<'a>(
    sent: &'a Items<Items<ValueKind>>,
    none: &'a Items<ValueKind>,
) -> &'a Items<ValueKind>
    requires { none.now ≡ [] }
    ensures { result.now ≡ merging.first_kinds sent.now }
{
    match sent.get(0) {
        Some(kinds) => kinds,
        None => none,
    }
}

// Whether each send has so many values.
fn have_length(sent: &Items<Items<ValueKind>>, len: usize) -> bool
    ensures { result ≡ list_all (λ kinds. nat_eq (length kinds) len) sent.now }
{
    'sends: for kinds in sent.as_slice() {
        if kinds.len() != len {
            return false;
        }
    }
    true
}

// Whether each send has values of these kinds.
fn are_all_same(sent: &Items<Items<ValueKind>>, kinds: &Items<ValueKind>) -> bool
    ensures { result ≡ list_all (pointwise is_same_kind kinds.now) sent.now }
{
    'sends: for other in sent.as_slice() {
        if !are_same_kinds(kinds.as_slice(), other.as_slice()) {
            return false;
        }
    }
    true
}

// Whether each merge takes its kind.
fn take_each(merges: &Items<ColumnMerge>, kinds: &Items<ValueKind>) -> bool
    ensures { result ≡ merging.take_each merges.now kinds.now }
{
    'merges: for (merge, kind) in merges.as_slice().iter().zip(kinds.as_slice()) {
        if !merge_of_written(merge.by).takes(*kind) {
            return false;
        }
    }
    true
}

// The names of merges with the kinds that they give.
fn given_columns(
    alloc: Global,
    merges: &Items<ColumnMerge>,
    kinds: &Items<ValueKind>,
) -> Result<Vec<(Text, ValueKind)>, NoMemory>
    ensures { IfOk result (λ columns.
        columns.items ≡ merging.given_columns merges.now kinds.now) }
{
    let mut columns = Vec::new(alloc);
    'merges: for (merge, kind) in merges.as_slice().iter().zip(kinds.as_slice()) {
        let given = merge_of_written(merge.by).gives(*kind);
        columns.push((merge.name.copy()?, given))?;
    }
    Ok(columns)
}

// Whether the merges have the names of these columns, in order.
fn have_names_of(merges: &Items<ColumnMerge>, columns: &RowType) -> bool
    ensures { result
        ≡ pointwise bytes_eq (map (λ m. m.name) merges.now) (names_of columns.now) }
{
    let merges = merges.as_slice();
    if merges.len() != columns.len() as usize {
        return false;
    }
    'columns: for i in 0..columns.len() {
        if merges[i as usize].name.as_str() != columns.name(i) {
            return false;
        }
    }
    true
}

// The kinds of columns.
fn kinds_of(alloc: Global, columns: &RowType) -> Result<Items<ValueKind>, NoMemory>
    ensures { IfOk result (λ kinds. kinds ≡ kinds_in columns.now) }
{
    let mut kinds = Items::new(alloc);
    'columns: for i in 0..columns.len() {
        kinds.push(columns.kind(i))?;
    }
    Ok(kinds)
}
