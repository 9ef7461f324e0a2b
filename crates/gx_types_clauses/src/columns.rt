//! Comparisons of columns: their number, names and kinds.

ghost use Rattle.std.specs.Prelude.{◌≡◌, length, map};
ghost use Rattle.std.specs.Cmp.Lexicographic.{pointwise};
ghost use Rattle.gx_types_clauses.specs.SameColumns as same;
ghost use Rattle.gx_types_clauses.specs.StmtStops.{StmtReturns};

use crate::{StmtStop, TypeKind};
use gx_rows::{RowType, ValueKind};

/// Checks that two row types have the same columns: equal names and kinds, in order.
pub fn check_same_columns(a: &RowType, b: &RowType) -> Result<(), StmtStop>
    ensures { StmtReturns result (same.checked_same_columns a.now b.now) }
{
    if have_same_columns(a, b) {
        Ok(())
    } else {
        Err(StmtStop::refused(TypeKind::ColumnsDiffer))
    }
}

/// Checks that two row types have the same kinds, in order.
pub fn check_same_kinds(a: &RowType, b: &RowType) -> Result<(), StmtStop>
    ensures { StmtReturns result (same.checked_same_kinds a.now b.now) }
{
    if have_same_kinds(a, b) {
        Ok(())
    } else {
        Err(StmtStop::refused(TypeKind::ColumnsDiffer))
    }
}

fn have_same_columns(a: &RowType, b: &RowType) -> bool
    ensures { result ≡ pointwise same.is_same_column a.now b.now }
{
    if a.len() != b.len() {
        return false;
    }
    'columns: for i in 0..a.len() {
        if a.name(i) != b.name(i) || !is_same_kind(a.kind(i), b.kind(i)) {
            return false;
        }
    }
    true
}

fn have_same_kinds(a: &RowType, b: &RowType) -> bool
    ensures { result ≡ pointwise same.is_same_kind (same.kinds_in a.now) (same.kinds_in b.now) }
{
    if a.len() != b.len() {
        return false;
    }
    'columns: for i in 0..a.len() {
        if !is_same_kind(a.kind(i), b.kind(i)) {
            return false;
        }
    }
    true
}

/// Whether two lists of kinds are equal.
pub(crate) fn are_same_kinds(a: &[ValueKind], b: &[ValueKind]) -> bool
    ensures { result ≡ pointwise same.is_same_kind a.now b.now }
{
    a == b
}

/// Whether two kinds are equal.
pub(crate) fn is_same_kind(a: ValueKind, b: ValueKind) -> bool
    ensures { result ≡ same.is_same_kind a b }
{
    a == b
}
