//! The third check: names of columns, and what is counted.

ghost use Rattle.std.specs.Prelude.{◌≡◌, [], ◌<◌, ◌≤◌, OnOk, get_or, length, take};
ghost use Rattle.std.specs.List.{list_any};
ghost use Rattle.std.specs.Str.{bytes_eq};
ghost use Rattle.gx_types_clauses.specs.ColumnLists as lists;
ghost use Rattle.gx_types_clauses.specs.NamedParts.{list_names, parts_record};
ghost use Rattle.gx_types_clauses.specs.ClauseBounds.{HasCheckedLists, IsColumnList};
ghost use Rattle.gx_types_clauses.specs.StmtStops.{StmtReturns};

use crate::column_list::ColumnList;
use crate::stmt_parts::StmtParts;
use crate::{StmtStop, TypeKind};
use gx_rows::LimitKind;

/// Checks the names of the columns of a statement, and the numbers of its columns, its sends and
/// its rounds, after so many rounds of the statements before it.
pub fn check_lists(parts: &StmtParts<'_>, rounds: u32) -> Result<(), StmtStop>
    ensures checked { StmtReturns result (lists.checked_lists rounds (parts_record parts.now)) }
    ensures passed { OnOk result (HasCheckedLists (parts_record parts.now)) }
{
    check_columns(&parts.columns)?;
    check_columns(&parts.program)?;
    if parts.sends as u64 > LimitKind::Sends.most() {
        return Err(StmtStop::Limit(LimitKind::Sends));
    }
    check_rounds(rounds_of(parts.rounds), rounds)
}

/// The number of rounds that is written. A script has no number below 0.
pub fn rounds_of(rounds: i64) -> u64
    ensures { result ≡ lists.rounds_of rounds }
{
    if rounds < 0 { 0 } else { rounds as u64 }
}

// Checks rounds after those of the statements before.
fn check_rounds(rounds: u64, before: u32) -> Result<(), StmtStop>
    ensures checked { StmtReturns result (lists.checked_rounds before rounds) }
    ensures passed { OnOk result (rounds ≤ 1000) }
{
    if rounds > LimitKind::Rounds.most() {
        return Err(StmtStop::Limit(LimitKind::Rounds));
    }
    if before as u64 + rounds > LimitKind::AllRounds.most() {
        return Err(StmtStop::Limit(LimitKind::AllRounds));
    }
    Ok(())
}

// Checks one list of columns: their number, and then name by name.
fn check_columns(list: &ColumnList<'_>) -> Result<(), StmtStop>
    ensures checked { StmtReturns result (lists.checked_columns (list_names list.now)) }
    ensures passed { OnOk result (IsColumnList (list_names list.now)) }
{
    if list.len() as u64 > LimitKind::Columns.most() {
        return Err(StmtStop::Limit(LimitKind::Columns));
    }
    'names: for i in 0..list.len() {
        check_name(list, i)?;
    }
    Ok(())
}

// Checks the name at position `i`.
fn check_name(list: &ColumnList<'_>, i: usize) -> Result<(), StmtStop>
    requires { i < length (list_names list.now) }
    ensures { StmtReturns result
        (lists.checked_name (take i (list_names list.now)) (get_or (list_names list.now) i [])) }
{
    let name = list.name(i);
    if is_reserved(name) {
        return Err(StmtStop::refused(TypeKind::ColumnName));
    }
    if is_among_first(list, i, name) {
        return Err(StmtStop::refused(TypeKind::ColumnTwice));
    }
    Ok(())
}

// Whether no column may have this name.
fn is_reserved(name: &str) -> bool
    ensures { result ≡ lists.is_reserved name.now }
{
    name == "id" || name == "src" || name == "dst"
}

// Whether one of the first columns has this name.
fn is_among_first(list: &ColumnList<'_>, count: usize, name: &str) -> bool
    requires { count ≤ length (list_names list.now) }
    ensures { result ≡ list_any (λ n. bytes_eq n name.now) (take count (list_names list.now)) }
{
    'names: for i in 0..count {
        if list.name(i) == name {
            return true;
        }
    }
    false
}
