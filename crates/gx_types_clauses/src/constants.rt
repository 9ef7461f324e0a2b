//! The sixth check: rows of constants.

ghost use Rattle.std.specs.Prelude.{◌≡◌, ◌<◌, ◌^◌, IfOk, length, map};
ghost use Rattle.std.specs.Cmp.Lexicographic.{pointwise};
ghost use Rattle.gx_types_clauses.specs.Constants as constants;
ghost use Rattle.gx_types_clauses.specs.SameColumns.{is_same_kind, kinds_in};
ghost use Rattle.gx_types_clauses.specs.ClauseBounds.{IsColumnList};
ghost use Rattle.gx_types_clauses.specs.StmtStops.{StmtReturns};

use crate::columns::is_same_kind;
use crate::{SharedType, StmtStop, TypeKind};
use gx_rows::{IdList, NoMemory, Row, RowType, Text, Value, ValueKind};
use gx_syntax_tree::{ColumnConst, Const};
use sqlite_items::Items;
use std::alloc::Global;

/// The row of these constants, for these columns.
///
/// # Errors
///
/// `ColumnsDiffer` if there are not as many constants as columns; `ConstKind` if one is not of its
/// column's kind; `NoMemory` if memory runs out.
pub fn type_row(alloc: Global, columns: &RowType, row: &Items<Const>) -> Result<Row, StmtStop>
    ensures { StmtReturns result (constants.constant_row columns.now row.now) }
{
    if row.len() != columns.len() as usize {
        return Err(StmtStop::refused(TypeKind::ColumnsDiffer));
    }
    if !fit_columns(columns, row) {
        return Err(StmtStop::refused(TypeKind::ConstKind));
    }
    Ok(const_row(alloc, row)?)
}

// The row of these constants.
fn const_row(alloc: Global, row: &Items<Const>) -> Result<Row, NoMemory>
    requires { length row.now < 2 ^ 32 }
    ensures { IfOk result (λ values. values ≡ map constants.const_value row.now) }
{
    let mut values = Vec::new(alloc);
    'constants: for constant in row.as_slice() {
        values.push(const_value(alloc, constant)?)?;
    }
    Ok(Row::of(values))
}

// Whether the constants, as many as the columns, are of their kinds.
fn fit_columns(columns: &RowType, row: &Items<Const>) -> bool
    requires { length row.now ≡ length columns.now }
    ensures { result ≡ pointwise is_same_kind (map constants.const_kind row.now)
        (kinds_in columns.now) }
{
    let row = row.as_slice();
    'columns: for i in 0..columns.len() {
        if !is_same_kind(const_kind(&row[i as usize]), columns.kind(i)) {
            return false;
        }
    }
    true
}

/// The row of constants that have names.
///
/// # Errors
///
/// `NoMemory` if memory runs out.
pub fn named_row(alloc: Global, row: &Items<ColumnConst>) -> Result<Row, NoMemory>
    requires { IsColumnList (map (λ c. c.name) row.now) }
    ensures { IfOk result (λ values. values ≡ constants.named_values row.now) }
{
    let mut values = Vec::new(alloc);
    'constants: for column in row.as_slice() {
        values.push(const_value(alloc, &column.value)?)?;
    }
    Ok(Row::of(values))
}

/// The columns of constants that have names.
///
/// # Errors
///
/// `NoMemory` if memory runs out.
pub fn named_type(alloc: Global, row: &Items<ColumnConst>) -> Result<SharedType, NoMemory>
    requires { IsColumnList (map (λ c. c.name) row.now) }
    ensures { IfOk result (λ columns. columns ≡ constants.named_columns row.now) }
{
    SharedType::of(alloc, const_columns(alloc, row)?)
}

fn const_columns(
    alloc: Global,
    row: &Items<ColumnConst>,
) -> Result<Vec<(Text, ValueKind)>, NoMemory>
    ensures { IfOk result (λ columns. columns.items ≡ constants.named_columns row.now) }
{
    let mut columns = Vec::new(alloc);
    'constants: for column in row.as_slice() {
        columns.push((column.name.copy()?, const_kind(&column.value)))?;
    }
    Ok(columns)
}

// The kind of a constant.
fn const_kind(constant: &Const) -> ValueKind
    ensures { result ≡ constants.const_kind constant.now }
{
    match constant {
        Const::Number(_) => ValueKind::Int,
        Const::Quoted(_) => ValueKind::Text,
        Const::Truth(_) => ValueKind::Bool,
        Const::NoIds => ValueKind::Ids,
    }
}

// The value of a constant.
fn const_value(alloc: Global, constant: &Const) -> Result<Value, NoMemory>
    ensures { IfOk result (λ v. v ≡ constants.const_value constant.now) }
{
    match constant {
        Const::Number(number) => Ok(Value::Int(*number)),
        Const::Quoted(text) => Ok(Value::Text(text.copy()?)),
        Const::Truth(truth) => Ok(Value::Bool(*truth)),
        Const::NoIds => Ok(Value::Ids(IdList::of(alloc, &[])?)),
    }
}
