//! Statements that make a table of tables: `filter`, `mapvalues`, `minus`, `diff`, `innerjoin`,
//! `leftjoin`.

ghost use Rattle.std.specs.Prelude.{[], ◌∷◌, Ok};
ghost use Rattle.gx_types_clauses.specs.ClauseBounds.{AreTypable, AreTypableSets};
ghost use Rattle.gx_types_clauses.specs.StmtStops.{StmtReturns};
ghost use Rattle.gx_types_stmts.specs.Makes.{operand_types};
ghost use Rattle.gx_types_stmts.specs.StmtRules as rules;

use crate::operand::Operand;
use crate::typed_body::TypedBody;
use crate::{StmtStop, TypedStmt};
use gx_syntax_tree::{ColumnExpr, Const, Expr};
use gx_types_clauses::{check_same_kinds, type_condition, type_row, type_sets};
use gx_types_exprs::ExprScope;
use sqlite_items::Items;
use std::alloc::Global;

/// `filter`
///
/// # Errors
///
/// The first check that fails; `NoMemory` if memory runs out.
#[tactic(auto, using(gx_types_clauses::specs::BoundLaws::lone_short, gx_types_clauses::specs::BoundLaws::lone_counted))]
pub(crate) fn type_filter(
    alloc: Global,
    table: &Operand<'_>,
    condition: &Expr,
) -> Result<TypedBody, StmtStop>
    requires { AreTypable (condition.now ∷ []) }
    ensures { StmtReturns result (rules.filtered_table (operand_types table.now) condition.now) }
{
    let scope = ExprScope::Vertex(table.vertices.get());
    let condition = type_condition(alloc, condition, &scope, 0)?;
    let rows = table.vertices.copy()?;
    let stmt = TypedStmt::Filter {
        table: table.number,
        condition: condition.expr,
    };
    Ok(TypedBody::table(stmt, rows))
}

/// `mapvalues`
///
/// # Errors
///
/// The first check that fails; `NoMemory` if memory runs out.
pub(crate) fn type_map_values(
    alloc: Global,
    table: &Operand<'_>,
    sets: &Items<ColumnExpr>,
) -> Result<TypedBody, StmtStop>
    requires { AreTypableSets sets.now }
    ensures { StmtReturns result (rules.mapped_table (operand_types table.now) sets.now) }
{
    let sets = type_sets(alloc, sets, &ExprScope::Vertex(table.vertices.get()))?;
    let stmt = TypedStmt::MapValues {
        table: table.number,
        sets: sets.exprs,
    };
    Ok(TypedBody::table(stmt, sets.columns))
}

/// `minus`
///
/// # Errors
///
/// `NoMemory` if no further copy of a row type can be counted.
pub(crate) fn type_minus(table: &Operand<'_>, other: &Operand<'_>) -> Result<TypedBody, StmtStop>
    ensures { StmtReturns result
        (Ok (rules.subtracted_table (operand_types table.now) (operand_types other.now))) }
{
    let rows = table.vertices.copy()?;
    let stmt = TypedStmt::Minus {
        table: table.number,
        other: other.number,
    };
    Ok(TypedBody::table(stmt, rows))
}

/// `diff`
///
/// # Errors
///
/// The first check that fails; `NoMemory` if no further copy of a row type can be counted.
pub(crate) fn type_diff(table: &Operand<'_>, other: &Operand<'_>) -> Result<TypedBody, StmtStop>
    ensures { StmtReturns result
        (rules.compared_table (operand_types table.now) (operand_types other.now)) }
{
    check_same_kinds(table.vertices.get(), other.vertices.get())?;
    let rows = table.vertices.copy()?;
    let stmt = TypedStmt::Diff {
        table: table.number,
        other: other.number,
    };
    Ok(TypedBody::table(stmt, rows))
}

/// `innerjoin`
///
/// # Errors
///
/// The first check that fails; `NoMemory` if memory runs out.
pub(crate) fn type_inner_join(
    alloc: Global,
    table: &Operand<'_>,
    other: &Operand<'_>,
    sets: &Items<ColumnExpr>,
) -> Result<TypedBody, StmtStop>
    requires { AreTypableSets sets.now }
    ensures { StmtReturns result
        (rules.joined_table (operand_types table.now) (operand_types other.now) sets.now) }
{
    let scope = ExprScope::Join(table.vertices.get(), other.vertices.get());
    let sets = type_sets(alloc, sets, &scope)?;
    let stmt = TypedStmt::InnerJoin {
        table: table.number,
        other: other.number,
        sets: sets.exprs,
    };
    Ok(TypedBody::table(stmt, sets.columns))
}

/// `leftjoin`
///
/// # Errors
///
/// The first check that fails; `NoMemory` if memory runs out.
pub(crate) fn type_left_join(
    alloc: Global,
    table: &Operand<'_>,
    other: &Operand<'_>,
    default: &Items<Const>,
    sets: &Items<ColumnExpr>,
) -> Result<TypedBody, StmtStop>
    requires { AreTypableSets sets.now }
    ensures { StmtReturns result (rules.left_joined_table (operand_types table.now)
        (operand_types other.now) default.now sets.now) }
{
    let default = type_row(alloc, other.vertices.get(), default)?;
    let scope = ExprScope::OuterJoin(table.vertices.get(), other.vertices.get());
    let sets = type_sets(alloc, sets, &scope)?;
    let stmt = TypedStmt::LeftJoin {
        table: table.number,
        other: other.number,
        default,
        sets: sets.exprs,
    };
    Ok(TypedBody::table(stmt, sets.columns))
}
