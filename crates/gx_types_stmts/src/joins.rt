//! Statements that join a graph with a table: `joinvertices`, `outerjoin`.

ghost use Rattle.std.specs.Prelude.{◌≡◌};
ghost use Rattle.gx_types_clauses.specs.ClauseBounds.{AreTypableSets};
ghost use Rattle.gx_types_clauses.specs.StmtStops.{StmtReturns};
ghost use Rattle.gx_types_stmts.specs.Makes.{operand_types};
ghost use Rattle.gx_types_stmts.specs.StmtRules as rules;

use crate::graphs::types_of;
use crate::operand::Operand;
use crate::typed_body::TypedBody;
use crate::{StmtStop, TypedStmt};
use gx_syntax_tree::{ColumnExpr, Const};
use gx_types_clauses::{check_same_columns, type_row, type_sets};
use gx_types_exprs::ExprScope;
use sqlite_items::Items;
use std::alloc::Global;

/// `joinvertices`
///
/// # Errors
///
/// The first check that fails; `NoMemory` if memory runs out.
pub(crate) fn type_join_vertices(
    alloc: Global,
    graph: &Operand<'_>,
    table: &Operand<'_>,
    sets: &Items<ColumnExpr>,
) -> Result<TypedBody, StmtStop>
    requires { AreTypableSets sets.now }
    ensures { StmtReturns result
        (rules.joined_vertices (operand_types graph.now) (operand_types table.now) sets.now) }
{
    let scope = ExprScope::Join(graph.vertices.get(), table.vertices.get());
    let sets = type_sets(alloc, sets, &scope)?;
    check_same_columns(sets.columns.get(), graph.vertices.get())?;
    let (vertices, edges) = types_of(graph)?;
    let stmt = TypedStmt::JoinVertices {
        graph: graph.number,
        table: table.number,
        sets: sets.exprs,
    };
    Ok(TypedBody::graph(stmt, vertices, edges))
}

/// `outerjoin`
///
/// # Errors
///
/// The first check that fails; `NoMemory` if memory runs out.
pub(crate) fn type_outer_join(
    alloc: Global,
    graph: &Operand<'_>,
    table: &Operand<'_>,
    default: &Items<Const>,
    sets: &Items<ColumnExpr>,
) -> Result<TypedBody, StmtStop>
    requires { AreTypableSets sets.now }
    ensures { StmtReturns result (rules.outer_joined_graph (operand_types graph.now)
        (operand_types table.now) default.now sets.now) }
{
    let default = type_row(alloc, table.vertices.get(), default)?;
    let scope = ExprScope::OuterJoin(graph.vertices.get(), table.vertices.get());
    let sets = type_sets(alloc, sets, &scope)?;
    let edges = graph.edges.copy()?;
    let stmt = TypedStmt::OuterJoin {
        graph: graph.number,
        table: table.number,
        default,
        sets: sets.exprs,
    };
    Ok(TypedBody::graph(stmt, sets.columns, edges))
}
