//! Statements that compute new rows of a graph: `mapvertices`, `mapedges`, `maptriplets`.

ghost use Rattle.std.specs.Prelude.{◌≡◌};
ghost use Rattle.gx_types_clauses.specs.ClauseBounds.{AreTypableSets};
ghost use Rattle.gx_types_clauses.specs.StmtStops.{StmtReturns};
ghost use Rattle.gx_types_stmts.specs.Makes.{operand_types};
ghost use Rattle.gx_types_stmts.specs.StmtRules as rules;

use crate::operand::Operand;
use crate::typed_body::TypedBody;
use crate::{StmtStop, TypedStmt};
use gx_syntax_tree::ColumnExpr;
use gx_types_clauses::type_sets;
use gx_types_exprs::ExprScope;
use sqlite_items::Items;
use std::alloc::Global;

/// `mapvertices`
///
/// # Errors
///
/// The first check that fails; `NoMemory` if memory runs out.
pub(crate) fn type_map_vertices(
    alloc: Global,
    graph: &Operand<'_>,
    sets: &Items<ColumnExpr>,
) -> Result<TypedBody, StmtStop>
    requires { AreTypableSets sets.now }
    ensures { StmtReturns result (rules.mapped_vertices_stmt (operand_types graph.now) sets.now) }
{
    let sets = type_sets(alloc, sets, &ExprScope::Vertex(graph.vertices.get()))?;
    let edges = graph.edges.copy()?;
    let stmt = TypedStmt::MapVertices {
        graph: graph.number,
        sets: sets.exprs,
    };
    Ok(TypedBody::graph(stmt, sets.columns, edges))
}

/// `mapedges`
///
/// # Errors
///
/// The first check that fails; `NoMemory` if memory runs out.
pub(crate) fn type_map_edges(
    alloc: Global,
    graph: &Operand<'_>,
    sets: &Items<ColumnExpr>,
) -> Result<TypedBody, StmtStop>
    requires { AreTypableSets sets.now }
    ensures { StmtReturns result (rules.mapped_edges_stmt (operand_types graph.now) sets.now) }
{
    let sets = type_sets(alloc, sets, &ExprScope::Edge(graph.edges.get()))?;
    let vertices = graph.vertices.copy()?;
    let stmt = TypedStmt::MapEdges {
        graph: graph.number,
        sets: sets.exprs,
    };
    Ok(TypedBody::graph(stmt, vertices, sets.columns))
}

/// `maptriplets`
///
/// # Errors
///
/// The first check that fails; `NoMemory` if memory runs out.
pub(crate) fn type_map_triplets(
    alloc: Global,
    graph: &Operand<'_>,
    sets: &Items<ColumnExpr>,
) -> Result<TypedBody, StmtStop>
    requires { AreTypableSets sets.now }
    ensures { StmtReturns result (rules.mapped_triplets_stmt (operand_types graph.now) sets.now) }
{
    let scope = ExprScope::Triplet(graph.vertices.get(), graph.edges.get());
    let sets = type_sets(alloc, sets, &scope)?;
    let vertices = graph.vertices.copy()?;
    let stmt = TypedStmt::MapTriplets {
        graph: graph.number,
        sets: sets.exprs,
    };
    Ok(TypedBody::graph(stmt, vertices, sets.columns))
}
