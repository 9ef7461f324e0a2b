//! Statements that make a graph of tables, edges and graphs: `graph`, `fromedges`, `reverse`,
//! `mask`, `subgraph`, `groupedges`, `partition`.

ghost use Rattle.std.specs.Prelude.{◌≡◌, ◌++◌, IfOk, Ok, map};
ghost use Rattle.gx_syntax_tree.specs.Bounds.{exprs_if};
ghost use Rattle.gx_types_clauses.specs.ClauseBounds.{AreTypable, IsColumnList};
ghost use Rattle.gx_types_clauses.specs.StmtStops.{StmtReturns};
ghost use Rattle.gx_types_stmts.specs.Makes.{graph_stmt, operand_types};
ghost use Rattle.gx_types_stmts.specs.StmtRules as rules;

use crate::operand::Operand;
use crate::typed_body::TypedBody;
use crate::{SharedType, StmtStop, TypedStmt};
use gx_rows::NoMemory;
use gx_syntax_tree::{ColumnConst, ColumnMerge, Const, CutWord, Expr};
use gx_types_clauses::{
    cut_of_written, grouped_type, merge_kinds, named_row, named_type, type_row, type_test,
};
use gx_types_exprs::ExprScope;
use sqlite_items::Items;
use std::alloc::Global;

/// The row types of the vertices and of the edges of a graph, for a statement that keeps them.
///
/// # Errors
///
/// `NoMemory` if no further copy of a row type can be counted.
pub(crate) fn types_of(graph: &Operand<'_>) -> Result<(SharedType, SharedType), NoMemory>
    ensures { IfOk result (λ types. types ≡ (graph.now.vertices.now, graph.now.edges.now)) }
{
    let vertices = graph.vertices.copy()?;
    let edges = graph.edges.copy()?;
    Ok((vertices, edges))
}

/// `graph`
///
/// # Errors
///
/// The first check that fails; `NoMemory` if memory runs out.
pub(crate) fn type_graph(
    alloc: Global,
    vertices: &Operand<'_>,
    edges: &Operand<'_>,
    default: &Items<Const>,
) -> Result<TypedBody, StmtStop>
    ensures { StmtReturns result
        (rules.built_graph (operand_types vertices.now) (operand_types edges.now) default.now) }
{
    let default = type_row(alloc, vertices.vertices.get(), default)?;
    let vertex_type = vertices.vertices.copy()?;
    let edge_type = edges.edges.copy()?;
    let stmt = TypedStmt::Graph {
        vertices: vertices.number,
        edges: edges.number,
        default,
    };
    Ok(TypedBody::graph(stmt, vertex_type, edge_type))
}

/// `fromedges`
///
/// # Errors
///
/// `NoMemory` if memory runs out.
pub(crate) fn type_from_edges(
    alloc: Global,
    edges: &Operand<'_>,
    row: &Items<ColumnConst>,
) -> Result<TypedBody, StmtStop>
    requires { IsColumnList (map (λ c. c.name) row.now) }
    ensures { StmtReturns result (Ok (rules.graph_of_edges (operand_types edges.now) row.now)) }
{
    let vertex_type = named_type(alloc, row)?;
    let edge_type = edges.edges.copy()?;
    let row = named_row(alloc, row)?;
    let stmt = TypedStmt::FromEdges {
        edges: edges.number,
        row,
    };
    Ok(TypedBody::graph(stmt, vertex_type, edge_type))
}

/// `reverse`
///
/// # Errors
///
/// `NoMemory` if no further copy of a row type can be counted.
pub(crate) fn type_reverse(graph: &Operand<'_>) -> Result<TypedBody, StmtStop>
    ensures { StmtReturns result (Ok (rules.reversed_graph (operand_types graph.now))) }
{
    let (vertices, edges) = types_of(graph)?;
    let stmt = TypedStmt::Reverse {
        graph: graph.number,
    };
    Ok(TypedBody::graph(stmt, vertices, edges))
}

/// `mask`
///
/// # Errors
///
/// `NoMemory` if no further copy of a row type can be counted.
pub(crate) fn type_mask(graph: &Operand<'_>, by: &Operand<'_>) -> Result<TypedBody, StmtStop>
    ensures { StmtReturns result
        (Ok (rules.masked_graph (operand_types graph.now) (operand_types by.now))) }
{
    let (vertices, edges) = types_of(graph)?;
    let stmt = TypedStmt::Mask {
        graph: graph.number,
        by: by.number,
    };
    Ok(TypedBody::graph(stmt, vertices, edges))
}

/// `subgraph`
///
/// # Errors
///
/// The first check that fails; `NoMemory` if memory runs out.
#[tactic(auto, using(gx_types_clauses::specs::BoundLaws::left_short, gx_types_clauses::specs::BoundLaws::right_short, gx_types_clauses::specs::BoundLaws::joined_counted))]
pub(crate) fn type_subgraph(
    alloc: Global,
    graph: &Operand<'_>,
    vertices: &Option<Expr>,
    edges: &Option<Expr>,
) -> Result<TypedBody, StmtStop>
    requires { AreTypable (exprs_if vertices.now ++ exprs_if edges.now) }
    ensures { StmtReturns result
        (rules.tested_graph (operand_types graph.now) vertices.now edges.now) }
{
    let rows = graph.vertices.get();
    let vertices = type_test(alloc, vertices, &ExprScope::Vertex(rows), 0)?;
    let scope = ExprScope::Triplet(rows, graph.edges.get());
    let edges = type_test(alloc, edges, &scope, vertices.next)?;
    let (vertex_type, edge_type) = types_of(graph)?;
    let stmt = TypedStmt::Subgraph {
        graph: graph.number,
        vertices: vertices.test,
        edges: edges.test,
    };
    Ok(TypedBody::graph(stmt, vertex_type, edge_type))
}

/// `groupedges`
///
/// # Errors
///
/// The first check that fails; `NoMemory` if memory runs out.
pub(crate) fn type_group_edges(
    alloc: Global,
    graph: &Operand<'_>,
    merges: &Items<ColumnMerge>,
) -> Result<TypedBody, StmtStop>
    requires { IsColumnList (map (λ m. m.name) merges.now) }
    ensures { StmtReturns result (rules.grouped_graph (operand_types graph.now) merges.now) }
{
    let edges = grouped_type(alloc, merges, graph.edges.get())?;
    let vertices = graph.vertices.copy()?;
    let merges = merge_kinds(alloc, merges)?;
    let stmt = TypedStmt::GroupEdges {
        graph: graph.number,
        merges,
    };
    Ok(TypedBody::graph(stmt, vertices, edges))
}

/// `partition`
///
/// # Errors
///
/// `NoMemory` if no further copy of a row type can be counted.
pub(crate) fn type_partition(graph: &Operand<'_>, cut: CutWord) -> Result<TypedBody, StmtStop>
    ensures { StmtReturns result (Ok (rules.partitioned_graph (operand_types graph.now) cut)) }
{
    let (vertices, edges) = types_of(graph)?;
    let stmt = TypedStmt::Partition {
        graph: graph.number,
        cut: cut_of_written(cut),
    };
    Ok(TypedBody::graph(stmt, vertices, edges))
}
