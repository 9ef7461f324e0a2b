//! Writes statements: each arm names the function of its family with the statement's parts.
//!
//! The order is that of `Stmt`: loads, graphs, maps, joins, messages, tables, actions.

ghost use Rattle.gx_syntax_show.specs.StmtPieces.{stmt_pieces};
ghost use Rattle.gx_syntax_show.specs.Writes.{Writes};

use crate::actions::put_action;
use crate::graphs::{put_by, put_derived, put_from_edges, put_group_edges, put_subgraph};
use crate::joins::{put_default, put_join, put_outer_join, put_pair};
use crate::loads::{put_edge_list, put_load};
use crate::maps::put_map;
use crate::messages::{put_aggregate, put_neighbours, put_program, put_rounds};
use crate::tables::put_filter;
use crate::words::cut_word;
use gx_rows::NoMemory;
use gx_syntax_tokens::Writer;
use gx_syntax_tree::Stmt;

/// Writes a statement without its `;`.
///
/// # Errors
///
/// `NoMemory` if memory runs out.
pub(crate) fn put_statement(out: &mut Writer, statement: &Stmt) -> Result<(), NoMemory>
    ensures { Writes result out.old out.new (stmt_pieces statement.now) }
{
    match statement {
        Stmt::Vertices {
            name,
            file,
            columns,
        } => put_load(out, "vertices", name, file, columns),
        Stmt::Edges {
            name,
            file,
            columns,
        } => put_load(out, "edges", name, file, columns),
        Stmt::EdgeList {
            name,
            file,
            oriented,
        } => put_edge_list(out, name, file, *oriented),
        Stmt::Graph {
            name,
            vertices,
            edges,
            default,
        } => put_default(out, "graph", name, vertices, edges, default),
        Stmt::FromEdges { name, edges, row } => put_from_edges(out, name, edges, row),
        Stmt::Reverse { name, graph } => put_derived(out, "reverse", name, graph),
        Stmt::Mask { name, graph, by } => put_by(out, "mask", name, graph, by.as_str()),
        Stmt::Subgraph {
            name,
            graph,
            vertices,
            edges,
        } => put_subgraph(out, name, graph, vertices, edges),
        Stmt::GroupEdges {
            name,
            graph,
            merges,
        } => put_group_edges(out, name, graph, merges),
        Stmt::Partition { name, graph, cut } => put_by(
            out,
            "partition",
            name,
            graph,
            cut_word(*cut),
        ),
        Stmt::MapVertices { name, graph, sets } => put_map(out, "mapvertices", name, graph, sets),
        Stmt::MapEdges { name, graph, sets } => put_map(out, "mapedges", name, graph, sets),
        Stmt::MapTriplets { name, graph, sets } => put_map(out, "maptriplets", name, graph, sets),
        Stmt::JoinVertices {
            name,
            graph,
            table,
            sets,
        } => put_join(out, "joinvertices", name, graph, table, sets),
        Stmt::OuterJoin {
            name,
            graph,
            table,
            default,
            sets,
        } => put_outer_join(out, "outerjoin", name, graph, table, default, sets),
        Stmt::Aggregate {
            name,
            graph,
            sends,
            merges,
        } => put_aggregate(out, name, graph, sends, merges),
        Stmt::InDegrees { name, graph } => put_derived(out, "indegrees", name, graph),
        Stmt::OutDegrees { name, graph } => put_derived(out, "outdegrees", name, graph),
        Stmt::Degrees { name, graph } => put_derived(out, "degrees", name, graph),
        Stmt::Neighbours {
            name,
            graph,
            direction,
        } => put_neighbours(out, name, graph, *direction),
        Stmt::Pregel {
            name,
            graph,
            rounds,
            active,
            merges,
            initial,
            program,
            sends,
        } => {
            put_derived(out, "pregel", name, graph)?;
            put_rounds(out, *rounds, *active)?;
            put_program(out, merges, initial, program, sends)
        }
        Stmt::Filter {
            name,
            table,
            condition,
        } => put_filter(out, name, table, condition),
        Stmt::MapValues { name, table, sets } => put_map(out, "mapvalues", name, table, sets),
        Stmt::Minus { name, table, other } => put_pair(out, "minus", name, table, other),
        Stmt::Diff { name, table, other } => put_pair(out, "diff", name, table, other),
        Stmt::InnerJoin {
            name,
            table,
            other,
            sets,
        } => put_join(out, "innerjoin", name, table, other, sets),
        Stmt::LeftJoin {
            name,
            table,
            other,
            default,
            sets,
        } => put_outer_join(out, "leftjoin", name, table, other, default, sets),
        Stmt::PrintVertices { graph } => put_action(out, "print", "vertices", graph),
        Stmt::PrintEdges { graph } => put_action(out, "print", "edges", graph),
        Stmt::PrintTriplets { graph } => put_action(out, "print", "triplets", graph),
        Stmt::PrintTable { table } => put_action(out, "print", "table", table),
        Stmt::CountVertices { graph } => put_action(out, "count", "vertices", graph),
        Stmt::CountEdges { graph } => put_action(out, "count", "edges", graph),
        Stmt::CountTable { table } => put_action(out, "count", "table", table),
    }
}
