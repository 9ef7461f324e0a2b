//! What comes after the names of a statement: its sends, merges, constants and expressions, and
//! what it makes. To add a statement, add its arm here, its function in the file of its family, and
//! its lines in specs/StmtRules.antt.
//!
//! Each of those functions builds its `TypedStmt` after the last call that can fail, and each arm
//! here returns what one of them returns: a proof goes through the drop of all 30 variants at each
//! `?` that a `TypedStmt` passes or outlives.

ghost use Rattle.std.specs.Prelude.{◌≡◌};
ghost use Rattle.gx_types_clauses.specs.NamedParts.{named_parts};
ghost use Rattle.gx_types_clauses.specs.ClauseBounds.{HasCheckedLists};
ghost use Rattle.gx_types_stmts.specs.StmtBounds.{IsTypable};
ghost use Rattle.gx_types_clauses.specs.StmtStops.{StmtReturns};
ghost use Rattle.gx_types_stmts.specs.Makes.{operand_types};
ghost use Rattle.gx_types_stmts.specs.StmtTyping.{typed_body};

use crate::graphs::{
    type_from_edges, type_graph, type_group_edges, type_mask, type_partition, type_reverse,
    type_subgraph,
};
use crate::joins::{type_join_vertices, type_outer_join};
use crate::loads::{type_edge_list, type_edges, type_vertices};
use crate::maps::{type_map_edges, type_map_triplets, type_map_vertices};
use crate::messages::{PregelParts, type_aggregate, type_pregel};
use crate::operand::Operand;
use crate::short_forms::{type_degrees, type_neighbours};
use crate::tables::{
    type_diff, type_filter, type_inner_join, type_left_join, type_map_values, type_minus,
};
use crate::typed_body::TypedBody;
use crate::{StmtStop, TypedStmt};
use gx_syntax_tree::{NeighbourWord, Stmt};
use gx_types_clauses::rounds_of;
use std::alloc::Global;

/// Checks a statement whose names were checked, by what its first and second used names stand for.
///
/// # Errors
///
/// The first check that fails; `NoMemory` if memory runs out.
pub(crate) fn type_body(
    alloc: Global,
    stmt: &Stmt,
    a: &Operand<'_>,
    b: &Operand<'_>,
) -> Result<TypedBody, StmtStop>
    requires typable { IsTypable stmt.now }
    requires lists { HasCheckedLists (named_parts stmt.now) }
    ensures { StmtReturns result (typed_body (operand_types a.now) (operand_types b.now) stmt.now) }
{
    match stmt {
        Stmt::Vertices { file, columns, .. } => type_vertices(alloc, file, columns),
        Stmt::Edges { file, columns, .. } => type_edges(alloc, file, columns),
        Stmt::EdgeList { file, oriented, .. } => type_edge_list(alloc, file, *oriented),
        Stmt::Graph { default, .. } => type_graph(alloc, a, b, default),
        Stmt::FromEdges { row, .. } => type_from_edges(alloc, a, row),
        Stmt::Reverse { .. } => type_reverse(a),
        Stmt::Mask { .. } => type_mask(a, b),
        Stmt::Subgraph {
            vertices,
            edges,
            ..
        } => type_subgraph(alloc, a, vertices, edges),
        Stmt::GroupEdges { merges, .. } => type_group_edges(alloc, a, merges),
        Stmt::Partition { cut, .. } => type_partition(a, *cut),
        Stmt::MapVertices { sets, .. } => type_map_vertices(alloc, a, sets),
        Stmt::MapEdges { sets, .. } => type_map_edges(alloc, a, sets),
        Stmt::MapTriplets { sets, .. } => type_map_triplets(alloc, a, sets),
        Stmt::JoinVertices { sets, .. } => type_join_vertices(alloc, a, b, sets),
        Stmt::OuterJoin { default, sets, .. } => type_outer_join(alloc, a, b, default, sets),
        Stmt::Aggregate { sends, merges, .. } => type_aggregate(alloc, a, sends, merges),
        Stmt::InDegrees { .. } => type_degrees(alloc, a, NeighbourWord::In),
        Stmt::OutDegrees { .. } => type_degrees(alloc, a, NeighbourWord::Out),
        Stmt::Degrees { .. } => type_degrees(alloc, a, NeighbourWord::Either),
        Stmt::Neighbours { direction, .. } => type_neighbours(alloc, a, *direction),
        Stmt::Pregel {
            rounds,
            active,
            merges,
            initial,
            program,
            sends,
            ..
        } => {
            let parts = PregelParts {
                rounds: rounds_of(*rounds) as u32,
                active: *active,
                merges,
                initial,
                program,
                sends,
            };
            type_pregel(alloc, a, &parts)
        }
        Stmt::Filter { condition, .. } => type_filter(alloc, a, condition),
        Stmt::MapValues { sets, .. } => type_map_values(alloc, a, sets),
        Stmt::Minus { .. } => type_minus(a, b),
        Stmt::Diff { .. } => type_diff(a, b),
        Stmt::InnerJoin { sets, .. } => type_inner_join(alloc, a, b, sets),
        Stmt::LeftJoin { default, sets, .. } => type_left_join(alloc, a, b, default, sets),
        Stmt::PrintVertices { .. } => {
            Ok(TypedBody::action(TypedStmt::PrintVertices { graph: a.number }))
        }
        Stmt::PrintEdges { .. } => {
            Ok(TypedBody::action(TypedStmt::PrintEdges { graph: a.number }))
        }
        Stmt::PrintTriplets { .. } => {
            Ok(TypedBody::action(TypedStmt::PrintTriplets { graph: a.number }))
        }
        Stmt::PrintTable { .. } => {
            Ok(TypedBody::action(TypedStmt::PrintTable { table: a.number }))
        }
        Stmt::CountVertices { .. } => {
            Ok(TypedBody::action(TypedStmt::CountVertices { graph: a.number }))
        }
        Stmt::CountEdges { .. } => {
            Ok(TypedBody::action(TypedStmt::CountEdges { graph: a.number }))
        }
        Stmt::CountTable { .. } => {
            Ok(TypedBody::action(TypedStmt::CountTable { table: a.number }))
        }
    }
}
