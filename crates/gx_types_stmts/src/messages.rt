//! Statements in which edges send messages: `aggregate`, `pregel`. The short forms of `aggregate`
//! are in short_forms.rt.

ghost use Rattle.std.specs.Prelude.{◌≡◌, ◌++◌, map};
ghost use Rattle.gx_types_clauses.specs.Sending.{sent_exprs};
ghost use Rattle.gx_types_clauses.specs.ClauseBounds.{AreTypable, AreTypableSets, IsColumnList};
ghost use Rattle.gx_types_clauses.specs.StmtStops.{StmtReturns};
ghost use Rattle.gx_types_clauses.specs.ValueTyping.{column_values};
ghost use Rattle.gx_types_stmts.specs.Makes.{operand_types};
ghost use Rattle.gx_types_stmts.specs.StmtRules as rules;

use crate::graphs::types_of;
use crate::operand::Operand;
use crate::typed_body::TypedBody;
use crate::{StmtStop, TypedStmt};
use gx_syntax_tree::{ActiveWord, ColumnExpr, ColumnMerge, Const, SendClause};
use gx_types_clauses::{
    check_same_columns, count_nodes, direction_of_written, merge_kinds, message_type, type_row,
    type_sends, type_sets,
};
use gx_types_exprs::ExprScope;
use sqlite_items::Items;
use std::alloc::Global;

/// `aggregate`
///
/// # Errors
///
/// The first check that fails; `NoMemory` if memory runs out.
pub(crate) fn type_aggregate(
    alloc: Global,
    graph: &Operand<'_>,
    sends: &Items<SendClause>,
    merges: &Items<ColumnMerge>,
) -> Result<TypedBody, StmtStop>
    requires sends { AreTypable (sent_exprs sends.now) }
    requires merges { IsColumnList (map (λ m. m.name) merges.now) }
    ensures { StmtReturns result
        (rules.aggregated_table (operand_types graph.now) sends.now merges.now) }
{
    let scope = ExprScope::Triplet(graph.vertices.get(), graph.edges.get());
    let sends = type_sends(alloc, sends, &scope, 0)?;
    let message = message_type(alloc, merges, &sends.kinds)?;
    let merges = merge_kinds(alloc, merges)?;
    let stmt = TypedStmt::Aggregate {
        graph: graph.number,
        sends: sends.sends,
        merges,
        nodes: sends.next,
    };
    Ok(TypedBody::table(stmt, message))
}

/// The parts of a `pregel`, in text order.
#[derive(Clone, Copy)]
pub(crate) struct PregelParts<'a> {
    /// The most rounds.
    pub(crate) rounds: u32,
    /// Which edges send.
    pub(crate) active: ActiveWord,
    /// The merges of the message.
    pub(crate) merges: &'a Items<ColumnMerge>,
    /// The message of the first round.
    pub(crate) initial: &'a Items<Const>,
    /// The new columns of a vertex.
    pub(crate) program: &'a Items<ColumnExpr>,
    /// What edges send.
    pub(crate) sends: &'a Items<SendClause>,
}

/// `pregel`
///
/// # Errors
///
/// The first check that fails; `NoMemory` if memory runs out.
#[tactic(auto, using(gx_types_clauses::specs::BoundLaws::left_short, gx_types_clauses::specs::BoundLaws::right_short, gx_types_clauses::specs::BoundLaws::joined_counted))]
pub(crate) fn type_pregel(
    alloc: Global,
    graph: &Operand<'_>,
    parts: &PregelParts<'_>,
) -> Result<TypedBody, StmtStop>
    requires exprs { AreTypable
        (column_values parts.now.program.now ++ sent_exprs parts.now.sends.now) }
    requires merges { IsColumnList (map (λ m. m.name) parts.now.merges.now) }
    requires program { IsColumnList (map (λ s. s.name) parts.now.program.now) }
    ensures { StmtReturns result (rules.iterated_graph (operand_types graph.now) parts.now.rounds
        parts.now.active parts.now.merges.now parts.now.initial.now parts.now.program.now
        parts.now.sends.now) }
{
    let scope = ExprScope::Triplet(graph.vertices.get(), graph.edges.get());
    let sends = type_sends(alloc, parts.sends, &scope, count_nodes(parts.program))?;
    let message = message_type(alloc, parts.merges, &sends.kinds)?;
    let initial = type_row(alloc, message.get(), parts.initial)?;
    let scope = ExprScope::Program(graph.vertices.get(), message.get());
    let program = type_sets(alloc, parts.program, &scope)?;
    check_same_columns(program.columns.get(), graph.vertices.get())?;
    let merges = merge_kinds(alloc, parts.merges)?;
    let (vertices, edges) = types_of(graph)?;
    let stmt = TypedStmt::Pregel {
        graph: graph.number,
        rounds: parts.rounds,
        active: direction_of_written(parts.active),
        merges,
        initial,
        program: program.exprs,
        sends: sends.sends,
        nodes: sends.next,
    };
    Ok(TypedBody::graph(stmt, vertices, edges))
}
