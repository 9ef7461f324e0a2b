//! Answers of actions, read from held blocks.

ghost use Rattle.std.specs.Prelude.{◌≡◌, ◌≤◌, IfOk, flat_map, length};
ghost use Rattle.std.specs.Option.{option_copied};
ghost use Rattle.gx_exec_answers.specs.AnswerRows.{answer_record};
ghost use Rattle.gx_exec_answers.specs.VertexOrder.{id_order_of};
ghost use Rattle.gx_exec_contents.specs.MadeBlocks.{edges_held, vertices_held};
ghost use Rattle.gx_exec_reads.specs.Actions.{AreNumbersIn, IsAction, IsNumberIn};
ghost use Rattle.gx_exec_reads.specs.HeldAnswers.{answer_of_blocks, answer_of_contents, held_contents};
ghost use Rattle.gx_model.specs.ActionAnswers.{
  count_answer,
  edges_answer as answer_with_edges,
  made_named,
  vertices_answer as answer_with_vertices,
};
ghost use Rattle.gx_plan.specs.StmtNodes.{statement_of};
ghost use Rattle.gx_types_stmts.specs.StmtNumbers.{named_numbers};

use crate::partitions::{edge_parts, vertex_parts};
use gx_cluster::Cluster;
use gx_exec_answers::{
    Answer, edge_count_answer, edges_answer, vertex_count_answer, vertices_answer,
};
use gx_exec_work::Block;
use gx_lineage::BlockId;
use gx_rows::{NoMemory, RowType};
use gx_types::{Typed, TypedStmt};
use std::alloc::Global;

/// What action `a`, counted from 1, prints, read from these blocks as the cluster holds them. A block
/// that is not held, or of another kind than the action prints, adds nothing.
///
/// # Errors
///
/// `NoMemory` if memory for the answer runs out.
pub fn read_answer(
    alloc: Global,
    typed: &Typed,
    cluster: &Cluster<Block>,
    a: u32,
    blocks: &[BlockId],
) -> Result<Answer, NoMemory>
    requires from_one { 1 ≤ a }
    requires within { a ≤ length typed.now }
    requires is_action { IsAction (statement_of typed.now a) }
    requires few { length blocks.now ≤ 128 }
    ensures { IfOk result (λ answer. answer_record answer
        ≡ answer_of_blocks typed.now a (held_contents cluster.now.held blocks.now)) }
{
    typed.statements_are_sound();
    answer_of(alloc, typed, typed.statement(a), cluster, blocks)
}

fn answer_of(
    alloc: Global,
    typed: &Typed,
    stmt: &TypedStmt,
    cluster: &Cluster<Block>,
    blocks: &[BlockId],
) -> Result<Answer, NoMemory>
    requires is_action { IsAction stmt.now }
    requires names { AreNumbersIn typed.now (named_numbers stmt.now) }
    requires few { length blocks.now ≤ 128 }
    ensures { IfOk result (λ answer. answer_record answer
        ≡ answer_of_contents typed.now stmt.now (held_contents cluster.now.held blocks.now)) }
{
    match stmt {
        TypedStmt::PrintVertices { graph } => {
            print_vertices(alloc, vertex_columns(typed, *graph), cluster, blocks)
        }
        TypedStmt::PrintEdges { graph } => {
            print_edges(alloc, edge_columns(typed, *graph), cluster, blocks)
        }
        TypedStmt::PrintTable { table } => {
            print_vertices(alloc, vertex_columns(typed, *table), cluster, blocks)
        }
        TypedStmt::CountVertices { .. } | TypedStmt::CountTable { .. } => {
            count_vertices(alloc, cluster, blocks)
        }
        TypedStmt::CountEdges { .. } => count_edges(alloc, cluster, blocks),
        _ => unreachable!(),
    }
}

// The columns of the vertices of statement `s`.
fn vertex_columns(typed: &Typed, s: u32) -> Option<&RowType>
    requires { IsNumberIn typed.now s }
    ensures { option_copied result ≡ (made_named typed.now s).vertices }
{
    typed.vertex_type(s)
}

// The columns of the edges of statement `s`.
fn edge_columns(typed: &Typed, s: u32) -> Option<&RowType>
    requires { IsNumberIn typed.now s }
    ensures { option_copied result ≡ (made_named typed.now s).edges }
{
    typed.edge_type(s)
}

fn print_vertices(
    alloc: Global,
    columns: Option<&RowType>,
    cluster: &Cluster<Block>,
    blocks: &[BlockId],
) -> Result<Answer, NoMemory>
    ensures { IfOk result (λ answer. answer_record answer
        ≡ answer_with_vertices (option_copied columns.entry)
        (id_order_of (flat_map vertices_held (held_contents cluster.now.held blocks.now)))) }
{
    let parts = vertex_parts(alloc, cluster, blocks)?;
    vertices_answer(alloc, columns, parts.as_slice())
}

fn print_edges(
    alloc: Global,
    columns: Option<&RowType>,
    cluster: &Cluster<Block>,
    blocks: &[BlockId],
) -> Result<Answer, NoMemory>
    ensures { IfOk result (λ answer. answer_record answer
        ≡ answer_with_edges (option_copied columns.entry)
        (flat_map edges_held (held_contents cluster.now.held blocks.now))) }
{
    let parts = edge_parts(alloc, cluster, blocks)?;
    edges_answer(alloc, columns, parts.as_slice())
}

fn count_vertices(
    alloc: Global,
    cluster: &Cluster<Block>,
    blocks: &[BlockId],
) -> Result<Answer, NoMemory>
    requires few { length blocks.now ≤ 128 }
    ensures { IfOk result (λ answer. answer_record answer ≡ count_answer
        (length (flat_map vertices_held (held_contents cluster.now.held blocks.now)))) }
{
    let parts = vertex_parts(alloc, cluster, blocks)?;
    vertex_count_answer(alloc, parts.as_slice())
}

fn count_edges(
    alloc: Global,
    cluster: &Cluster<Block>,
    blocks: &[BlockId],
) -> Result<Answer, NoMemory>
    requires few { length blocks.now ≤ 128 }
    ensures { IfOk result (λ answer. answer_record answer ≡ count_answer
        (length (flat_map edges_held (held_contents cluster.now.held blocks.now)))) }
{
    let parts = edge_parts(alloc, cluster, blocks)?;
    edge_count_answer(alloc, parts.as_slice())
}
