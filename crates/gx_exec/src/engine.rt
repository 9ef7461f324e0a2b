//! The engine.

ghost use Rattle.std.specs.Prelude.{
  ◌≡◌,
  ◌≤◌,
  ◌<◌,
  ◌^◌,
  ◌-◌,
  ◌++◌,
  ◌↔◌,
  IfOk,
  IsSome,
  IsTrue,
  OnErr,
  OnOk,
  Some,
  false,
  length,
  map,
  slice_get,
};
ghost use Rattle.std.specs.List.{range_with_len};
ghost use Rattle.gx_exec.specs.Courses.{targets_of, was_added};
ghost use Rattle.gx_exec.specs.Engines.{IsSteady, MayForce, action_answer, with_stmt};
ghost use Rattle.gx_exec_contents.specs.Worlds.{IsSetting, loaded_in};
ghost use Rattle.gx_lineage.specs.Lineage.{blocks_at};
ghost use Rattle.gx_model.specs.ScriptMeaning.{stmts_in};
ghost use Rattle.gx_plan.specs.Plans.{empty_plan, phases_of};

use gx_exec_work::GraphWork;
use gx_lineage::{BlockId, NodeId};
use gx_load::Loads;
use gx_rows::{Cut, NoMemory};
use gx_types::{Typed, TypedStmt};
use std::alloc::Global;
use std::marker::Model;

/// A script with its loaded rows, of which statements are run on demand. Contracts see it as the
/// world and what was planned.
#[derive(Drop)]
pub struct Engine {
    pub(crate) work: GraphWork,
    pub(crate) alloc: Global,
}

impl Model for Engine {
    ghost use Rattle.gx_exec_work.specs.Works.{PlannedWorld};
    ghost use Rattle.std.specs.Coded.{codes};
    ghost use Rattle.gx_expr.specs.contracts.expr.Expr as expr;

    ghost Value = { PlannedWorld };

    ghost coded = { Prim.hlevel (codes, expr.the_row.coded) };

    ghost view = { λ e. e.work };
}

impl Engine {
    /// The engine of a script and its loaded rows, in which no statement was added. Each node of
    /// the plan will have `parts` parts, and the edges of loads are placed by `cut`.
    ///
    /// # Errors
    ///
    /// `NoMemory` if memory for the plan or for the places of the rows runs out.
    pub fn new(
        alloc: Global,
        typed: Typed,
        loads: Loads,
        parts: u32,
        cut: Cut,
    ) -> Result<Engine, NoMemory>
        requires nonzero { 1 ≤ parts }
        requires within_limit { parts ≤ 64 }
        ensures engine { IfOk result (λ e. e ≡ record {
          world = record { script = typed; loads = loads; parts = parts; cut = cut };
          planned = empty_plan parts (length typed);
        }) }
        ensures steady { IfOk result IsSteady }
    {
        let work = GraphWork::new(alloc, typed, loads, parts, cut)?;
        Ok(Engine { work, alloc })
    }

    /// The number of statements.
    pub fn len(&self) -> u32
        ensures count { result ≡ length self.now.world.script }
        ensures few { length self.now.world.script < 2 ^ 32 }
    {
        self.work.plan().typed().len()
    }

    /// Whether statement `s`, counted from 1, is an action that is run.
    pub fn is_action(&self, s: u32) -> bool
        requires from_one { 1 ≤ s }
        requires within { s ≤ length self.now.world.script }
        ensures { IsTrue result ↔ IsSome (action_answer (loaded_in self.now.world) s) }
    {
        matches!(
            self.statement(s),
            TypedStmt::PrintVertices { .. }
                | TypedStmt::PrintEdges { .. }
                | TypedStmt::PrintTable { .. }
                | TypedStmt::CountVertices { .. }
                | TypedStmt::CountEdges { .. }
                | TypedStmt::CountTable { .. }
        )
    }

    // Statement `s`, counted from 1.
    pub(crate) fn statement(&self, s: u32) -> &TypedStmt
        requires from_one { 1 ≤ s }
        requires within { s ≤ length self.now.world.script }
        ensures { slice_get (stmts_in (loaded_in self.now.world)) (s - 1) ≡ Some result.now }
    {
        self.work.plan().typed().statement(s)
    }

    // Tells the law of each engine: its world may be run, and the plan is one of its script. It
    // does nothing.
    pub(crate) fn is_set(&self)
        ensures { IsSetting self.now.world self.now.planned }
    {
        self.work.is_set();
    }

    // The number of parts of each node, 1 to 64.
    pub(crate) fn parts(&self) -> u32
        ensures count { result ≡ self.now.world.parts }
        ensures within_limit { result ≤ 64 }
    {
        self.is_set();
        self.work.plan().dag().parts()
    }

    // Whether statement `s` was added.
    pub(crate) fn is_added(&self, s: u32) -> bool
        requires from_one { 1 ≤ s }
        requires within { s ≤ length self.now.world.script }
        ensures { result ≡ was_added self.now.planned s }
    {
        self.work.plan().is_added(s)
    }

    // Adds statement `s` to the plan.
    pub(crate) fn extend(&mut self, s: u32) -> Result<(), NoMemory>
        requires may { MayForce self.old s }
        requires fresh { was_added self.old.planned s ≡ false }
        ensures added { OnOk result (self.new ≡ with_stmt self.old s) }
        ensures unchanged { OnErr result (self.new ≡ self.old) }
    {
        self.work.extend(s)
    }

    // The target nodes of each phase of statement `s`.
    pub(crate) fn phases(&self, s: u32) -> Result<Vec<Vec<NodeId>>, NoMemory>
        requires from_one { 1 ≤ s }
        requires within { s ≤ length self.now.world.script }
        ensures { IfOk result (λ lists. map (λ v. v.items) lists.items
            ≡ phases_of self.now.world.script self.now.planned s) }
    {
        self.work.plan().phases(s)
    }

    // Adds to `blocks` all blocks of these nodes.
    pub(crate) fn push_blocks(
        &self,
        blocks: &mut Vec<BlockId>,
        nodes: &[NodeId],
    ) -> Result<(), NoMemory>
        ensures { OnOk result
            (blocks.new.items ≡ blocks.old.items ++ targets_of self.now.world nodes.now) }
    {
        let parts = self.parts();
        for node in nodes {
            push_each(blocks, *node, parts)?;
        }
        Ok(())
    }
}

// Adds to `blocks` the first blocks of a node.
fn push_each(blocks: &mut Vec<BlockId>, node: NodeId, parts: u32) -> Result<(), NoMemory>
    ensures { OnOk result
        (blocks.new.items ≡ blocks.old.items ++ blocks_at node (range_with_len 0 parts)) }
{
    for part in 0..parts {
        blocks.push(BlockId { node, part })?;
    }
    Ok(())
}
