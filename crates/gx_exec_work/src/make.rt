//! From the inputs of a block to the block, by the recipe of its node.
//!
//! To compute the blocks of one more statement, add its arm in `make_vertices` or `make_edges`, with
//! its line in specs/MadeTables.antt.

ghost use Rattle.std.specs.Prelude.{◌≡◌, ◌<◌, ◌≤◌, IfOk, length};
ghost use Rattle.gx_cluster_state.specs.Values.{pointed_values};
ghost use Rattle.gx_exec_contents.specs.BlockContents.{recipe_of_block};
ghost use Rattle.gx_exec_contents.specs.MadeBlocks.{made_by, made_kind};
ghost use Rattle.gx_exec_work.specs.MadeTables.{graph_made, made_vertices};
ghost use Rattle.gx_exec_work.specs.Works.{FitsBlock, shown, shown_blocks};
ghost use Rattle.gx_lineage.specs.Lineage.{IsBlock};
ghost use Rattle.gx_plan.specs.PlanInvariant.{IsOwnRecipe};
ghost use Rattle.gx_plan.specs.StmtNodes.{statement_of};
ghost use Rattle.gx_plan.specs.declared.kind.Kind.TheVariants as kinds;

use crate::inputs::{first_stop, first_table, rest_of};
use crate::kernels::{
    changed, completed, edges_block, empty_block, joined, kept, left_joined, mapped, moved,
    no_edges, subtracted, table_block,
};
use crate::{Block, GraphWork};
use gx_lineage::BlockId;
use gx_plan::{Kind, Recipe};
use gx_rows::{NoMemory, Row};
use gx_types::TypedStmt;
use std::rc::Rc;

impl GraphWork {
    /// Computes a block from its inputs: stopped if one of them is, and else by the recipe of its
    /// node. They need not be contents; what counts is what they hold.
    ///
    /// # Errors
    ///
    /// `NoMemory` if memory for the block runs out.
    pub fn make(&self, b: BlockId, inputs: &[Rc<Block>]) -> Result<Block, NoMemory>
        requires fits { FitsBlock self.now b (pointed_values inputs.now) }
        ensures made { IfOk result (λ t. shown t
            ≡ made_by self.now.world (recipe_of_block self.now.planned b) b.part
            (shown_blocks (pointed_values inputs.now))) }
    {
        if let Some(stop) = first_stop(inputs)? {
            return Ok(stop);
        }
        self.make_by(self.recipe(b), b.part, inputs)
    }

    // The recipe of the node of a block.
    fn recipe(&self, b: BlockId) -> Recipe
        requires { IsBlock self.now.planned.lineage b }
        ensures is { result ≡ recipe_of_block self.now.planned b }
        ensures own { IsOwnRecipe self.now.world.script result }
        ensures in_range { b.part < self.now.world.parts }
    {
        self.is_set();
        self.plan().recipe(b.node)
    }

    // Statement `s`.
    fn statement(&self, s: u32) -> &TypedStmt
        requires from_one { 1 ≤ s }
        requires within { s ≤ length self.now.world.script }
        ensures { result.now ≡ statement_of self.now.world.script s }
    {
        self.plan().typed().statement(s)
    }

    // Part `part` of a node of this recipe, of inputs that are not stopped.
    fn make_by(&self, r: Recipe, part: u32, inputs: &[Rc<Block>]) -> Result<Block, NoMemory>
        requires own { IsOwnRecipe self.now.world.script r }
        requires in_range { part < self.now.world.parts }
        ensures { IfOk result (λ t. shown t
            ≡ made_kind self.now.world r.kind r part
            (statement_of self.now.world.script r.statement)
            (shown_blocks (pointed_values inputs.now))) }
    {
        match r.kind {
            Kind::Vertices => self.make_vertices(r, part, inputs),
            Kind::Edges => self.make_edges(r, part, inputs),
        }
    }

    // Part `part` of the vertices of a statement, by their recipe.
    fn make_vertices(&self, r: Recipe, part: u32, inputs: &[Rc<Block>]) -> Result<Block, NoMemory>
        requires from_one { 1 ≤ r.statement }
        requires within { r.statement ≤ length self.now.world.script }
        requires in_range { part < self.now.world.parts }
        ensures { IfOk result (λ t. shown t
            ≡ made_vertices self.now.world r part
            (statement_of self.now.world.script r.statement)
            (shown_blocks (pointed_values inputs.now))) }
    {
        match self.statement(r.statement) {
            TypedStmt::Vertices { .. } => {
                table_block(self.alloc, self.loads.vertices(r.statement, part)?)
            }
            TypedStmt::Graph { default, .. } => self.graph(part, inputs, default),
            TypedStmt::FromEdges { row, .. } => {
                completed(self.alloc, None, inputs, row, part, self.loads.parts())
            }
            TypedStmt::MapVertices { sets, .. } | TypedStmt::MapValues { sets, .. } => {
                mapped(self.alloc, inputs, sets.as_slice())
            }
            TypedStmt::Filter { condition, .. } => kept(self.alloc, inputs, condition),
            TypedStmt::Minus { .. } => subtracted(self.alloc, inputs),
            TypedStmt::Diff { .. } => changed(self.alloc, inputs),
            TypedStmt::InnerJoin { sets, .. } => joined(self.alloc, inputs, sets.as_slice()),
            TypedStmt::LeftJoin { default, sets, .. } => {
                left_joined(self.alloc, inputs, default, sets.as_slice())
            }
            _ => empty_block(self.alloc),
        }
    }

    // Part `part` of the edges of a statement, by their recipe.
    fn make_edges(&self, r: Recipe, part: u32, inputs: &[Rc<Block>]) -> Result<Block, NoMemory>
        requires from_one { 1 ≤ r.statement }
        requires within { r.statement ≤ length self.now.world.script }
        requires in_range { part < self.now.world.parts }
        ensures { IfOk result (λ t. shown t
            ≡ made_kind self.now.world kinds.Edges r part
            (statement_of self.now.world.script r.statement)
            (shown_blocks (pointed_values inputs.now))) }
    {
        self.is_set();
        match self.statement(r.statement) {
            TypedStmt::Edges { .. } | TypedStmt::EdgeList { .. } => {
                edges_block(self.alloc, self.loads.edges(r.statement, part)?)
            }
            TypedStmt::Partition { cut, .. } => {
                moved(self.alloc, inputs, *cut, part, self.loads.parts())
            }
            _ => no_edges(self.alloc),
        }
    }

    // Part `part` of the vertices of a graph, by its table and its edges.
    fn graph(&self, part: u32, inputs: &[Rc<Block>], default: &Row) -> Result<Block, NoMemory>
        requires in_range { part < self.now.world.parts }
        ensures { IfOk result (λ t. shown t
            ≡ graph_made self.now.world part default.now
            (shown_blocks (pointed_values inputs.now))) }
    {
        let Some(table) = first_table(self.alloc, inputs)? else {
            return empty_block(self.alloc);
        };
        let edges = rest_of(inputs);
        completed(
            self.alloc,
            Some(&table),
            edges,
            default,
            part,
            self.loads.parts(),
        )
    }
}
