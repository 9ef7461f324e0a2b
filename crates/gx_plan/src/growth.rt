//! Plans that grow: the nodes of one more statement.

ghost use Rattle.std.specs.Prelude.{◌≡◌, ◌+◌, ◌-◌, ◌<◌, ◌≤◌, ◌++◌, ◌^◌, All, IfOk, None, OnErr, OnOk, get_or, length};
ghost use Rattle.std.specs.List.{AllByRecursion};
ghost use Rattle.gx_types_stmts.specs.StmtNumbers.{named_numbers};
ghost use Rattle.gx_plan.specs.PlanInvariant.{IsFrontOf, IsPlan, MayPush, MayPushAll};
ghost use Rattle.gx_plan.specs.Plans as plans;
ghost use Rattle.gx_plan.specs.Plans.{IsAdded, first_planned, input_of, inputs_of, with_number, with_recipe, with_recipes};
ghost use Rattle.gx_plan.specs.StmtNodes as nodes;
ghost use Rattle.gx_plan.specs.StmtNodes.{statement_of};

use crate::stmt_nodes::{inherits, own_kinds};
use crate::{Feed, Kind, Plan, Recipe, ResultNodes};
use gx_lineage::{Input, NodeId};
use gx_rows::NoMemory;
use gx_types::TypedStmt;

impl Plan {
    /// Adds statement `s`, counted from 1: the nodes that it adds, and the nodes of its result. All
    /// statements that it names were added, and it was not.
    ///
    /// # Errors
    ///
    /// `NoMemory` if memory for the nodes runs out. The plan is then unchanged.
    pub fn extend(&mut self, s: u32) -> Result<(), NoMemory>
        requires from_one { 1 ≤ s }
        requires within { s ≤ length self.old.source.script }
        requires fresh { get_or self.old.planned.results (s - 1) None ≡ None }
        requires named { AllByRecursion (IsAdded self.old.planned)
            (named_numbers (statement_of self.old.source.script s)) }
        ensures added { OnOk result (self.new
            ≡ record self.old { planned = with_number self.old.source self.old.planned s }) }
        ensures front { OnOk result (IsFrontOf self.old.planned self.new.planned) }
        ensures unchanged { OnErr result (self.new ≡ self.old) }
    {
        self.nodes_are_fed();
        let kinds = self.own_kinds(s)?;
        if kinds.len() as u64 > u64::MAX - self.dag.len() {
            return Err(NoMemory);
        }
        let found = self.result(self.statement(s), kinds.as_slice());
        let recipes = self.own_recipes(s)?;
        self.push_each(recipes.as_slice())?;
        self.set_result(s, found);
        Ok(())
    }

    // The kinds of the nodes that statement `s` adds.
    fn own_kinds(&self, s: u32) -> Result<Vec<Kind>, NoMemory>
        requires from_one { 1 ≤ s }
        requires within { s ≤ length self.now.source.script }
        ensures { IfOk result
            (λ ks. ks.items ≡ nodes.own_kinds (statement_of self.now.source.script s)) }
    {
        own_kinds(self.alloc, self.statement(s))
    }

    // Statement `s` has this result.
    fn set_result(&mut self, s: u32, found: ResultNodes)
        requires from_one { 1 ≤ s }
        requires within { s ≤ length self.old.source.script }
        requires plan { IsPlan self.old.source (plans.with_result self.old.planned s found) }
        ensures { self.new
            ≡ record self.old { planned = plans.with_result self.old.planned s found } }
    {
        self.results[s as usize - 1] = Some(found);
    }

    // Adds the nodes of these recipes, one after the other, or none.
    fn push_each(&mut self, recipes: &[Recipe]) -> Result<(), NoMemory>
        requires may { MayPushAll self.old.source self.old.planned recipes.now }
        requires room { length self.old.planned.lineage.nodes + length recipes.now < 2 ^ 64 }
        ensures pushed { OnOk result (self.new ≡ record self.old {
          planned = with_recipes self.old.source self.old.planned recipes.now;
        }) }
        ensures unchanged { OnErr result (self.new ≡ self.old) }
    {
        let Some((r, rest)) = recipes.split_first() else {
            return Ok(());
        };
        let len = self.dag.len();
        self.push(*r)?;
        if let Err(stop) = self.push_each(rest) {
            self.truncate(len);
            return Err(stop);
        }
        Ok(())
    }

    // Removes the nodes from `len` on.
    fn truncate(&mut self, len: u64)
        requires within { len ≤ length self.old.planned.lineage.nodes }
        requires plan { IsPlan self.old.source (first_planned len self.old.planned) }
        ensures { self.new ≡ record self.old { planned = first_planned len self.old.planned } }
    {
        self.dag.truncate(len);
        self.recipes.truncate(len as usize);
    }

    // Adds the node of this recipe.
    fn push(&mut self, r: Recipe) -> Result<(), NoMemory>
        requires may { MayPush self.old.source self.old.planned r }
        requires room { length self.old.planned.lineage.nodes < 18446744073709551615 }
        ensures pushed { OnOk result (self.new
            ≡ record self.old { planned = with_recipe self.old.source self.old.planned r }) }
        ensures unchanged { OnErr result (self.new ≡ self.old) }
    {
        let inputs = self.inputs(r)?;
        let node_kind = r.kind.node_kind(self.statement(r.statement));
        let len = self.recipes.len();
        self.recipes.push(r)?;
        if let Err(stop) = self.dag.add(node_kind, inputs.as_slice()) {
            self.recipes.truncate(len);
            return Err(stop);
        }
        Ok(())
    }

    // The inputs of the node of this recipe.
    fn inputs(&self, r: Recipe) -> Result<Vec<Input>, NoMemory>
        requires may { MayPush self.now.source self.now.planned r }
        ensures exact { IfOk result (λ is. is.items
            ≡ inputs_of self.now.planned (nodes.feeds self.now.source r)) }
        ensures earlier { IfOk result (λ is.
            All (λ x. x.node.0 < length self.now.planned.lineage.nodes) is.items) }
    {
        let mut inputs = Vec::new(self.alloc);
        for feed in &self.feeds(r)? {
            self.push_input(&mut inputs, feed)?;
        }
        Ok(inputs)
    }

    // Adds the input of a node that reads this.
    fn push_input(&self, inputs: &mut Vec<Input>, feed: &Feed) -> Result<(), NoMemory>
        ensures { OnOk result
            (inputs.new.items ≡ inputs.old.items ++ input_of self.now.planned feed.now) }
    {
        if let Some(node) = self.node(feed.recipe) {
            let pattern = feed.pattern;
            inputs.push(Input { node, pattern })?;
        }
        Ok(())
    }

    // The nodes of the result of a statement, if nodes of these kinds are its own.
    fn result(&self, stmt: &TypedStmt, kinds: &[Kind]) -> ResultNodes
        requires kinds { kinds.now ≡ nodes.own_kinds stmt.now }
        requires room { length self.now.planned.lineage.nodes + length kinds.now < 2 ^ 64 }
        ensures { result ≡ plans.result_of self.now.planned stmt.now }
    {
        ResultNodes {
            vertices: self.result_node(Kind::Vertices, stmt, kinds),
            edges: self.result_node(Kind::Edges, stmt, kinds),
        }
    }

    fn result_node(&self, kind: Kind, stmt: &TypedStmt, kinds: &[Kind]) -> Option<NodeId>
        requires kinds { kinds.now ≡ nodes.own_kinds stmt.now }
        requires room { length self.now.planned.lineage.nodes + length kinds.now < 2 ^ 64 }
        ensures { result ≡ plans.result_node self.now.planned kind stmt.now }
    {
        if let Some(node) = own_node(self.dag.len(), kind, kinds) {
            return Some(node);
        }
        self.node(Recipe::of(kind, inherits(kind, stmt)?))
    }
}

// The node of kind `kind`, if nodes of these kinds are added from number `n` on.
fn own_node(n: u64, kind: Kind, kinds: &[Kind]) -> Option<NodeId>
    requires room { n + length kinds.now < 2 ^ 64 }
    ensures { result ≡ plans.own_node n kind kinds.now }
{
    let (first, rest) = kinds.split_first()?;
    if kind.is(*first) {
        return Some(NodeId(n));
    }
    own_node(n + 1, kind, rest)
}
