//! The plan of a script.

ghost use Rattle.std.specs.Prelude.{◌≡◌, ◌<◌, ◌≤◌, ◌-◌, ◌++◌, ◌∷◌, [], IfOk, None, OnOk, false, get_or, length, map, true};
ghost use Rattle.std.specs.Option.{option_to_list};
ghost use Rattle.gx_lineage.specs.Lineage.{IsSound};
ghost use Rattle.gx_types.specs.SoundStmts.{AreRun};
ghost use Rattle.gx_plan.specs.PlanInvariant.{HasNodeFor, IsPlan};
ghost use Rattle.gx_plan.specs.PlanLaws.{HasSorts, MoveByEnds};
ghost use Rattle.gx_plan.specs.Plans.{IsAdded, empty_plan, node_of, nodes_of, phase_at, phases_of, recipe_at};
ghost use Rattle.gx_plan.specs.Recipes.{recipe_of};
ghost use Rattle.gx_plan.specs.StmtNodes as nodes;
ghost use Rattle.gx_plan.specs.StmtNodes.{statement_of};
ghost use Rattle.gx_plan.specs.declared.kind.Kind.TheVariants as kinds;

use crate::stmt_nodes::{demanded_by, own_kinds};
use crate::{Kind, Recipe, ResultNodes};
use gx_lineage::{Dag, NodeId};
use gx_rows::{Cut, NoMemory};
use gx_types::{Typed, TypedStmt};
use std::alloc::Global;
use std::marker::Model;
use std::rc::Rc;

/// The lineage of a script, of which one statement after the other is added. Contracts see it as the
/// script, the cut of its loads, and what was planned: the lineage, the recipe of each node, and the
/// nodes of the result of each statement.
#[derive(Drop)]
pub struct Plan {
    pub(crate) typed: Rc<Typed>,
    cut: Cut,
    pub(crate) dag: Dag,
    pub(crate) recipes: Vec<Recipe>,
    pub(crate) results: Vec<Option<ResultNodes>>,
    pub(crate) alloc: Global,
}

impl Model for Plan {
    ghost use Rattle.gx_plan.specs.PlanInvariant.{IsPlan};
    ghost use Rattle.gx_plan.specs.Plans.{PlannedScript};
    ghost use Rattle.std.specs.Coded.{codes};
    ghost use Rattle.gx_expr.specs.contracts.expr.Expr as expr;

    ghost Value = { PlannedScript };

    ghost coded = { Prim.hlevel (codes, expr.the_row.coded) };

    ghost view = { λ p. record {
      source = record { script = p.typed.value; cut = p.cut };
      planned = record {
        lineage = p.dag;
        recipes = p.recipes.items;
        results = p.results.items;
      };
    } };

    ghost invariant = { λ p. IsPlan (record { script = p.typed.value; cut = p.cut }) (record {
      lineage = p.dag;
      recipes = p.recipes.items;
      results = p.results.items;
    }) };
}

impl Plan {
    /// A plan of this script in which no statement was added. Each node will have `parts` parts, and
    /// the edges of loads are placed by `cut`.
    ///
    /// # Errors
    ///
    /// `NoMemory` if memory for the results of the statements runs out.
    pub fn new(alloc: Global, typed: Rc<Typed>, parts: u32, cut: Cut) -> Result<Plan, NoMemory>
        requires nonzero { 1 ≤ parts }
        requires within_limit { parts ≤ 64 }
        ensures { IfOk result (λ p. p ≡ record {
          source = record { script = typed.value; cut = cut };
          planned = empty_plan parts (length typed.value);
        }) }
    {
        let results = Vec::from_elem(alloc, None, typed.len() as usize)?;
        Ok(Plan {
            typed,
            cut,
            dag: Dag::new(alloc, parts),
            recipes: Vec::new(alloc),
            results,
            alloc,
        })
    }

    /// The lineage.
    pub fn dag(&self) -> &Dag
        ensures { result.now ≡ self.now.planned.lineage }
    {
        &self.dag
    }

    /// The script.
    pub fn typed(&self) -> &Typed
        ensures { result.now ≡ self.now.source.script }
    {
        &self.typed
    }

    /// How the edges of loads are placed.
    pub fn cut(&self) -> Cut
        ensures { result ≡ self.now.source.cut }
    {
        self.cut
    }

    /// Tells laws of each plan: its nodes are fed by what their recipes read, its results are at the
    /// nodes of their owners, and its lineage is sound; and of its script: what a statement reads or
    /// takes over is made by an earlier one, all statements are run, and `partition` places edges by
    /// their ends. It does nothing.
    pub fn nodes_are_fed(&self)
        ensures plan { IsPlan self.now.source self.now.planned }
        ensures sound { IsSound self.now.planned.lineage }
        ensures sorts { HasSorts self.now.source }
        ensures run { AreRun self.now.source.script }
        ensures by_ends { MoveByEnds self.now.source.script }
    {
        let _len = self.dag.len();
        self.typed.statements_are_sound();
    }

    /// Whether statement `s`, counted from 1, was added.
    pub fn is_added(&self, s: u32) -> bool
        requires from_one { 1 ≤ s }
        requires within { s ≤ length self.now.source.script }
        ensures added { result ≡ true → IsAdded self.now.planned s }
        ensures fresh { result ≡ false → get_or self.now.planned.results (s - 1) None ≡ None }
    {
        self.results[s as usize - 1].is_some()
    }

    /// How the blocks of a node are made.
    pub fn recipe(&self, n: NodeId) -> Recipe
        requires { n.0 < length self.now.planned.lineage.nodes }
        ensures { result ≡ recipe_at self.now.planned.recipes n.0 }
    {
        self.recipes[n.0 as usize]
    }

    /// The node of the rows of a statement's result: of a table, or of the vertices of a graph.
    /// `None` exactly if the result has no such rows.
    pub fn vertices_of(&self, s: u32) -> Option<NodeId>
        requires added { IsAdded self.now.planned s }
        ensures node { result ≡ node_of self.now.planned (recipe_of kinds.Vertices s) }
        ensures owned { HasNodeFor self.now.source.script self.now.planned (recipe_of kinds.Vertices s) }
    {
        self.nodes_are_fed();
        self.node(Recipe::of(Kind::Vertices, s))
    }

    /// The node of the edges of a statement's result. `None` exactly if the result has no edges.
    pub fn edges_of(&self, s: u32) -> Option<NodeId>
        requires added { IsAdded self.now.planned s }
        ensures node { result ≡ node_of self.now.planned (recipe_of kinds.Edges s) }
        ensures owned { HasNodeFor self.now.source.script self.now.planned (recipe_of kinds.Edges s) }
    {
        self.nodes_are_fed();
        self.node(Recipe::of(Kind::Edges, s))
    }

    /// The target nodes of each phase of a statement, in order: those that it added, each in a phase
    /// of its own. For an action it is the one demand. A phase without a node is left out.
    ///
    /// # Errors
    ///
    /// `NoMemory` if memory for the lists runs out.
    pub fn phases(&self, s: u32) -> Result<Vec<Vec<NodeId>>, NoMemory>
        requires from_one { 1 ≤ s }
        requires within { s ≤ length self.now.source.script }
        ensures { IfOk result (λ phases. map (λ v. v.items) phases.items
            ≡ phases_of self.now.source.script self.now.planned s) }
    {
        let stmt = self.statement(s);
        let mut phases = Vec::new(self.alloc);
        for kind in &own_kinds(self.alloc, stmt)? {
            let own = self.targets(Some(Recipe::of(*kind, s)))?;
            push_phase(&mut phases, own)?;
        }
        push_phase(&mut phases, self.demanded(stmt)?)?;
        Ok(phases)
    }

    // The nodes that an action demands.
    fn demanded(&self, stmt: &TypedStmt) -> Result<Vec<NodeId>, NoMemory>
        ensures { IfOk result (λ ns. ns.items
            ≡ nodes_of self.now.planned (nodes.demanded_by stmt.now)) }
    {
        self.targets(demanded_by(stmt))
    }

    // The node of a recipe, if there is one, as the targets of a phase.
    fn targets(&self, r: Option<Recipe>) -> Result<Vec<NodeId>, NoMemory>
        ensures { IfOk result (λ ns. ns.items ≡ nodes_of self.now.planned (option_to_list r)) }
    {
        let mut targets = Vec::new(self.alloc);
        if let Some(r) = r {
            self.push_target(&mut targets, r)?;
        }
        Ok(targets)
    }

    fn push_target(&self, targets: &mut Vec<NodeId>, r: Recipe) -> Result<(), NoMemory>
        ensures { OnOk result (targets.new.items
            ≡ targets.old.items ++ nodes_of self.now.planned (r ∷ [])) }
    {
        if let Some(node) = self.node(r) {
            targets.push(node)?;
        }
        Ok(())
    }

    // The node at which a recipe is found.
    pub(crate) fn node(&self, r: Recipe) -> Option<NodeId>
        ensures { result ≡ node_of self.now.planned r }
    {
        match self.results.get(r.statement.saturating_sub(1) as usize) {
            Some(Some(nodes)) => nodes.node(r.kind),
            _ => None,
        }
    }

    // Statement `s`.
    pub(crate) fn statement(&self, s: u32) -> &TypedStmt
        requires from_one { 1 ≤ s }
        requires within { s ≤ length self.now.source.script }
        ensures { result.now ≡ statement_of self.now.source.script s }
    {
        self.typed.statement(s)
    }
}

// Adds the phase of these nodes, if there are some.
fn push_phase(phases: &mut Vec<Vec<NodeId>>, targets: Vec<NodeId>) -> Result<(), NoMemory>
    ensures { OnOk result (map (λ v. v.items) phases.new.items
        ≡ map (λ v. v.items) phases.old.items ++ phase_at targets.items) }
{
    if !targets.is_empty() {
        phases.push(targets)?;
    }
    Ok(())
}
