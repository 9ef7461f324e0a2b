//! The work of a planned script.

ghost use Rattle.std.specs.Prelude.{◌≡◌, ◌≤◌, ◌-◌, IfOk, None, OnErr, OnOk, get_or, length};
ghost use Rattle.std.specs.List.{AllByRecursion};
ghost use Rattle.gx_cluster.specs.States.{AreContents};
ghost use Rattle.gx_cluster_state.specs.Values.{pointed_values};
ghost use Rattle.gx_exec_contents.specs.BlockContents.{recipe_of_block};
ghost use Rattle.gx_exec_contents.specs.MadeBlocks.{made_by};
ghost use Rattle.gx_exec_contents.specs.Worlds.{IsSetting, IsWorld, source_of};
ghost use Rattle.gx_exec_work.specs.FittingInputs.{contents_of_inputs-fit};
ghost use Rattle.gx_exec_work.specs.Works.{FitsBlock, IsContentOf, freight_of, shown, shown_blocks};
ghost use Rattle.gx_lineage.specs.Lineage.{IsBlock, block_inputs};
ghost use Rattle.gx_plan.specs.PlanInvariant.{IsFrontOf};
ghost use Rattle.gx_plan.specs.Plans.{IsAdded, empty_plan, with_number};
ghost use Rattle.gx_plan.specs.StmtNodes.{statement_of};
ghost use Rattle.gx_types_stmts.specs.StmtNumbers.{named_numbers};

use crate::Block;
use gx_cluster::{Cargo, Work};
use gx_exec_loads::LoadedParts;
use gx_lineage::{BlockId, Dag};
use gx_load::Loads;
use gx_plan::Plan;
use gx_rows::{Cut, NoMemory};
use gx_types::Typed;
use std::alloc::Global;
use std::marker::Model;
use std::rc::Rc;

/// The work of a script: its loaded rows, and the plan of the statements that were added. Contracts
/// see it as the world and what was planned.
#[derive(Drop)]
pub struct GraphWork {
    plan: Plan,
    pub(crate) loads: LoadedParts,
    pub(crate) alloc: Global,
}

impl Model for GraphWork {
    ghost use Rattle.gx_exec_work.specs.Works.{IsWork, PlannedWorld};
    ghost use Rattle.std.specs.Coded.{codes};
    ghost use Rattle.gx_expr.specs.contracts.expr.Expr as expr;

    ghost Value = { PlannedWorld };

    ghost coded = { Prim.hlevel (codes, expr.the_row.coded) };

    ghost view = { λ g. record { world = g.loads; planned = g.plan.planned } };

    ghost invariant = { λ g. IsWork g.loads g.plan };
}

impl GraphWork {
    /// The work of a script with its loaded rows, of which no statement was added. Each node will
    /// have `parts` parts, and the edges of loads are placed by `cut`.
    ///
    /// # Errors
    ///
    /// `NoMemory` if memory for the plan or for the places of the rows runs out, or if a load has
    /// 2^32 rows or more.
    pub fn new(
        alloc: Global,
        typed: Typed,
        loads: Loads,
        parts: u32,
        cut: Cut,
    ) -> Result<GraphWork, NoMemory>
        requires nonzero { 1 ≤ parts }
        requires within_limit { parts ≤ 64 }
        ensures { IfOk result (λ work. work ≡ record {
          world = record { script = typed; loads = loads; parts = parts; cut = cut };
          planned = empty_plan parts (length typed);
        }) }
    {
        let typed = Rc::new(alloc, typed)?;
        let loads = LoadedParts::new(alloc, typed.clone()?, loads, parts, cut)?;
        let plan = Plan::new(alloc, typed, parts, cut)?;
        plan.nodes_are_fed();
        may_run(&plan, &loads);
        Ok(GraphWork { plan, loads, alloc })
    }

    /// The plan.
    pub fn plan(&self) -> &Plan
        ensures source { result.now.source ≡ source_of self.now.world }
        ensures planned { result.now.planned ≡ self.now.planned }
    {
        &self.plan
    }

    /// Tells the law of each work: its world may be run, and the plan is one of its script. It does
    /// nothing.
    pub fn is_set(&self)
        ensures { IsSetting self.now.world self.now.planned }
    {
        let _ = &self.plan;
    }

    /// Adds statement `s`, counted from 1, to the plan: all statements that it names were added, and
    /// it was not.
    ///
    /// # Errors
    ///
    /// `NoMemory` if memory for the nodes runs out. The plan is then unchanged.
    pub fn extend(&mut self, s: u32) -> Result<(), NoMemory>
        requires from_one { 1 ≤ s }
        requires within { s ≤ length self.old.world.script }
        requires fresh { get_or self.old.planned.results (s - 1) None ≡ None }
        requires named { AllByRecursion (IsAdded self.old.planned)
            (named_numbers (statement_of self.old.world.script s)) }
        ensures added { OnOk result (self.new ≡ record self.old {
          planned = with_number (source_of self.old.world) self.old.planned s;
        }) }
        ensures front { OnOk result (IsFrontOf self.old.planned self.new.planned) }
        ensures unchanged { OnErr result (self.new ≡ self.old) }
    {
        let extended = self.plan.extend(s);
        self.plan.nodes_are_fed();
        extended
    }
}

// Tells that a script that is well typed may be run. It does nothing.
fn may_run(plan: &Plan, loads: &LoadedParts)
    requires source { plan.now.source ≡ source_of loads.now }
    requires some_parts { 1 ≤ loads.now.parts }
    ensures { IsWorld loads.now }
{
    plan.nodes_are_fed();
    plan.typed().statements_are_sound();
}

impl Work<Block> for GraphWork {
    ghost lineage = { λ e. e.planned.lineage };

    ghost content = { λ e b t. IsContentOf e b t };

    ghost fits = { λ e b ts. FitsBlock e b ts };

    ghost freight = { λ e b. freight_of e.world e.planned b };

    fn dag(&self) -> &Dag {
        self.is_set();
        self.plan.dag()
    }

    fn run(&self, b: BlockId, inputs: &[Rc<Block>]) -> Result<Block, NoMemory>
        requires { FitsBlock self.now b (pointed_values inputs.now) }
        ensures contents { IsBlock self.now.planned.lineage b
            → AreContents (IsContentOf self.now) (block_inputs self.now.planned.lineage b)
            (pointed_values inputs.now)
            → IfOk result (IsContentOf self.now b) }
        ensures made { IfOk result (λ t. shown t
            ≡ made_by self.now.world (recipe_of_block self.now.planned b) b.part
            (shown_blocks (pointed_values inputs.now))) }
    {
        self.is_set();
        self.make(b, inputs)
    }

    fn cargo(&self, b: BlockId, value: &Block) -> Result<Cargo, NoMemory> {
        let _ = b;
        let _ = value;
        Ok(Cargo::of(Vec::new(self.alloc)))
    }

    ghost fits_contents = { λ e b ts block h. contents_of_inputs-fit e b ts block h };
}
