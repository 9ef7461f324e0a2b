//! Statements that are run: one statement, its phases, and one phase.

ghost use Rattle.std.specs.Prelude.{◌≡◌, ◌≢◌, ◌≤◌, ℕ, [], None, true, IfErr, OnOk, length};
ghost use Rattle.gx_cluster.specs.States.{shape};
ghost use Rattle.gx_cluster_state.specs.Shapes.{all_held};
ghost use Rattle.gx_exec.specs.Courses.{
  EndsAs,
  StopsAs,
  forced,
  phase,
  phases,
  targets_of,
  was_added,
};
ghost use Rattle.gx_exec.specs.Engines.{AreQuiet, ForcesTo, HoldsWorkOf, IsSteady, MayForce, point_of};
ghost use Rattle.gx_exec_contents.specs.Worlds.{loaded_in};
ghost use Rattle.gx_exec.specs.Phases.{AreNext, AreUnstopped, HasDemanded, MayJudge};
ghost use Rattle.gx_model.specs.ScriptMeaning.{fault_of_number};
ghost use Rattle.gx_plan.specs.PlanInvariant.{IsFrontOf};
ghost use Rattle.gx_plan.specs.Plans.{IsAdded, phases_of};

use crate::{Engine, RunStop};
use gx_cluster::{Cluster, Events};
use gx_exec_work::Block;
use gx_lineage::NodeId;
use gx_rows::NoMemory;

impl Engine {
    /// Runs statement `s`, if it was not added: its nodes are added to the plan, and phase by phase
    /// the cluster computes all blocks of the phase, up to the first phase with a fault. All
    /// statements that it names were added. `s` is not an action: `answer` runs those.
    ///
    /// # Errors
    ///
    /// The fault of the statement; `NoMemory`. The blocks that were computed stay in the cluster.
    pub fn force(
        &mut self,
        cluster: &mut Cluster<Block>,
        events: &mut Events,
        s: u32,
    ) -> Result<(), RunStop>
        requires may { MayForce self.old s }
        requires steady { IsSteady self.old }
        requires contents { HoldsWorkOf self.old cluster.old }
        requires no_events { events.old ≡ [] }
        ensures ok { OnOk result (EndsAs self.old.world
            (forced self.old.world self.old.planned s) None self.new.planned
            (point_of cluster.old events.old) (point_of cluster.new events.new)) }
        ensures stop { IfErr result (λ stop. StopsAs stop self.old.world
            (forced self.old.world self.old.planned s) self.new.planned
            (point_of cluster.old events.old) (point_of cluster.new events.new)) }
        ensures exact { ForcesTo result (fault_of_number (loaded_in self.old.world) s) }
        ensures world_kept { self.new.world ≡ self.old.world }
        ensures front { IsFrontOf self.old.planned self.new.planned }
        ensures contents_kept { HoldsWorkOf self.new cluster.new }
        ensures steady_kept { OnOk result (IsSteady self.new) }
        ensures added { OnOk result (IsAdded self.new.planned s) }
        ensures others_kept { (n : ℕ) → n ≢ s → 1 ≤ n
            → was_added self.new.planned n ≡ was_added self.old.planned n }
        ensures workers_kept { length cluster.new.running ≡ length cluster.old.running }
        ensures events_kept { events.new ≡ events.old }
    {
        self.is_set();
        if self.is_added(s) {
            return Ok(());
        }
        if let Err(_) = self.extend(s) {
            return Err(RunStop::NoMemory);
        }
        self.run_phases(cluster, events, s)
    }

    // Has the cluster compute the blocks of each phase of statement `s`, which was just added, up
    // to the first phase with a fault.
    fn run_phases(
        &self,
        cluster: &mut Cluster<Block>,
        events: &mut Events,
        s: u32,
    ) -> Result<(), RunStop>
        requires from_one { 1 ≤ s }
        requires within { s ≤ length self.now.world.script }
        requires next { AreNext self.now (phases_of self.now.world.script self.now.planned s) }
        requires contents { HoldsWorkOf self.now cluster.old }
        requires no_events { events.old ≡ [] }
        ensures ok { OnOk result (EndsAs self.now.world
            (phases self.now.world s (phases_of self.now.world.script self.now.planned s)
            self.now.planned) None self.now.planned
            (point_of cluster.old events.old) (point_of cluster.new events.new)) }
        ensures stop { IfErr result (λ stop. StopsAs stop self.now.world
            (phases self.now.world s (phases_of self.now.world.script self.now.planned s)
            self.now.planned) self.now.planned
            (point_of cluster.old events.old) (point_of cluster.new events.new)) }
        ensures quiet { OnOk result (AreQuiet self.now) }
        ensures contents_kept { HoldsWorkOf self.now cluster.new }
        ensures workers_kept { length cluster.new.running ≡ length cluster.old.running }
        ensures events_kept { events.new ≡ events.old }
    {
        self.is_set();
        let Ok(lists) = self.phases(s) else {
            return Err(RunStop::NoMemory);
        };
        for nodes in &lists {
            if let Err(stop) = self.run_phase(cluster, events, s, nodes.as_slice()) {
                return Err(stop);
            }
        }
        Ok(())
    }

    // Has the cluster compute the blocks of these nodes, and looks for the least fault of each.
    fn run_phase(
        &self,
        cluster: &mut Cluster<Block>,
        events: &mut Events,
        s: u32,
        nodes: &[NodeId],
    ) -> Result<(), RunStop>
        requires may { MayJudge self.now nodes.now }
        requires contents { HoldsWorkOf self.now cluster.old }
        requires no_events { events.old ≡ [] }
        ensures ok { OnOk result (EndsAs self.now.world
            (phase self.now.world s nodes.now self.now.planned) None self.now.planned
            (point_of cluster.old events.old) (point_of cluster.new events.new)) }
        ensures stop { IfErr result (λ stop. StopsAs stop self.now.world
            (phase self.now.world s nodes.now self.now.planned) self.now.planned
            (point_of cluster.old events.old) (point_of cluster.new events.new)) }
        ensures quiet { OnOk result (AreUnstopped self.now nodes.now) }
        ensures contents_kept { HoldsWorkOf self.now cluster.new }
        ensures workers_kept { length cluster.new.running ≡ length cluster.old.running }
        ensures events_kept { events.new ≡ events.old }
    {
        self.is_set();
        if let Err(_) = self.compute(cluster, events, nodes) {
            return Err(RunStop::NoMemory);
        }
        self.judge(cluster, s, nodes)
    }

    // Has the cluster compute the blocks of these nodes.
    fn compute(
        &self,
        cluster: &mut Cluster<Block>,
        events: &mut Events,
        nodes: &[NodeId],
    ) -> Result<(), NoMemory>
        requires may { MayJudge self.now nodes.now }
        requires contents { HoldsWorkOf self.now cluster.old }
        requires no_events { events.old ≡ [] }
        ensures held { OnOk result
            (all_held (shape cluster.new) (targets_of self.now.world nodes.now) ≡ true) }
        ensures turns { HasDemanded self.now (targets_of self.now.world nodes.now)
            (point_of cluster.old events.old) (point_of cluster.new events.new) }
        ensures contents_kept { HoldsWorkOf self.now cluster.new }
        ensures workers_kept { length cluster.new.running ≡ length cluster.old.running }
        ensures events_kept { events.new ≡ events.old }
    {
        self.is_set();
        let mut targets = Vec::new(self.alloc);
        self.push_blocks(&mut targets, nodes)?;
        cluster.demand(&self.work, targets.as_slice(), events)
    }
}
