//! Actions that are answered: the statements that they use are run in order.

ghost use Rattle.std.specs.Prelude.{
  ◌≡◌,
  ◌≤◌,
  ◌<◌,
  ℕ,
  [],
  None,
  Some,
  false,
  true,
  IfErr,
  IfOk,
  IsSome,
  OnOk,
  flat_map,
  length,
};
ghost use Rattle.gx_cluster.specs.States.{shape};
ghost use Rattle.gx_cluster_state.specs.Shapes.{all_held};
ghost use Rattle.gx_exec.specs.Courses.{
  EndsAs,
  StopsAs,
  answered,
  forced_all,
  targets_of,
  was_added,
};
ghost use Rattle.gx_exec.specs.Engines.{ForcesTo, HoldsWorkOf, IsSteady, MayForce, action_answer, point_of};
ghost use Rattle.gx_exec_contents.specs.Worlds.{loaded_in};
ghost use Rattle.gx_exec_answers.specs.AnswerRows.{answer_record};
ghost use Rattle.gx_exec_reads.specs.HeldAnswers.{answer_of_blocks, held_contents};
ghost use Rattle.gx_model.specs.NamesUsed.{stmts_used};
ghost use Rattle.gx_model.specs.ScriptMeaning.{fault_of_action};
ghost use Rattle.gx_plan.specs.PlanInvariant.{IsFrontOf};
ghost use Rattle.gx_plan.specs.Plans.{phases_of};

use crate::{Engine, RunStop};
use gx_cluster::{Cluster, Events};
use gx_exec_answers::Answer;
use gx_exec_reads::read_answer;
use gx_exec_work::Block;
use gx_lineage::BlockId;
use gx_rows::NoMemory;

impl Engine {
    /// Runs the statements that action `a` uses, in order, up to the first that has a fault, and
    /// then the action: the cluster computes the blocks that it prints. They are returned in the
    /// order of parts, and the cluster holds them all.
    ///
    /// # Errors
    ///
    /// The fault of the first statement that the action uses and that has one; `NoMemory`. The
    /// blocks that were computed stay in the cluster.
    pub fn answer(
        &mut self,
        cluster: &mut Cluster<Block>,
        events: &mut Events,
        a: u32,
    ) -> Result<Vec<BlockId>, RunStop>
        requires from_one { 1 ≤ a }
        requires within { a ≤ length self.old.world.script }
        requires is_action { IsSome (action_answer (loaded_in self.old.world) a) }
        requires fresh { was_added self.old.planned a ≡ false }
        requires steady { IsSteady self.old }
        requires contents { HoldsWorkOf self.old cluster.old }
        requires no_events { events.old ≡ [] }
        ensures ok { OnOk result (EndsAs self.old.world
            (answered self.old.world self.old.planned a) None self.new.planned
            (point_of cluster.old events.old) (point_of cluster.new events.new)) }
        ensures stop { IfErr result (λ stop. StopsAs stop self.old.world
            (answered self.old.world self.old.planned a) self.new.planned
            (point_of cluster.old events.old) (point_of cluster.new events.new)) }
        ensures exact { ForcesTo result (fault_of_action (loaded_in self.old.world) a) }
        ensures world_kept { self.new.world ≡ self.old.world }
        ensures front { IsFrontOf self.old.planned self.new.planned }
        ensures contents_kept { HoldsWorkOf self.new cluster.new }
        ensures steady_kept { OnOk result (IsSteady self.new) }
        ensures later_kept { (n : ℕ) → a < n
            → was_added self.new.planned n ≡ was_added self.old.planned n }
        ensures workers_kept { length cluster.new.running ≡ length cluster.old.running }
        ensures events_kept { events.new ≡ events.old }
        ensures held { IfOk result (λ bs. all_held (shape cluster.new) bs.items ≡ true) }
        ensures blocks { IfOk result (λ bs. bs.items ≡ targets_of self.new.world
            (flat_map (λ ns. ns) (phases_of self.new.world.script self.new.planned a))) }
        ensures few { IfOk result (λ bs. length bs.items ≤ 128) }
        ensures reads { IfOk result (λ bs. action_answer (loaded_in self.new.world) a
            ≡ Some (answer_of_blocks self.new.world.script a
            (held_contents cluster.new.held bs.items))) }
    {
        let blocks = match self.run_action(cluster, events, a) {
            Ok(blocks) => blocks,
            Err(stop) => return Err(stop),
        };
        self.is_set();
        let _few = self.parts();
        Ok(blocks)
    }

    /// What action `a` prints, read from these blocks as the cluster holds them, whether they are
    /// the contents of the action's blocks or not. A block that is not held, or of another kind than
    /// the action prints, adds nothing.
    ///
    /// # Errors
    ///
    /// `NoMemory` if memory for the answer runs out.
    pub fn read(
        &self,
        cluster: &Cluster<Block>,
        a: u32,
        blocks: &[BlockId],
    ) -> Result<Answer, NoMemory>
        requires from_one { 1 ≤ a }
        requires within { a ≤ length self.now.world.script }
        requires is_action { IsSome (action_answer (loaded_in self.now.world) a) }
        requires few { length blocks.now ≤ 128 }
        ensures { IfOk result (λ answer. answer_record answer
            ≡ answer_of_blocks self.now.world.script a
            (held_contents cluster.now.held blocks.now)) }
    {
        read_answer(self.alloc, self.work.plan().typed(), cluster, a, blocks)
    }

    // Runs the statements that action `a` uses and then the action, and returns its blocks.
    fn run_action(
        &mut self,
        cluster: &mut Cluster<Block>,
        events: &mut Events,
        a: u32,
    ) -> Result<Vec<BlockId>, RunStop>
        requires from_one { 1 ≤ a }
        requires within { a ≤ length self.old.world.script }
        requires is_action { IsSome (action_answer (loaded_in self.old.world) a) }
        requires fresh { was_added self.old.planned a ≡ false }
        requires steady { IsSteady self.old }
        requires contents { HoldsWorkOf self.old cluster.old }
        requires no_events { events.old ≡ [] }
        ensures ok { OnOk result (EndsAs self.old.world
            (answered self.old.world self.old.planned a) None self.new.planned
            (point_of cluster.old events.old) (point_of cluster.new events.new)) }
        ensures stop { IfErr result (λ stop. StopsAs stop self.old.world
            (answered self.old.world self.old.planned a) self.new.planned
            (point_of cluster.old events.old) (point_of cluster.new events.new)) }
        ensures exact { ForcesTo result (fault_of_action (loaded_in self.old.world) a) }
        ensures world_kept { self.new.world ≡ self.old.world }
        ensures front { IsFrontOf self.old.planned self.new.planned }
        ensures contents_kept { HoldsWorkOf self.new cluster.new }
        ensures steady_kept { OnOk result (IsSteady self.new) }
        ensures named { OnOk result (MayForce self.new a) }
        ensures later_kept { (n : ℕ) → a < n
            → was_added self.new.planned n ≡ was_added self.old.planned n }
        ensures workers_kept { length cluster.new.running ≡ length cluster.old.running }
        ensures events_kept { events.new ≡ events.old }
        ensures held { IfOk result (λ bs. all_held (shape cluster.new) bs.items ≡ true) }
        ensures blocks { IfOk result (λ bs. bs.items ≡ targets_of self.new.world
            (flat_map (λ ns. ns) (phases_of self.new.world.script self.new.planned a))) }
    {
        if let Err(stop) = self.force_needs(cluster, events, a) {
            return Err(stop);
        }
        if let Err(stop) = self.force(cluster, events, a) {
            return Err(stop);
        }
        let Ok(blocks) = self.blocks_of(a) else {
            return Err(RunStop::NoMemory);
        };
        Ok(blocks)
    }

    // Runs the statements that action `a` uses, in order, up to the first that has a fault.
    fn force_needs(
        &mut self,
        cluster: &mut Cluster<Block>,
        events: &mut Events,
        a: u32,
    ) -> Result<(), RunStop>
        requires from_one { 1 ≤ a }
        requires within { a ≤ length self.old.world.script }
        requires steady { IsSteady self.old }
        requires contents { HoldsWorkOf self.old cluster.old }
        requires no_events { events.old ≡ [] }
        ensures ok { OnOk result (EndsAs self.old.world
            (forced_all self.old.world self.old.planned (stmts_used self.old.world.script a)) None
            self.new.planned (point_of cluster.old events.old) (point_of cluster.new events.new)) }
        ensures stop { IfErr result (λ stop. StopsAs stop self.old.world
            (forced_all self.old.world self.old.planned (stmts_used self.old.world.script a))
            self.new.planned (point_of cluster.old events.old) (point_of cluster.new events.new)) }
        ensures exact { ForcesTo result (fault_of_action (loaded_in self.old.world) a) }
        ensures world_kept { self.new.world ≡ self.old.world }
        ensures front { IsFrontOf self.old.planned self.new.planned }
        ensures contents_kept { HoldsWorkOf self.new cluster.new }
        ensures steady_kept { OnOk result (IsSteady self.new) }
        ensures named { OnOk result (MayForce self.new a) }
        ensures later_kept { (n : ℕ) → a ≤ n
            → was_added self.new.planned n ≡ was_added self.old.planned n }
        ensures workers_kept { length cluster.new.running ≡ length cluster.old.running }
        ensures events_kept { events.new ≡ events.old }
    {
        self.is_set();
        let Ok(needs) = self.needs(a) else {
            return Err(RunStop::NoMemory);
        };
        for s in &needs {
            if let Err(stop) = self.force(cluster, events, *s) {
                return Err(stop);
            }
        }
        Ok(())
    }

    // The statements that statement `s` uses, ascending.
    fn needs(&self, s: u32) -> Result<Vec<u32>, NoMemory>
        requires from_one { 1 ≤ s }
        requires within { s ≤ length self.now.world.script }
        ensures { IfOk result (λ needs. needs.items ≡ stmts_used self.now.world.script s) }
    {
        self.is_set();
        self.work.plan().typed().needs(s)
    }

    // The blocks that are demanded for statement `s`, phase by phase.
    fn blocks_of(&self, s: u32) -> Result<Vec<BlockId>, NoMemory>
        requires from_one { 1 ≤ s }
        requires within { s ≤ length self.now.world.script }
        ensures { IfOk result (λ bs. bs.items ≡ targets_of self.now.world
            (flat_map (λ ns. ns) (phases_of self.now.world.script self.now.planned s))) }
    {
        let lists = self.phases(s)?;
        let mut blocks = Vec::new(self.alloc);
        for nodes in &lists {
            self.push_blocks(&mut blocks, nodes.as_slice())?;
        }
        Ok(blocks)
    }
}
