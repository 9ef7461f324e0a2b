//! Demands: turns are taken until all targets are held.

ghost use Rattle.std.specs.Prelude.{
  ◌≡◌,
  ◌≤◌,
  ◌<◌,
  ◌⊎◌,
  ℕ,
  List,
  [],
  All,
  Contains,
  IfNone,
  IfOk,
  IfSome,
  OnErr,
  OnOk,
  None,
  Some,
  is_none,
  length,
  position,
  true,
  false,
};
ghost use Rattle.gx_rows.specs.declared.vid.Vid.{Vid};
ghost use Rattle.gx_lineage.specs.declared.block_id.BlockId.{BlockId as Block};
ghost use Rattle.gx_lineage.specs.Lineage.{IsBlock, IsSound};
ghost use Rattle.gx_cluster_state.specs.Measures.{lineage_blocks, turns_left};
ghost use Rattle.gx_cluster_state.specs.Nets.{net_of};
ghost use Rattle.gx_cluster_state.specs.Shapes.{all_held, is_held};
ghost use Rattle.gx_cluster_state.specs.Turns.{Turns};
ghost use Rattle.gx_cluster.specs.Agendas.{IsAgenda, Pops};
ghost use Rattle.gx_cluster.specs.States.{HoldsContents, IsAfterTurns, shape};

use crate::agenda::Agenda;
use crate::{Cluster, Work};
use gx_cluster_state::Events;
use gx_lineage::{BlockId, Dag};
use gx_rows::NoMemory;

impl<T: Drop> Cluster<T> {
    /// Takes turns until all targets are held at once. In a turn a worker starts the least ready
    /// block, or finishes the block that it runs.
    ///
    /// # Errors
    ///
    /// `NoMemory` if memory for an entry of the log, for a value or for the list of wanted blocks
    /// runs out. The turns that were taken stand.
    pub fn demand<W: Work<T>>(
        &mut self,
        work: &W,
        targets: &[BlockId],
        events: &mut Events,
    ) -> Result<(), NoMemory>
        requires contents { HoldsContents (W.content work.now) (W.lineage work.now) self.old }
        requires blocks { All (IsBlock (W.lineage work.now)) targets.now }
        requires no_events { events.old ≡ [] }
        ensures held { OnOk result (all_held (shape self.new) targets.now ≡ true) }
        ensures turns { Turns (net_of (W.lineage work.now) (W.freight work.now)) targets.now
            (shape self.new) events.new (shape self.old) events.old }
        ensures contents_kept { HoldsContents (W.content work.now) (W.lineage work.now) self.new }
        ensures workers_kept { length self.new.running ≡ length self.old.running }
        ensures events_kept { events.new ≡ events.old }
        ensures spare { OnOk result (8 ≤ self.new.spare) }
    {
        // No event is left, so each turn takes `Event::Next`.
        let _ = events;
        self.reserve_spare()?;
        self.run_all(work, targets)
    }

    // Takes turns until all targets are held.
    fn run_all<W: Work<T>>(&mut self, work: &W, targets: &[BlockId]) -> Result<(), NoMemory>
        requires contents { HoldsContents (W.content work.now) (W.lineage work.now) self.old }
        requires blocks { All (IsBlock (W.lineage work.now)) targets.now }
        ensures held { OnOk result (all_held (shape self.new) targets.now ≡ true) }
        ensures after { IsAfterTurns (W.content work.now) (W.lineage work.now)
            (W.freight work.now) targets.now self.old self.new }
    {
        let mut agenda = self.agenda(work.dag(), targets)?;
        for target in targets {
            self.run_until(work, targets, *target, &mut agenda)?;
        }
        Ok(())
    }

    // The wanted blocks that do not run.
    fn agenda(&self, dag: &Dag, targets: &[BlockId]) -> Result<Agenda, NoMemory>
        requires sound { IsSound dag.now }
        requires blocks { All (IsBlock dag.now) targets.now }
        ensures { IfOk result (λ a. (f : Block → List (ℕ × Vid))
            → IsAgenda (net_of dag.now f) targets.now (shape self.now) a []) }
    {
        let blocks = self.open_blocks(dag, targets)?;
        let mut agenda = Agenda::empty(self.alloc);
        self.file_all(dag, &mut agenda, &blocks)?;
        Ok(agenda)
    }

    // Takes turns until `target`, one of the targets, is held.
    fn run_until<W: Work<T>>(
        &mut self,
        work: &W,
        targets: &[BlockId],
        target: BlockId,
        agenda: &mut Agenda,
    ) -> Result<(), NoMemory>
        requires sound { IsSound (W.lineage work.now) }
        requires contents { HoldsContents (W.content work.now) (W.lineage work.now) self.old }
        requires blocks { All (IsBlock (W.lineage work.now)) targets.now }
        requires target { Contains targets.now target }
        requires agenda { IsAgenda (net_of (W.lineage work.now) (W.freight work.now)) targets.now
            (shape self.old) agenda.old [] }
        ensures held { OnOk result (is_held (shape self.new) target ≡ true) }
        ensures agenda { OnOk result (IsAgenda (net_of (W.lineage work.now) (W.freight work.now))
            targets.now (shape self.new) agenda.new []) }
        ensures after { IsAfterTurns (W.content work.now) (W.lineage work.now)
            (W.freight work.now) targets.now self.old self.new }
    {
        'turns: while !self.is_held(target) {
            self.next(work, targets, agenda)?;
        }
        Ok(())
    }

    // Takes one turn: the first idle worker starts the least ready block, or else the first busy
    // worker finishes. On `NoMemory` a turn was taken or none.
    fn next<W: Work<T>>(
        &mut self,
        work: &W,
        targets: &[BlockId],
        agenda: &mut Agenda,
    ) -> Result<(), NoMemory>
        requires sound { IsSound (W.lineage work.now) }
        requires contents { HoldsContents (W.content work.now) (W.lineage work.now) self.old }
        requires blocks { All (IsBlock (W.lineage work.now)) targets.now }
        requires unheld { all_held (shape self.old) targets.now ≡ false }
        requires agenda { IsAgenda (net_of (W.lineage work.now) (W.freight work.now)) targets.now
            (shape self.old) agenda.old [] }
        ensures agenda { OnOk result (IsAgenda (net_of (W.lineage work.now) (W.freight work.now))
            targets.now (shape self.new) agenda.new []) }
        ensures after { IsAfterTurns (W.content work.now) (W.lineage work.now)
            (W.freight work.now) targets.now self.old self.new }
        ensures less { OnOk result
            (turns_left (lineage_blocks (W.lineage work.now)) (shape self.new)
            < turns_left (lineage_blocks (W.lineage work.now)) (shape self.old)) }
    {
        match self.next_start(agenda) {
            Some((w, b)) => self.start(work, w, b),
            None => self.finish_next(work, targets, agenda),
        }
    }

    // The first idle worker and the least ready block, which is removed from the agenda, if there
    // are both.
    fn next_start(&self, agenda: &mut Agenda) -> Option<(u32, BlockId)>
        ensures idle { IfSome result
            (λ p. position is_none (shape self.now).running ≡ Some p.0) }
        ensures popped { IfSome result (λ p. Pops agenda.old agenda.new p.1) }
        ensures none { IfNone result ((position is_none (shape self.now).running ≡ None)
            ⊎ (agenda.old.ready ≡ [])) }
        ensures unchanged { IfNone result (agenda.new ≡ agenda.old) }
    {
        let Some(w) = self.first_idle() else {
            return None;
        };
        let Some(b) = agenda.pop_ready() else {
            return None;
        };
        Some((w, b))
    }

    // The first busy worker finishes.
    fn finish_next<W: Work<T>>(
        &mut self,
        work: &W,
        targets: &[BlockId],
        agenda: &mut Agenda,
    ) -> Result<(), NoMemory>
        requires sound { IsSound (W.lineage work.now) }
        requires contents { HoldsContents (W.content work.now) (W.lineage work.now) self.old }
        requires blocks { All (IsBlock (W.lineage work.now)) targets.now }
        requires unheld { all_held (shape self.old) targets.now ≡ false }
        requires agenda { IsAgenda (net_of (W.lineage work.now) (W.freight work.now)) targets.now
            (shape self.old) agenda.old [] }
        requires no_start { (position is_none (shape self.old).running ≡ None)
            ⊎ (agenda.old.ready ≡ []) }
        ensures agenda { OnOk result (IsAgenda (net_of (W.lineage work.now) (W.freight work.now))
            targets.now (shape self.new) agenda.new []) }
        ensures after { IsAfterTurns (W.content work.now) (W.lineage work.now)
            (W.freight work.now) targets.now self.old self.new }
        ensures less { OnOk result
            (turns_left (lineage_blocks (W.lineage work.now)) (shape self.new)
            < turns_left (lineage_blocks (W.lineage work.now)) (shape self.old)) }
    {
        let Some(w) = self.first_busy() else {
            unreachable!()
        };
        let b = self.finish(work, w)?;
        let waiting = agenda.take_waiting(b);
        self.file_all(work.dag(), agenda, &waiting)
    }
}
