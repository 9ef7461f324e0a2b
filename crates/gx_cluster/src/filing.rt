//! Putting wanted blocks on an agenda.

ghost use Rattle.std.specs.Prelude.{
  ◌≡◌,
  ◌∷◌,
  [],
  ℕ,
  List,
  All,
  Contains,
  IfNone,
  IfSome,
  OnOk,
  true,
  false,
};
ghost use Rattle.gx_rows.specs.declared.vid.Vid.{Vid};
ghost use Rattle.gx_lineage.specs.declared.block_id.BlockId.{BlockId as Block};
ghost use Rattle.gx_lineage.specs.Lineage.{IsBlock};
ghost use Rattle.gx_cluster_state.specs.Nets.{net_of};
ghost use Rattle.gx_cluster_state.specs.Shapes.{is_held};
ghost use Rattle.gx_cluster.specs.Agendas.{IsAgenda};
ghost use Rattle.gx_cluster.specs.States.{shape};

use crate::Cluster;
use crate::agenda::Agenda;
use gx_lineage::{BlockId, Dag};
use gx_rows::NoMemory;

impl<T: Drop> Cluster<T> {
    // Puts blocks on the agenda, which lists all other wanted blocks that do not run.
    pub(crate) fn file_all(
        &self,
        dag: &Dag,
        agenda: &mut Agenda,
        blocks: &[BlockId],
    ) -> Result<(), NoMemory>
        requires { All (IsBlock dag.now) blocks.now }
        ensures { OnOk result ((f : Block → List (ℕ × Vid)) (targets : List Block)
            → IsAgenda (net_of dag.now f) targets (shape self.now) agenda.old blocks.now
            → IsAgenda (net_of dag.now f) targets (shape self.now) agenda.new []) }
    {
        for b in blocks {
            self.file(dag, agenda, *b)?;
        }
        Ok(())
    }

    // Puts a block on the agenda: as ready, or under the last of its inputs that is not held, which
    // is most often the last to be finished.
    fn file(&self, dag: &Dag, agenda: &mut Agenda, b: BlockId) -> Result<(), NoMemory>
        requires { IsBlock dag.now b }
        ensures { OnOk result ((f : Block → List (ℕ × Vid)) (targets rest : List Block)
            → IsAgenda (net_of dag.now f) targets (shape self.now) agenda.old (b ∷ rest)
            → IsAgenda (net_of dag.now f) targets (shape self.now) agenda.new rest) }
    {
        let inputs = dag.inputs(b)?;
        match self.last_missing(&inputs) {
            Some(input) => agenda.add_waiting(input, b),
            None => agenda.add_ready(b),
        }
    }

    // The last of the blocks that is not held.
    fn last_missing(&self, blocks: &[BlockId]) -> Option<BlockId>
        ensures none { IfNone result (All (λ b. is_held (shape self.now) b ≡ true) blocks.now) }
        ensures some { IfSome result (λ b. Contains blocks.now b) }
        ensures missing { IfSome result (λ b. is_held (shape self.now) b ≡ false) }
    {
        let mut missing = None;
        for b in blocks {
            if self.is_held(*b) {
                continue;
            }
            missing = Some(*b);
        }
        missing
    }
}
