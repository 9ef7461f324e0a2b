//! The search for wanted blocks.

ghost use Rattle.std.specs.Prelude.{◌≡◌, ℕ, List, All, IfOk, OnOk, true};
ghost use Rattle.gx_rows.specs.declared.vid.Vid.{Vid};
ghost use Rattle.gx_lineage.specs.declared.block_id.BlockId.{BlockId as Block};
ghost use Rattle.gx_lineage.specs.Lineage.{IsBlock, IsSound};
ghost use Rattle.gx_cluster_state.specs.Nets.{net_of};
ghost use Rattle.gx_cluster.specs.Agendas.{IsOpen, has_block};
ghost use Rattle.gx_cluster.specs.States.{shape};
ghost use Rattle.gx_cluster.specs.Sweeps.{AddsMissing};

use crate::Cluster;
use gx_lineage::{BlockId, Dag};
use gx_rows::NoMemory;
use std::collections::BTreeSet;

impl<T: Drop> Cluster<T> {
    // The wanted blocks that do not run, in descending order.
    //
    // Inputs are of earlier nodes, so each block leaves the front once, after all blocks that it
    // is an input of.
    pub(crate) fn open_blocks(
        &self,
        dag: &Dag,
        targets: &[BlockId],
    ) -> Result<Vec<BlockId>, NoMemory>
        requires sound { IsSound dag.now }
        requires blocks { All (IsBlock dag.now) targets.now }
        ensures found_open { IfOk result (λ bs. (f : Block → List (ℕ × Vid)) (b : Block)
            → has_block bs.items b ≡ true
            → IsOpen (net_of dag.now f) targets.now (shape self.now) b) }
        ensures complete { IfOk result (λ bs. (f : Block → List (ℕ × Vid)) (b : Block)
            → IsOpen (net_of dag.now f) targets.now (shape self.now) b
            → has_block bs.items b ≡ true) }
    {
        let mut found = Vec::new(self.alloc);
        let mut front = BTreeSet::new(self.alloc);
        self.add_missing(&mut front, targets)?;
        'sweep: while let Some(b) = front.pop_last() {
            if self.runs(b) {
                continue;
            }
            found.push(b)?;
            let inputs = dag.inputs(b)?;
            self.add_missing(&mut front, &inputs)?;
        }
        Ok(found)
    }

    // Adds to `front` those of `blocks` that are not held.
    fn add_missing(&self, front: &mut BTreeSet<BlockId>, blocks: &[BlockId]) -> Result<(), NoMemory>
        ensures { OnOk result
            (AddsMissing (shape self.now) blocks.now front.old.keys front.new.keys) }
    {
        for b in blocks {
            if self.is_held(*b) {
                continue;
            }
            front.insert(*b)?;
        }
        Ok(())
    }
}
