//! Phases that are judged: the least fault of the blocks of a node.

ghost use Rattle.std.specs.Prelude.{◌≡◌, IfOk, option_map, true};
ghost use Rattle.std.specs.List.{range_with_len};
ghost use Rattle.gx_cluster.specs.States.{shape};
ghost use Rattle.gx_cluster_state.specs.Shapes.{all_held, is_held};
ghost use Rattle.gx_exec.specs.Courses.{targets_of};
ghost use Rattle.gx_exec.specs.Engines.{ForcesTo, HoldsWorkOf};
ghost use Rattle.gx_exec_contents.specs.BlockContents.{stop_of};
ghost use Rattle.gx_exec_contents.specs.PartContents.{first_given};
ghost use Rattle.gx_exec_contents.specs.PhaseFaults.{fault_of_stop, least_stop};
ghost use Rattle.gx_lineage.specs.Lineage.{blocks_at};

use crate::found_stop::{FoundStop, lesser};
use crate::{Engine, RunStop};
use gx_cluster::Cluster;
use gx_exec_work::Block;
use gx_lineage::{BlockId, NodeId};
use gx_rows::{Fault, NoMemory};

impl Engine {
    // Looks for the first of these nodes of which a block is stopped, and returns the least stop of
    // its blocks as the fault of statement `s`. The cluster holds all their blocks.
    pub(crate) fn judge(
        &self,
        cluster: &Cluster<Block>,
        s: u32,
        nodes: &[NodeId],
    ) -> Result<(), RunStop>
        requires contents { HoldsWorkOf self.now cluster.now }
        requires held { all_held (shape cluster.now) (targets_of self.now.world nodes.now) ≡ true }
        ensures { ForcesTo result (option_map (fault_of_stop s)
            (first_given (least_stop self.now.world self.now.planned) nodes.now)) }
    {
        let Some((node, rest)) = nodes.split_first() else {
            return Ok(());
        };
        match self.least_stop(cluster, *node) {
            Err(_) => Err(RunStop::NoMemory),
            Ok(Some(stop)) => Err(RunStop::Fault(stop.of_statement(s))),
            Ok(None) => self.judge(cluster, s, rest),
        }
    }

    // The least stop of the blocks of a node. The cluster holds them all.
    fn least_stop(
        &self,
        cluster: &Cluster<Block>,
        node: NodeId,
    ) -> Result<Option<FoundStop>, NoMemory>
        requires contents { HoldsWorkOf self.now cluster.now }
        requires held { all_held (shape cluster.now)
            (blocks_at node (range_with_len 0 self.now.world.parts)) ≡ true }
        ensures { IfOk result (λ stop. stop ≡ least_stop self.now.world self.now.planned node) }
    {
        let parts = self.parts();
        let mut least = None;
        for i in 0..parts {
            let part = parts - 1 - i;
            let found = self.stop_of_block(cluster, BlockId { node, part })?;
            least = lesser(found, least);
        }
        Ok(least)
    }

    // The stop of a block that the cluster holds.
    fn stop_of_block(
        &self,
        cluster: &Cluster<Block>,
        b: BlockId,
    ) -> Result<Option<FoundStop>, NoMemory>
        requires contents { HoldsWorkOf self.now cluster.now }
        requires held { is_held (shape cluster.now) b ≡ true }
        ensures { IfOk result (λ stop. stop ≡ stop_of self.now.world self.now.planned b) }
    {
        let Some(block) = cluster.take(b) else {
            unreachable!()
        };
        FoundStop::of_block(block)
    }
}
