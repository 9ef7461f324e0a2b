//! The wanted blocks that do not run.

ghost use Rattle.std.specs.Prelude.{
  ◌≡◌,
  ◌∷◌,
  [],
  ◌++◌,
  ◌||◌,
  true,
  false,
  IfNone,
  IfSome,
  OnOk,
  cond,
};
ghost use Rattle.std.specs.Ordering.{is_gt};
ghost use Rattle.gx_lineage.specs.declared.block_id.BlockId.{BlockId as Block};
ghost use Rattle.gx_cluster_state.specs.Blocks.{block_cmp, same_block};
ghost use Rattle.gx_cluster.specs.Agendas.{has_block, waiting_for};

use crate::waiting::Waiting;
use gx_lineage::BlockId;
use gx_rows::NoMemory;
use std::alloc::Global;
use std::collections::BTreeSet;
use std::marker::Model;

/// The wanted blocks that do not run. Each is ready, or is kept under one input that is not held,
/// so that a finished block leads to those that may be ready by it. Contracts see an agenda as its
/// ready blocks, and the lists of those that wait.
#[derive(Drop)]
pub(crate) struct Agenda {
    ready: BTreeSet<BlockId>,
    waiting: Waiting,
}

impl Model for Agenda {
    ghost use Rattle.gx_cluster.specs.Agendas.{BlockAgenda};

    ghost Value = { BlockAgenda };

    ghost view = { λ a. record { ready = a.ready.keys; waiting = a.waiting } };
}

impl Agenda {
    /// An agenda without blocks. It takes no memory.
    pub(crate) fn empty(alloc: Global) -> Agenda
        ensures { result ≡ record { ready = []; waiting = [] } }
    {
        Agenda {
            ready: BTreeSet::new(alloc),
            waiting: Waiting::none(alloc),
        }
    }

    /// Adds a ready block.
    ///
    /// # Errors
    ///
    /// `NoMemory` if memory for the block runs out.
    pub(crate) fn add_ready(&mut self, b: BlockId) -> Result<(), NoMemory>
        ensures ready { OnOk result ((q : Block) → has_block self.new.ready q
            ≡ cond (same_block b q) true (has_block self.old.ready q)) }
        ensures waiting_kept { OnOk result (self.new.waiting ≡ self.old.waiting) }
    {
        self.ready.insert(b)?;
        Ok(())
    }

    /// Adds a block that waits for `input`.
    ///
    /// # Errors
    ///
    /// `NoMemory` if memory for the block runs out. Blocks may then be lost.
    pub(crate) fn add_waiting(&mut self, input: BlockId, b: BlockId) -> Result<(), NoMemory>
        ensures ready_kept { OnOk result (self.new.ready ≡ self.old.ready) }
        ensures waiting { OnOk result ((c : Block) → waiting_for self.new.waiting c
            ≡ cond (same_block input c) (waiting_for self.old.waiting input ++ b ∷ [])
            (waiting_for self.old.waiting c)) }
    {
        self.waiting.add(input, b)
    }

    /// Removes the least ready block, and returns it.
    pub(crate) fn pop_ready(&mut self) -> Option<BlockId>
        ensures none { IfNone result (self.old.ready ≡ []) }
        ensures some { IfSome result (λ b. has_block self.old.ready b ≡ true) }
        ensures least { IfSome result (λ b. (q : Block) → has_block self.old.ready q ≡ true
            → is_gt (block_cmp b q) ≡ false) }
        ensures rest { IfSome result (λ b. (q : Block) → has_block self.new.ready q
            ≡ cond (same_block b q) false (has_block self.old.ready q)) }
        ensures unchanged { IfNone result (self.new ≡ self.old) }
        ensures waiting_kept { self.new.waiting ≡ self.old.waiting }
    {
        self.ready.pop_first()
    }

    /// Removes the blocks that wait for `input`, and returns them.
    pub(crate) fn take_waiting(&mut self, input: BlockId) -> Vec<BlockId>
        ensures ready_kept { self.new.ready ≡ self.old.ready }
        ensures blocks { result.items ≡ waiting_for self.old.waiting input }
        ensures others { (c : Block) → waiting_for self.new.waiting c
            ≡ cond (same_block input c) [] (waiting_for self.old.waiting c) }
    {
        self.waiting.take(input)
    }
}
