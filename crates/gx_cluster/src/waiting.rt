//! Blocks that wait for an input.

ghost use Rattle.std.specs.Prelude.{◌≡◌, ◌∷◌, [], ◌++◌, OnOk, cond};
ghost use Rattle.gx_lineage.specs.declared.block_id.BlockId.{BlockId as Block};
ghost use Rattle.gx_cluster_state.specs.Blocks.{same_block};
ghost use Rattle.gx_cluster.specs.Agendas.{waiting_for};

use gx_lineage::BlockId;
use gx_rows::NoMemory;
use std::alloc::Global;
use std::collections::BTreeMap;
use std::marker::Model;

/// Blocks, each under an input that is not held yet. Contracts see it as the list of inputs with
/// the blocks that wait for each.
#[derive(Drop)]
pub(crate) struct Waiting {
    lists: BTreeMap<BlockId, BlockList>,
    alloc: Global,
}

// Some blocks. Contracts see it as their list.
#[derive(Drop)]
struct BlockList {
    blocks: Vec<BlockId>,
}

impl Model for BlockList {
    ghost use Rattle.std.specs.Prelude.{List};
    ghost use Rattle.gx_lineage.specs.declared.block_id.BlockId.{BlockId};

    ghost Value = { List BlockId };

    ghost view = { λ l. l.blocks.items };
}

impl Model for Waiting {
    ghost use Rattle.std.specs.Prelude.{List};
    ghost use Rattle.gx_lineage.specs.declared.block_id.BlockId.{BlockId};

    ghost Value = { List (BlockId × List BlockId) };

    ghost view = { λ w. w.lists.entries };
}

impl BlockList {
    fn into_blocks(self) -> Vec<BlockId>
        ensures { result.items ≡ self }
    {
        self.blocks
    }
}

impl Waiting {
    /// No blocks. It takes no memory.
    pub(crate) fn none(alloc: Global) -> Waiting
        ensures { result ≡ [] }
    {
        Waiting {
            lists: BTreeMap::new(alloc),
            alloc,
        }
    }

    /// Adds a block that waits for `input`.
    ///
    /// # Errors
    ///
    /// `NoMemory` if memory for the block runs out. Blocks may then be lost.
    pub(crate) fn add(&mut self, input: BlockId, b: BlockId) -> Result<(), NoMemory>
        ensures { OnOk result ((c : Block) → waiting_for self.new c
            ≡ cond (same_block input c) (waiting_for self.old input ++ b ∷ [])
            (waiting_for self.old c)) }
    {
        let mut blocks = self.take(input);
        blocks.push(b)?;
        self.lists.insert(input, BlockList { blocks })?;
        Ok(())
    }

    /// Removes the blocks that wait for `input`, and returns them.
    pub(crate) fn take(&mut self, input: BlockId) -> Vec<BlockId>
        ensures blocks { result.items ≡ waiting_for self.old input }
        ensures others { (c : Block) → waiting_for self.new c
            ≡ cond (same_block input c) [] (waiting_for self.old c) }
    {
        match self.lists.remove(&input) {
            Some(list) => list.into_blocks(),
            None => Vec::new(self.alloc),
        }
    }
}
