//! How blocks are computed.

ghost use Rattle.std.specs.Prelude.{◌≡◌, ℕ, List, IfOk};
ghost use Rattle.gx_rows.specs.declared.vid.Vid.{Vid};
ghost use Rattle.gx_lineage.specs.declared.block_id.BlockId.{BlockId as Block};
ghost use Rattle.gx_lineage.specs.Lineage.{Lineage, IsBlock, IsSound, block_inputs};
ghost use Rattle.gx_cluster_state.specs.Values.{pointed_values};
ghost use Rattle.gx_cluster.specs.States.{AreContents};

use gx_cluster_state::Cargo;
use gx_lineage::{BlockId, Dag};
use gx_rows::NoMemory;
use std::rc::Rc;

/// How each block of a lineage is computed from its inputs.
pub trait Work<T> {
    // the lineage
    ghost lineage: { Self → Lineage };

    // a value is a content of a block
    ghost content: { Self → Block → T → Type 0 };

    // values may be the inputs of a block
    ghost fits: { Self → Block → List T → Type 0 };

    // what a content of a block sends
    ghost freight: { Self → Block → List (ℕ × Vid) };

    /// The lineage.
    fn dag(&self) -> &Dag
        ensures lineage { result.now ≡ lineage self.now }
        ensures sound { IsSound (lineage self.now) };

    /// Computes a block from its inputs, which are in the order of `Dag::inputs`.
    ///
    /// # Errors
    ///
    /// `NoMemory` if memory for the value runs out.
    fn run(&self, b: BlockId, inputs: &[Rc<T>]) -> Result<T, NoMemory>
        requires { fits self.now b (pointed_values inputs.now) }
        ensures { IsBlock (lineage self.now) b
            → AreContents (content self.now) (block_inputs (lineage self.now) b)
            (pointed_values inputs.now)
            → IfOk result (content self.now b) };

    /// The cargo of a block with this value.
    ///
    /// # Errors
    ///
    /// `NoMemory` if memory for the cargo runs out.
    fn cargo(&self, b: BlockId, value: &T) -> Result<Cargo, NoMemory>
        ensures { content self.now b value.now → IfOk result (λ c. c ≡ freight self.now b) };

    // contents of its inputs may be the inputs of a block
    ghost fits_contents: { (work : Self) (b : Block) (values : List T)
        → IsBlock (lineage work) b
        → AreContents (content work) (block_inputs (lineage work) b) values
        → fits work b values };
}
