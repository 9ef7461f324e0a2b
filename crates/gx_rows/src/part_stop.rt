//! Refusals of a kernel.

ghost use Rattle.std.specs.Prelude.{◌≡◌};
ghost use Rattle.gx_rows.specs.declared.part_stop.PartStop.TheVariants as part_stop;

use crate::{Cause, NoMemory, RowKey};

/// Why a kernel gave no result on a partition.
#[derive(Debug, Drop, PartialEq, Eq)]
pub enum PartStop {
    /// An expression or a merge has no value.
    Fault {
        /// The vertex or edge on which it has none.
        key: RowKey,
        /// The number of the expression node or of the merged column, as the kernel counts them.
        expr: u32,
        /// Why there is no value.
        cause: Cause,
    },
    /// Out of memory.
    NoMemory,
}

impl From<NoMemory> for PartStop {
    ghost from_gives = { λ _ stop. stop ≡ part_stop.NoMemory };

    fn from(_error: NoMemory) -> PartStop {
        PartStop::NoMemory
    }
}
