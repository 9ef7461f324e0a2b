//! Refusals of an evaluation.

ghost use Rattle.std.specs.Prelude.{◌≡◌};
ghost use Rattle.gx_rows.specs.declared.eval_stop.EvalStop.TheVariants as eval_stop;

use crate::{Cause, NoMemory};

/// Why an expression gave no value on one row.
#[derive(Clone, Copy, Debug, PartialEq, Eq)]
pub enum EvalStop {
    /// The expression has no value.
    Fault {
        /// Why there is no value.
        cause: Cause,
        /// The number of the expression node that has none.
        expr: u32,
    },
    /// Out of memory.
    NoMemory,
}

impl From<NoMemory> for EvalStop {
    ghost from_gives = { λ _ stop. stop ≡ eval_stop.NoMemory };

    fn from(_error: NoMemory) -> EvalStop {
        EvalStop::NoMemory
    }
}
