//! Why an expression is refused.

ghost use Rattle.std.specs.Prelude.{◌≡◌};
ghost use Rattle.gx_types_exprs.specs.declared.expr_stop.ExprStop.TheVariants as stop;

use crate::TypeKind;
use gx_rows::NoMemory;
use std::alloc::AllocError;

/// Why an expression is refused.
#[derive(Clone, Copy, Debug, PartialEq, Eq)]
pub enum ExprStop {
    /// A check fails.
    At {
        /// The number of the node at which it fails.
        expr: u32,
        /// Why it fails.
        kind: TypeKind,
    },
    /// The expression is more than 64 deep.
    Depth,
    /// Out of memory.
    NoMemory,
}

impl From<NoMemory> for ExprStop {
    ghost from_gives = { λ _ made. made ≡ stop.NoMemory };

    fn from(_error: NoMemory) -> ExprStop {
        ExprStop::NoMemory
    }
}

impl From<AllocError> for ExprStop {
    ghost from_gives = { λ _ made. made ≡ stop.NoMemory };

    fn from(_error: AllocError) -> ExprStop {
        ExprStop::NoMemory
    }
}
