//! Why a script is not well typed.

ghost use Rattle.std.specs.Prelude.{◌≡◌};
ghost use Rattle.gx_types.specs.TypeStops.{stop_at};
ghost use Rattle.gx_types.specs.declared.type_stop.TypeStop.TheVariants as stop;

use gx_rows::{LimitKind, NoMemory};
use gx_types_stmts::{StmtStop, TypeKind};
use std::alloc::AllocError;

/// Why a script is not well typed.
#[derive(Clone, Copy, Debug, PartialEq, Eq)]
pub enum TypeStop {
    /// A check fails.
    At {
        /// The number of the statement, counted from 1.
        statement: u32,
        /// The number of the node at which it fails, if it is a check of an expression. The nodes of
        /// a statement are numbered from 0 in text order, an operation before its operands.
        expr: Option<u32>,
        /// Why it fails.
        kind: TypeKind,
    },
    /// A limit is passed.
    Limit(LimitKind),
    /// Out of memory.
    NoMemory,
}

impl TypeStop {
    /// Why the script is not well typed whose statement of this number is refused so.
    pub(crate) fn at(statement: u32, stop: StmtStop) -> TypeStop
        ensures { result ≡ stop_at statement stop }
    {
        match stop {
            StmtStop::At { expr, kind } => TypeStop::At {
                statement,
                expr,
                kind,
            },
            StmtStop::Limit(limit) => TypeStop::Limit(limit),
            StmtStop::NoMemory => TypeStop::NoMemory,
        }
    }
}

impl From<NoMemory> for TypeStop {
    ghost from_gives = { λ _ made. made ≡ stop.NoMemory };

    fn from(_error: NoMemory) -> TypeStop {
        TypeStop::NoMemory
    }
}

impl From<AllocError> for TypeStop {
    ghost from_gives = { λ _ made. made ≡ stop.NoMemory };

    fn from(_error: AllocError) -> TypeStop {
        TypeStop::NoMemory
    }
}
