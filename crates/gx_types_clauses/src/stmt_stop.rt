//! Why a statement is refused.

ghost use Rattle.std.specs.Prelude.{◌≡◌, None};
ghost use Rattle.gx_types_clauses.specs.StmtStops.{stop_of_expr};
ghost use Rattle.gx_types_clauses.specs.declared.stmt_stop.StmtStop.TheVariants as stop;

use gx_rows::{LimitKind, NoMemory};
use gx_types_exprs::{ExprStop, TypeKind};

/// Why a statement is refused.
#[derive(Clone, Copy, Debug, PartialEq, Eq)]
pub enum StmtStop {
    /// A check fails.
    At {
        /// The number of the node at which it fails, if it is a check of an expression.
        expr: Option<u32>,
        /// Why it fails.
        kind: TypeKind,
    },
    /// A limit is passed.
    Limit(LimitKind),
    /// Out of memory.
    NoMemory,
}

impl StmtStop {
    /// A check fails that is not one of an expression.
    pub fn refused(kind: TypeKind) -> StmtStop
        ensures { result ≡ stop.At None kind }
    {
        StmtStop::At { expr: None, kind }
    }
}

impl From<ExprStop> for StmtStop {
    ghost from_gives = { λ stop made. made ≡ stop_of_expr stop };

    fn from(stop: ExprStop) -> StmtStop {
        match stop {
            ExprStop::At { expr, kind } => StmtStop::At {
                expr: Some(expr),
                kind,
            },
            ExprStop::Depth => StmtStop::Limit(LimitKind::Depth),
            ExprStop::NoMemory => StmtStop::NoMemory,
        }
    }
}

impl From<NoMemory> for StmtStop {
    ghost from_gives = { λ _ made. made ≡ stop.NoMemory };

    fn from(_error: NoMemory) -> StmtStop {
        StmtStop::NoMemory
    }
}
