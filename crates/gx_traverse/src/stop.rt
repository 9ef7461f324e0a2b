//! From the refusal of a closure to that of its kernel.

ghost use Rattle.std.specs.Prelude.{◌≡◌};
ghost use Rattle.gx_traverse.specs.Steps.{stopped_at};

use gx_rows::{EvalStop, PartStop, RowKey};

/// The refusal of a kernel whose closure returned `stop` at the item of this key.
pub fn stop_at(key: RowKey, stop: EvalStop) -> PartStop
    ensures { result ≡ stopped_at key stop }
{
    match stop {
        EvalStop::Fault { cause, expr } => PartStop::Fault { key, expr, cause },
        EvalStop::NoMemory => PartStop::NoMemory,
    }
}
