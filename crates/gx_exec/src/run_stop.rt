//! Why a statement was not run.

ghost use Rattle.std.specs.Prelude.{◌≡◌};
ghost use Rattle.gx_exec.specs.declared.run_stop.RunStop.TheVariants as run_stop;

use gx_rows::{Fault, NoMemory};

/// Why an action has no answer.
#[derive(Debug, Drop, PartialEq, Eq)]
pub enum RunStop {
    /// A statement that the action uses has a fault.
    Fault(Fault),
    /// Out of memory.
    NoMemory,
}

impl From<NoMemory> for RunStop {
    ghost from_gives = { λ _ stop. stop ≡ run_stop.NoMemory };

    fn from(_error: NoMemory) -> RunStop {
        RunStop::NoMemory
    }
}
