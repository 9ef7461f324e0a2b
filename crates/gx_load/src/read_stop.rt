//! Why a file is not read whole.

ghost use Rattle.std.specs.Prelude.{◌≡◌};
ghost use Rattle.gx_load.specs.declared.read_stop.ReadStop.TheVariants as read_stop;

use gx_outside::Failed;
use gx_rows::NoMemory;
use thiserror::Error;

/// Why a file was not read whole.
#[derive(Clone, Copy, Debug, PartialEq, Eq, Error)]
pub enum ReadStop {
    /// The source met a fault, or has no such file.
    #[error("the file cannot be read")]
    Failed,
    /// The file has more bytes than the limit.
    #[error("the file is too long")]
    TooLong,
    /// Out of memory.
    #[error("out of memory")]
    NoMemory,
}

impl From<Failed> for ReadStop {
    ghost from_gives = { λ _ stop. stop ≡ read_stop.Failed };

    fn from(_failed: Failed) -> ReadStop {
        ReadStop::Failed
    }
}

impl From<NoMemory> for ReadStop {
    ghost from_gives = { λ _ stop. stop ≡ read_stop.NoMemory };

    fn from(_error: NoMemory) -> ReadStop {
        ReadStop::NoMemory
    }
}
