//! Why the program stops before its last task is done.

use gx_load::LoadStop;
use gx_rows::PartStop;

/// Why the program stops.
#[derive(Clone, Copy)]
pub enum Stop {
    /// An operation refused its input.
    Refused,
    /// The arguments are no tasks.
    Usage,
    /// A file could not be read.
    File,
    /// The output could not be written.
    Output,
    /// Out of memory.
    NoMemory,
}

impl Stop {
    /// The exit status.
    pub fn code(self) -> u8 {
        match self {
            Stop::Refused => 1,
            Stop::Usage => 2,
            Stop::File => 4,
            Stop::Output => 5,
            Stop::NoMemory => 6,
        }
    }
}

impl From<PartStop> for Stop {
    fn from(stop: PartStop) -> Stop {
        match stop {
            PartStop::Fault { .. } => Stop::Refused,
            PartStop::NoMemory => Stop::NoMemory,
        }
    }
}

impl From<LoadStop> for Stop {
    fn from(stop: LoadStop) -> Stop {
        match stop {
            LoadStop::Data(_) | LoadStop::TooManyRows => Stop::Refused,
            LoadStop::NoMemory => Stop::NoMemory,
        }
    }
}
