//! The ends of a run, and the exit status of each.

ghost use Rattle.std.specs.Prelude.{◌≡◌};
ghost use Rattle.gx_print.specs.ExitCodes.{exit_code};
ghost use Rattle.gx_print.specs.declared.status.Status.TheVariants as status;

use gx_load::RowStop;
use gx_rows::{Fault, LimitKind, NoMemory, Text};
use gx_syntax_tokens::SyntaxKind;
use gx_types_exprs::TypeKind;

/// Why a script was refused. Offsets are in bytes from the start of the script, statements count
/// from 1, and the expression nodes of a statement from 0.
#[derive(Clone, Copy, Debug, PartialEq, Eq)]
pub enum ScriptStop {
    /// The script is not UTF-8. Its longest prefix that is UTF-8 has this many bytes.
    NotUtf8(u32),
    /// The first refused offset, and what is wrong there.
    Syntax(u32, SyntaxKind),
    /// The first statement that is not well typed, the expression node if it is one of an
    /// expression, and what is wrong.
    Typing(u32, Option<u32>, TypeKind),
}

/// Why a data file was refused.
#[derive(Debug, Drop)]
pub struct DataStop {
    /// The file's name.
    pub file: Text,
    /// The name of the column, if the refused position is a column's, which it is if `stop` is a
    /// `Header` or a `Cell`.
    pub column: Option<Text>,
    /// The first refused position.
    pub stop: RowStop,
}

/// The end of a run.
#[derive(Debug, Drop)]
pub enum Status {
    /// The whole output was written.
    Done,
    /// The arguments are not a command of `gx`.
    Usage,
    /// The script was refused.
    Script(ScriptStop),
    /// The first line of the schedule, counted from 1, that is not one of a schedule.
    Schedule(u32),
    /// A data file was refused.
    Data(DataStop),
    /// A statement that an action needs has no result.
    Fault(Fault),
    /// A quantity is past its limit.
    Limit(LimitKind),
    /// The file of this name could not be read.
    Source(Text),
    /// The output could not be written.
    Sink,
    /// Out of memory.
    NoMemory,
}

impl Status {
    /// The exit status of a program that ends with this.
    pub fn code(&self) -> u8
        ensures { result ≡ exit_code self.now }
    {
        match self {
            Status::Done => 0,
            Status::Script(_) | Status::Schedule(_) | Status::Data(_) | Status::Fault(_) => 1,
            Status::Usage => 2,
            Status::Limit(_) => 3,
            Status::Source(_) => 4,
            Status::Sink => 5,
            Status::NoMemory => 6,
        }
    }
}

impl From<NoMemory> for Status {
    ghost from_gives = { λ _ end. end ≡ status.NoMemory };

    fn from(_error: NoMemory) -> Status {
        Status::NoMemory
    }
}
