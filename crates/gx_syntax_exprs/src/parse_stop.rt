//! Why a parser stops.

ghost use Rattle.std.specs.Prelude.{◌≡◌};
ghost use Rattle.gx_syntax_exprs.specs.declared.parse_stop.ParseStop.TheVariants as stops;

use gx_rows::NoMemory;

/// Why a parser stopped.
#[derive(Clone, Copy, Debug, PartialEq, Eq)]
pub enum ParseStop {
    /// The next token, or the end, is refused: nothing that may be parsed goes on with it.
    Refused,
    /// Out of memory.
    NoMemory,
}

impl From<NoMemory> for ParseStop {
    ghost from_gives = { λ _ stop. stop ≡ stops.NoMemory };

    fn from(_error: NoMemory) -> ParseStop {
        ParseStop::NoMemory
    }
}
