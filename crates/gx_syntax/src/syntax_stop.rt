//! Where a text is refused, and why.

ghost use Rattle.std.specs.Prelude.{◌≡◌};
ghost use Rattle.gx_syntax.specs.declared.syntax_stop.SyntaxStop.TheVariants as stops;

use gx_rows::NoMemory;
use gx_syntax_tokens::SyntaxKind;

/// Why a text is not parsed. Offsets are in bytes from the start of the text.
#[derive(Clone, Copy, Debug, PartialEq, Eq)]
pub enum SyntaxStop {
    /// The first offset at which the text is refused, and why.
    At(u32, SyntaxKind),
    /// The offset of the first token that is one too many: a statement may have 2,048.
    Long(u32),
    /// Out of memory.
    NoMemory,
}

impl From<NoMemory> for SyntaxStop {
    ghost from_gives = { λ _ stop. stop ≡ stops.NoMemory };

    fn from(_error: NoMemory) -> SyntaxStop {
        SyntaxStop::NoMemory
    }
}
