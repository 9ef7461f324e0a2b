//! Why a script is refused: one variant for each cause. The lexer gives all but `Unexpected`, which
//! is the parsers' only one.

/// Why a script is refused at an offset.
#[derive(Clone, Copy, Debug, PartialEq, Eq)]
pub enum SyntaxKind {
    /// A byte that begins no token.
    NotToken,
    /// A quoted text that is not closed, or has a wrong escape.
    TextOpen,
    /// A quoted text whose value has more than 1,024 bytes.
    TextLong,
    /// A word of more than 64 bytes.
    NameLong,
    /// A number of more than 9223372036854775807.
    NumberLarge,
    /// No script continues with this token, or none ends here.
    Unexpected,
}
