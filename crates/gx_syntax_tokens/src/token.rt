//! Tokens as a user of the crate sees them: a kind and a slice of the script. Their values are for
//! the parser alone (`token_value.rt`).

/// The kind of a token.
#[derive(Clone, Copy, Debug, PartialEq, Eq)]
pub enum TokenKind {
    /// A letter, and then letters, digits and `_`.
    Word,
    /// Digits.
    Number,
    /// Text between quotation marks.
    Quoted,
    /// One or two bytes of punctuation.
    Symbol,
}

/// A token of a script.
#[derive(Clone, Copy, Debug, PartialEq, Eq)]
pub struct Token<'a> {
    /// The token as it is written: the slice of the script at `start`, which is not empty.
    pub text: &'a str,
    /// Where the token starts, in bytes from the start of the script.
    pub start: u32,
    /// Its kind.
    pub kind: TokenKind,
}
