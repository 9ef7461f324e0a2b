//! Tokens as the parser takes them: words, values of numbers, quoted texts, and symbols, each with
//! its offset; and the list of a text's tokens. The parser never sees bytes.

ghost use Rattle.std.specs.Prelude.{◌≡◌, ◌<◌, ◌^◌, All, IfOk, length};
ghost use Rattle.gx_syntax_tokens.specs.Lexing.{tokens_of};
ghost use Rattle.gx_syntax_tokens.specs.Validity.{IsValid};
ghost use Rattle.gx_syntax_tokens.specs.Quotes.{unescaped_text};
ghost use Rattle.gx_syntax_tokens.specs.Terminals.{is_symbol};
ghost use Rattle.gx_syntax_tokens.specs.Scanning.{token_kind_of};
ghost use Rattle.gx_syntax_tokens.specs.TokenTexts.{token_stream_of, terminal_of};

use crate::lexer::{NextToken, next_at};
use crate::scan::bom_len;
use crate::symbol::Symbol;
use crate::unescaping::{plain_len, value_of};
use crate::{SyntaxKind, TokenKind};
use gx_rows::{NoMemory, Text};
use std::alloc::Global;

/// A token without its offset. A number is at most 9223372036854775807.
#[derive(Clone, Copy)]
pub enum TokenValue<'a> {
    /// A word.
    Word(&'a str),
    /// A number.
    Number(u64),
    /// The text between quotation marks, with its escapes: `unescape` gives its value.
    Quoted(&'a str),
    /// A symbol.
    Symbol(Symbol),
}

impl TokenValue<'_> {
    /// The kind of the token.
    pub(crate) fn kind(self) -> TokenKind
        ensures { result ≡ token_kind_of self.entry }
    {
        match self {
            TokenValue::Word(_) => TokenKind::Word,
            TokenValue::Number(_) => TokenKind::Number,
            TokenValue::Quoted(_) => TokenKind::Quoted,
            TokenValue::Symbol(_) => TokenKind::Symbol,
        }
    }

    /// Whether the token is this symbol.
    pub fn is(self, symbol: Symbol) -> bool
        ensures { result ≡ is_symbol symbol (terminal_of self.entry) }
    {
        match self {
            TokenValue::Symbol(found) => found == symbol,
            _ => false,
        }
    }
}

/// A token with its offset, in bytes from the start of the text.
#[derive(Clone, Copy)]
pub struct PlacedToken<'a> {
    /// Where the token starts.
    pub start: u32,
    /// The token.
    pub value: TokenValue<'a>,
}

/// How the tokens of a text end.
#[derive(Clone, Copy)]
pub enum LexEnd {
    /// The text ends here, in bytes from its start.
    Eof(u32),
    /// No token begins at this offset, for this reason.
    Error(u32, SyntaxKind),
}

/// The tokens of a text, each with its offset, and how they end.
///
/// # Errors
///
/// `NoMemory` if memory for the list runs out.
pub fn lex<'a>(alloc: Global, text: &'a str) -> Result<(Vec<PlacedToken<'a>>, LexEnd), NoMemory>
    requires { length text.now < 2 ^ 32 }
    ensures tokens { IfOk result (λ r. token_stream_of r.0.items r.1 ≡ tokens_of text.now) }
    ensures valid { IfOk result (λ r. All (λ p. IsValid (terminal_of p.value)) r.0.items) }
{
    let mut tokens = Vec::new(alloc);
    let mut at = bom_len(text.as_bytes());
    loop {
        match next_at(text, at) {
            NextToken::Token(placed, slice) => {
                at = placed.start as usize + slice.len();
                tokens.push(placed)?;
            }
            NextToken::Ends(end) => return Ok((tokens, end)),
        }
    }
}

/// The value of the text between quotation marks, which `TokenValue::Quoted` has. A backslash that
/// begins no escape is dropped; the tokens of a text have none.
///
/// # Errors
///
/// `NoMemory` if memory for the value runs out.
#[tactic(auto, unfolding(crate::specs::Quotes::unescaped_text))]
pub fn unescape(alloc: Global, raw: &str) -> Result<Text, NoMemory>
    ensures { IfOk result (λ value. value ≡ unescaped_text raw.now) }
{
    if plain_len(raw.as_bytes()) == raw.len() {
        return Text::of(alloc, raw);
    }
    Text::from_string(alloc, value_of(alloc, raw)?)
}
