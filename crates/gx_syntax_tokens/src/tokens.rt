//! The tokens of a script, one after the other, without a list of them.
//!
//! `Tokens` borrows a script. Contracts see it as the script, how many of its bytes are consumed,
//! and the tokens of the rest with how they end: at the end of the script, or at the first offset
//! that begins no token.

ghost use Rattle.std.specs.Prelude.{◌≡◌, ◌<◌, ◌^◌, length};
ghost use Rattle.gx_syntax_tokens.specs.Lexing.{tokens_of};
ghost use Rattle.gx_syntax_tokens.specs.LexerState.{ReturnsNextToken};

use crate::lexer::{NextToken, next_at};
use crate::scan::bom_len;
use crate::token_value::LexEnd;
use crate::{SyntaxKind, Token};
use std::marker::Model;

/// The rest of a script's tokens.
#[derive(Drop)]
pub struct Tokens<'a> {
    text: &'a str,
    at: usize,
}

impl<'a> Model for Tokens<'a> {
    ghost use Rattle.std.specs.Prelude.{◌≤◌, ◌<◌, ◌^◌, length};
    ghost use Rattle.gx_syntax_tokens.specs.Lexing.{tokens_at};
    ghost use Rattle.gx_syntax_tokens.specs.LexerState.{LexerState};

    ghost Value = { LexerState };

    ghost view = { λ t. record { script = t.text.now; consumed = t.at; rest = tokens_at t.text.now t.at } };

    ghost invariant = { λ t. (t.at ≤ length t.text.now) × (length t.text.now < 2 ^ 32) };
}

impl<'a> Tokens<'a> {
    /// The tokens of a text. A byte order mark at its start is skipped.
    pub fn of(text: &'a str) -> Tokens<'a>
        requires { length text.now < 2 ^ 32 }
        ensures rest { result.rest ≡ tokens_of text.now }
        ensures script_kept { result.script ≡ text.now }
    {
        Tokens {
            text,
            at: bom_len(text.as_bytes()),
        }
    }

    /// The next token, or `None` at the end of the script.
    ///
    /// # Errors
    ///
    /// The first offset that begins no token, in bytes from the start of the script, and why. The
    /// next call returns the same.
    pub fn next(&mut self) -> Result<Option<Token<'a>>, (u32, SyntaxKind)>
        ensures { ReturnsNextToken self.old self.new result }
    {
        match next_at(self.text, self.at) {
            NextToken::Token(placed, text) => {
                let start = placed.start;
                let kind = placed.value.kind();
                self.at = start as usize + text.len();
                Ok(Some(Token { text, start, kind }))
            }
            NextToken::Ends(LexEnd::Eof(_)) => Ok(None),
            NextToken::Ends(LexEnd::Error(offset, kind)) => Err((offset, kind)),
        }
    }
}
