//! A cursor over the tokens of a script.
//!
//! `Cursor` borrows a list of tokens and parses from its start: each method takes the tokens that
//! it names and leaves the rest. Contracts see it as the list of the tokens that remain, without
//! their offsets, so that the clause of each parser is one equation:
//! `Parses result self.new (definition self.old)`. If a method refuses, the first of the tokens
//! that remain is the refused one, and if none remains, the end is refused. The cursor never sees
//! the text of the script.

ghost use Rattle.std.specs.Prelude.{◌≡◌, ◌<◌, ◌^◌, true, drop, length};
ghost use Rattle.gx_syntax_tokens.specs.Terminals.{is_symbol};
ghost use Rattle.gx_syntax_tokens.specs.TokenTexts.{terminal_of};
ghost use Rattle.gx_syntax_exprs.specs.Combinators.{satisfy};
ghost use Rattle.gx_syntax_exprs.specs.Parses.{Parses, terminals_of};
ghost use Rattle.gx_syntax_exprs.specs.TokenParsers as token;

use crate::parse_stop::ParseStop;
use gx_rows::Text;
use gx_syntax_tokens::{PlacedToken, Symbol, TokenValue, unescape};
use std::alloc::Global;
use std::marker::Model;

/// The tokens of a script that remain to be parsed.
#[derive(Drop)]
pub struct Cursor<'a> {
    rest: &'a [PlacedToken<'a>],
}

impl<'a> Model for Cursor<'a> {
    ghost use Rattle.std.specs.Prelude.{List};
    ghost use Rattle.gx_syntax_tokens.specs.Terminals.{Terminal};
    ghost use Rattle.gx_syntax_exprs.specs.Parses.{terminals_of};

    ghost Value = { List Terminal };

    ghost view = { λ c. terminals_of c.rest.now };
}

/// Whether a token is this word.
fn is_word(value: TokenValue<'_>, word: &str) -> bool
    ensures { result ≡ token.is_word word.now (terminal_of value.entry) }
{
    match value {
        TokenValue::Word(found) => found == word,
        _ => false,
    }
}

impl<'a> Cursor<'a> {
    /// A cursor before the first of these tokens.
    pub fn new(tokens: &'a [PlacedToken<'a>]) -> Cursor<'a>
        ensures { result ≡ terminals_of tokens.now }
    {
        Cursor { rest: tokens }
    }

    /// How many tokens remain.
    pub fn len(&self) -> usize
        ensures count { result ≡ length self.now }
        ensures bounded { result < 2 ^ 63 }
    {
        self.rest.len()
    }

    /// Whether a token remains.
    pub fn has_next(&self) -> bool
        ensures { result ≡ token.is_next (λ t. true) self.now }
    {
        match self.rest {
            [] => false,
            [_, ..] => true,
        }
    }

    /// The next token; `None` at the end.
    pub fn peek(&self) -> Option<TokenValue<'a>>
        ensures { token.Peeks result self.now }
    {
        match self.rest {
            [] => None,
            [placed, ..] => Some(placed.value),
        }
    }

    /// Passes over the next token; at the end it does nothing.
    pub fn advance(&mut self)
        ensures { self.new ≡ drop 1 self.old }
    {
        if let [_, others @ ..] = self.rest {
            self.rest = others;
        }
    }

    /// Whether the next token is this symbol.
    pub fn is_symbol_next(&self, symbol: Symbol) -> bool
        ensures { result ≡ token.is_next (is_symbol symbol) self.now }
    {
        match self.rest {
            [] => false,
            [placed, ..] => placed.value.is(symbol),
        }
    }

    /// Whether the next token is this word.
    pub fn is_word_next(&self, word: &str) -> bool
        ensures { result ≡ token.is_next (token.is_word word.now) self.now }
    {
        match self.rest {
            [] => false,
            [placed, ..] => is_word(placed.value, word),
        }
    }

    /// Parses this symbol.
    ///
    /// # Errors
    ///
    /// `Refused`.
    pub fn symbol(&mut self, symbol: Symbol) -> Result<(), ParseStop>
        ensures { Parses result self.new (satisfy (token.expected_symbol symbol) self.old) }
    {
        if let [placed, others @ ..] = self.rest
            && placed.value.is(symbol)
        {
            self.rest = others;
            Ok(())
        } else {
            Err(ParseStop::Refused)
        }
    }

    /// Parses this word.
    ///
    /// # Errors
    ///
    /// `Refused`.
    pub fn keyword(&mut self, word: &str) -> Result<(), ParseStop>
        ensures { Parses result self.new (satisfy (token.expected_word word.now) self.old) }
    {
        if let [placed, others @ ..] = self.rest
            && is_word(placed.value, word)
        {
            self.rest = others;
            Ok(())
        } else {
            Err(ParseStop::Refused)
        }
    }

    /// Parses a word as a name.
    ///
    /// # Errors
    ///
    /// `Refused`, and `NoMemory`.
    pub fn name(&mut self, alloc: Global) -> Result<Text, ParseStop>
        ensures { Parses result self.new (satisfy token.name_value self.old) }
    {
        if let [placed, others @ ..] = self.rest
            && let TokenValue::Word(word) = placed.value
        {
            let name = Text::of(alloc, word)?;
            self.rest = others;
            Ok(name)
        } else {
            Err(ParseStop::Refused)
        }
    }

    /// Parses a quoted text.
    ///
    /// # Errors
    ///
    /// `Refused`, and `NoMemory`.
    pub fn quoted(&mut self, alloc: Global) -> Result<Text, ParseStop>
        ensures { Parses result self.new (satisfy token.quoted_value self.old) }
    {
        if let [placed, others @ ..] = self.rest
            && let TokenValue::Quoted(raw) = placed.value
        {
            let value = unescape(alloc, raw)?;
            self.rest = others;
            Ok(value)
        } else {
            Err(ParseStop::Refused)
        }
    }

    /// Parses a number from 0 to 9223372036854775807.
    ///
    /// # Errors
    ///
    /// `Refused`.
    pub fn number(&mut self) -> Result<i64, ParseStop>
        ensures { Parses result self.new (satisfy token.number_value self.old) }
    {
        if let [placed, others @ ..] = self.rest
            && let TokenValue::Number(n) = placed.value
            && n < 9_223_372_036_854_775_808
        {
            self.rest = others;
            Ok(n as i64)
        } else {
            Err(ParseStop::Refused)
        }
    }
}
