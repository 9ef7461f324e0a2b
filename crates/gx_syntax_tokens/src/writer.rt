//! Writes lines of tokens with spaces between them, so that the text lexes to the same tokens.
//!
//! `Writer` gets tokens in order and sees no tree: whether a `-` is a sign, and a word the name of
//! a function, its caller says. A new symbol needs a rule here only if no space comes before it or
//! after it: then change `symbol_separator` or `symbol`, and `attaches_left` or `attaches_right`
//! and `spacing_after` of `specs/`. A new escape goes into `escaping.rt`. There are no limits here:
//! what a text may have is the caller's part.

ghost use Rattle.std.specs.Prelude.{◌≡◌, [], IfOk, OnOk};
ghost use Rattle.gx_syntax_tokens.specs.SpacedText as pieces;
ghost use Rattle.gx_syntax_tokens.specs.Symbols.{spelling};
ghost use Rattle.gx_syntax_tokens.specs.Terminals as terminals;
ghost use Rattle.gx_syntax_tokens.specs.Writing.{Extends, separator, with_line_end, with_piece};
ghost use Rattle.gx_syntax_tokens.specs.declared.writer.Spacing.TheVariants as spacings;
ghost use Rattle.gx_syntax_tokens.specs.declared.symbol.Symbol.TheVariants as symbols;

use crate::Symbol;
use crate::appending::append;
use crate::escaping::put_quoted;
use gx_rows::{NoMemory, Text};
use std::alloc::Global;
use std::marker::Model;

/// How the next token joins the last one of a line.
#[derive(Clone, Copy)]
pub enum Spacing {
    /// There is no last token.
    LineStart,
    /// No space comes between.
    Tight,
    /// No space comes before a `(`, nor before what `Spaced` attaches.
    BeforeCall,
    /// No space comes before `,` `;` `)` `.` and `:`; one comes before any other token.
    Spaced,
}

/// The text of lines of tokens. Contracts see it as the text so far and how the next token joins
/// it.
#[derive(Drop)]
pub struct Writer {
    alloc: Global,
    out: String,
    last: Spacing,
}

impl Model for Writer {
    ghost use Rattle.std.specs.Prelude.{string_bytes};
    ghost use Rattle.gx_syntax_tokens.specs.Writing.{WriterState};

    ghost Value = { WriterState };

    ghost view = { λ w. record { text = string_bytes w.out; last = w.last } };
}

// The space before a symbol.
fn symbol_separator(last: Spacing, symbol: Symbol) -> &'static str
    ensures { result.now ≡ separator last (terminals.symbol symbol) }
{
    match (last, symbol) {
        (Spacing::LineStart | Spacing::Tight, _) => "",
        (_, Symbol::Comma | Symbol::Semicolon | Symbol::CloseParen | Symbol::Dot | Symbol::Colon) =>
            "",
        (Spacing::BeforeCall, Symbol::OpenParen) => "",
        _ => " ",
    }
}

// The space before a token that is not a symbol.
fn word_separator(last: Spacing) -> &'static str
    ensures { result.now ≡ separator last (terminals.word []) }
{
    match last {
        Spacing::LineStart | Spacing::Tight => "",
        Spacing::BeforeCall | Spacing::Spaced => " ",
    }
}

impl Writer {
    /// A text of no lines.
    pub fn new(alloc: Global) -> Writer
        ensures { result ≡ record { text = []; last = spacings.LineStart } }
    {
        Writer {
            alloc,
            out: String::new(alloc),
            last: Spacing::LineStart,
        }
    }

    /// Writes a word.
    ///
    /// # Errors
    ///
    /// `NoMemory` if memory runs out. The word may then be partly written. The calls below do the
    /// same.
    pub fn word(&mut self, word: &str) -> Result<(), NoMemory>
        ensures written { OnOk result
            (self.new ≡ with_piece self.old (pieces.token (terminals.word word.now))) }
        ensures extends { Extends self.old.text self.new.text }
    {
        append(&mut self.out, word_separator(self.last))?;
        append(&mut self.out, word)?;
        self.last = Spacing::Spaced;
        Ok(())
    }

    /// Writes the name before the arguments of a call, or `ids` before its parentheses.
    ///
    /// # Errors
    ///
    /// `NoMemory`.
    pub fn function(&mut self, name: &str) -> Result<(), NoMemory>
        ensures written { OnOk result (self.new ≡ with_piece self.old (pieces.function name.now)) }
        ensures extends { Extends self.old.text self.new.text }
    {
        append(&mut self.out, word_separator(self.last))?;
        append(&mut self.out, name)?;
        self.last = Spacing::BeforeCall;
        Ok(())
    }

    /// Writes a number.
    ///
    /// # Errors
    ///
    /// `NoMemory`.
    pub fn number(&mut self, number: u64) -> Result<(), NoMemory>
        ensures written { OnOk result
            (self.new ≡ with_piece self.old (pieces.token (terminals.number number))) }
        ensures extends { Extends self.old.text self.new.text }
    {
        append(&mut self.out, word_separator(self.last))?;
        let digits = format!(in self.alloc; "{}", number)?;
        append(&mut self.out, digits.as_str())?;
        self.last = Spacing::Spaced;
        Ok(())
    }

    /// Writes a quoted text.
    ///
    /// # Errors
    ///
    /// `NoMemory`.
    pub fn quoted(&mut self, value: &str) -> Result<(), NoMemory>
        ensures written { OnOk result
            (self.new ≡ with_piece self.old (pieces.token (terminals.quoted value.now))) }
        ensures extends { Extends self.old.text self.new.text }
    {
        append(&mut self.out, word_separator(self.last))?;
        put_quoted(&mut self.out, value)?;
        self.last = Spacing::Spaced;
        Ok(())
    }

    /// Writes a symbol that is not a sign before a number or an operand.
    ///
    /// # Errors
    ///
    /// `NoMemory`.
    pub fn symbol(&mut self, symbol: Symbol) -> Result<(), NoMemory>
        ensures written { OnOk result
            (self.new ≡ with_piece self.old (pieces.token (terminals.symbol symbol))) }
        ensures extends { Extends self.old.text self.new.text }
    {
        append(&mut self.out, symbol_separator(self.last, symbol))?;
        append(&mut self.out, symbol.spelling())?;
        self.last = match symbol {
            Symbol::OpenParen | Symbol::Dot => Spacing::Tight,
            _ => Spacing::Spaced,
        };
        Ok(())
    }

    /// Writes a sign `-` before a number or an operand.
    ///
    /// # Errors
    ///
    /// `NoMemory`.
    pub fn sign(&mut self) -> Result<(), NoMemory>
        ensures written { OnOk result (self.new ≡ with_piece self.old pieces.sign) }
        ensures extends { Extends self.old.text self.new.text }
    {
        self.out
            .push_str(symbol_separator(self.last, Symbol::Minus))?;
        append(&mut self.out, "-")?;
        self.last = Spacing::Tight;
        Ok(())
    }

    /// Ends the line.
    ///
    /// # Errors
    ///
    /// `NoMemory`.
    pub fn end_line(&mut self) -> Result<(), NoMemory>
        ensures written { OnOk result (self.new ≡ with_line_end self.old) }
        ensures extends { Extends self.old.text self.new.text }
    {
        append(&mut self.out, "\n")?;
        self.last = Spacing::LineStart;
        Ok(())
    }

    /// The text that was written.
    ///
    /// # Errors
    ///
    /// `NoMemory` if memory runs out.
    pub fn into_text(self) -> Result<Text, NoMemory>
        ensures { IfOk result (λ text. text ≡ self.text) }
    {
        Text::from_string(self.alloc, self.out)
    }
}
