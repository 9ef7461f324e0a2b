//! Parses texts: lexes a text, finds the first token that is one too many for its statement, parses
//! the tokens before it, and reports whichever comes first in the text.
//!
//! The module never looks at a byte, nor at the grammar. The limit is that of `len_within_limit` in
//! `gx_syntax_stmts`. To report another stop, add its meaning in `specs/Meanings.antt`.

ghost use Rattle.std.specs.Prelude.{◌≡◌, ◌<◌, ◌^◌, IfSome, length};
ghost use Rattle.gx_syntax_tokens.specs.TokenTexts.{token_stream_of};
ghost use Rattle.gx_syntax.specs.EndAfter.{EndsAfter};
ghost use Rattle.gx_syntax.specs.Meanings.{meaning_of, meaning_of_result};
ghost use Rattle.gx_syntax.specs.Texts.{IsMeaning};

use crate::SyntaxStop;
use crate::laws::texts_have_one_meaning;
use gx_syntax_stmts::{GrammarStop, len_within_limit, parse_script};
use gx_syntax_tokens::{LexEnd, PlacedToken, SyntaxKind, lex};
use gx_syntax_tree::Script;
use std::alloc::Global;

// The offset at which the text ends after its first `allowed` tokens, or why it does not end there.
fn end_after(tokens: &[PlacedToken<'_>], allowed: usize, end: LexEnd) -> Result<u32, SyntaxStop>
    ensures { EndsAfter (token_stream_of tokens.now end) allowed result }
{
    if allowed < tokens.len() {
        return Err(SyntaxStop::Long(tokens[allowed].start));
    }
    match end {
        LexEnd::Error(offset, kind) => Err(SyntaxStop::At(offset, kind)),
        LexEnd::Eof(offset) => Ok(offset),
    }
}

// Parses the tokens of a text.
fn parse_tokens(
    alloc: Global,
    tokens: &[PlacedToken<'_>],
    end: LexEnd,
) -> Result<Script, SyntaxStop>
    ensures { IfSome (meaning_of_result result) (IsMeaning (token_stream_of tokens.now end)) }
{
    let allowed = len_within_limit(tokens);
    let after = end_after(tokens, allowed, end);
    match parse_script(alloc, &tokens[..allowed]) {
        Ok(script) => {
            after?;
            Ok(script)
        }
        Err(GrammarStop::At(at)) if at < allowed => {
            Err(SyntaxStop::At(tokens[at].start, SyntaxKind::Unexpected))
        }
        Err(GrammarStop::At(_)) => Err(SyntaxStop::At(after?, SyntaxKind::Unexpected)),
        Err(GrammarStop::NoMemory) => Err(SyntaxStop::NoMemory),
    }
}

/// Parses a text as a script.
///
/// # Errors
///
/// `At` if the text is refused, `Long` if a statement has too many tokens, whichever is first in
/// the text; and `NoMemory`.
pub fn parse(alloc: Global, text: &str) -> Result<Script, SyntaxStop>
    requires { length text.now < 2 ^ 32 }
    ensures means { IfSome (meaning_of_result result) (λ m. m ≡ meaning_of text.now) }
{
    // By this law the meaning that the result claims is the one that the text has.
    texts_have_one_meaning();
    let (tokens, end) = lex(alloc, text)?;
    parse_tokens(alloc, tokens.as_slice(), end)
}
