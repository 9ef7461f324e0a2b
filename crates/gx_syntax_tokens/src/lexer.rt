//! The lexer: from an offset of a text on, the first token and its slice of the text, or how the
//! tokens end. It takes no memory, and never sees more than one token; `Tokens` and `lex` call it.
//!
//! To add a symbol, see `symbol.rt`; an escape, see `escaping.rt`; a limit, see `scan.rt`. A new
//! kind of token gets a function here, a branch of `token`, and a branch of `token_at` in
//! `specs/Lexing.antt`.

ghost use Rattle.std.specs.Prelude.{◌≡◌, ◌≤◌, ◌<◌, ◌+◌, ◌-◌, ◌^◌, ◌∷◌, ◌++◌, [], Some, None, nat_le, if◌then◌else◌, true, length, drop, take, slice_index};
ghost use Rattle.std.specs.Char.{is_ascii_digit};
ghost use Rattle.std.specs.Str.{all_ascii_digits};
ghost use Rattle.std.specs.Str.Parse.{digits_value};
ghost use Rattle.gx_syntax_tokens.specs.Lexing.{is_word_byte, number_at, quoted_at, symbol_token, token_at, word_at};
ghost use Rattle.gx_syntax_tokens.specs.Scanning.{Finds, HasAsciiEnds, IsNextFrom, IsPrefixOf};
ghost use Rattle.gx_syntax_tokens.specs.Symbols.{symbol_at};

use crate::SyntaxKind;
use crate::quoted::{quoted_len, value_len};
use crate::scan::{
    MOST_NUMBER, MOST_TEXT_BYTES, MOST_WORD_BYTES, digits_len, skip_trivia, word_len,
};
use crate::symbol::symbol_of;
use crate::token_value::{LexEnd, PlacedToken, TokenValue};

/// A token with its slice of the text.
#[derive(Clone, Copy)]
pub(crate) struct Scanned<'a> {
    pub(crate) text: &'a str,
    pub(crate) value: TokenValue<'a>,
}

/// The first token with its slice of the text, or how the tokens end.
#[derive(Clone, Copy)]
pub(crate) enum NextToken<'a> {
    Token(PlacedToken<'a>, &'a str),
    Ends(LexEnd),
}

// The slice of a text at an offset.
fn slice(text: &str, at: usize, len: usize) -> &str
    requires { HasAsciiEnds text.now at len }
    ensures { IsPrefixOf (drop at text.now) result.now len }
{
    &text[at..at + len]
}

fn word(text: &str, at: usize) -> Result<Scanned<'_>, SyntaxKind>
    requires within { at < length text.now }
    requires word_byte { is_word_byte (slice_index text.now at) ≡ true }
    ensures { Finds (word_at (drop at text.now)) (drop at text.now) result }
{
    let len = word_len(text.as_bytes().split_at(at).1);
    if len > MOST_WORD_BYTES {
        return Err(SyntaxKind::NameLong);
    }
    let word = slice(text, at, len);
    Ok(Scanned {
        text: word,
        value: TokenValue::Word(word),
    })
}

// The value of a run of digits, unless it is too large.
fn value_of(digits: &str) -> Option<u64>
    requires nonempty { 0 < length digits.now }
    requires digits { all_ascii_digits digits.now ≡ true }
    ensures { result ≡ (if nat_le (digits_value 10 digits.now) MOST_NUMBER
        then Some (digits_value 10 digits.now) else None) }
{
    match digits.parse::<u64>() {
        Ok(value) if value <= MOST_NUMBER => Some(value),
        _ => None,
    }
}

fn number(text: &str, at: usize) -> Result<Scanned<'_>, SyntaxKind>
    requires within { at < length text.now }
    requires digit { is_ascii_digit (slice_index text.now at) ≡ true }
    ensures { Finds (number_at (drop at text.now)) (drop at text.now) result }
{
    let len = digits_len(text.as_bytes().split_at(at).1);
    let digits = slice(text, at, len);
    let Some(value) = value_of(digits) else {
        return Err(SyntaxKind::NumberLarge);
    };
    Ok(Scanned {
        text: digits,
        value: TokenValue::Number(value),
    })
}

// The text between the quotation marks at the ends of a text.
fn inside(text: &str) -> &str
    requires long_enough { 2 ≤ length text.now }
    requires first { slice_index text.now 0 ≡ 34 }
    requires last { slice_index text.now (length text.now - 1) ≡ 34 }
    ensures slice { result.now ≡ take (length text.now - 2) (drop 1 text.now) }
    ensures between_quotes { text.now ≡ 34 ∷ result.now ++ 34 ∷ [] }
{
    &text[1..text.len() - 1]
}

fn quoted(text: &str, at: usize) -> Result<Scanned<'_>, SyntaxKind>
    requires within { at < length text.now }
    requires quote { slice_index text.now at ≡ 34 }
    ensures { Finds (quoted_at (drop at text.now)) (drop at text.now) result }
{
    let Some(len) = quoted_len(text.as_bytes().split_at(at + 1).1) else {
        return Err(SyntaxKind::TextOpen);
    };
    let quoted = slice(text, at, len + 2);
    let raw = inside(quoted);
    if value_len(raw.as_bytes()) > MOST_TEXT_BYTES {
        return Err(SyntaxKind::TextLong);
    }
    Ok(Scanned {
        text: quoted,
        value: TokenValue::Quoted(raw),
    })
}

fn symbol(text: &str, at: usize) -> Result<Scanned<'_>, SyntaxKind>
    requires { at < length text.now }
    ensures { Finds (symbol_token (symbol_at (drop at text.now))) (drop at text.now) result }
{
    let Some(symbol) = symbol_of(text.as_bytes().split_at(at).1) else {
        return Err(SyntaxKind::NotToken);
    };
    Ok(Scanned {
        text: slice(text, at, symbol.len()),
        value: TokenValue::Symbol(symbol),
    })
}

// The token that begins at an offset, or why none begins there.
fn token(text: &str, at: usize) -> Result<Scanned<'_>, SyntaxKind>
    requires { at < length text.now }
    ensures { Finds (token_at (drop at text.now)) (drop at text.now) result }
{
    let first = text.as_bytes()[at];
    if first.is_ascii_alphabetic() {
        word(text, at)
    } else if first.is_ascii_digit() {
        number(text, at)
    } else if first == b'"' {
        quoted(text, at)
    } else {
        symbol(text, at)
    }
}

/// The first token after the white space and the comments from an offset on, or how the tokens end.
pub(crate) fn next_at(text: &str, from: usize) -> NextToken<'_>
    requires short { length text.now < 2 ^ 32 }
    requires within { from ≤ length text.now }
    ensures { IsNextFrom text.now from result }
{
    let at = skip_trivia(text.as_bytes(), from);
    if at == text.len() {
        return NextToken::Ends(LexEnd::Eof(at as u32));
    }
    match token(text, at) {
        Ok(found) => NextToken::Token(
            PlacedToken {
                start: at as u32,
                value: found.value,
            },
            found.text,
        ),
        Err(kind) => NextToken::Ends(LexEnd::Error(at as u32, kind)),
    }
}
