//! Cells of a data file: which bytes of a cell count, and the whole number or the truth value that
//! they spell.

ghost use Rattle.std.specs.Prelude.{◌≡◌, ◌<◌, IfSome, Some};
ghost use Rattle.std.specs.Char.{digit_value};
ghost use Rattle.gx_load.specs.Cells.{trim, trim_end, trim_start, bool_of, int_of, number_of};

use std::str;

// The text after the spaces and tabs at its start.
fn trim_start(text: &[u8]) -> &[u8]
    ensures { result.now ≡ trim_start text.now }
{
    let mut rest = text;
    while let [b' ' | b'\t', others @ ..] = rest {
        rest = others;
    }
    rest
}

// The text before the spaces and tabs at its end.
fn trim_end(text: &[u8]) -> &[u8]
    ensures { result.now ≡ trim_end text.now }
{
    let mut rest = text;
    while let [others @ .., b' ' | b'\t'] = rest {
        rest = others;
    }
    rest
}

/// The text between the spaces and tabs at its ends.
#[tactic(auto, unfolding(crate::specs::Cells::trim))]
pub(crate) fn trim(text: &[u8]) -> &[u8]
    ensures { result.now ≡ trim text.now }
{
    trim_end(trim_start(text))
}

// The whole number that a text spells, if it spells one.
#[tactic(auto, using(crate::proofs::CellLemmas::parsing))]
fn parse_number(text: &str) -> Option<i64>
    ensures { result ≡ number_of text.now }
{
    text.parse::<i64>().ok()
}

// The number that a text of any length spells, if it spells one.
fn parsed_number(text: &[u8]) -> Option<i64>
    ensures { result ≡ number_of text.now }
{
    match str::from_utf8(text) {
        Ok(text) => parse_number(text),
        Err(_) => None,
    }
}

// The number that digits alone spell, if it has at most 18 of them without zeros in front. It says
// nothing of other texts.
fn short_number(text: &[u8]) -> Option<i64>
    ensures { IfSome result (λ number. number_of text.now ≡ Some number) }
{
    if text.is_empty() {
        return None;
    }
    let mut number = 0u64;
    let mut rest = text;
    'digits: while let [byte, others @ ..] = rest {
        let Some(digit) = digit_of(*byte) else {
            return None;
        };
        if number >= 100_000_000_000_000_000 {
            return None;
        }
        number = number * 10 + digit;
        rest = others;
    }
    Some(number as i64)
}

fn digit_of(byte: u8) -> Option<u64>
    ensures { IfSome result (λ digit. (digit_value byte ≡ digit) × (digit < 10)) }
{
    if byte < b'0' {
        return None;
    }
    if byte > b'9' {
        return None;
    }
    Some((byte - b'0') as u64)
}

/// The whole number that these bytes spell, if they spell one. Nearly all are short, and are read
/// without a look at what else they may be.
pub(crate) fn number_of(text: &[u8]) -> Option<i64>
    ensures { result ≡ number_of text.now }
{
    match short_number(text) {
        Some(number) => Some(number),
        None => parsed_number(text),
    }
}

/// The whole number in a cell, if there is one.
#[tactic(auto, unfolding(crate::specs::Cells::int_of))]
pub(crate) fn int_of(cell: &[u8]) -> Option<i64>
    ensures { result ≡ int_of cell.now }
{
    number_of(trim(cell))
}

/// The truth value in a cell, if there is one.
#[tactic(auto, unfolding(crate::specs::Cells::bool_of))]
pub(crate) fn bool_of(cell: &[u8]) -> Option<bool>
    ensures { result ≡ bool_of cell.now }
{
    let word = trim(cell);
    if word == b"true".as_slice() {
        Some(true)
    } else if word == b"false".as_slice() {
        Some(false)
    } else {
        None
    }
}
