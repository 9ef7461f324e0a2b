//! Writes the value of a quoted text between quotation marks, with escapes.
//!
//! It sees bytes alone: neither tokens nor the spaces between them. A new escape is added here, in
//! `unescaping.rt`, and in `escaped_byte`, `is_escape` and `escape_value` of `specs/`.

ghost use Rattle.std.specs.Prelude.{◌≡◌, ◌++◌, ◌∷◌, [], OnOk, string_bytes, drop, take_while, false};
ghost use Rattle.std.specs.List.{prefix_len};
ghost use Rattle.gx_syntax_tokens.specs.Scanning.{is_unescaped_byte};
ghost use Rattle.gx_syntax_tokens.specs.SpacedText.{escaped_byte, escaped_text};
ghost use Rattle.gx_syntax_tokens.specs.Writing.{Extends};

use crate::appending::append;
use gx_rows::NoMemory;

/// Adds a value between quotation marks, escaped.
///
/// # Errors
///
/// `NoMemory` if memory runs out.
pub(crate) fn put_quoted(out: &mut String, value: &str) -> Result<(), NoMemory>
    ensures written { OnOk result
        (string_bytes out.new ≡ string_bytes out.old ++ 34 ∷ escaped_text value.now ++ 34 ∷ []) }
    ensures extends { Extends (string_bytes out.old) (string_bytes out.new) }
{
    append(out, "\"")?;
    put_escaped(out, value)?;
    append(out, "\"")
}

// The bytes before the first byte that is escaped.
fn plain_len(value: &[u8]) -> usize
    ensures { result ≡ prefix_len is_unescaped_byte value.now }
{
    value
        .iter()
        .take_while(|byte| !matches!(**byte, b'"' | b'\\' | b'\n' | b'\t' | b'\r'))
        .count()
}

// The value before the first byte that is escaped, and the rest.
fn split_plain(value: &str) -> (&str, &str)
    ensures plain { result.0.now ≡ take_while is_unescaped_byte value.now }
    ensures rest { result.1.now ≡ drop (prefix_len is_unescaped_byte value.now) value.now }
{
    value.split_at(plain_len(value.as_bytes()))
}

// The escape of a byte.
fn escape_of(byte: u8) -> &'static str
    requires { is_unescaped_byte byte ≡ false }
    ensures { result.now ≡ escaped_byte byte }
{
    match byte {
        b'"' => "\\\"",
        b'\\' => "\\\\",
        b'\n' => "\\n",
        b'\t' => "\\t",
        _ => "\\r",
    }
}

// Adds a value, escaped.
fn put_escaped(out: &mut String, value: &str) -> Result<(), NoMemory>
    ensures written { OnOk result
        (string_bytes out.new ≡ string_bytes out.old ++ escaped_text value.now) }
    ensures extends { Extends (string_bytes out.old) (string_bytes out.new) }
{
    let mut rest = value;
    'runs: loop {
        let (plain, special) = split_plain(rest);
        append(out, plain)?;
        let [first, ..] = special.as_bytes() else {
            return Ok(());
        };
        append(out, escape_of(*first))?;
        rest = &special[1..];
    }
}
