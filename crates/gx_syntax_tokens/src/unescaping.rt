//! Reads the value of a quoted text from the bytes between its quotation marks.
//!
//! It never sees the quotation marks: `quoted.rt` finds where a text closes, and refuses a wrong
//! escape.

ghost use Rattle.std.specs.Prelude.{◌≡◌, ◌++◌, ◌∷◌, ◌<◌, [], IfOk, drop, false, true, length, slice_index, string_bytes, take_while};
ghost use Rattle.std.specs.List.{prefix_len};
ghost use Rattle.gx_syntax_tokens.specs.Quotes.{escape_value, is_escape, unescaped_from};
ghost use Rattle.gx_syntax_tokens.specs.Scanning.{is_not_backslash};

use gx_rows::NoMemory;
use std::alloc::Global;

/// The bytes before the first backslash.
pub(crate) fn plain_len(text: &[u8]) -> usize
    ensures { result ≡ prefix_len is_not_backslash text.now }
{
    text.iter().take_while(|byte| **byte != b'\\').count()
}

/// Whether a backslash before this byte begins an escape.
pub(crate) fn is_escape(byte: u8) -> bool
    ensures { result ≡ is_escape byte }
{
    matches!(byte, b'"' | b'\\' | b'n' | b't' | b'r')
}

// The text before the first backslash, and the rest.
fn split_plain(text: &str) -> (&str, &str)
    ensures plain { result.0.now ≡ take_while is_not_backslash text.now }
    ensures rest { result.1.now ≡ drop (prefix_len is_not_backslash text.now) text.now }
{
    text.split_at(plain_len(text.as_bytes()))
}

// The byte that an escape means, by the byte after its backslash.
fn escape_value(byte: u8) -> &'static str
    requires { is_escape byte ≡ true }
    ensures { result.now ≡ escape_value byte ∷ [] }
{
    match byte {
        b'"' => "\"",
        b'\\' => "\\",
        b'n' => "\n",
        b't' => "\t",
        _ => "\r",
    }
}

// The value of the escape at the front, and the text after it. A backslash that begins no escape
// has no value.
fn split_escape(text: &str) -> (&'static str, &str)
    requires nonempty { 0 < length text.now }
    requires backslash { slice_index text.now 0 ≡ 92 }
    ensures value { unescaped_from false text.now
        ≡ result.0.now ++ unescaped_from false result.1.now }
    ensures shorter { length result.1.now < length text.now }
{
    let rest = &text[1..];
    let [first, ..] = rest.as_bytes() else {
        return ("", rest);
    };
    if is_escape(*first) {
        (escape_value(*first), &rest[1..])
    } else {
        ("", rest)
    }
}

/// The value of the bytes between the quotation marks of a text.
///
/// # Errors
///
/// `NoMemory` if memory for the value runs out.
pub(crate) fn value_of(alloc: Global, raw: &str) -> Result<String, NoMemory>
    ensures { IfOk result (λ value. string_bytes value ≡ unescaped_from false raw.now) }
{
    let mut value = String::new(alloc);
    let mut rest = raw;
    'runs: loop {
        let (plain, escaped) = split_plain(rest);
        value.push_str(plain)?;
        if escaped.is_empty() {
            return Ok(value);
        }
        let (meaning, after) = split_escape(escaped);
        value.push_str(meaning)?;
        rest = after;
    }
}
