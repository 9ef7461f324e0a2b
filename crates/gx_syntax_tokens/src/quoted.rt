//! Measures a quoted text: where it closes, and how many bytes its value has.
//!
//! It takes no memory. `unescaping.rt` gives the value itself.

ghost use Rattle.std.specs.Prelude.{◌≡◌, false, length};
ghost use Rattle.gx_syntax_tokens.specs.Quotes.{closing_quote, unescaped_from};

use crate::unescaping::is_escape;

/// The bytes before the quotation mark that closes a text. `None` if the text is not closed, or has
/// a line break or a wrong escape before it.
pub(crate) fn quoted_len(after: &[u8]) -> Option<usize>
    ensures { result ≡ closing_quote false after.now }
{
    let mut escape = false;
    for (i, byte) in after.iter().enumerate() {
        if escape {
            if !is_escape(*byte) {
                return None;
            }
            escape = false;
        } else {
            match *byte {
                b'"' => return Some(i),
                b'\n' | b'\r' => return None,
                other => escape = other == b'\\',
            }
        }
    }
    None
}

/// The number of bytes of the value of a text, from the bytes between its quotation marks.
#[tactic(auto, using(crate::proofs::QuoteLemmas::value_len_steps))]
pub(crate) fn value_len(raw: &[u8]) -> usize
    ensures { result ≡ length (unescaped_from false raw.now) }
{
    let mut escape = false;
    let mut len = 0;
    for byte in raw.iter() {
        if escape {
            escape = false;
            len += 1;
        } else if *byte == b'\\' {
            escape = true;
        } else {
            len += 1;
        }
    }
    len
}
