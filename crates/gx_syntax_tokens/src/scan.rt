//! Runs of bytes at the front of a text: trivia, words and digits.
//!
//! It sees bytes, never tokens. A limit is changed here and in `specs/Limits.antt`, where it is a
//! number of its own, so that a change of the constant alone is refused. A new byte of words or of
//! white space is changed here and in `specs/Lexing.antt`.

ghost use Rattle.std.specs.Prelude.{◌≡◌, ◌≤◌, ◌<◌, None, length, drop};
ghost use Rattle.std.specs.Char.{is_ascii_digit};
ghost use Rattle.std.specs.List.{prefix_len};
ghost use Rattle.gx_syntax_tokens.specs.Lexing.{trivia_len, is_comment_byte, is_space, is_word_byte, tokens_at, bom_len};

/// The most bytes of a word.
pub(crate) const MOST_WORD_BYTES: usize = 64;

/// The most bytes of the value of a quoted text.
pub(crate) const MOST_TEXT_BYTES: usize = 1024;

/// The largest number.
pub(crate) const MOST_NUMBER: u64 = 9_223_372_036_854_775_807;

fn is_space(byte: u8) -> bool
    ensures { result ≡ is_space byte }
{
    byte == b' ' || byte == b'\t' || byte == b'\n' || byte == b'\r'
}

fn is_word_byte(byte: u8) -> bool
    ensures { result ≡ is_word_byte byte }
{
    byte.is_ascii_alphanumeric() || byte == b'_'
}

/// The letters, digits and `_` at the front.
pub(crate) fn word_len(text: &[u8]) -> usize
    ensures { result ≡ prefix_len is_word_byte text.now }
{
    text.iter().take_while(|byte| is_word_byte(**byte)).count()
}

/// The digits at the front.
pub(crate) fn digits_len(text: &[u8]) -> usize
    ensures { result ≡ prefix_len is_ascii_digit text.now }
{
    text.iter().take_while(|byte| byte.is_ascii_digit()).count()
}

// The bytes before the line feed that ends a comment, or before the end.
fn comment_len(text: &[u8]) -> usize
    ensures { result ≡ prefix_len is_comment_byte text.now }
{
    text.iter().take_while(|byte| **byte != b'\n').count()
}

// The bytes of the trivia at the front: one of white space, or a comment.
#[tactic(auto, unfolding(crate::specs::Lexing::trivia_len))]
fn trivia_len(text: &[u8]) -> Option<usize>
    ensures { result ≡ trivia_len text.now }
{
    match text {
        [first, ..] if is_space(*first) => Some(1),
        [b'#', ..] => Some(comment_len(text)),
        _ => None,
    }
}

/// The offset after the white space and the comments from an offset on.
pub(crate) fn skip_trivia(text: &[u8], from: usize) -> usize
    requires { from ≤ length text.now }
    ensures tokens_kept { tokens_at text.now result ≡ tokens_at text.now from }
    ensures in_order { from ≤ result }
    ensures within { result ≤ length text.now }
    ensures skipped { trivia_len (drop result text.now) ≡ None }
{
    let mut at = from;
    while let Some(len) = trivia_len(text.split_at(at).1) {
        at += len;
    }
    at
}

/// The bytes of the byte order mark at the front.
#[tactic(auto, unfolding(crate::specs::Lexing::bom_len))]
pub(crate) fn bom_len(text: &[u8]) -> usize
    ensures { result ≡ bom_len text.now }
{
    match text {
        [0xef, 0xbb, 0xbf, ..] => 3,
        _ => 0,
    }
}
