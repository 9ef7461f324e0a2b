//! Appends to a text, and says what the text is also if memory runs out.

ghost use Rattle.std.specs.Prelude.{◌≡◌, ◌++◌, OnOk, string_bytes};
ghost use Rattle.gx_syntax_tokens.specs.Writing.{Extends};

use gx_rows::NoMemory;

/// Appends a slice.
///
/// # Errors
///
/// `NoMemory` if memory runs out.
#[tactic(auto, using(crate::specs::Writing::begins_equal, crate::specs::Writing::begins_append))]
pub(crate) fn append(out: &mut String, slice: &str) -> Result<(), NoMemory>
    ensures written { OnOk result (string_bytes out.new ≡ string_bytes out.old ++ slice.now) }
    ensures extends { Extends (string_bytes out.old) (string_bytes out.new) }
{
    out.push_str(slice)?;
    Ok(())
}
