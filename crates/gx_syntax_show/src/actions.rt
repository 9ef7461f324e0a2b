//! Writes `print` and `count`.

ghost use Rattle.gx_syntax_show.specs.StmtShapes.{action_pieces};
ghost use Rattle.gx_syntax_show.specs.Writes.{Writes};

use gx_rows::{NoMemory, Text};
use gx_syntax_tokens::Writer;

/// Writes `WORD TARGET NAME`.
///
/// # Errors
///
/// `NoMemory` if memory runs out.
pub(crate) fn put_action(
    out: &mut Writer,
    word: &str,
    target: &str,
    name: &Text,
) -> Result<(), NoMemory>
    ensures { Writes result out.old out.new (action_pieces word.now target.now name.now) }
{
    out.word(word)?;
    out.word(target)?;
    out.word(name.as_str())
}
