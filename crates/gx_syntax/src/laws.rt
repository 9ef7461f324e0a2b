//! What holds of texts: each has one meaning, and the scripts that they spell are bounded.

ghost use Rattle.gx_syntax.specs.Meanings.{HasOneMeaning};
ghost use Rattle.gx_syntax.specs.ParsedBounds.{SpellsBoundedScripts};

use gx_syntax_show::shown_scripts_are_canonical;
use gx_syntax_stmts::{scripts_are_parsed, scripts_are_unique};
use gx_syntax_tokens::lexed_tokens_are_valid;

/// Each text has the meaning that `meaning_of` computes, and no other: it spells one script, or it
/// is refused at one offset for one reason.
pub fn texts_have_one_meaning()
    ensures { HasOneMeaning }
{
    scripts_are_unique();
    scripts_are_parsed();
}

/// Each script that some text spells is bounded: a name has at most 64 bytes, a text 1,024, and the
/// expressions of a statement have at most 2,048 nodes together. The words are in
/// `specs/Bounds.antt` of `gx_syntax_tree`.
pub fn parsed_scripts_are_bounded()
    ensures { SpellsBoundedScripts }
{
    lexed_tokens_are_valid();
    shown_scripts_are_canonical();
}
