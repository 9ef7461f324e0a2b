//! Parsing what is shown: `parse(show(s)) == s` for every script `s` that some text spells.

ghost use Rattle.gx_syntax.specs.RoundTrip.{HasFewestTokens, RoundTrips};

use gx_syntax_show::shown_scripts_are_canonical;
use gx_syntax_tokens::{lexed_tokens_are_valid, spaced_text_round_trips};

/// The text that `show` gives for a script that some text spells is parsed as that script by
/// `parse`, and no text that is has fewer tokens.
pub fn show_round_trips()
    ensures spells_script { RoundTrips }
    ensures fewest_tokens { HasFewestTokens }
{
    lexed_tokens_are_valid();
    spaced_text_round_trips();
    shown_scripts_are_canonical();
}
