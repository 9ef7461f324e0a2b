//! What holds of the tokens that are printed for trees and scripts, compared with those read.

ghost use Rattle.gx_syntax_show.specs.CanonicalExprs.{ShownExprHasValidTokens, ShownExprIsShortest, ShownExprSpellsIt};
ghost use Rattle.gx_syntax_show.specs.CanonicalScripts.{ShownScriptHasValidTokens, ShownScriptIsShortest, ShownScriptIsWithinLimit, ShownScriptSpellsIt};

use gx_syntax_tree::statements_are_made_of_their_views;

/// The tokens printed for an expression spell it, if any tokens do. No fewer tokens spell it, and
/// they may be in a text if those that were read may.
pub fn shown_expressions_are_canonical()
    ensures spells_it { ShownExprSpellsIt }
    ensures is_shortest { ShownExprIsShortest }
    ensures has_valid_tokens { ShownExprHasValidTokens }
{}

/// The tokens printed for a script spell it, if any tokens do. No fewer tokens spell it, no
/// statement is longer than the limit if none was, and they may be in a text if those that were
/// read may.
pub fn shown_scripts_are_canonical()
    ensures spells_it { ShownScriptSpellsIt }
    ensures is_shortest { ShownScriptIsShortest }
    ensures is_within_limit { ShownScriptIsWithinLimit }
    ensures has_valid_tokens { ShownScriptHasValidTokens }
{
    statements_are_made_of_their_views();
}
