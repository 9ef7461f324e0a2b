//! What holds of the tokens of scripts.

ghost use Rattle.gx_syntax_stmts.specs.Refusals.{ScriptsAreParsed, ScriptsAreUnique};

use gx_syntax_exprs::expressions_are_parsed_exactly;

/// Tokens spell no more than one script.
pub fn scripts_are_unique()
    ensures { ScriptsAreUnique }
{
    expressions_are_parsed_exactly();
}

/// The parser of `specs/Forms.antt` parses each script, and refuses other tokens at the first token
/// with which no script goes on.
pub fn scripts_are_parsed()
    ensures { ScriptsAreParsed }
{
    expressions_are_parsed_exactly();
}
