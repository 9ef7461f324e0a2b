//! The tokens that a statement may have.

ghost use Rattle.gx_syntax_exprs.specs.Parses.{terminals_of};
ghost use Rattle.gx_syntax_stmts.specs.Limits.{IsWithinLimit};

use gx_rows::LimitKind;
use gx_syntax_tokens::{PlacedToken, Symbol};

/// How many tokens precede the first that is one too many for its statement; all of them, if no
/// statement has too many.
pub fn len_within_limit(tokens: &[PlacedToken<'_>]) -> usize
    ensures { IsWithinLimit (terminals_of tokens.now) result }
{
    let most = LimitKind::StatementTokens.most();
    let mut open_len = 0;
    for (at, placed) in tokens.iter().enumerate() {
        if placed.value.is(Symbol::Semicolon) {
            open_len = 0;
        } else if open_len < most {
            open_len += 1;
        } else {
            return at;
        }
    }
    tokens.len()
}
