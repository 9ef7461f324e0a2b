//! Parts that statements of several families have.

ghost use Rattle.gx_syntax_exprs.specs.Parses.{Parses};
ghost use Rattle.gx_syntax_stmts.specs.Parts as parts;

use gx_syntax_exprs::{Cursor, ParseStop};
use gx_syntax_tree::Expr;
use std::alloc::Global;

/// Parses an expression after this word.
#[tactic(auto, unfolding(crate::specs::Parts::keyword_expr))]
pub(crate) fn keyword_expr(
    cursor: &mut Cursor<'_>,
    alloc: Global,
    word: &str,
) -> Result<Expr, ParseStop>
    ensures { Parses result cursor.new (parts.keyword_expr word.now cursor.old) }
{
    cursor.keyword(word)?;
    cursor.expression(alloc)
}

/// Parses an expression after this word, if the word comes next.
#[tactic(auto, unfolding(crate::specs::Parts::optional_expr))]
pub(crate) fn optional_expr(
    cursor: &mut Cursor<'_>,
    alloc: Global,
    word: &str,
) -> Result<Option<Expr>, ParseStop>
    ensures { Parses result cursor.new (parts.optional_expr word.now cursor.old) }
{
    if cursor.is_word_next(word) {
        Ok(Some(keyword_expr(cursor, alloc, word)?))
    } else {
        Ok(None)
    }
}
