//! Writes the parts of statements that may be left out or repeated.

ghost use Rattle.gx_syntax_show.specs.ItemPieces.{active_pieces, keyword_expr_pieces, oriented_pieces, send_clause_pieces, send_clauses_pieces};
ghost use Rattle.gx_syntax_show.specs.ListPieces.{optional_pieces};
ghost use Rattle.gx_syntax_show.specs.Writes.{Writes};

use crate::expression::put_expression;
use crate::items::put_list;
use crate::words::{active_word, side_word};
use gx_rows::NoMemory;
use gx_syntax_tokens::Writer;
use gx_syntax_tree::{ActiveWord, Expr, SendClause};
use sqlite_items::Items;

/// Writes a word and an expression, if there is one.
///
/// # Errors
///
/// `NoMemory`, as each of these functions.
pub(crate) fn put_optional(
    out: &mut Writer,
    word: &str,
    expression: &Option<Expr>,
) -> Result<(), NoMemory>
    ensures { Writes result out.old out.new (optional_pieces (keyword_expr_pieces word.now) expression.now) }
{
    match expression {
        None => Ok(()),
        Some(expression) => {
            out.word(word)?;
            put_expression(out, expression, 1)
        }
    }
}

// Writes `to (src | dst) (values) [when expr]`.
#[tactic(auto, using(crate::proofs::PiecesLemmas::pieces_append))]
fn put_send_clause(out: &mut Writer, send: &SendClause) -> Result<(), NoMemory>
    ensures { Writes result out.old out.new (send_clause_pieces send.now) }
{
    out.word("to")?;
    out.word(side_word(send.to))?;
    put_list(out, &send.values)?;
    put_optional(out, "when", &send.when)
}

/// Writes send clauses.
pub(crate) fn put_send_clauses(out: &mut Writer, sends: &Items<SendClause>) -> Result<(), NoMemory>
    ensures { Writes result out.old out.new (send_clauses_pieces sends.now) }
{
    'sends: for send in sends.as_slice() {
        put_send_clause(out, send)?;
    }
    Ok(())
}

/// Writes `oriented`, if the edges are.
pub(crate) fn put_oriented(out: &mut Writer, oriented: bool) -> Result<(), NoMemory>
    ensures { Writes result out.old out.new (oriented_pieces oriented) }
{
    if oriented {
        out.word("oriented")
    } else {
        Ok(())
    }
}

/// Writes `active` and its word. `either` is left out.
pub(crate) fn put_active(out: &mut Writer, active: ActiveWord) -> Result<(), NoMemory>
    ensures { Writes result out.old out.new (active_pieces active) }
{
    match active {
        ActiveWord::Either => Ok(()),
        ActiveWord::Out | ActiveWord::In | ActiveWord::Both => {
            out.word("active")?;
            out.word(active_word(active))
        }
    }
}
