//! Writes `filter`. The other statements of tables have the shape of a map or a join.

ghost use Rattle.gx_syntax_show.specs.StmtShapes.{filter_pieces};
ghost use Rattle.gx_syntax_show.specs.Writes.{Writes};

use crate::expression::put_expression;
use crate::graphs::put_derived;
use gx_rows::{NoMemory, Text};
use gx_syntax_tokens::Writer;
use gx_syntax_tree::Expr;

/// Writes `filter NAME = TABLE where expr`.
///
/// # Errors
///
/// `NoMemory` if memory runs out.
#[tactic(auto, using(crate::proofs::PiecesLemmas::pieces_append))]
pub(crate) fn put_filter(
    out: &mut Writer,
    name: &Text,
    table: &Text,
    condition: &Expr,
) -> Result<(), NoMemory>
    ensures { Writes result out.old out.new (filter_pieces name.now table.now condition.now) }
{
    put_derived(out, "filter", name, table)?;
    out.word("where")?;
    put_expression(out, condition, 1)
}
