//! Writes the statements of two sources: `graph`, the joins, `minus` and `diff`.

ghost use Rattle.gx_syntax_show.specs.StmtShapes.{default_pieces, join_pieces, outer_join_pieces, pair_pieces};
ghost use Rattle.gx_syntax_show.specs.Writes.{Writes};

use crate::graphs::put_derived;
use crate::items::put_list;
use gx_rows::{NoMemory, Text};
use gx_syntax_tokens::{Symbol, Writer};
use gx_syntax_tree::{ColumnExpr, Const};
use sqlite_items::Items;

/// Writes `WORD NAME = SOURCE, OTHER`.
///
/// # Errors
///
/// `NoMemory`, as each of these functions.
pub(crate) fn put_pair(
    out: &mut Writer,
    word: &str,
    name: &Text,
    source: &Text,
    other: &Text,
) -> Result<(), NoMemory>
    ensures { Writes result out.old out.new (pair_pieces word.now name.now source.now other.now) }
{
    put_derived(out, word, name, source)?;
    out.symbol(Symbol::Comma)?;
    out.word(other.as_str())
}

/// Writes `WORD NAME = SOURCE, OTHER (sets)`.
#[tactic(auto, using(crate::proofs::PiecesLemmas::pieces_append))]
pub(crate) fn put_join(
    out: &mut Writer,
    word: &str,
    name: &Text,
    source: &Text,
    other: &Text,
    sets: &Items<ColumnExpr>,
) -> Result<(), NoMemory>
    ensures { Writes result out.old out.new (join_pieces word.now name.now source.now other.now sets.now) }
{
    put_pair(out, word, name, source, other)?;
    put_list(out, sets)
}

/// Writes `WORD NAME = SOURCE, OTHER default (row)`.
#[tactic(auto, using(crate::proofs::PiecesLemmas::pieces_append))]
pub(crate) fn put_default(
    out: &mut Writer,
    word: &str,
    name: &Text,
    source: &Text,
    other: &Text,
    row: &Items<Const>,
) -> Result<(), NoMemory>
    ensures { Writes result out.old out.new (default_pieces word.now name.now source.now other.now row.now) }
{
    put_pair(out, word, name, source, other)?;
    out.word("default")?;
    put_list(out, row)
}

/// Writes `WORD NAME = SOURCE, OTHER default (row) (sets)`.
#[tactic(auto, using(crate::proofs::PiecesLemmas::pieces_append))]
pub(crate) fn put_outer_join(
    out: &mut Writer,
    word: &str,
    name: &Text,
    source: &Text,
    other: &Text,
    row: &Items<Const>,
    sets: &Items<ColumnExpr>,
) -> Result<(), NoMemory>
    ensures { Writes result out.old out.new (outer_join_pieces word.now name.now source.now other.now row.now sets.now) }
{
    put_default(out, word, name, source, other, row)?;
    put_list(out, sets)
}
