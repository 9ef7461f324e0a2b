//! Writes the statements that compute columns: `mapvertices`, `mapedges`, `maptriplets`,
//! `mapvalues`.

ghost use Rattle.gx_syntax_show.specs.StmtShapes.{map_pieces};
ghost use Rattle.gx_syntax_show.specs.Writes.{Writes};

use crate::graphs::put_derived;
use crate::items::put_list;
use gx_rows::{NoMemory, Text};
use gx_syntax_tokens::Writer;
use gx_syntax_tree::ColumnExpr;
use sqlite_items::Items;

/// Writes `WORD NAME = SOURCE (sets)`.
///
/// # Errors
///
/// `NoMemory` if memory runs out.
#[tactic(auto, using(crate::proofs::PiecesLemmas::pieces_append))]
pub(crate) fn put_map(
    out: &mut Writer,
    word: &str,
    name: &Text,
    source: &Text,
    sets: &Items<ColumnExpr>,
) -> Result<(), NoMemory>
    ensures { Writes result out.old out.new (map_pieces word.now name.now source.now sets.now) }
{
    put_derived(out, word, name, source)?;
    put_list(out, sets)
}
