//! Writes the statements that read files: `vertices`, `edges`, `edgelist`.

ghost use Rattle.gx_syntax_show.specs.StmtShapes.{edge_list_pieces, file_pieces, load_pieces};
ghost use Rattle.gx_syntax_show.specs.Writes.{Writes};

use crate::clauses::put_oriented;
use crate::items::put_list;
use gx_rows::{NoMemory, Text};
use gx_syntax_tokens::Writer;
use gx_syntax_tree::ColumnDecl;
use sqlite_items::Items;

// Writes `WORD NAME from FILE`.
fn put_file(out: &mut Writer, word: &str, name: &Text, file: &Text) -> Result<(), NoMemory>
    ensures { Writes result out.old out.new (file_pieces word.now name.now file.now) }
{
    out.word(word)?;
    out.word(name.as_str())?;
    out.word("from")?;
    out.quoted(file.as_str())
}

/// Writes `WORD NAME from FILE (columns)`.
///
/// # Errors
///
/// `NoMemory`, as each of these functions.
#[tactic(auto, using(crate::proofs::PiecesLemmas::pieces_append))]
pub(crate) fn put_load(
    out: &mut Writer,
    word: &str,
    name: &Text,
    file: &Text,
    columns: &Items<ColumnDecl>,
) -> Result<(), NoMemory>
    ensures { Writes result out.old out.new (load_pieces word.now name.now file.now columns.now) }
{
    put_file(out, word, name, file)?;
    put_list(out, columns)
}

/// Writes `edgelist NAME from FILE [oriented]`.
#[tactic(auto, using(crate::proofs::PiecesLemmas::pieces_append))]
pub(crate) fn put_edge_list(
    out: &mut Writer,
    name: &Text,
    file: &Text,
    oriented: bool,
) -> Result<(), NoMemory>
    ensures { Writes result out.old out.new (edge_list_pieces name.now file.now oriented) }
{
    put_file(out, "edgelist", name, file)?;
    put_oriented(out, oriented)
}
