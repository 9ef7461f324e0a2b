//! Writes the statements that make a graph of one source: `fromedges`, `reverse`, `mask`,
//! `subgraph`, `groupedges`, `partition`. `put_derived` begins each statement that has a source.

ghost use Rattle.gx_syntax_show.specs.StmtShapes.{by_pieces, derived_pieces, from_edges_pieces, group_edges_pieces, subgraph_pieces};
ghost use Rattle.gx_syntax_show.specs.Writes.{Writes};

use crate::clauses::put_optional;
use crate::items::put_list;
use gx_rows::{NoMemory, Text};
use gx_syntax_tokens::{Symbol, Writer};
use gx_syntax_tree::{ColumnConst, ColumnMerge, Expr};
use sqlite_items::Items;

/// Writes `WORD NAME = SOURCE`.
///
/// # Errors
///
/// `NoMemory`, as each of these functions.
pub(crate) fn put_derived(
    out: &mut Writer,
    word: &str,
    name: &Text,
    source: &Text,
) -> Result<(), NoMemory>
    ensures { Writes result out.old out.new (derived_pieces word.now name.now source.now) }
{
    out.word(word)?;
    out.word(name.as_str())?;
    out.symbol(Symbol::Assign)?;
    out.word(source.as_str())
}

/// Writes `fromedges NAME = EDGES (row)`.
#[tactic(auto, using(crate::proofs::PiecesLemmas::pieces_append))]
pub(crate) fn put_from_edges(
    out: &mut Writer,
    name: &Text,
    edges: &Text,
    row: &Items<ColumnConst>,
) -> Result<(), NoMemory>
    ensures { Writes result out.old out.new (from_edges_pieces name.now edges.now row.now) }
{
    put_derived(out, "fromedges", name, edges)?;
    put_list(out, row)
}

/// Writes `WORD NAME = SOURCE by WORD`: the name of a graph, or a way to partition edges.
pub(crate) fn put_by(
    out: &mut Writer,
    word: &str,
    name: &Text,
    source: &Text,
    by: &str,
) -> Result<(), NoMemory>
    ensures { Writes result out.old out.new (by_pieces word.now name.now source.now by.now) }
{
    put_derived(out, word, name, source)?;
    out.word("by")?;
    out.word(by)
}

/// Writes `subgraph NAME = GRAPH [vertices expr] [edges expr]`.
#[tactic(auto, using(crate::proofs::PiecesLemmas::pieces_append))]
pub(crate) fn put_subgraph(
    out: &mut Writer,
    name: &Text,
    graph: &Text,
    vertices: &Option<Expr>,
    edges: &Option<Expr>,
) -> Result<(), NoMemory>
    ensures { Writes result out.old out.new (subgraph_pieces name.now graph.now vertices.now edges.now) }
{
    put_derived(out, "subgraph", name, graph)?;
    put_optional(out, "vertices", vertices)?;
    put_optional(out, "edges", edges)
}

/// Writes `groupedges NAME = GRAPH (merges)`.
#[tactic(auto, using(crate::proofs::PiecesLemmas::pieces_append))]
pub(crate) fn put_group_edges(
    out: &mut Writer,
    name: &Text,
    graph: &Text,
    merges: &Items<ColumnMerge>,
) -> Result<(), NoMemory>
    ensures { Writes result out.old out.new (group_edges_pieces name.now graph.now merges.now) }
{
    put_derived(out, "groupedges", name, graph)?;
    put_list(out, merges)
}
