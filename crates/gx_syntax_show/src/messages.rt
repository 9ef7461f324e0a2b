//! Writes the statements by which edges send messages: `aggregate`, `neighbours` and the parts of
//! `pregel`.

ghost use Rattle.gx_syntax_show.specs.StmtShapes.{aggregate_pieces, neighbours_pieces, program_pieces, rounds_pieces};
ghost use Rattle.gx_syntax_show.specs.Writes.{Writes};

use crate::clauses::{put_active, put_send_clauses};
use crate::graphs::put_derived;
use crate::items::put_list;
use crate::words::neighbour_word;
use gx_rows::{NoMemory, Text};
use gx_syntax_tokens::Writer;
use gx_syntax_tree::{ActiveWord, ColumnExpr, ColumnMerge, Const, NeighbourWord, SendClause};
use sqlite_items::Items;

/// Writes `aggregate NAME = GRAPH sends merge (merges)`.
///
/// # Errors
///
/// `NoMemory`, as each of these functions.
#[tactic(auto, using(crate::proofs::PiecesLemmas::pieces_append))]
pub(crate) fn put_aggregate(
    out: &mut Writer,
    name: &Text,
    graph: &Text,
    sends: &Items<SendClause>,
    merges: &Items<ColumnMerge>,
) -> Result<(), NoMemory>
    ensures { Writes result out.old out.new (aggregate_pieces name.now graph.now sends.now merges.now) }
{
    put_derived(out, "aggregate", name, graph)?;
    put_send_clauses(out, sends)?;
    out.word("merge")?;
    put_list(out, merges)
}

/// Writes `neighbours NAME = GRAPH DIRECTION`.
pub(crate) fn put_neighbours(
    out: &mut Writer,
    name: &Text,
    graph: &Text,
    direction: NeighbourWord,
) -> Result<(), NoMemory>
    ensures { Writes result out.old out.new (neighbours_pieces name.now graph.now direction) }
{
    put_derived(out, "neighbours", name, graph)?;
    out.word(neighbour_word(direction))
}

/// Writes `rounds NUMBER [active WORD]`, which follows the graph of a `pregel`.
pub(crate) fn put_rounds(out: &mut Writer, rounds: i64, active: ActiveWord) -> Result<(), NoMemory>
    ensures { Writes result out.old out.new (rounds_pieces rounds active) }
{
    out.word("rounds")?;
    out.number(rounds.unsigned_abs())?;
    put_active(out, active)
}

/// Writes `merge (merges) initial (row) program (sets) sends`, the rest of a `pregel`.
#[tactic(auto, using(crate::proofs::PiecesLemmas::pieces_append))]
pub(crate) fn put_program(
    out: &mut Writer,
    merges: &Items<ColumnMerge>,
    initial: &Items<Const>,
    program: &Items<ColumnExpr>,
    sends: &Items<SendClause>,
) -> Result<(), NoMemory>
    ensures { Writes result out.old out.new (program_pieces merges.now initial.now program.now sends.now) }
{
    out.word("merge")?;
    put_list(out, merges)?;
    out.word("initial")?;
    put_list(out, initial)?;
    out.word("program")?;
    put_list(out, program)?;
    put_send_clauses(out, sends)
}
