//! Statements that send messages along edges: `aggregate`, `indegrees`, `outdegrees`, `degrees`,
//! `neighbours`, `pregel`.

ghost use Rattle.std.specs.Prelude.{codes};
ghost use Rattle.gx_syntax_exprs.specs.Parses.{Parses};
ghost use Rattle.gx_syntax_exprs.specs.TokenParsers.{is_word};
ghost use Rattle.gx_syntax_tree.specs.declared.keyword.StmtKeyword.TheVariants as keywords;
ghost use Rattle.gx_syntax_stmts.specs.Forms.{rest};
ghost use Rattle.gx_syntax_stmts.specs.Parts as parts;

use crate::keywords::keyword_value;
use crate::lists::paren_list;
use crate::parts::optional_expr;
use crate::repetition::{Repeated, append, many};
use gx_rows::Text;
use gx_syntax_exprs::{Cursor, ParseStop};
use gx_syntax_tree::{ActiveWord, SendClause, Stmt};
use sqlite_items::Items;
use std::alloc::Global;

/// Parses a send clause.
#[tactic(auto, unfolding(crate::specs::Parts::send_clause))]
fn send_clause(cursor: &mut Cursor<'_>, alloc: Global) -> Result<SendClause, ParseStop>
    ensures { Parses result cursor.new (parts.send_clause cursor.old) }
{
    cursor.keyword("to")?;
    let to = keyword_value(cursor)?;
    let values = paren_list(cursor, alloc)?;
    let when = optional_expr(cursor, alloc, "when")?;
    Ok(SendClause { to, values, when })
}

/// One more send clause.
struct NextSend;

impl Repeated for NextSend {
    type Item = SendClause;

    ghost starts = { is_word (codes "to") };

    ghost parsed = { parts.send_clause };

    fn is_next(cursor: &Cursor<'_>) -> bool {
        cursor.is_word_next("to")
    }

    fn parse(cursor: &mut Cursor<'_>, alloc: Global) -> Result<SendClause, ParseStop> {
        send_clause(cursor, alloc)
    }
}

/// Parses send clauses, at least one.
#[tactic(auto, unfolding(crate::specs::Parts::send_clauses))]
fn send_clauses(cursor: &mut Cursor<'_>, alloc: Global) -> Result<Items<SendClause>, ParseStop>
    ensures { Parses result cursor.new (parts.send_clauses cursor.old) }
{
    let first = send_clause(cursor, alloc)?;
    let mut clauses = Items::new(alloc);
    append(&mut clauses, first)?;
    many::<NextSend>(cursor, alloc, clauses)
}

/// Parses `active` and a direction, if the word comes next.
#[tactic(auto, unfolding(crate::specs::Parts::active))]
fn active(cursor: &mut Cursor<'_>) -> Result<ActiveWord, ParseStop>
    ensures { Parses result cursor.new (parts.active cursor.old) }
{
    if cursor.is_word_next("active") {
        cursor.keyword("active")?;
        keyword_value(cursor)
    } else {
        Ok(ActiveWord::Either)
    }
}

/// Parses the rest of `aggregate`.
pub(crate) fn aggregate(
    cursor: &mut Cursor<'_>,
    alloc: Global,
    name: Text,
    graph: Text,
) -> Result<Stmt, ParseStop>
    ensures { Parses result cursor.new (rest keywords.Aggregate name graph cursor.old) }
{
    let sends = send_clauses(cursor, alloc)?;
    cursor.keyword("merge")?;
    let merges = paren_list(cursor, alloc)?;
    Ok(Stmt::Aggregate {
        name,
        graph,
        sends,
        merges,
    })
}

/// Parses the rest of `neighbours`.
pub(crate) fn neighbours(
    cursor: &mut Cursor<'_>,
    name: Text,
    graph: Text,
) -> Result<Stmt, ParseStop>
    ensures { Parses result cursor.new (rest keywords.Neighbours name graph cursor.old) }
{
    let direction = keyword_value(cursor)?;
    Ok(Stmt::Neighbours {
        name,
        graph,
        direction,
    })
}

/// Parses the rest of `pregel`.
pub(crate) fn pregel(
    cursor: &mut Cursor<'_>,
    alloc: Global,
    name: Text,
    graph: Text,
) -> Result<Stmt, ParseStop>
    ensures { Parses result cursor.new (rest keywords.Pregel name graph cursor.old) }
{
    cursor.keyword("rounds")?;
    let rounds = cursor.number()?;
    let active = active(cursor)?;
    cursor.keyword("merge")?;
    let merges = paren_list(cursor, alloc)?;
    cursor.keyword("initial")?;
    let initial = paren_list(cursor, alloc)?;
    cursor.keyword("program")?;
    let program = paren_list(cursor, alloc)?;
    let sends = send_clauses(cursor, alloc)?;
    Ok(Stmt::Pregel {
        name,
        graph,
        rounds,
        active,
        merges,
        initial,
        program,
        sends,
    })
}
