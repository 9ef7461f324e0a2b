//! Statements that join a graph with a table: `joinvertices`, `outerjoin`.

ghost use Rattle.gx_syntax_exprs.specs.Parses.{Parses};
ghost use Rattle.gx_syntax_tree.specs.declared.keyword.StmtKeyword.TheVariants as keywords;
ghost use Rattle.gx_syntax_stmts.specs.Forms.{rest};

use crate::lists::paren_list;
use gx_rows::Text;
use gx_syntax_exprs::{Cursor, ParseStop};
use gx_syntax_tokens::Symbol;
use gx_syntax_tree::Stmt;
use std::alloc::Global;

/// Parses the rest of `joinvertices`.
pub(crate) fn join_vertices(
    cursor: &mut Cursor<'_>,
    alloc: Global,
    name: Text,
    graph: Text,
) -> Result<Stmt, ParseStop>
    ensures { Parses result cursor.new (rest keywords.JoinVertices name graph cursor.old) }
{
    cursor.symbol(Symbol::Comma)?;
    let table = cursor.name(alloc)?;
    let sets = paren_list(cursor, alloc)?;
    Ok(Stmt::JoinVertices {
        name,
        graph,
        table,
        sets,
    })
}

/// Parses the rest of `outerjoin`.
pub(crate) fn outer_join(
    cursor: &mut Cursor<'_>,
    alloc: Global,
    name: Text,
    graph: Text,
) -> Result<Stmt, ParseStop>
    ensures { Parses result cursor.new (rest keywords.OuterJoin name graph cursor.old) }
{
    cursor.symbol(Symbol::Comma)?;
    let table = cursor.name(alloc)?;
    cursor.keyword("default")?;
    let default = paren_list(cursor, alloc)?;
    let sets = paren_list(cursor, alloc)?;
    Ok(Stmt::OuterJoin {
        name,
        graph,
        table,
        default,
        sets,
    })
}
