//! Statements that load a file: `vertices`, `edges`, `edgelist`.

ghost use Rattle.gx_syntax_exprs.specs.Parses.{Parses};
ghost use Rattle.gx_syntax_tree.specs.declared.keyword.StmtKeyword.TheVariants as keywords;
ghost use Rattle.gx_syntax_stmts.specs.Forms.{body};
ghost use Rattle.gx_syntax_stmts.specs.Parts as parts;

use crate::lists::paren_list;
use gx_syntax_exprs::{Cursor, ParseStop};
use gx_syntax_tree::Stmt;
use std::alloc::Global;

/// Parses `vertices` after its keyword.
#[tactic(auto, unfolding(crate::specs::Forms::body))]
pub(crate) fn vertices(cursor: &mut Cursor<'_>, alloc: Global) -> Result<Stmt, ParseStop>
    ensures { Parses result cursor.new (body keywords.Vertices cursor.old) }
{
    let name = cursor.name(alloc)?;
    cursor.keyword("from")?;
    let file = cursor.quoted(alloc)?;
    let columns = paren_list(cursor, alloc)?;
    Ok(Stmt::Vertices {
        name,
        file,
        columns,
    })
}

/// Parses `edges` after its keyword.
#[tactic(auto, unfolding(crate::specs::Forms::body))]
pub(crate) fn edges(cursor: &mut Cursor<'_>, alloc: Global) -> Result<Stmt, ParseStop>
    ensures { Parses result cursor.new (body keywords.Edges cursor.old) }
{
    let name = cursor.name(alloc)?;
    cursor.keyword("from")?;
    let file = cursor.quoted(alloc)?;
    let columns = paren_list(cursor, alloc)?;
    Ok(Stmt::Edges {
        name,
        file,
        columns,
    })
}

/// Parses `oriented`, if it comes next.
#[tactic(auto, unfolding(crate::specs::Parts::oriented))]
fn oriented(cursor: &mut Cursor<'_>) -> Result<bool, ParseStop>
    ensures { Parses result cursor.new (parts.oriented cursor.old) }
{
    if cursor.is_word_next("oriented") {
        cursor.keyword("oriented")?;
        Ok(true)
    } else {
        Ok(false)
    }
}

/// Parses `edgelist` after its keyword.
#[tactic(auto, unfolding(crate::specs::Forms::body))]
pub(crate) fn edge_list(cursor: &mut Cursor<'_>, alloc: Global) -> Result<Stmt, ParseStop>
    ensures { Parses result cursor.new (body keywords.EdgeList cursor.old) }
{
    let name = cursor.name(alloc)?;
    cursor.keyword("from")?;
    let file = cursor.quoted(alloc)?;
    let oriented = oriented(cursor)?;
    Ok(Stmt::EdgeList {
        name,
        file,
        oriented,
    })
}
