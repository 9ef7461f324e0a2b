//! Statements on tables: `filter`, `mapvalues`, `minus`, `diff`, `innerjoin`, `leftjoin`.

ghost use Rattle.gx_syntax_exprs.specs.Parses.{Parses};
ghost use Rattle.gx_syntax_tree.specs.declared.keyword.StmtKeyword.TheVariants as keywords;
ghost use Rattle.gx_syntax_stmts.specs.Forms.{rest};

use crate::lists::paren_list;
use gx_rows::Text;
use gx_syntax_exprs::{Cursor, ParseStop};
use gx_syntax_tokens::Symbol;
use gx_syntax_tree::Stmt;
use std::alloc::Global;

/// Parses the rest of `filter`.
pub(crate) fn filter(
    cursor: &mut Cursor<'_>,
    alloc: Global,
    name: Text,
    table: Text,
) -> Result<Stmt, ParseStop>
    ensures { Parses result cursor.new (rest keywords.Filter name table cursor.old) }
{
    cursor.keyword("where")?;
    let condition = cursor.expression(alloc)?;
    Ok(Stmt::Filter {
        name,
        table,
        condition,
    })
}

/// Parses the rest of `mapvalues`.
pub(crate) fn map_values(
    cursor: &mut Cursor<'_>,
    alloc: Global,
    name: Text,
    table: Text,
) -> Result<Stmt, ParseStop>
    ensures { Parses result cursor.new (rest keywords.MapValues name table cursor.old) }
{
    let sets = paren_list(cursor, alloc)?;
    Ok(Stmt::MapValues { name, table, sets })
}

/// Parses the rest of `minus`.
pub(crate) fn minus(
    cursor: &mut Cursor<'_>,
    alloc: Global,
    name: Text,
    table: Text,
) -> Result<Stmt, ParseStop>
    ensures { Parses result cursor.new (rest keywords.Minus name table cursor.old) }
{
    cursor.symbol(Symbol::Comma)?;
    let other = cursor.name(alloc)?;
    Ok(Stmt::Minus { name, table, other })
}

/// Parses the rest of `diff`.
pub(crate) fn diff(
    cursor: &mut Cursor<'_>,
    alloc: Global,
    name: Text,
    table: Text,
) -> Result<Stmt, ParseStop>
    ensures { Parses result cursor.new (rest keywords.Diff name table cursor.old) }
{
    cursor.symbol(Symbol::Comma)?;
    let other = cursor.name(alloc)?;
    Ok(Stmt::Diff { name, table, other })
}

/// Parses the rest of `innerjoin`.
pub(crate) fn inner_join(
    cursor: &mut Cursor<'_>,
    alloc: Global,
    name: Text,
    table: Text,
) -> Result<Stmt, ParseStop>
    ensures { Parses result cursor.new (rest keywords.InnerJoin name table cursor.old) }
{
    cursor.symbol(Symbol::Comma)?;
    let other = cursor.name(alloc)?;
    let sets = paren_list(cursor, alloc)?;
    Ok(Stmt::InnerJoin {
        name,
        table,
        other,
        sets,
    })
}

/// Parses the rest of `leftjoin`.
pub(crate) fn left_join(
    cursor: &mut Cursor<'_>,
    alloc: Global,
    name: Text,
    table: Text,
) -> Result<Stmt, ParseStop>
    ensures { Parses result cursor.new (rest keywords.LeftJoin name table cursor.old) }
{
    cursor.symbol(Symbol::Comma)?;
    let other = cursor.name(alloc)?;
    cursor.keyword("default")?;
    let default = paren_list(cursor, alloc)?;
    let sets = paren_list(cursor, alloc)?;
    Ok(Stmt::LeftJoin {
        name,
        table,
        other,
        default,
        sets,
    })
}
