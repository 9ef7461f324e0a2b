//! Lists in parentheses, and their items.

ghost use Rattle.std.specs.Prelude.{◌≡◌, List, Result};
ghost use Rattle.gx_syntax_tokens.specs.Terminals.{Terminal, is_symbol};
ghost use Rattle.gx_syntax_tokens.specs.declared.symbol.Symbol.TheVariants as symbols;
ghost use Rattle.gx_syntax_exprs.specs.Combinators.{satisfy};
ghost use Rattle.gx_syntax_exprs.specs.Expressions.{expression};
ghost use Rattle.gx_syntax_exprs.specs.Parses.{Parses};
ghost use Rattle.gx_syntax_stmts.specs.Parts as parts;

use crate::keywords::keyword_value;
use crate::repetition::{Repeated, append, many};
use gx_syntax_exprs::{Cursor, ParseStop};
use gx_syntax_tokens::{Symbol, TokenValue};
use gx_syntax_tree::{ColumnConst, ColumnDecl, ColumnExpr, ColumnMerge, Const, Expr};
use sqlite_items::Items;
use std::alloc::Global;
use std::marker::PhantomData;

/// An item of a list in parentheses.
pub(crate) trait ListItem: Drop {
    ghost parsed: { List Terminal → Result (Self × List Terminal) (List Terminal) };

    /// Parses one item.
    fn parse(cursor: &mut Cursor<'_>, alloc: Global) -> Result<Self, ParseStop>
        ensures { Parses result cursor.new (parsed cursor.old) };
}

impl ListItem for Expr {
    ghost parsed = { expression };

    fn parse(cursor: &mut Cursor<'_>, alloc: Global) -> Result<Expr, ParseStop> {
        cursor.expression(alloc)
    }
}

impl ListItem for ColumnDecl {
    ghost parsed = { parts.column_decl };

    #[tactic(auto, unfolding(crate::specs::Parts::named_item))]
    fn parse(cursor: &mut Cursor<'_>, alloc: Global) -> Result<ColumnDecl, ParseStop> {
        let name = cursor.name(alloc)?;
        cursor.symbol(Symbol::Colon)?;
        let kind = keyword_value(cursor)?;
        Ok(ColumnDecl { name, kind })
    }
}

impl ListItem for ColumnExpr {
    ghost parsed = { parts.column_expr };

    #[tactic(auto, unfolding(crate::specs::Parts::named_item))]
    fn parse(cursor: &mut Cursor<'_>, alloc: Global) -> Result<ColumnExpr, ParseStop> {
        let name = cursor.name(alloc)?;
        cursor.symbol(Symbol::Colon)?;
        let value = cursor.expression(alloc)?;
        Ok(ColumnExpr { name, value })
    }
}

impl ListItem for ColumnMerge {
    ghost parsed = { parts.column_merge };

    #[tactic(auto, unfolding(crate::specs::Parts::named_item))]
    fn parse(cursor: &mut Cursor<'_>, alloc: Global) -> Result<ColumnMerge, ParseStop> {
        let name = cursor.name(alloc)?;
        cursor.symbol(Symbol::Colon)?;
        let by = keyword_value(cursor)?;
        Ok(ColumnMerge { name, by })
    }
}

impl ListItem for ColumnConst {
    ghost parsed = { parts.column_const };

    #[tactic(auto, unfolding(crate::specs::Parts::named_item))]
    fn parse(cursor: &mut Cursor<'_>, alloc: Global) -> Result<ColumnConst, ParseStop> {
        let name = cursor.name(alloc)?;
        cursor.symbol(Symbol::Colon)?;
        let value = Const::parse(cursor, alloc)?;
        Ok(ColumnConst { name, value })
    }
}

impl ListItem for Const {
    ghost parsed = { parts.constant };

    #[tactic(auto, unfolding(crate::specs::Parts::constant))]
    fn parse(cursor: &mut Cursor<'_>, alloc: Global) -> Result<Const, ParseStop> {
        if cursor.is_symbol_next(Symbol::Minus) {
            cursor.symbol(Symbol::Minus)?;
            let n = cursor.number()?;
            Ok(Const::Number(-n))
        } else if cursor.is_word_next("ids") {
            cursor.keyword("ids")?;
            cursor.symbol(Symbol::OpenParen)?;
            cursor.symbol(Symbol::CloseParen)?;
            Ok(Const::NoIds)
        } else {
            literal(cursor, alloc)
        }
    }
}

/// Parses a constant of one token.
fn literal(cursor: &mut Cursor<'_>, alloc: Global) -> Result<Const, ParseStop>
    ensures { Parses result cursor.new (satisfy parts.literal_value cursor.old) }
{
    match cursor.peek() {
        Some(TokenValue::Word(_)) => Ok(Const::Truth(keyword_value(cursor)?)),
        Some(TokenValue::Quoted(_)) => Ok(Const::Quoted(cursor.quoted(alloc)?)),
        _ => Ok(Const::Number(cursor.number()?)),
    }
}

/// One more item, after a comma.
struct CommaItem<E>(PhantomData<E>);

impl<E: ListItem> Repeated for CommaItem<E> {
    type Item = E;

    ghost starts = { is_symbol symbols.Comma };

    ghost parsed = { parts.comma_item E.parsed };

    fn is_next(cursor: &Cursor<'_>) -> bool {
        cursor.is_symbol_next(Symbol::Comma)
    }

    fn parse(cursor: &mut Cursor<'_>, alloc: Global) -> Result<E, ParseStop> {
        cursor.symbol(Symbol::Comma)?;
        E::parse(cursor, alloc)
    }
}

/// Parses items with commas between them, at least one.
#[tactic(auto, unfolding(crate::specs::Parts::comma_list))]
fn comma_list<E: ListItem>(cursor: &mut Cursor<'_>, alloc: Global) -> Result<Items<E>, ParseStop>
    ensures { Parses result cursor.new (parts.comma_list E.parsed cursor.old) }
{
    let first = E::parse(cursor, alloc)?;
    let mut items = Items::new(alloc);
    append(&mut items, first)?;
    many::<CommaItem<E>>(cursor, alloc, items)
}

/// Parses a list in parentheses.
#[tactic(auto, unfolding(crate::specs::Parts::paren_list))]
pub(crate) fn paren_list<E: ListItem>(
    cursor: &mut Cursor<'_>,
    alloc: Global,
) -> Result<Items<E>, ParseStop>
    ensures { Parses result cursor.new (parts.paren_list E.parsed cursor.old) }
{
    cursor.symbol(Symbol::OpenParen)?;
    if cursor.is_symbol_next(Symbol::CloseParen) {
        cursor.symbol(Symbol::CloseParen)?;
        return Ok(Items::new(alloc));
    }
    let items = comma_list(cursor, alloc)?;
    cursor.symbol(Symbol::CloseParen)?;
    Ok(items)
}
