//! Writes lists in parentheses, of any type of item.

ghost use Rattle.std.specs.Prelude.{List};
ghost use Rattle.gx_syntax_tokens.specs.SpacedText.{Piece};
ghost use Rattle.gx_syntax_show.specs.ExprPieces.{expr_pieces};
ghost use Rattle.gx_syntax_show.specs.ItemPieces as items;
ghost use Rattle.gx_syntax_show.specs.ListPieces.{paren_list_pieces};
ghost use Rattle.gx_syntax_show.specs.Writes.{Writes};

use crate::expression::put_expression;
use crate::words::{kind_word, merge_word, truth_word};
use gx_rows::NoMemory;
use gx_syntax_tokens::{Symbol, Writer};
use gx_syntax_tree::{ColumnConst, ColumnDecl, ColumnExpr, ColumnMerge, Const, Expr};
use sqlite_items::Items;

/// An item of a list in parentheses.
pub(crate) trait ListItem {
    ghost pieces: { Self → List Piece };

    /// Writes the item.
    ///
    /// # Errors
    ///
    /// `NoMemory` if memory runs out.
    fn put(&self, out: &mut Writer) -> Result<(), NoMemory>
        ensures { Writes result out.old out.new (pieces self.now) };
}

impl ListItem for Expr {
    ghost pieces = { expr_pieces 1 };

    #[cycle(expression)]
    fn put(&self, out: &mut Writer) -> Result<(), NoMemory> {
        put_expression(out, self, 1)
    }
}

impl ListItem for ColumnDecl {
    ghost pieces = { items.column_decl_pieces };

    fn put(&self, out: &mut Writer) -> Result<(), NoMemory> {
        out.word(self.name.as_str())?;
        out.symbol(Symbol::Colon)?;
        out.word(kind_word(self.kind))
    }
}

impl ListItem for ColumnExpr {
    ghost pieces = { items.column_expr_pieces };

    fn put(&self, out: &mut Writer) -> Result<(), NoMemory> {
        out.word(self.name.as_str())?;
        out.symbol(Symbol::Colon)?;
        put_expression(out, &self.value, 1)
    }
}

impl ListItem for ColumnMerge {
    ghost pieces = { items.column_merge_pieces };

    fn put(&self, out: &mut Writer) -> Result<(), NoMemory> {
        out.word(self.name.as_str())?;
        out.symbol(Symbol::Colon)?;
        out.word(merge_word(self.by))
    }
}

impl ListItem for Const {
    ghost pieces = { items.const_pieces };

    fn put(&self, out: &mut Writer) -> Result<(), NoMemory> {
        match self {
            Const::Number(number) => put_int(out, *number),
            Const::Quoted(value) => out.quoted(value.as_str()),
            Const::Truth(truth) => out.word(truth_word(*truth)),
            Const::NoIds => {
                out.function("ids")?;
                out.symbol(Symbol::OpenParen)?;
                out.symbol(Symbol::CloseParen)
            }
        }
    }
}

impl ListItem for ColumnConst {
    ghost pieces = { items.column_const_pieces };

    fn put(&self, out: &mut Writer) -> Result<(), NoMemory> {
        out.word(self.name.as_str())?;
        out.symbol(Symbol::Colon)?;
        self.value.put(out)
    }
}

// Writes a number, after a sign if it is negative.
fn put_int(out: &mut Writer, number: i64) -> Result<(), NoMemory>
    ensures { Writes result out.old out.new (items.int_pieces number) }
{
    if number < 0 {
        out.sign()?;
    }
    out.number(number.unsigned_abs())
}

/// Writes items in parentheses, with a comma between two.
///
/// # Errors
///
/// `NoMemory` if memory runs out.
// The list is taken as a tree holds it: `put_expression` calls this for the arguments of a call, and
// a slice would hide from the check that they are parts of the call.
pub(crate) fn put_list<E: ListItem>(out: &mut Writer, list: &Items<E>) -> Result<(), NoMemory>
    ensures { Writes result out.old out.new (paren_list_pieces E.pieces list.now) }
{
    out.symbol(Symbol::OpenParen)?;
    'items: for (i, item) in list.as_slice().iter().enumerate() {
        if i > 0 {
            out.symbol(Symbol::Comma)?;
        }
        item.put(out)?;
    }
    out.symbol(Symbol::CloseParen)
}
