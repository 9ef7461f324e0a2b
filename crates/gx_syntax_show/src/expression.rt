//! Writes expressions, with parentheses only where the grammar needs them.
//!
//! Each call says which level its operand needs at least; `gx_syntax_tree` has the levels. A new
//! operator needs its arm in `put_prefix` or `put_infix` and nothing else here.

ghost use Rattle.std.specs.Prelude.{◌≡◌, OnOk};
ghost use Rattle.gx_syntax_exprs.specs.Operators.{infix_token};
ghost use Rattle.gx_syntax_tokens.specs.SpacedText as pieces;
ghost use Rattle.gx_syntax_tokens.specs.Writing.{with_piece};
ghost use Rattle.gx_syntax_show.specs.ExprPieces.{expr_pieces, prefix_piece};
ghost use Rattle.gx_syntax_show.specs.Writes.{Writes, with_operand_close, with_operand_open};

use crate::items::put_list;
use crate::words::truth_word;
use gx_rows::NoMemory;
use gx_syntax_tokens::{Symbol, Writer};
use gx_syntax_tree::{BinaryOp, Expr, UnaryOp};

// Writes the parenthesis before an operand of this level, if a higher one is needed.
fn put_operand_open(out: &mut Writer, needed: u8, level: u8) -> Result<(), NoMemory>
    ensures { OnOk result (out.new ≡ with_operand_open needed level out.old) }
{
    if needed <= level {
        return Ok(());
    }
    out.symbol(Symbol::OpenParen)
}

// Writes the parenthesis after it.
fn put_operand_close(out: &mut Writer, needed: u8, level: u8) -> Result<(), NoMemory>
    ensures { OnOk result (out.new ≡ with_operand_close needed level out.old) }
{
    if needed <= level {
        return Ok(());
    }
    out.symbol(Symbol::CloseParen)
}

// Writes a prefix operator.
fn put_prefix(out: &mut Writer, operator: UnaryOp) -> Result<(), NoMemory>
    ensures { OnOk result (out.new ≡ with_piece out.old (prefix_piece operator)) }
{
    match operator {
        UnaryOp::Not => out.word("not"),
        UnaryOp::Neg => out.sign(),
    }
}

// Writes an infix operator.
fn put_infix(out: &mut Writer, operator: BinaryOp) -> Result<(), NoMemory>
    ensures { OnOk result (out.new ≡ with_piece out.old (pieces.token (infix_token operator))) }
{
    match operator {
        BinaryOp::Or => out.word("or"),
        BinaryOp::And => out.word("and"),
        BinaryOp::Eq => out.symbol(Symbol::Equal),
        BinaryOp::Ne => out.symbol(Symbol::NotEqual),
        BinaryOp::Lt => out.symbol(Symbol::Less),
        BinaryOp::Le => out.symbol(Symbol::LessEqual),
        BinaryOp::Gt => out.symbol(Symbol::Greater),
        BinaryOp::Ge => out.symbol(Symbol::GreaterEqual),
        BinaryOp::Add => out.symbol(Symbol::Plus),
        BinaryOp::Sub => out.symbol(Symbol::Minus),
        BinaryOp::Mul => out.symbol(Symbol::Star),
        BinaryOp::Div => out.symbol(Symbol::Slash),
        BinaryOp::Rem => out.symbol(Symbol::Percent),
    }
}

/// Writes an expression as an operand of level `needed` or more, from 1 to 8. A whole expression
/// has level 1.
///
/// # Errors
///
/// `NoMemory` if memory runs out.
#[cycle(expression)]
#[tactic(auto, using(crate::proofs::ExprWriting::with_call, crate::proofs::ExprWriting::with_prefix, crate::proofs::ExprWriting::with_infix))]
pub(crate) fn put_expression(
    out: &mut Writer,
    expression: &Expr,
    needed: u8,
) -> Result<(), NoMemory>
    ensures { Writes result out.old out.new (expr_pieces needed expression.now) }
{
    match expression {
        Expr::Number(number) => out.number(number.unsigned_abs()),
        Expr::Quoted(value) => out.quoted(value.as_str()),
        Expr::Truth(truth) => out.word(truth_word(*truth)),
        Expr::Matched => out.word("matched"),
        Expr::Column(side, name) => {
            out.word(side.as_str())?;
            out.symbol(Symbol::Dot)?;
            out.word(name.as_str())
        }
        Expr::Call(name, arguments) => {
            out.function(name.as_str())?;
            put_list(out, arguments)
        }
        Expr::Unary(operator, operand) => {
            put_operand_open(out, needed, operator.precedence())?;
            put_prefix(out, *operator)?;
            put_expression(out, operand.get(), operator.operand_precedence())?;
            put_operand_close(out, needed, operator.precedence())
        }
        Expr::Binary(operator, left, right) => {
            put_operand_open(out, needed, operator.precedence())?;
            put_expression(out, left.get(), operator.left_precedence())?;
            put_infix(out, *operator)?;
            put_expression(out, right.get(), operator.right_precedence())?;
            put_operand_close(out, needed, operator.precedence())
        }
    }
}
