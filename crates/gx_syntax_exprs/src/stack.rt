//! The stack of what an expression has begun and not ended: operators that wait for an operand,
//! open parentheses, and calls. Contracts see it as a list with the innermost first.

ghost use Rattle.std.specs.Prelude.{◌≡◌, ◌∷◌, [], OnOk, IfOk};
ghost use Rattle.gx_syntax_exprs.specs.Grammar.{binary_expr, unary_expr};
ghost use Rattle.gx_syntax_exprs.specs.PrecedenceParser as parser;

use gx_rows::{NoMemory, Text};
use gx_syntax_tree::{BinaryOp, Expr, UnaryOp};
use sqlite_items::{Boxed, Items};
use std::alloc::Global;
use std::marker::Model;

/// An operator whose last operand is still to be parsed.
#[derive(Drop)]
pub(crate) enum Pending {
    /// An infix operator with its left operand.
    Infix(Expr, BinaryOp),
    /// A prefix operator.
    Prefix(UnaryOp),
}

/// A part of an expression that was begun and not ended.
#[derive(Drop)]
pub(crate) enum Frame {
    /// An operation that lacks its last operand.
    Operator(Pending),
    /// An open parenthesis.
    Paren,
    /// An open call, with the arguments that were parsed.
    Call(Text, Items<Expr>),
}

/// The level of the operation.
fn pending_precedence(pending: &Pending) -> u8
    ensures { result ≡ parser.pending_precedence pending.now }
{
    match pending {
        Pending::Infix(_, operator) => operator.precedence(),
        Pending::Prefix(operator) => operator.precedence(),
    }
}

/// The least level of its last operand.
fn pending_operand_precedence(pending: &Pending) -> u8
    ensures { result ≡ parser.pending_operand_precedence pending.now }
{
    match pending {
        Pending::Infix(_, operator) => operator.right_precedence(),
        Pending::Prefix(operator) => operator.operand_precedence(),
    }
}

/// The operation with its last operand.
fn apply(alloc: Global, pending: Pending, last: Expr) -> Result<Expr, NoMemory>
    ensures { IfOk result (λ x. x ≡ parser.apply pending last) }
{
    match pending {
        Pending::Infix(left, operator) => {
            let left = Boxed::new(alloc, left)?;
            let right = Boxed::new(alloc, last)?;
            Ok(Expr::Binary(operator, left, right))
        }
        Pending::Prefix(operator) => Ok(Expr::Unary(operator, Boxed::new(alloc, last)?)),
    }
}

/// What was begun and not ended, the innermost last.
#[derive(Drop)]
pub(crate) struct Stack {
    frames: Vec<Frame>,
}

impl Model for Stack {
    ghost use Rattle.std.specs.Prelude.{List, reverse};
    ghost use Rattle.std.specs.Coded.{codes};
    ghost use Rattle.gx_syntax_exprs.specs.declared.stack.Frame.{Frame};
    ghost use Rattle.gx_syntax_tree.specs.contracts.expr.Expr as e;

    ghost Value = { List Frame };

    ghost coded = { Prim.hlevel (codes, e.the_row.coded) };

    ghost view = { λ s. reverse s.frames.items };
}

impl Stack {
    pub(crate) fn new(alloc: Global) -> Stack
        ensures { result ≡ [] }
    {
        Stack {
            frames: Vec::new(alloc),
        }
    }

    pub(crate) fn push(&mut self, frame: Frame) -> Result<(), NoMemory>
        ensures { OnOk result (self.new ≡ frame ∷ self.old) }
    {
        self.frames.push(frame)?;
        Ok(())
    }

    pub(crate) fn pop(&mut self) -> Option<Frame>
        ensures { parser.Pops self.old result self.new }
    {
        self.frames.pop()
    }

    /// The least level of the operand that is parsed next.
    pub(crate) fn min_precedence(&self) -> u8
        ensures { result ≡ parser.min_precedence self.now }
    {
        match self.frames.last() {
            Some(Frame::Operator(pending)) => pending_operand_precedence(pending),
            Some(Frame::Paren) => 1,
            Some(Frame::Call(_, _)) => 1,
            None => 1,
        }
    }

    /// Removes the innermost operation if its level is at least this.
    fn pop_pending(&mut self, least: u8) -> Option<Pending>
        ensures { parser.PopsPending least self.old result self.new }
    {
        match self.frames.last() {
            Some(Frame::Operator(pending)) if least <= pending_precedence(pending) => {}
            _ => return None,
        }
        match self.frames.pop() {
            Some(Frame::Operator(pending)) => Some(pending),
            _ => None,
        }
    }
}

/// Applies the operations of this level and more that end with the operand, and returns the result.
pub(crate) fn reduce(
    alloc: Global,
    stack: &mut Stack,
    least: u8,
    first: Expr,
) -> Result<Expr, NoMemory>
    ensures { IfOk result (λ x. (x, stack.new) ≡ parser.reduce least first stack.old) }
{
    let mut x = first;
    while let Some(pending) = stack.pop_pending(least) {
        x = apply(alloc, pending, x)?;
    }
    Ok(x)
}
