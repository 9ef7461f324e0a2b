//! Expressions, with names as they are written, and the precedence of their operators. Parentheses
//! are not in the tree: where they are needed follows from the precedences. A new operator is a
//! variant here with its precedences, their lines in specs/Precedence.antt, and its token in
//! `gx_syntax_exprs`.

ghost use Rattle.std.specs.Prelude.{◌≡◌};
ghost use Rattle.gx_syntax_tree.specs.Precedence as precedence;

use gx_rows::Text;
use sqlite_items::{Boxed, Items};

/// A prefix operator.
#[derive(Clone, Copy, Debug, PartialEq, Eq)]
pub enum UnaryOp {
    /// `not`
    Not,
    /// `-`
    Neg,
}

impl UnaryOp {
    /// How tightly it binds, from 1 to 8: a greater number binds tighter.
    pub fn precedence(self) -> u8
        ensures { result ≡ precedence.unary_precedence self }
    {
        match self {
            UnaryOp::Not => 3,
            UnaryOp::Neg => 7,
        }
    }

    /// The least precedence of its operand.
    pub fn operand_precedence(self) -> u8
        ensures { result ≡ precedence.operand_precedence self }
    {
        match self {
            UnaryOp::Not => 4,
            UnaryOp::Neg => 8,
        }
    }
}

/// An infix operator.
#[derive(Clone, Copy, Debug, PartialEq, Eq)]
pub enum BinaryOp {
    /// `or`
    Or,
    /// `and`
    And,
    /// `==`
    Eq,
    /// `!=`
    Ne,
    /// `<`
    Lt,
    /// `<=`
    Le,
    /// `>`
    Gt,
    /// `>=`
    Ge,
    /// `+`
    Add,
    /// `-`
    Sub,
    /// `*`
    Mul,
    /// `/`
    Div,
    /// `%`
    Rem,
}

impl BinaryOp {
    /// How tightly it binds, from 1 to 8: a greater number binds tighter.
    pub fn precedence(self) -> u8
        ensures { result ≡ precedence.binary_precedence self }
    {
        match self {
            BinaryOp::Or => 1,
            BinaryOp::And => 2,
            BinaryOp::Eq => 4,
            BinaryOp::Ne => 4,
            BinaryOp::Lt => 4,
            BinaryOp::Le => 4,
            BinaryOp::Gt => 4,
            BinaryOp::Ge => 4,
            BinaryOp::Add => 5,
            BinaryOp::Sub => 5,
            BinaryOp::Mul => 6,
            BinaryOp::Div => 6,
            BinaryOp::Rem => 6,
        }
    }

    /// The least precedence of its left operand. Comparisons do not chain.
    pub fn left_precedence(self) -> u8
        ensures { result ≡ precedence.left_precedence self }
    {
        match self {
            BinaryOp::Or => 1,
            BinaryOp::And => 2,
            BinaryOp::Eq => 5,
            BinaryOp::Ne => 5,
            BinaryOp::Lt => 5,
            BinaryOp::Le => 5,
            BinaryOp::Gt => 5,
            BinaryOp::Ge => 5,
            BinaryOp::Add => 5,
            BinaryOp::Sub => 5,
            BinaryOp::Mul => 6,
            BinaryOp::Div => 6,
            BinaryOp::Rem => 6,
        }
    }

    /// The least precedence of its right operand: chains group to the left.
    pub fn right_precedence(self) -> u8
        ensures { result ≡ precedence.right_precedence self }
    {
        match self {
            BinaryOp::Or => 2,
            BinaryOp::And => 3,
            BinaryOp::Eq => 5,
            BinaryOp::Ne => 5,
            BinaryOp::Lt => 5,
            BinaryOp::Le => 5,
            BinaryOp::Gt => 5,
            BinaryOp::Ge => 5,
            BinaryOp::Add => 6,
            BinaryOp::Sub => 6,
            BinaryOp::Mul => 7,
            BinaryOp::Div => 7,
            BinaryOp::Rem => 7,
        }
    }
}

/// An expression.
#[derive(Drop)]
pub enum Expr {
    /// A number that is not negative: a sign before it is an operator.
    Number(i64),
    /// A text.
    Quoted(Text),
    /// `true` or `false`.
    Truth(bool),
    /// `matched`
    Matched,
    /// A side and the name of one of its columns.
    Column(Text, Text),
    /// A function and its arguments.
    Call(Text, Items<Expr>),
    /// A prefix operator and its operand.
    Unary(UnaryOp, Boxed<Expr>),
    /// An infix operator with its left and right operands.
    Binary(BinaryOp, Boxed<Expr>, Boxed<Expr>),
}
