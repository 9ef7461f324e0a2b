//! The trees of expressions.

use crate::operators::{BinaryOp, Function, UnaryOp};
use crate::side::Side;
use gx_rows::Value;
use sqlite_items::{Boxed, Items};

/// An expression. The first field of each variant is the number of the node: the nodes of a
/// statement are numbered from 0 in text order, an operation before its operands.
#[derive(Drop)]
pub enum Expr {
    /// A constant.
    Const(u32, Value),
    /// The value of a column, which is counted from 0, on a side.
    Column(u32, Side, u32),
    /// The identifier of the vertex on a side.
    Id(u32, Side),
    /// Whether a join found a row.
    Matched(u32),
    /// A prefix operator and its operand.
    Unary(u32, UnaryOp, Boxed<Expr>),
    /// An infix operator with its left and right operands.
    Binary(u32, BinaryOp, Boxed<Expr>, Boxed<Expr>),
    /// A function and its arguments.
    Call(u32, Function, Items<Expr>),
}
