//! Expressions: their numbered trees, their kinds, and what they evaluate to on one row.
//!
//! An expression has no names any more: sides and columns are what they stand for, and each node
//! has its number in the statement. A `Scope` lends the values that an expression reads; contracts
//! see it as a `ScopeValues`, and a result as a fold over the tree. The crate depends on `gx_rows`
//! for values, on the kit's `sqlite_items`, through which a tree may contain trees, and on `itoa`.
//! The type checker makes these trees, and kernels evaluate them. The crate sees neither a script
//! nor a partition.
#![tactic(auto)]

mod arithmetic;
mod evaluate;
mod expr;
mod functions;
mod leaf;
mod operations;
mod operators;
mod projections;
mod rows;
mod scope;
mod shape;
mod shape_rows;
mod side;
mod term;

pub use evaluate::{eval, truth};
pub use expr::Expr;
pub use operators::{BinaryOp, Function, UnaryOp};
pub use rows::eval_row;
pub use scope::Scope;
pub use shape::Shape;
pub use shape_rows::{eval_shapes, shapes_of};
pub use side::Side;
