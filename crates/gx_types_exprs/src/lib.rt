//! Types of expressions: one expression of a script, checked in the scope of its place.
//!
//! The crate takes the tree of an expression with its names as they are written, and makes the
//! numbered tree that is evaluated, in which sides and columns are what they stand for; or it
//! returns the first check that fails. It depends on `gx_syntax_tree` and `gx_expr` for the two
//! trees and on `gx_rows` for row types. The checker of statements calls it once for each
//! expression. It never sees a statement, a name of a table or a graph, or a row.
#![tactic(auto)]

mod checked_args;
mod depth;
mod expr_scope;
mod expr_stop;
mod expression;
mod kinds;
mod laws;
mod nodes;
mod tree;
mod type_kind;
mod typed_expr;
mod words;

pub use expr_scope::ExprScope;
pub use expr_stop::ExprStop;
pub use expression::{type_expr, type_predicate};
pub use laws::accepted_exprs_are_well_typed;
pub use type_kind::TypeKind;
pub use typed_expr::TypedExpr;
