//! An expression that was checked.

use gx_expr::Expr;
use gx_rows::ValueKind;

/// An expression that was checked and numbered.
#[derive(Drop)]
pub struct TypedExpr {
    /// Its tree. The root has the first number.
    pub expr: Expr,
    /// The kind of its values.
    pub kind: ValueKind,
    /// The number after those of its nodes.
    pub next: u32,
}
