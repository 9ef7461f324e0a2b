//! The nodes of a numbered tree in text order.

use gx_expr::Expr;
use gx_rows::NoMemory;
use std::alloc::Global;

/// Writes the number of each node and what it is.
pub(crate) fn put_nodes(alloc: Global, out: &mut String, expr: &Expr) -> Result<(), NoMemory> {
    let node = match expr {
        Expr::Const(n, _) => format!(in alloc; "{n}, ")?,
        Expr::Column(n, side, i) => format!(in alloc; "{n} {side:?} {i}, ")?,
        Expr::Id(n, side) => format!(in alloc; "{n} {side:?}, ")?,
        Expr::Matched(n) => format!(in alloc; "{n} matched, ")?,
        Expr::Unary(n, operator, _) => format!(in alloc; "{n} {operator:?}, ")?,
        Expr::Binary(n, operator, _, _) => format!(in alloc; "{n} {operator:?}, ")?,
        Expr::Call(n, function, _) => format!(in alloc; "{n} {function:?}, ")?,
    };
    out.push_str(node.as_str())?;
    match expr {
        Expr::Unary(_, _, operand) => put_nodes(alloc, out, operand.get()),
        Expr::Binary(_, _, left, right) => {
            put_nodes(alloc, out, left.get())?;
            put_nodes(alloc, out, right.get())
        }
        Expr::Call(_, _, arguments) => {
            for argument in arguments.as_slice() {
                put_nodes(alloc, out, argument)?;
            }
            Ok(())
        }
        _ => Ok(()),
    }
}
