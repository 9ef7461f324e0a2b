//! The depth of an expression.

ghost use Rattle.std.specs.Prelude.{◌≡◌, nat_le, map};
ghost use Rattle.gx_syntax_tree.specs.Bounds.{depth, greatest};

use gx_syntax_tree::Expr;
use sqlite_items::Items;

/// Whether an expression is at most `most` deep. It is read no deeper than that.
#[cycle(depth)]
pub(crate) fn is_within_depth(expression: &Expr, most: u64) -> bool
    ensures { result ≡ nat_le (depth expression.now) most }
{
    if most == 0 {
        return false;
    }
    match expression {
        Expr::Call(_, arguments) => are_within_depth(arguments, most - 1),
        Expr::Unary(_, operand) => is_within_depth(operand.get(), most - 1),
        Expr::Binary(_, left, right) => {
            is_within_depth(left.get(), most - 1) && is_within_depth(right.get(), most - 1)
        }
        _ => true,
    }
}

// Whether each of these expressions is.
#[cycle(depth)]
fn are_within_depth(expressions: &Items<Expr>, most: u64) -> bool
    ensures { result ≡ nat_le (greatest (map depth expressions.now)) most }
{
    'expressions: for expression in expressions.as_slice() {
        if !is_within_depth(expression, most) {
            return false;
        }
    }
    true
}
