//! The number of nodes of expressions.

ghost use Rattle.std.specs.Prelude.{◌≡◌, ◌+◌, ◌<◌, ◌^◌, map, sum};
ghost use Rattle.gx_syntax_tree.specs.Bounds.{node_count};
ghost use Rattle.gx_types_clauses.specs.ValueTyping.{column_values};

use gx_syntax_tree::{ColumnExpr, Expr};
use sqlite_items::Items;

/// The number of nodes of the expressions of columns.
pub fn count_nodes(sets: &Items<ColumnExpr>) -> u32
    requires { sum (map node_count (column_values sets.now)) < 2 ^ 32 }
    ensures { result ≡ sum (map node_count (column_values sets.now)) }
{
    let mut count = 0;
    'sets: for set in sets.as_slice() {
        count += nodes_of(&set.value);
    }
    count
}

// The number of nodes of an expression.
#[cycle(nodes)]
fn nodes_of(expression: &Expr) -> u32
    requires { node_count expression.now < 2 ^ 32 }
    ensures { result ≡ node_count expression.now }
{
    match expression {
        Expr::Call(_, arguments) => 1 + nodes_of_all(arguments),
        Expr::Unary(_, operand) => 1 + nodes_of(operand.get()),
        Expr::Binary(_, left, right) => 1 + nodes_of(left.get()) + nodes_of(right.get()),
        _ => 1,
    }
}

// The number of nodes of arguments.
#[cycle(nodes)]
fn nodes_of_all(arguments: &Items<Expr>) -> u32
    requires { sum (map node_count arguments.now) < 2 ^ 32 }
    ensures { result ≡ sum (map node_count arguments.now) }
{
    let mut count = 0;
    'arguments: for argument in arguments.as_slice() {
        count += nodes_of(argument);
    }
    count
}
