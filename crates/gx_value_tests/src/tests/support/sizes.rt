//! How many nodes an expression has, so that a test may pass it on.

ghost use Rattle.std.specs.Prelude.{◌≡◌, ◌+◌, All, IfSome, flat_map, map, sum};
ghost use Rattle.gx_syntax_tree.specs.Bounds.{IsBoundedText, node_count, texts_in_expr};

use gx_syntax_tree::Expr;
use sqlite_items::Items;

/// What is left of `most` after the nodes of an expression; `None` if it has more, or a text of
/// more than 1,024 bytes.
#[cycle(sizes)]
pub(crate) fn remaining_nodes(expression: &Expr, most: u32) -> Option<u32>
    ensures counted { IfSome result (λ rest. rest + node_count expression.now ≡ most) }
    ensures short { IfSome result (λ _. All IsBoundedText (texts_in_expr expression.now)) }
{
    let most = most.checked_sub(1)?;
    match expression {
        Expr::Quoted(text) => {
            if text.as_str().len() <= 1_024 {
                Some(most)
            } else {
                None
            }
        }
        Expr::Call(_, arguments) => remaining_of_all(arguments, most),
        Expr::Unary(_, operand) => remaining_nodes(operand.get(), most),
        Expr::Binary(_, left, right) => {
            let most = remaining_nodes(left.get(), most)?;
            remaining_nodes(right.get(), most)
        }
        _ => Some(most),
    }
}

// The same of each of these expressions.
#[cycle(sizes)]
fn remaining_of_all(expressions: &Items<Expr>, most: u32) -> Option<u32>
    ensures counted { IfSome result (λ rest. rest + sum (map node_count expressions.now) ≡ most) }
    ensures short { IfSome result (λ _. All IsBoundedText (flat_map (λ x. x) (map texts_in_expr expressions.now))) }
{
    let mut rest = most;
    'expressions: for expression in expressions.as_slice() {
        rest = remaining_nodes(expression, rest)?;
    }
    Some(rest)
}
