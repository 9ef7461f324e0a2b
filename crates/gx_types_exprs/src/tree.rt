//! Trees, checked and numbered node by node: an operation has its number before its operands, and
//! is checked after them.

ghost use Rattle.std.specs.Prelude.{◌≡◌, ◌+◌, ◌<◌, ◌≤◌, ◌^◌, IfOk, map, sum};
ghost use Rattle.gx_syntax_tree.specs.Bounds.{node_count};
ghost use Rattle.gx_types_exprs.specs.ExprScopes.{scope_names};
ghost use Rattle.gx_types_exprs.specs.ExprTyping.{typed_args, typed_tree, tree_typing};
ghost use Rattle.gx_types_exprs.specs.Returns.{Returns, ReturnsAs, args_record};

use crate::checked_args::CheckedArgs;
use crate::nodes::{leaf, type_binary, type_call, type_column, type_matched, type_unary};
use crate::words::{binary_of_written, unary_of_written};
use crate::{ExprScope, ExprStop, TypedExpr};
use gx_expr::Expr;
use gx_rows::{Value, ValueKind};
use gx_syntax_tree::Expr as Written;
use sqlite_items::Items;
use std::alloc::Global;

/// A tree, checked and numbered from `first` on.
///
/// # Errors
///
/// `At` at the first check that fails; `NoMemory` if memory runs out.
#[cycle(tree)]
pub(crate) fn type_tree(
    alloc: Global,
    expression: &Written,
    scope: &ExprScope<'_>,
    first: u32,
) -> Result<TypedExpr, ExprStop>
    requires { first + node_count expression.now < 2 ^ 32 }
    ensures typed { Returns result (typed_tree (scope_names scope.now) first expression.now) }
    ensures counted { IfOk result (λ t. t.next ≡ first + node_count expression.now) }
{
    match expression {
        Written::Number(number) => {
            let value = Value::Int(*number);
            Ok(leaf(first, Expr::Const(first, value), ValueKind::Int))
        }
        Written::Quoted(text) => {
            let value = Value::Text(text.copy()?);
            Ok(leaf(first, Expr::Const(first, value), ValueKind::Text))
        }
        Written::Truth(truth) => {
            let value = Value::Bool(*truth);
            Ok(leaf(first, Expr::Const(first, value), ValueKind::Bool))
        }
        Written::Matched => type_matched(scope, first),
        Written::Column(word, name) => type_column(scope, first, word.as_str(), name.as_str()),
        Written::Call(name, arguments) => {
            let arguments = type_args(alloc, arguments, scope, first + 1)?;
            type_call(first, name.as_str(), arguments)
        }
        Written::Unary(operator, operand) => {
            let operand = type_tree(alloc, operand.get(), scope, first + 1)?;
            type_unary(alloc, first, unary_of_written(*operator), operand)
        }
        Written::Binary(operator, left, right) => {
            let left = type_tree(alloc, left.get(), scope, first + 1)?;
            let right = type_tree(alloc, right.get(), scope, left.next)?;
            type_binary(alloc, first, binary_of_written(*operator), left, right)
        }
    }
}

// The arguments of a call, numbered one after the other from `first` on. The list is taken as a
// tree holds it, so that the check sees that they are parts of the call.
#[cycle(tree)]
fn type_args(
    alloc: Global,
    arguments: &Items<Written>,
    scope: &ExprScope<'_>,
    first: u32,
) -> Result<CheckedArgs, ExprStop>
    requires { first + sum (map node_count arguments.now) < 2 ^ 32 }
    ensures typed { ReturnsAs args_record result
        (typed_args (map (tree_typing (scope_names scope.now)) arguments.now) first) }
    ensures counted { IfOk result (λ t. t.next ≡ first + sum (map node_count arguments.now)) }
{
    let mut checked = CheckedArgs::new(alloc, first);
    'arguments: for argument in arguments.as_slice() {
        let next = checked.next;
        checked.push(type_tree(alloc, argument, scope, next)?)?;
    }
    Ok(checked)
}
