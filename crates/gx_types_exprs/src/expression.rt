//! The two calls of the crate: an expression of any kind, and a condition.

ghost use Rattle.std.specs.Prelude.{◌≡◌, ◌+◌, ◌<◌, ◌^◌, All, IfOk};
ghost use Rattle.gx_rows.specs.declared.value.ValueKind.TheVariants as kind;
ghost use Rattle.gx_syntax_tree.specs.Bounds.{IsBoundedText, node_count, texts_in_expr};
ghost use Rattle.gx_types_exprs.specs.ExprLaws.{IsNumbered, IsWellTyped};
ghost use Rattle.gx_types_exprs.specs.ExprScopes.{scope_names};
ghost use Rattle.gx_types_exprs.specs.ExprTyping.{typed_expr, typed_predicate};
ghost use Rattle.gx_types_exprs.specs.Returns.{Returns};

use crate::depth::is_within_depth;
use crate::laws::accepted_exprs_are_well_typed;
use crate::tree::type_tree;
use crate::{ExprScope, ExprStop, TypeKind, TypedExpr};
use gx_rows::{LimitKind, ValueKind};
use gx_syntax_tree::Expr;
use std::alloc::Global;

/// Checks an expression in the scope of its place, and numbers its nodes from `first` on.
///
/// An operation is numbered before its operands, and checked after them, from left to right.
///
/// # Errors
///
/// `Depth` if it is more than 64 deep, before all else; `At` at the first check that fails, with
/// the number of its node; `NoMemory` if memory runs out.
pub fn type_expr(
    alloc: Global,
    expression: &Expr,
    scope: &ExprScope<'_>,
    first: u32,
) -> Result<TypedExpr, ExprStop>
    requires few_nodes { first + node_count expression.now < 2 ^ 32 }
    requires short_texts { All IsBoundedText (texts_in_expr expression.now) }
    ensures typed { Returns result (typed_expr (scope_names scope.now) first expression.now) }
    ensures well_typed { IfOk result (IsWellTyped (scope_names scope.now)) }
    ensures numbered { IfOk result (IsNumbered first (node_count expression.now)) }
    ensures counted { IfOk result (λ t. t.next ≡ first + node_count expression.now) }
{
    accepted_exprs_are_well_typed();
    type_shallow(alloc, expression, scope, first)
}

// Checks a tree if it is not too deep.
fn type_shallow(
    alloc: Global,
    expression: &Expr,
    scope: &ExprScope<'_>,
    first: u32,
) -> Result<TypedExpr, ExprStop>
    requires { first + node_count expression.now < 2 ^ 32 }
    ensures typed { Returns result (typed_expr (scope_names scope.now) first expression.now) }
    ensures counted { IfOk result (λ t. t.next ≡ first + node_count expression.now) }
{
    if !is_within_depth(expression, LimitKind::Depth.most()) {
        return Err(ExprStop::Depth);
    }
    type_tree(alloc, expression, scope, first)
}

/// Checks a condition: an expression that has to be a truth value.
///
/// # Errors
///
/// As those of `type_expr`; after them `At` with `KindWrong` at the root if its kind is another.
pub fn type_predicate(
    alloc: Global,
    expression: &Expr,
    scope: &ExprScope<'_>,
    first: u32,
) -> Result<TypedExpr, ExprStop>
    requires few_nodes { first + node_count expression.now < 2 ^ 32 }
    requires short_texts { All IsBoundedText (texts_in_expr expression.now) }
    ensures typed { Returns result (typed_predicate (scope_names scope.now) first expression.now) }
    ensures well_typed { IfOk result (IsWellTyped (scope_names scope.now)) }
    ensures numbered { IfOk result (IsNumbered first (node_count expression.now)) }
    ensures counted { IfOk result (λ t. t.next ≡ first + node_count expression.now) }
    ensures truth { IfOk result (λ t. t.kind ≡ kind.Bool) }
{
    let typed = type_expr(alloc, expression, scope, first)?;
    match typed.kind {
        ValueKind::Bool => Ok(typed),
        _ => Err(ExprStop::At {
            expr: first,
            kind: TypeKind::KindWrong,
        }),
    }
}
