//! One node of a tree, whose operands are checked already.

ghost use Rattle.std.specs.Prelude.{◌≡◌, ◌+◌, ◌<◌, ◌^◌, IfOk, Ok};
ghost use Rattle.gx_types_exprs.specs.ExprScopes.{scope_names};
ghost use Rattle.gx_types_exprs.specs.ExprTyping as typing;
ghost use Rattle.gx_types_exprs.specs.ExprWords as words;
ghost use Rattle.gx_types_exprs.specs.Returns.{Returns, args_record};

use crate::checked_args::CheckedArgs;
use crate::expr_scope::side_has_id;
use crate::kinds::{binary_kind, call_kind, unary_kind};
use crate::words::{function_of, side_of_word};
use crate::{ExprScope, ExprStop, TypeKind, TypedExpr};
use gx_expr::{BinaryOp, Expr, UnaryOp};
use gx_rows::ValueKind;
use sqlite_items::Boxed;
use std::alloc::Global;

/// A node without operands.
pub(crate) fn leaf(number: u32, expr: Expr, kind: ValueKind) -> TypedExpr
    requires { number + 1 < 2 ^ 32 }
    ensures typed { typing.leaf number expr kind ≡ Ok result }
    ensures counted { result.next ≡ number + 1 }
{
    TypedExpr {
        expr,
        kind,
        next: number + 1,
    }
}

/// The column, or the identifier, that a word and a name after it stand for.
pub(crate) fn type_column(
    scope: &ExprScope<'_>,
    number: u32,
    word: &str,
    name: &str,
) -> Result<TypedExpr, ExprStop>
    requires { number + 1 < 2 ^ 32 }
    ensures typed { Returns result
        (typing.typed_name (scope_names scope.now) number name.now (words.side_of_word word.now)) }
    ensures counted { IfOk result (λ t. t.next ≡ number + 1) }
{
    let Some(side) = side_of_word(word) else {
        return Err(ExprStop::At {
            expr: number,
            kind: TypeKind::SideUnknown,
        });
    };
    if !scope.has_side(side) {
        return Err(ExprStop::At {
            expr: number,
            kind: TypeKind::SideUnknown,
        });
    }
    if side_has_id(side) && name == "id" {
        return Ok(leaf(number, Expr::Id(number, side), ValueKind::Int));
    }
    match scope.find(side, name) {
        Some((i, kind)) => Ok(leaf(number, Expr::Column(number, side, i), kind)),
        None => Err(ExprStop::At {
            expr: number,
            kind: TypeKind::ColumnUnknown,
        }),
    }
}

/// `matched`
pub(crate) fn type_matched(scope: &ExprScope<'_>, number: u32) -> Result<TypedExpr, ExprStop>
    requires { number + 1 < 2 ^ 32 }
    ensures typed { Returns result (typing.typed_matched (scope_names scope.now) number) }
    ensures counted { IfOk result (λ t. t.next ≡ number + 1) }
{
    if !scope.has_matched() {
        return Err(ExprStop::At {
            expr: number,
            kind: TypeKind::SideUnknown,
        });
    }
    Ok(leaf(number, Expr::Matched(number), ValueKind::Bool))
}

/// A prefix operator on an operand.
pub(crate) fn type_unary(
    alloc: Global,
    number: u32,
    operator: UnaryOp,
    operand: TypedExpr,
) -> Result<TypedExpr, ExprStop>
    ensures typed { Returns result (typing.typed_unary number operator operand) }
    ensures counted { IfOk result (λ t. t.next ≡ operand.next) }
{
    let TypedExpr { expr, kind, next } = operand;
    let Some(kind) = unary_kind(operator, kind) else {
        return Err(ExprStop::At {
            expr: number,
            kind: TypeKind::KindWrong,
        });
    };
    let operand = Boxed::new(alloc, expr)?;
    let expr = Expr::Unary(number, operator, operand);
    Ok(TypedExpr { expr, kind, next })
}

/// An infix operator between two operands.
pub(crate) fn type_binary(
    alloc: Global,
    number: u32,
    operator: BinaryOp,
    left: TypedExpr,
    right: TypedExpr,
) -> Result<TypedExpr, ExprStop>
    ensures typed { Returns result (typing.typed_binary number operator left right) }
    ensures counted { IfOk result (λ t. t.next ≡ right.next) }
{
    let Some(kind) = binary_kind(operator, left.kind, right.kind) else {
        return Err(ExprStop::At {
            expr: number,
            kind: TypeKind::KindWrong,
        });
    };
    let next = right.next;
    let left = Boxed::new(alloc, left.expr)?;
    let right = Boxed::new(alloc, right.expr)?;
    let expr = Expr::Binary(number, operator, left, right);
    Ok(TypedExpr { expr, kind, next })
}

/// A function and its arguments.
pub(crate) fn type_call(
    number: u32,
    name: &str,
    arguments: CheckedArgs,
) -> Result<TypedExpr, ExprStop>
    ensures typed { Returns result (typing.typed_call number name.now (args_record arguments)) }
    ensures counted { IfOk result (λ t. t.next ≡ arguments.next) }
{
    let CheckedArgs { exprs, kinds, next } = arguments;
    let Some(function) = function_of(name, kinds.len()) else {
        return Err(ExprStop::At {
            expr: number,
            kind: TypeKind::FunctionUnknown,
        });
    };
    let Some(kind) = call_kind(function, kinds.as_slice()) else {
        return Err(ExprStop::At {
            expr: number,
            kind: TypeKind::KindWrong,
        });
    };
    let expr = Expr::Call(number, function, exprs);
    Ok(TypedExpr { expr, kind, next })
}
