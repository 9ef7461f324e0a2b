//! The kinds that operators and functions take and give, by the rules of `gx_expr`.

ghost use Rattle.std.specs.Prelude.{◌≡◌, [], ◌∷◌, None, Some, if◌then◌else◌};
ghost use Rattle.gx_expr.specs.Typing.{kind_of_binary, kind_of_call, kind_of_unary};
ghost use Rattle.gx_expr.specs.declared.operators.BinaryOp.TheVariants as binary;
ghost use Rattle.gx_expr.specs.declared.operators.Function.TheVariants as function;
ghost use Rattle.gx_rows.specs.declared.value.ValueKind.TheVariants as kind;

use gx_expr::{BinaryOp, Function, UnaryOp};
use gx_rows::ValueKind;

// Whether two values of these kinds can be compared, and either of them chosen.
fn are_alike(a: ValueKind, b: ValueKind) -> bool
    ensures compared { (if result then Some kind.Bool else None) ≡ kind_of_binary binary.Eq a b }
    ensures chosen { (if result then Some a else None) ≡ kind_of_call function.Min (a ∷ b ∷ []) }
{
    match (a, b) {
        (ValueKind::Int, ValueKind::Int) => true,
        (ValueKind::Text, ValueKind::Text) => true,
        (ValueKind::Bool, ValueKind::Bool) => true,
        (ValueKind::Ids, ValueKind::Ids) => true,
        _ => false,
    }
}

// The kind of what is chosen from two values; `None` if their kinds differ.
fn chosen_kind(a: ValueKind, b: ValueKind) -> Option<ValueKind>
    ensures { result ≡ kind_of_call function.Min (a ∷ b ∷ []) }
{
    if are_alike(a, b) { Some(a) } else { None }
}

/// The kind of an operation with a prefix operator; `None` if it does not take the operand.
pub(crate) fn unary_kind(operator: UnaryOp, operand: ValueKind) -> Option<ValueKind>
    ensures { result ≡ kind_of_unary operator operand }
{
    match (operator, operand) {
        (UnaryOp::Neg, ValueKind::Int) => Some(ValueKind::Int),
        (UnaryOp::Not, ValueKind::Bool) => Some(ValueKind::Bool),
        _ => None,
    }
}

/// The kind of an operation with an infix operator; `None` if it does not take the operands.
pub(crate) fn binary_kind(
    operator: BinaryOp,
    left: ValueKind,
    right: ValueKind,
) -> Option<ValueKind>
    ensures { result ≡ kind_of_binary operator left right }
{
    match operator {
        BinaryOp::Add | BinaryOp::Sub | BinaryOp::Mul | BinaryOp::Div | BinaryOp::Rem => {
            sum_kind(left, right)
        }
        BinaryOp::And | BinaryOp::Or => truth_kind(left, right),
        BinaryOp::Eq | BinaryOp::Ne | BinaryOp::Lt | BinaryOp::Le | BinaryOp::Gt | BinaryOp::Ge =>
            compared_kind(left, right),
    }
}

// The kind of a sum; that of each other operation on two numbers is the same.
fn sum_kind(left: ValueKind, right: ValueKind) -> Option<ValueKind>
    ensures { result ≡ kind_of_binary binary.Add left right }
{
    match (left, right) {
        (ValueKind::Int, ValueKind::Int) => Some(ValueKind::Int),
        _ => None,
    }
}

// The kind of `and` and `or`.
fn truth_kind(left: ValueKind, right: ValueKind) -> Option<ValueKind>
    ensures { result ≡ kind_of_binary binary.And left right }
{
    match (left, right) {
        (ValueKind::Bool, ValueKind::Bool) => Some(ValueKind::Bool),
        _ => None,
    }
}

// The kind of a comparison.
fn compared_kind(left: ValueKind, right: ValueKind) -> Option<ValueKind>
    ensures { result ≡ kind_of_binary binary.Eq left right }
{
    if are_alike(left, right) {
        Some(ValueKind::Bool)
    } else {
        None
    }
}

/// The kind of a call; `None` if the function does not take these arguments.
pub(crate) fn call_kind(function: Function, arguments: &[ValueKind]) -> Option<ValueKind>
    ensures { result ≡ kind_of_call function arguments.now }
{
    match (function, arguments) {
        (Function::If, [ValueKind::Bool, a, b]) => chosen_kind(*a, *b),
        (Function::Min, [a, b]) => chosen_kind(*a, *b),
        (Function::Max, [a, b]) => chosen_kind(*a, *b),
        (Function::Abs, [ValueKind::Int]) => Some(ValueKind::Int),
        (Function::Len, [ValueKind::Text]) => Some(ValueKind::Int),
        (Function::Len, [ValueKind::Ids]) => Some(ValueKind::Int),
        (Function::Concat, [ValueKind::Text, ValueKind::Text]) => Some(ValueKind::Text),
        (Function::Text, [ValueKind::Int]) => Some(ValueKind::Text),
        (Function::Ids, []) => Some(ValueKind::Ids),
        (Function::Add, [ValueKind::Ids, ValueKind::Int]) => Some(ValueKind::Ids),
        (Function::Has, [ValueKind::Ids, ValueKind::Int]) => Some(ValueKind::Bool),
        _ => None,
    }
}
