//! Operations on values that were evaluated.
//!
//! To add an operator or a function, add its arm here, its line in specs/Evaluation.antt and that in
//! specs/Typing.antt.

ghost use Rattle.std.specs.Prelude.{◌≡◌, ◌∷◌, [], Ok, Option, Some, None};
ghost use Rattle.std.specs.Cow.{cow_value};
ghost use Rattle.gx_expr.specs.Evaluates.{EvaluatesTo, EvaluatesToCow};
ghost use Rattle.gx_expr.specs.Evaluation.{
  at_node,
  binary_result,
  call_result,
  comparison,
  decided,
  unary_result,
};

use crate::arithmetic::{arithmetic, length_as_int, magnitude_of, negated};
use crate::functions::{add_entry, concat, decimal_text, has, no_ids};
use crate::operators::{BinaryOp, Function, UnaryOp};
use crate::projections::{entries_of, number_of, size_of_value, text_of, truth_of};
use gx_rows::{EvalStop, Value};
use std::alloc::Global;
use std::borrow::Cow;
use std::cmp::Ordering;

/// The value of a prefix operator at node `n`.
///
/// # Errors
///
/// `Overflow` if the number leaves 64 bits.
pub(crate) fn unary(n: u32, operator: UnaryOp, a: &Value) -> Result<Value, EvalStop>
    ensures { EvaluatesTo result (at_node n (unary_result operator a.now)) }
{
    match operator {
        UnaryOp::Neg => Ok(Value::Int(negated(n, number_of(a))?)),
        UnaryOp::Not => Ok(Value::Bool(!truth_of(a))),
    }
}

/// Whether a comparison holds. Other operators compare nothing.
pub(crate) fn compares(operator: BinaryOp, order: Ordering) -> bool
    ensures { result ≡ comparison operator order }
{
    match operator {
        BinaryOp::Eq => order.is_eq(),
        BinaryOp::Ne => order.is_ne(),
        BinaryOp::Lt => order.is_lt(),
        BinaryOp::Le => order.is_le(),
        BinaryOp::Gt => order.is_gt(),
        BinaryOp::Ge => order.is_ge(),
        _ => false,
    }
}

/// What the left side of `and` or `or` decides alone.
pub(crate) fn decided_by_left(operator: BinaryOp, left: bool) -> Option<bool>
    ensures { result ≡ decided operator left }
{
    match (operator, left) {
        (BinaryOp::And, false) => Some(false),
        (BinaryOp::Or, true) => Some(true),
        _ => None,
    }
}

/// The value of an infix operator at node `n`.
///
/// # Errors
///
/// `Overflow` if the exact number leaves 64 bits, and `DivideByZero`.
pub(crate) fn binary(n: u32, operator: BinaryOp, a: &Value, b: &Value) -> Result<Value, EvalStop>
    ensures { EvaluatesTo result (at_node n (binary_result operator a.now b.now)) }
{
    match operator {
        BinaryOp::Add | BinaryOp::Sub | BinaryOp::Mul | BinaryOp::Div | BinaryOp::Rem => {
            Ok(Value::Int(arithmetic(n, operator, number_of(a), number_of(b))?))
        }
        BinaryOp::And => Ok(Value::Bool(truth_of(a) && truth_of(b))),
        BinaryOp::Or => Ok(Value::Bool(truth_of(a) || truth_of(b))),
        _ => Ok(Value::Bool(compares(operator, a.compare(b)))),
    }
}

/// The value of a function without an argument at node `n`.
///
/// # Errors
///
/// `NoMemory` if memory for the list runs out.
pub(crate) fn call_none(alloc: Global, n: u32, function: Function) -> Result<Value, EvalStop>
    ensures { EvaluatesTo result (at_node n (call_result function [])) }
{
    match function {
        Function::Ids => Ok(Value::Ids(no_ids(alloc)?)),
        _ => Ok(Value::Int(0)),
    }
}

/// The value of a function of one argument at node `n`.
///
/// # Errors
///
/// `Overflow` if the number leaves 64 bits; `NoMemory`.
pub(crate) fn call_one(
    alloc: Global,
    n: u32,
    function: Function,
    a: &Value,
) -> Result<Value, EvalStop>
    ensures { EvaluatesTo result (at_node n (call_result function (a.now ∷ []))) }
{
    match function {
        Function::Abs => Ok(Value::Int(magnitude_of(n, number_of(a))?)),
        Function::Len => Ok(Value::Int(length_as_int(n, size_of_value(a))?)),
        Function::Text => decimal_text(alloc, n, number_of(a)),
        _ => Ok(Value::Int(0)),
    }
}

/// The value of a function of two arguments at node `n`. The lesser and the greater are one of the
/// arguments, which is not copied.
///
/// # Errors
///
/// `TextTooLong` past 1,024 bytes, `ListTooLong` past 1,000,000 entries; `NoMemory`.
pub(crate) fn call_two<'a>(
    alloc: Global,
    n: u32,
    function: Function,
    a: Cow<'a, Value>,
    b: Cow<'a, Value>,
) -> Result<Cow<'a, Value>, EvalStop>
    ensures { EvaluatesToCow result
        (at_node n (call_result function (cow_value a.entry ∷ cow_value b.entry ∷ []))) }
{
    match function {
        Function::Min => Ok(if a.compare(&b).is_le() { a } else { b }),
        Function::Max => Ok(if a.compare(&b).is_le() { b } else { a }),
        Function::Concat => Ok(Cow::Owned(concat(alloc, n, text_of(&a), text_of(&b))?)),
        Function::Add => Ok(Cow::Owned(add_entry(alloc, n, entries_of(&a), number_of(&b))?)),
        Function::Has => Ok(Cow::Owned(Value::Bool(has(entries_of(&a), number_of(&b))))),
        _ => Ok(Cow::Owned(Value::Int(0))),
    }
}
