//! Evaluation: one walk over the tree.

ghost use Rattle.std.specs.Prelude.{◌≡◌, IfOk};
ghost use Rattle.std.specs.Cow.{cow_value};
ghost use Rattle.std.specs.Option.{option_copied};
ghost use Rattle.gx_expr.specs.Evaluates.{EvaluatesTo, EvaluatesToCow};
ghost use Rattle.gx_expr.specs.Evaluation.{eval_result, id_value, int_of_value, number_result, truth_result, value_or_zero};
ghost use Rattle.gx_expr.specs.Soundness.{HasItsKind, IsBoundedResult};

use crate::arithmetic::arithmetic;
use crate::expr::Expr;
use crate::operations::{binary, call_none, call_one, call_two, decided_by_left, unary};
use crate::operators::Function;
use crate::projections::{number_of, truth_of};
use crate::scope::Scope;
use gx_rows::{EvalStop, Value, Vid};
use std::alloc::Global;
use std::borrow::Cow;

// A column, borrowed; 0 if the scope does not have it.
fn or_zero(value: Option<&Value>) -> Cow<'_, Value>
    ensures { cow_value result ≡ value_or_zero (option_copied value.entry) }
{
    match value {
        Some(value) => Cow::Borrowed(value),
        None => Cow::Owned(Value::Int(0)),
    }
}

// An identifier as a number; 0 if the scope does not have it.
fn id_as_value(id: Option<Vid>) -> Value
    ensures { result ≡ id_value id }
{
    match id {
        Some(id) => Value::Int(id.0),
        None => Value::Int(0),
    }
}

// The number of a column; 0 if the scope does not have it.
fn column_number(value: Option<&Value>) -> i64
    ensures { result ≡ int_of_value (value_or_zero (option_copied value.entry)) }
{
    match value {
        Some(value) => number_of(value),
        None => 0,
    }
}

// The number of an expression. Numbers are passed on as they are: no value is made of them on the
// way.
#[cycle(evaluation)]
#[tactic(auto, using(crate::proofs::Calls::eval_arithmetic))]
fn number<S: Scope>(alloc: Global, e: &Expr, scope: &S) -> Result<i64, EvalStop>
    ensures { EvaluatesTo result (number_result (S.values scope.now) e.now) }
{
    match e {
        Expr::Column(_, side, i) => Ok(column_number(scope.column(*side, *i))),
        Expr::Binary(n, operator, a, b) if operator.is_arithmetic() => {
            let a = number(alloc, a.get(), scope)?;
            let b = number(alloc, b.get(), scope)?;
            arithmetic(*n, *operator, a, b)
        }
        _ => {
            let value = operand(alloc, e, scope)?;
            Ok(number_of(&value))
        }
    }
}

// The value of an expression, borrowed if it is a constant or a column.
#[cycle(evaluation)]
#[tactic(auto, using(crate::proofs::Calls::eval_arithmetic))]
fn operand<'a, S: Scope>(
    alloc: Global,
    e: &'a Expr,
    scope: &'a S,
) -> Result<Cow<'a, Value>, EvalStop>
    ensures { EvaluatesToCow result (eval_result (S.values scope.now) e.now) }
{
    match e {
        Expr::Const(_, value) => Ok(Cow::Borrowed(value)),
        Expr::Column(_, side, i) => Ok(or_zero(scope.column(*side, *i))),
        Expr::Id(_, side) => Ok(Cow::Owned(id_as_value(scope.id(*side)))),
        Expr::Matched(_) => Ok(Cow::Owned(Value::Bool(scope.matched()))),
        Expr::Unary(n, operator, a) => {
            let a = operand(alloc, a.get(), scope)?;
            Ok(Cow::Owned(unary(*n, *operator, &a)?))
        }
        Expr::Binary(n, operator, a, b) if operator.is_arithmetic() => {
            let a = number(alloc, a.get(), scope)?;
            let b = number(alloc, b.get(), scope)?;
            Ok(Cow::Owned(Value::Int(arithmetic(*n, *operator, a, b)?)))
        }
        Expr::Binary(n, operator, a, b) => {
            let a = operand(alloc, a.get(), scope)?;
            if let Some(truth) = decided_by_left(*operator, truth_of(&a)) {
                return Ok(Cow::Owned(Value::Bool(truth)));
            }
            let b = operand(alloc, b.get(), scope)?;
            Ok(Cow::Owned(binary(*n, *operator, &a, &b)?))
        }
        Expr::Call(n, function, arguments) => match arguments.as_slice() {
            [] => Ok(Cow::Owned(call_none(alloc, *n, *function)?)),
            [a] => {
                let a = operand(alloc, a, scope)?;
                Ok(Cow::Owned(call_one(alloc, *n, *function, &a)?))
            }
            [a, b] => {
                let a = operand(alloc, a, scope)?;
                let b = operand(alloc, b, scope)?;
                call_two(alloc, *n, *function, a, b)
            }
            [condition, a, b] => match function {
                Function::If => {
                    let condition = operand(alloc, condition, scope)?;
                    if truth_of(&condition) {
                        operand(alloc, a, scope)
                    } else {
                        operand(alloc, b, scope)
                    }
                }
                _ => Ok(Cow::Owned(Value::Int(0))),
            },
            _ => Ok(Cow::Owned(Value::Int(0))),
        },
    }
}

// The value of an expression, owned.
fn owned_value<S: Scope>(alloc: Global, e: &Expr, scope: &S) -> Result<Value, EvalStop>
    ensures { EvaluatesTo result (eval_result (S.values scope.now) e.now) }
{
    match operand(alloc, e, scope)? {
        Cow::Borrowed(value) => Ok(value.copy()?),
        Cow::Owned(value) => Ok(value),
    }
}

/// The value of an expression. If it is a number or a truth value, this takes memory only for the
/// texts and lists that are made on the way to it.
///
/// A well-typed expression has a value of its kind; values of the scope and constants that are
/// within bounds give a value within bounds.
///
/// # Errors
///
/// The first fault in the order of evaluation, with its cause and the number of the operation that
/// faults; `NoMemory`.
#[tactic(auto, using(crate::proofs::Results::evaluated))]
pub fn eval<S: Scope>(alloc: Global, e: &Expr, scope: &S) -> Result<Value, EvalStop>
    ensures defined { EvaluatesTo result (eval_result (S.values scope.now) e.now) }
    ensures kind { IfOk result (HasItsKind (S.values scope.now) e.now) }
    ensures bounded { IfOk result (IsBoundedResult (S.values scope.now) e.now) }
{
    owned_value(alloc, e, scope)
}

/// Whether a condition holds: the truth of its value.
///
/// # Errors
///
/// As those of `eval`.
pub fn truth<S: Scope>(alloc: Global, e: &Expr, scope: &S) -> Result<bool, EvalStop>
    ensures { EvaluatesTo result (truth_result (S.values scope.now) e.now) }
{
    let value = operand(alloc, e, scope)?;
    Ok(truth_of(&value))
}
