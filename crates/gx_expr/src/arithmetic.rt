//! Operators on numbers.

ghost use Rattle.std.specs.Prelude.{◌≡◌, ◌-ℤ◌, ◌+ℤ◌, ◌*ℤ◌, neg_ℤ, pos};
ghost use Rattle.std.specs.Option.{ok_or};
ghost use Rattle.gx_rows.specs.declared.cause.Cause.TheVariants as cause;
ghost use Rattle.gx_expr.specs.Evaluates.{EvaluatesTo};
ghost use Rattle.gx_expr.specs.Evaluation.{
  arithmetic_result,
  at_node,
  exact_int,
  absolute,
  quotient,
  remainder,
};

use crate::operators::BinaryOp;
use gx_rows::{Cause, EvalStop};

// The number, or an overflow at node `n`.
fn or_overflow(n: u32, number: Option<i64>) -> Result<i64, EvalStop>
    ensures { EvaluatesTo result (at_node n (ok_or number cause.Overflow)) }
{
    match number {
        Some(number) => Ok(number),
        None => Err(EvalStop::Fault {
            cause: Cause::Overflow,
            expr: n,
        }),
    }
}

#[tactic(auto, using(crate::proofs::Numbers::checked))]
fn sum(n: u32, a: i64, b: i64) -> Result<i64, EvalStop>
    ensures { EvaluatesTo result (at_node n (exact_int (a +ℤ b))) }
{
    or_overflow(n, a.checked_add(b))
}

#[tactic(auto, using(crate::proofs::Numbers::checked))]
fn difference(n: u32, a: i64, b: i64) -> Result<i64, EvalStop>
    ensures { EvaluatesTo result (at_node n (exact_int (a -ℤ b))) }
{
    or_overflow(n, a.checked_sub(b))
}

#[tactic(auto, using(crate::proofs::Numbers::checked))]
fn product(n: u32, a: i64, b: i64) -> Result<i64, EvalStop>
    ensures { EvaluatesTo result (at_node n (exact_int (a *ℤ b))) }
{
    or_overflow(n, a.checked_mul(b))
}

#[tactic(auto, using(crate::proofs::Numbers::checked))]
fn quotient_of(n: u32, a: i64, b: i64) -> Result<i64, EvalStop>
    ensures { EvaluatesTo result (at_node n (quotient a b)) }
{
    if b == 0 {
        return Err(EvalStop::Fault {
            cause: Cause::DivideByZero,
            expr: n,
        });
    }
    or_overflow(n, a.checked_div(b))
}

fn remainder_of(n: u32, a: i64, b: i64) -> Result<i64, EvalStop>
    ensures { EvaluatesTo result (at_node n (remainder a b)) }
{
    if b == 0 {
        return Err(EvalStop::Fault {
            cause: Cause::DivideByZero,
            expr: n,
        });
    }
    Ok(a.wrapping_rem(b))
}

/// The number that an operator on numbers gives, at node `n`. Other operators give 0.
///
/// # Errors
///
/// `Overflow` if the exact number leaves 64 bits, and `DivideByZero`.
pub(crate) fn arithmetic(n: u32, operator: BinaryOp, a: i64, b: i64) -> Result<i64, EvalStop>
    ensures { EvaluatesTo result (at_node n (arithmetic_result operator a b)) }
{
    match operator {
        BinaryOp::Add => sum(n, a, b),
        BinaryOp::Sub => difference(n, a, b),
        BinaryOp::Mul => product(n, a, b),
        BinaryOp::Div => quotient_of(n, a, b),
        BinaryOp::Rem => remainder_of(n, a, b),
        _ => Ok(0),
    }
}

/// The number with the other sign.
///
/// # Errors
///
/// `Overflow` for the least number.
#[tactic(auto, using(crate::proofs::Numbers::checked))]
pub(crate) fn negated(n: u32, a: i64) -> Result<i64, EvalStop>
    ensures { EvaluatesTo result (at_node n (exact_int (neg_ℤ a))) }
{
    or_overflow(n, a.checked_neg())
}

/// The number without its sign.
///
/// # Errors
///
/// `Overflow` for the least number.
#[tactic(auto, using(crate::proofs::Numbers::checked))]
pub(crate) fn magnitude_of(n: u32, a: i64) -> Result<i64, EvalStop>
    ensures { EvaluatesTo result (at_node n (exact_int (absolute a))) }
{
    or_overflow(n, a.checked_abs())
}

/// A length as a number.
///
/// # Errors
///
/// `Overflow` if 64 bits do not have it; no text and no list is that long.
#[tactic(auto, using(crate::proofs::Numbers::checked))]
pub(crate) fn length_as_int(n: u32, len: usize) -> Result<i64, EvalStop>
    ensures { EvaluatesTo result (at_node n (exact_int (pos len))) }
{
    or_overflow(n, i64::try_from(len).ok())
}
