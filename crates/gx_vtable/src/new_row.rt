//! The row that expressions make in a scope.

ghost use Rattle.gx_expr.specs.Evaluates.{EvaluatesTo};
ghost use Rattle.gx_expr.specs.Evaluation.{row_result};

use gx_expr::{Expr, Scope, eval_row};
use gx_rows::{EvalStop, Row};
use std::alloc::Global;

/// The row of the values of `sets`, in order.
///
/// # Errors
///
/// The fault of the first expression that has one; `NoMemory`, also if there are 2^32 expressions
/// or more.
pub(crate) fn new_row<S: Scope>(alloc: Global, sets: &[Expr], scope: &S) -> Result<Row, EvalStop>
    ensures { EvaluatesTo result (row_result (S.values scope.now) sets.now) }
{
    if sets.len() > u32::MAX as usize {
        return Err(EvalStop::NoMemory);
    }
    eval_row(alloc, sets, scope)
}
