//! Rows of values: what a kernel makes of its expressions on one row.

ghost use Rattle.std.specs.Prelude.{◌<◌, ◌^◌, length};
ghost use Rattle.gx_expr.specs.Evaluates.{EvaluatesTo};
ghost use Rattle.gx_expr.specs.Evaluation.{row_result};

use crate::evaluate::eval;
use crate::expr::Expr;
use crate::scope::Scope;
use gx_rows::{EvalStop, NoMemory, Row};
use std::alloc::Global;

// The row of these values, whatever their number.
fn long_row<S: Scope>(alloc: Global, exprs: &[Expr], scope: &S) -> Result<Row, EvalStop>
    requires { length exprs.now < 2 ^ 32 }
    ensures { EvaluatesTo result (row_result (S.values scope.now) exprs.now) }
{
    let mut values = Vec::with_capacity(alloc, exprs.len()).map_err(|_| NoMemory)?;
    for e in exprs.iter() {
        let value = eval(alloc, e, scope)?;
        values.push(value).map_err(|_| NoMemory)?;
    }
    Ok(Row::of(values))
}

/// The row of the values of these expressions, in order. A row of one or two values takes no
/// memory of its own.
///
/// # Errors
///
/// The fault of the first expression that has one; `NoMemory`.
pub fn eval_row<S: Scope>(alloc: Global, exprs: &[Expr], scope: &S) -> Result<Row, EvalStop>
    requires { length exprs.now < 2 ^ 32 }
    ensures { EvaluatesTo result (row_result (S.values scope.now) exprs.now) }
{
    match exprs {
        [e] => Ok(Row::one(eval(alloc, e, scope)?)),
        [first, second] => {
            let first = eval(alloc, first, scope)?;
            Ok(Row::two(first, eval(alloc, second, scope)?))
        }
        _ => long_row(alloc, exprs, scope),
    }
}
