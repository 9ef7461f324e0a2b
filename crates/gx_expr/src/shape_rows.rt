//! Rows of the values of shapes: what a kernel makes of its expressions on many rows.

ghost use Rattle.std.specs.Prelude.{◌≡◌, ◌<◌, ◌^◌, IfOk, length};
ghost use Rattle.gx_expr.specs.Evaluates.{EvaluatesTo};
ghost use Rattle.gx_expr.specs.Evaluation.{row_result};

use crate::expr::Expr;
use crate::scope::Scope;
use crate::shape::Shape;
use gx_rows::{EvalStop, NoMemory, Row, append};
use std::alloc::Global;

/// The shapes of these expressions, in order.
///
/// # Errors
///
/// `NoMemory` if memory for the list runs out.
pub fn shapes_of(alloc: Global, exprs: &[Expr]) -> Result<Vec<Shape<'_>>, NoMemory>
    ensures { IfOk result (λ shapes. shapes.items ≡ exprs.now) }
{
    let mut shapes = Vec::with_capacity(alloc, exprs.len())?;
    'shapes: for expr in exprs.iter() {
        append(&mut shapes, Shape::of(expr))?;
    }
    Ok(shapes)
}

// The row of these values, whatever their number.
fn long_row<S: Scope>(alloc: Global, shapes: &[Shape<'_>], scope: &S) -> Result<Row, EvalStop>
    requires { length shapes.now < 2 ^ 32 }
    ensures { EvaluatesTo result (row_result (S.values scope.now) shapes.now) }
{
    let mut values = Vec::with_capacity(alloc, shapes.len()).map_err(|_| NoMemory)?;
    for e in shapes.iter() {
        let value = e.eval(alloc, scope)?;
        values.push(value).map_err(|_| NoMemory)?;
    }
    Ok(Row::of(values))
}

/// The row of the values of these shapes, in order, as `eval_row` gives it of their expressions.
///
/// # Errors
///
/// The fault of the first expression that has one; `NoMemory`.
pub fn eval_shapes<S: Scope>(
    alloc: Global,
    shapes: &[Shape<'_>],
    scope: &S,
) -> Result<Row, EvalStop>
    requires { length shapes.now < 2 ^ 32 }
    ensures { EvaluatesTo result (row_result (S.values scope.now) shapes.now) }
{
    match shapes {
        [e] => Ok(Row::one(e.eval(alloc, scope)?)),
        [first, second] => {
            let first = first.eval(alloc, scope)?;
            Ok(Row::two(first, second.eval(alloc, scope)?))
        }
        _ => long_row(alloc, shapes, scope),
    }
}
