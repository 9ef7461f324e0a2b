//! Terms: a leaf, or one operator on two leaves.

ghost use Rattle.std.specs.Prelude.{◌≡◌, IfSome, true};
ghost use Rattle.gx_expr.specs.Evaluation.{is_arithmetic};
ghost use Rattle.gx_expr.specs.Shapes.{AgreesWith, IsTermOf, term_result};
ghost use Rattle.gx_expr.specs.declared.expr.Expr.TheVariants as expr;

use crate::arithmetic::arithmetic;
use crate::expr::Expr;
use crate::leaf::Leaf;
use crate::operators::BinaryOp;
use crate::scope::Scope;
use gx_rows::EvalStop;
use sqlite_items::Boxed;

/// A number that takes at most one operation.
#[derive(Clone, Copy)]
pub(crate) enum Term {
    Leaf(Leaf),
    /// The operation of this number in the statement, an operator on numbers, on two leaves.
    Arithmetic(u32, BinaryOp, Leaf, Leaf),
}

impl Term {
    /// The term that an expression is, if it is one and may be a number.
    pub(crate) fn of(e: &Expr) -> Option<Term>
        ensures { IfSome result (λ term. IsTermOf term e.now) }
    {
        if let Some(leaf) = Leaf::of(e) {
            return Some(Term::Leaf(leaf));
        }
        match e {
            Expr::Binary(n, operator, a, b) if operator.is_arithmetic() => {
                arithmetic_of(*n, *operator, a, b)
            }
            _ => None,
        }
    }

    /// The number of the term in a scope; `Ok(None)` exactly if a leaf is no number there.
    ///
    /// # Errors
    ///
    /// The fault of its operation.
    pub(crate) fn number<S: Scope>(self, scope: &S) -> Result<Option<i64>, EvalStop>
        ensures { AgreesWith result (term_result (S.values scope.now) self) }
    {
        match self {
            Term::Leaf(leaf) => Ok(leaf.number(scope)),
            Term::Arithmetic(n, operator, a, b) => {
                let Some(a) = a.number(scope) else {
                    return Ok(None);
                };
                let Some(b) = b.number(scope) else {
                    return Ok(None);
                };
                Ok(Some(arithmetic(n, operator, a, b)?))
            }
        }
    }
}

// The term of an operator on numbers, if its operands are leaves.
fn arithmetic_of(n: u32, operator: BinaryOp, a: &Boxed<Expr>, b: &Boxed<Expr>) -> Option<Term>
    requires { is_arithmetic operator ≡ true }
    ensures { IfSome result (λ term. IsTermOf term (expr.Binary n operator a.now b.now)) }
{
    let Some(left) = Leaf::of(a.get()) else {
        return None;
    };
    let Some(right) = Leaf::of(b.get()) else {
        return None;
    };
    Some(Term::Arithmetic(n, operator, left, right))
}
