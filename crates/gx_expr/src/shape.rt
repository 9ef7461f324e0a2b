//! Shapes: expressions in the form in which a kernel evaluates them on many rows.
//!
//! Most expressions of scripts are a column, one operator on columns and constants, or a comparison
//! of two such. A shape is made once, and then finds these numbers without a walk over the tree.
//! Where something that it reads is no number, and in all other expressions, it evaluates the tree,
//! so its results are those of the tree in every scope.
//!
//! A new form has its line in `specs/Shapes.antt` (`form_result`), its arm in `form_of` and
//! `Shape::eval`, and a lemma in `proofs/FormLemmas.antt`.

ghost use Rattle.std.specs.Prelude.{◌≡◌, ◌<◌, ◌^◌, IfOk, length, true};
ghost use Rattle.gx_expr.specs.Evaluates.{EvaluatesTo};
ghost use Rattle.gx_expr.specs.Evaluation.{eval_result, is_comparison, truth_result};
ghost use Rattle.gx_expr.specs.Shapes.{AgreesWith, IsFormOf, comparison_result};
ghost use Rattle.gx_expr.specs.Soundness.{HasItsKind, IsBoundedResult};
ghost use Rattle.gx_expr.specs.declared.expr.Expr.TheVariants as expr;

use crate::evaluate::{eval, truth};
use crate::expr::Expr;
use crate::operations::compares;
use crate::operators::BinaryOp;
use crate::scope::Scope;
use crate::term::Term;
use gx_rows::{EvalStop, NoMemory, Value};
use sqlite_items::Boxed;
use std::alloc::Global;
use std::marker::Model;

#[derive(Clone, Copy)]
enum Form {
    Term(Term),
    Comparison(BinaryOp, Term, Term),
    Tree,
}

/// An expression that is evaluated on many rows. Contracts see it as that expression. It borrows
/// the expression and takes no memory.
#[derive(Drop)]
pub struct Shape<'a> {
    expr: &'a Expr,
    form: Form,
}

impl<'a> Model for Shape<'a> {
    ghost use Rattle.gx_expr.specs.declared.expr.Expr.{Expr as Tree};
    ghost use Rattle.gx_expr.specs.Shapes.{IsFormOf};
    ghost use Rattle.gx_expr.specs.contracts.expr.Expr as coded_expr;
    ghost use Rattle.std.specs.Coded.{codes};

    ghost Value = { Tree };

    ghost view = { λ s. s.expr.now };

    ghost coded = { Prim.hlevel (codes, coded_expr.the_row.coded) };

    ghost invariant = { λ s. IsFormOf s.form s.expr.now };
}

impl<'a> Shape<'a> {
    /// The shape of an expression.
    pub fn of(expr: &'a Expr) -> Shape<'a>
        ensures { result ≡ expr.now }
    {
        let form = form_of(expr);
        Shape { expr, form }
    }

    /// The value of the expression, as `eval` gives it.
    ///
    /// # Errors
    ///
    /// As those of `eval`.
    #[tactic(auto, using(crate::proofs::Results::evaluated))]
    pub fn eval<S: Scope>(&self, alloc: Global, scope: &S) -> Result<Value, EvalStop>
        ensures defined { EvaluatesTo result (eval_result (S.values scope.now) self.now) }
        ensures kind { IfOk result (HasItsKind (S.values scope.now) self.now) }
        ensures bounded { IfOk result (IsBoundedResult (S.values scope.now) self.now) }
    {
        match self.form {
            Form::Term(term) => {
                if let Some(number) = term.number(scope)? {
                    return Ok(Value::Int(number));
                }
            }
            Form::Comparison(operator, a, b) => {
                if let Some(truth) = comparison(operator, a, b, scope)? {
                    return Ok(Value::Bool(truth));
                }
            }
            Form::Tree => {}
        }
        eval(alloc, self.expr, scope)
    }

    /// Whether the expression, as a condition, holds, as `truth` gives it.
    ///
    /// # Errors
    ///
    /// As those of `truth`.
    pub fn truth<S: Scope>(&self, alloc: Global, scope: &S) -> Result<bool, EvalStop>
        ensures { EvaluatesTo result (truth_result (S.values scope.now) self.now) }
    {
        if let Form::Comparison(operator, a, b) = self.form {
            if let Some(truth) = comparison(operator, a, b, scope)? {
                return Ok(truth);
            }
        }
        truth(alloc, self.expr, scope)
    }
}

// Whether a comparison holds of two terms; `Ok(None)` exactly if a leaf is no number.
fn comparison<S: Scope>(
    operator: BinaryOp,
    a: Term,
    b: Term,
    scope: &S,
) -> Result<Option<bool>, EvalStop>
    ensures { AgreesWith result (comparison_result (S.values scope.now) operator a b) }
{
    let Some(a) = a.number(scope)? else {
        return Ok(None);
    };
    let Some(b) = b.number(scope)? else {
        return Ok(None);
    };
    Ok(Some(compares(operator, a.cmp(&b))))
}

// The form of an expression.
fn form_of(e: &Expr) -> Form
    ensures { IsFormOf result e.now }
{
    if let Some(term) = Term::of(e) {
        return Form::Term(term);
    }
    match e {
        Expr::Binary(n, operator, a, b) if operator.is_comparison() => {
            comparison_of(*n, *operator, a, b)
        }
        _ => Form::Tree,
    }
}

// The form of a comparison at node `n`.
fn comparison_of(n: u32, operator: BinaryOp, a: &Boxed<Expr>, b: &Boxed<Expr>) -> Form
    requires { is_comparison operator ≡ true }
    ensures { IsFormOf result (expr.Binary n operator a.now b.now) }
{
    let Some(left) = Term::of(a.get()) else {
        return Form::Tree;
    };
    let Some(right) = Term::of(b.get()) else {
        return Form::Tree;
    };
    Form::Comparison(operator, left, right)
}
