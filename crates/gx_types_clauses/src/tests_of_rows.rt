//! Tests of rows and of edges: expressions that have to be truth values.

ghost use Rattle.std.specs.Prelude.{◌≡◌, ◌+◌, ◌<◌, ◌^◌, All, IfOk, map, sum};
ghost use Rattle.gx_syntax_tree.specs.Bounds.{exprs_if, node_count};
ghost use Rattle.gx_types_clauses.specs.ClauseBounds.{HasShortTexts};
ghost use Rattle.gx_types_clauses.specs.StmtStops.{StmtReturns};
ghost use Rattle.gx_types_clauses.specs.ValueTyping as typing;
ghost use Rattle.gx_types_exprs.specs.ExprScopes.{scope_names};

use crate::StmtStop;
use gx_expr::Expr;
use gx_syntax_tree::Expr as Written;
use gx_types_exprs::{ExprScope, TypedExpr, type_predicate};
use std::alloc::Global;

/// A test that was checked, if there is one.
#[derive(Drop)]
pub struct TypedTest {
    /// Its tree.
    pub test: Option<Expr>,
    /// The number after those of its nodes.
    pub next: u32,
}

/// Checks a test, if there is one, and numbers its nodes from `first` on.
///
/// # Errors
///
/// The first check that fails; a depth of more than 64; `NoMemory` if memory runs out.
pub fn type_test(
    alloc: Global,
    test: &Option<Written>,
    scope: &ExprScope<'_>,
    first: u32,
) -> Result<TypedTest, StmtStop>
    requires few_nodes { first + sum (map node_count (exprs_if test.now)) < 2 ^ 32 }
    requires short_texts { All HasShortTexts (exprs_if test.now) }
    ensures typed { StmtReturns result (typing.typed_test (scope_names scope.now) first test.now) }
    ensures counted { IfOk result
        (λ t. t.next ≡ first + sum (map node_count (exprs_if test.now))) }
{
    match test {
        Some(test) => {
            let typed = type_condition(alloc, test, scope, first)?;
            Ok(TypedTest {
                test: Some(typed.expr),
                next: typed.next,
            })
        }
        None => Ok(TypedTest {
            test: None,
            next: first,
        }),
    }
}

/// Checks a condition, and numbers its nodes from `first` on.
///
/// # Errors
///
/// As those of `type_test`.
pub fn type_condition(
    alloc: Global,
    condition: &Written,
    scope: &ExprScope<'_>,
    first: u32,
) -> Result<TypedExpr, StmtStop>
    requires few_nodes { first + node_count condition.now < 2 ^ 32 }
    requires short_texts { HasShortTexts condition.now }
    ensures typed { StmtReturns result
        (typing.typed_condition (scope_names scope.now) first condition.now) }
    ensures counted { IfOk result (λ t. t.next ≡ first + node_count condition.now) }
{
    Ok(type_predicate(alloc, condition, scope, first)?)
}
