//! Expressions that are checked one after the other.

ghost use Rattle.std.specs.Prelude.{◌≡◌, [], ◌∷◌, ◌++◌, ◌+◌, ◌<◌, ◌^◌, All, IfOk, OnOk, map, sum};
ghost use Rattle.gx_syntax_tree.specs.Bounds.{node_count};
ghost use Rattle.gx_types_clauses.specs.ClauseBounds.{HasShortTexts};
ghost use Rattle.gx_types_clauses.specs.StmtStops.{StmtReturns, StmtReturnsAs};
ghost use Rattle.gx_types_clauses.specs.ValueTyping as typing;
ghost use Rattle.gx_types_exprs.specs.ExprScopes.{scope_names};

use crate::StmtStop;
use gx_expr::Expr;
use gx_rows::{NoMemory, ValueKind};
use gx_syntax_tree::{ColumnExpr, Expr as Written};
use gx_types_exprs::{ExprScope, TypedExpr, type_expr};
use sqlite_items::Items;
use std::alloc::Global;

/// Expressions that were checked one after the other.
#[derive(Drop)]
pub(crate) struct TypedValues {
    /// Their trees.
    pub(crate) exprs: Items<Expr>,
    /// Their kinds.
    pub(crate) kinds: Items<ValueKind>,
    /// The number after those of their nodes.
    pub(crate) next: u32,
}

impl TypedValues {
    /// No expression, before the node of this number.
    fn new(alloc: Global, next: u32) -> TypedValues
        ensures trees { result.exprs ≡ [] }
        ensures kinds { result.kinds ≡ [] }
        ensures next { result.next ≡ next }
    {
        TypedValues {
            exprs: Items::new(alloc),
            kinds: Items::new(alloc),
            next,
        }
    }

    // Adds an expression.
    fn push(&mut self, value: TypedExpr) -> Result<(), NoMemory>
        ensures trees { OnOk result (self.new.exprs ≡ self.old.exprs ++ value.expr ∷ []) }
        ensures kinds { OnOk result (self.new.kinds ≡ self.old.kinds ++ value.kind ∷ []) }
        ensures next { OnOk result (self.new.next ≡ value.next) }
    {
        self.kinds.push(value.kind)?;
        self.exprs.push(value.expr)?;
        self.next = value.next;
        Ok(())
    }
}

/// Checks the values of a message in order, and numbers their nodes from `first` on.
///
/// # Errors
///
/// The first check that fails; a depth of more than 64; `NoMemory` if memory runs out.
pub(crate) fn type_values(
    alloc: Global,
    values: &Items<Written>,
    scope: &ExprScope<'_>,
    first: u32,
) -> Result<TypedValues, StmtStop>
    requires few_nodes { first + sum (map node_count values.now) < 2 ^ 32 }
    requires short_texts { All HasShortTexts values.now }
    ensures typed { StmtReturnsAs typing.values_record result
        (typing.typed_values (scope_names scope.now) first values.now) }
    ensures counted { IfOk result (λ t. t.next ≡ first + sum (map node_count values.now)) }
{
    let mut typed = TypedValues::new(alloc, first);
    'values: for value in values.as_slice() {
        let next = typed.next;
        typed.push(type_expr(alloc, value, scope, next)?)?;
    }
    Ok(typed)
}

/// Checks the expressions of columns in order, and numbers their nodes from 0 on.
///
/// # Errors
///
/// As those of `type_values`.
pub(crate) fn type_column_values(
    alloc: Global,
    sets: &Items<ColumnExpr>,
    scope: &ExprScope<'_>,
) -> Result<TypedValues, StmtStop>
    requires few_nodes { sum (map node_count (typing.column_values sets.now)) < 2 ^ 32 }
    requires short_texts { All HasShortTexts (typing.column_values sets.now) }
    ensures typed { StmtReturnsAs typing.values_record result
        (typing.typed_values (scope_names scope.now) 0 (typing.column_values sets.now)) }
{
    let mut typed = TypedValues::new(alloc, 0);
    'sets: for set in sets.as_slice() {
        let next = typed.next;
        typed.push(type_expr(alloc, &set.value, scope, next)?)?;
    }
    Ok(typed)
}
