//! Columns that are computed.

ghost use Rattle.std.specs.Prelude.{◌≡◌, ◌<◌, ◌≤◌, ◌^◌, IfOk, length, map, vec_len, zip};
ghost use Rattle.gx_types_clauses.specs.ClauseBounds.{AreTypableSets};
ghost use Rattle.gx_types_clauses.specs.StmtStops.{StmtReturns};
ghost use Rattle.gx_types_clauses.specs.ValueTyping as typing;
ghost use Rattle.gx_types_exprs.specs.ExprScopes.{scope_names};

use crate::values::type_column_values;
use crate::{SharedType, StmtStop};
use gx_expr::Expr;
use gx_rows::{NoMemory, Text, ValueKind};
use gx_syntax_tree::ColumnExpr;
use gx_types_exprs::ExprScope;
use sqlite_items::Items;
use std::alloc::Global;

/// Columns that are computed, checked.
#[derive(Drop)]
pub struct TypedSets {
    /// Their expressions.
    pub exprs: Items<Expr>,
    /// Their names and kinds.
    pub columns: SharedType,
}

/// Checks columns that are computed, and numbers the nodes of their expressions from 0 on.
///
/// # Errors
///
/// The first check that fails; a depth of more than 64; `NoMemory` if memory runs out.
#[tactic(auto, using(crate::proofs::ColumnNames::columns_distinct))]
pub fn type_sets(
    alloc: Global,
    sets: &Items<ColumnExpr>,
    scope: &ExprScope<'_>,
) -> Result<TypedSets, StmtStop>
    requires { AreTypableSets sets.now }
    ensures { StmtReturns result (typing.typed_sets (scope_names scope.now) sets.now) }
{
    let values = type_column_values(alloc, sets, scope)?;
    let columns = set_columns(alloc, sets, &values.kinds)?;
    let columns = SharedType::of(alloc, columns)?;
    Ok(TypedSets {
        exprs: values.exprs,
        columns,
    })
}

// The columns of these names and kinds.
fn set_columns(
    alloc: Global,
    sets: &Items<ColumnExpr>,
    kinds: &Items<ValueKind>,
) -> Result<Vec<(Text, ValueKind)>, NoMemory>
    ensures { IfOk result (λ columns.
        columns.items ≡ zip (map (λ s. s.name) sets.now) kinds.now) }
{
    let mut columns = Vec::new(alloc);
    'sets: for (set, kind) in sets.as_slice().iter().zip(kinds.as_slice()) {
        columns.push((set.name.copy()?, *kind))?;
    }
    Ok(columns)
}
