//! Kernels on two tables.

ghost use Rattle.std.specs.Prelude.{◌≡◌, IfOk};
ghost use Rattle.std.specs.Map.{keys_of};
ghost use Rattle.std.specs.Option.{option_copied};
ghost use Rattle.gx_expr.specs.Evaluates.{EvaluatesTo};
ghost use Rattle.gx_vpart.specs.Operators.{ids_of_join, inner_join, left_join};
ghost use Rattle.gx_vtable.specs.Kernels.{MakesRows};
ghost use Rattle.gx_vtable.specs.NewRows.{inner_row, join_id, left_row};

use crate::join_scope::JoinScope;
use crate::new_row::new_row;
use gx_expr::Expr;
use gx_rows::{EvalStop, PartStop, Row, Vid};
use gx_vpart::VPart;
use std::alloc::Global;

/// The vertices that are in both tables, each with a new row: the values of `sets`, which read the
/// row of `table` as `v` and that of `other` as `o`. The index of `table` is shared.
///
/// # Errors
///
/// The fault of the least vertex that has one, exactly if there is one, with the cause and the
/// number of its first expression without a value; `NoMemory`.
pub fn table_inner(
    alloc: Global,
    table: &VPart,
    other: &VPart,
    sets: &[Expr],
) -> Result<VPart, PartStop>
    ensures exact { MakesRows join_id (inner_row sets.now) (inner_join table.now other.now) result }
    ensures ids_of_both { IfOk result
        (λ new. keys_of new ≡ ids_of_join (inner_join table.now other.now)) }
{
    table.inner_join(
        other,
        |id, row, beside| inner_row(alloc, sets, id, row, beside),
    )
}

/// The vertices of `table`, each with a new row: the values of `sets`, which read the row of
/// `table` as `v`, that of `other` as `o`, or `default` if `other` does not have the vertex, and as
/// `matched` whether it has. The index of `table` is shared.
///
/// # Errors
///
/// The fault of the least vertex that has one, exactly if there is one, with the cause and the
/// number of its first expression without a value; `NoMemory`.
pub fn table_left(
    alloc: Global,
    table: &VPart,
    other: &VPart,
    default: &Row,
    sets: &[Expr],
) -> Result<VPart, PartStop>
    ensures exact { MakesRows join_id (left_row sets.now default.now)
        (left_join table.now other.now) result }
    ensures ids_kept { IfOk result (λ new. keys_of new ≡ keys_of table.now) }
{
    table.left_join(
        other,
        |id, row, beside| left_row(alloc, sets, default, id, row, beside),
    )
}

fn inner_row(alloc: Global, sets: &[Expr], id: Vid, row: &Row, other: &Row) -> Result<Row, EvalStop>
    ensures { EvaluatesTo result (inner_row sets.now (id, row.now, other.now)) }
{
    let scope = JoinScope {
        id,
        row,
        other,
        matched: true,
    };
    new_row(alloc, sets, &scope)
}

fn left_row(
    alloc: Global,
    sets: &[Expr],
    default: &Row,
    id: Vid,
    row: &Row,
    other: Option<&Row>,
) -> Result<Row, EvalStop>
    ensures { EvaluatesTo result
        (left_row sets.now default.now (id, row.now, option_copied other.entry)) }
{
    let scope = JoinScope {
        id,
        row,
        other: other.unwrap_or(default),
        matched: other.is_some(),
    };
    new_row(alloc, sets, &scope)
}
