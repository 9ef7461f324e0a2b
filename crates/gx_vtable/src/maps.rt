//! Kernels on one table.

ghost use Rattle.std.specs.Prelude.{◌≡◌, IfOk};
ghost use Rattle.std.specs.Map.{keys_of};
ghost use Rattle.gx_expr.specs.Evaluates.{EvaluatesTo};
ghost use Rattle.gx_vtable.specs.Kernels.{KeepsRows, MakesRows};
ghost use Rattle.gx_vtable.specs.NewRows.{mapped_row, test_result, vertex_id};

use crate::new_row::new_row;
use crate::vertex_scope::VertexScope;
use gx_expr::{Expr, truth};
use gx_rows::{EvalStop, PartStop, Row, Vid};
use gx_vpart::VPart;
use std::alloc::Global;

/// The table with a new row for each vertex: the values of `sets`, which read `v`. The index is
/// shared.
///
/// # Errors
///
/// The fault of the least vertex that has one, exactly if there is one, with the cause and the
/// number of its first expression without a value; `NoMemory`.
pub fn table_map(alloc: Global, table: &VPart, sets: &[Expr]) -> Result<VPart, PartStop>
    ensures exact { MakesRows vertex_id (mapped_row sets.now) table.now result }
    ensures ids_kept { IfOk result (λ new. keys_of new ≡ keys_of table.now) }
{
    table.map(|id, row| mapped_row(alloc, sets, id, row))
}

/// The vertices of the table of which `test`, which reads `v`, is true. The index and the rows are
/// shared.
///
/// # Errors
///
/// The fault of the least vertex that has one, exactly if there is one; `NoMemory`.
pub fn table_filter(alloc: Global, table: &VPart, test: &Expr) -> Result<VPart, PartStop>
    ensures exact { KeepsRows (test_result test.now) table.now result }
{
    table.filter(|id, row| holds(alloc, test, id, row))
}

fn mapped_row(alloc: Global, sets: &[Expr], id: Vid, row: &Row) -> Result<Row, EvalStop>
    ensures { EvaluatesTo result (mapped_row sets.now (id, row.now)) }
{
    new_row(alloc, sets, &VertexScope { id, row })
}

fn holds(alloc: Global, test: &Expr, id: Vid, row: &Row) -> Result<bool, EvalStop>
    ensures { EvaluatesTo result (test_result test.now (id, row.now)) }
{
    truth(alloc, test, &VertexScope { id, row })
}
