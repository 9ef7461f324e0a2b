//! The rows at given positions, lent.

ghost use Rattle.std.specs.Prelude.{◌≡◌, ◌∷◌, ◌++◌, IfOk, OnOk, [], map, slice_get};
ghost use Rattle.std.specs.Option.{option_copied};
ghost use Rattle.gx_epart.specs.Edges.{edges_lent};
ghost use Rattle.gx_exec_loads.specs.Filing.{items_at, vertex_of_row};
ghost use Rattle.gx_vpart.specs.LentRows.{vertices_lent};

use gx_rows::{NoMemory, Row, Vid};
use std::alloc::Global;

/// The identifier and the row of each row at these positions. The rows are lent.
pub(crate) fn vertices_at<'a>(
    alloc: Global,
    rows: &'a [(Vid, Vid, Row)],
    positions: &[u32],
) -> Result<Vec<(Vid, &'a Row)>, NoMemory>
    ensures { IfOk result (λ vs.
        vertices_lent vs.items ≡ map vertex_of_row (items_at rows.now positions.now)) }
{
    let mut vertices = Vec::with_capacity(alloc, positions.len())?;
    let mut rest = positions;
    while let [n, after @ ..] = rest {
        append_vertex(&mut vertices, rows, *n)?;
        rest = after;
    }
    Ok(vertices)
}

fn append_vertex<'a>(
    vertices: &mut Vec<(Vid, &'a Row)>,
    rows: &'a [(Vid, Vid, Row)],
    n: u32,
) -> Result<(), NoMemory>
    ensures { OnOk result (vertices_lent vertices.new.items
        ≡ vertices_lent vertices.old.items ++ map vertex_of_row (items_at rows.now (n ∷ []))) }
{
    match row_at(rows, n) {
        Some(row) => append(vertices, (row.0, &row.2)),
        None => Ok(()),
    }
}

/// Source, destination and row of each row at these positions. The rows are lent.
pub(crate) fn edges_at<'a>(
    alloc: Global,
    rows: &'a [(Vid, Vid, Row)],
    positions: &[u32],
) -> Result<Vec<(Vid, Vid, &'a Row)>, NoMemory>
    ensures { IfOk result (λ es. edges_lent es.items ≡ items_at rows.now positions.now) }
{
    let mut edges = Vec::with_capacity(alloc, positions.len())?;
    let mut rest = positions;
    while let [n, after @ ..] = rest {
        append_edge(&mut edges, rows, *n)?;
        rest = after;
    }
    Ok(edges)
}

fn append_edge<'a>(
    edges: &mut Vec<(Vid, Vid, &'a Row)>,
    rows: &'a [(Vid, Vid, Row)],
    n: u32,
) -> Result<(), NoMemory>
    ensures { OnOk result (edges_lent edges.new.items
        ≡ edges_lent edges.old.items ++ items_at rows.now (n ∷ [])) }
{
    match row_at(rows, n) {
        Some(row) => append(edges, (row.0, row.1, &row.2)),
        None => Ok(()),
    }
}

fn row_at(rows: &[(Vid, Vid, Row)], n: u32) -> Option<&(Vid, Vid, Row)>
    ensures { option_copied result ≡ slice_get rows.now n }
{
    rows.get(n as usize)
}

/// One more item.
pub(crate) fn append<T: Drop>(items: &mut Vec<T>, item: T) -> Result<(), NoMemory>
    ensures { OnOk result (items.new.items ≡ items.old.items ++ item ∷ []) }
{
    items.push(item)?;
    Ok(())
}
