//! Edges whose rows are lent, as numbers and as copies of the rows.

ghost use Rattle.std.specs.Prelude.{◌≡◌, ◌<◌, ◌++◌, ◌^◌, All, IfOk, IsPermutation, length, map};
ghost use Rattle.gx_epart.specs.Edges.{edges_lent};
ghost use Rattle.gx_epart.specs.Numbers.{HasDestinations, HasKnownEnds, IsInRange, destinations_from, edges_of_locals, rows_of};

use crate::local_edge::LocalEdge;
use crate::numbering::number_from;
use gx_index::Index;
use gx_rows::{NoMemory, Row, Vid};
use std::alloc::Global;

/// The same edges, with their rows lent.
pub fn lent(alloc: Global, edges: &[(Vid, Vid, Row)]) -> Result<Vec<(Vid, Vid, &Row)>, NoMemory>
    ensures { IfOk result (λ es. edges_lent es.items ≡ edges.now) }
{
    let mut lent = Vec::with_capacity(alloc, edges.len())?;
    let mut rest = edges;
    while let [edge, after @ ..] = rest {
        lent.push((edge.0, edge.1, &edge.2))?;
        rest = after;
    }
    Ok(lent)
}

/// A copy of the row of each edge. Texts and lists are shared.
pub fn row_copies(alloc: Global, edges: &[(Vid, Vid, &Row)]) -> Result<Vec<Row>, NoMemory>
    ensures { IfOk result (λ rows. rows.items ≡ rows_of (edges_lent edges.now)) }
{
    let mut rows = Vec::with_capacity(alloc, edges.len())?;
    let mut rest = edges;
    while let [edge, after @ ..] = rest {
        rows.push(edge.2.copy()?)?;
        rest = after;
    }
    Ok(rows)
}

/// The destination of each edge with its position, in ascending order of the destinations.
pub fn sorted_destinations(
    alloc: Global,
    edges: &[(Vid, Vid, &Row)],
) -> Result<Vec<(Vid, u32)>, NoMemory>
    requires { length edges.now < 2 ^ 32 }
    ensures { IfOk result (λ ds. IsPermutation (destinations_from 0 (edges_lent edges.now)) ds.items) }
{
    let mut destinations = destinations_of(alloc, edges)?;
    destinations.sort_unstable();
    Ok(destinations)
}

/// Each edge by the numbers of its ends and by its position, which is that of its row. The sources
/// and the destinations are best in ascending order.
pub fn local_edges(
    alloc: Global,
    ends: &Index,
    edges: &[(Vid, Vid, &Row)],
    destinations: Vec<(Vid, u32)>,
) -> Result<Vec<LocalEdge>, NoMemory>
    requires few { length edges.now < 2 ^ 32 }
    requires known { All (HasKnownEnds ends.now) (edges_lent edges.now) }
    requires all { IsPermutation (destinations_from 0 (edges_lent edges.now)) destinations.items }
    ensures edges { IfOk result (λ locals.
        edges_of_locals ends.now (rows_of (edges_lent edges.now)) locals.items ≡ edges_lent edges.now) }
    ensures in_range { IfOk result (λ locals.
        All (IsInRange ends.now (rows_of (edges_lent edges.now))) locals.items) }
{
    let destinations = destination_numbers(alloc, ends, edges, destinations)?;
    let mut locals = Vec::with_capacity(alloc, edges.len())?;
    let mut src = 0;
    for row in 0..edges.len() as u32 {
        src = number_from(ends, src, edges[row as usize].0);
        let dst = destinations[row as usize];
        locals.push(LocalEdge { src, dst, row })?;
    }
    Ok(locals)
}

// The number of the destination of each edge, found in the order of `destinations`.
fn destination_numbers(
    alloc: Global,
    ends: &Index,
    edges: &[(Vid, Vid, &Row)],
    destinations: Vec<(Vid, u32)>,
) -> Result<Vec<u32>, NoMemory>
    requires few { length edges.now < 2 ^ 32 }
    requires known { All (HasKnownEnds ends.now) (edges_lent edges.now) }
    requires all { IsPermutation (destinations_from 0 (edges_lent edges.now)) destinations.items }
    ensures { IfOk result (λ ns. HasDestinations ends.now (edges_lent edges.now) ns.items) }
{
    let mut numbers = vec![in alloc; 0u32; edges.len()]?;
    let mut number = 0;
    for (id, position) in destinations {
        number = number_from(ends, number, id);
        numbers[position as usize] = number;
    }
    Ok(numbers)
}

// The destination of each edge, with its position.
fn destinations_of(alloc: Global, edges: &[(Vid, Vid, &Row)]) -> Result<Vec<(Vid, u32)>, NoMemory>
    requires { length edges.now < 2 ^ 32 }
    ensures { IfOk result (λ ds. ds.items ≡ destinations_from 0 (edges_lent edges.now)) }
{
    let mut destinations = Vec::with_capacity(alloc, edges.len())?;
    let mut position = 0u32;
    let mut rest = edges;
    while let [edge, after @ ..] = rest {
        destinations.push((edge.1, position))?;
        position += 1;
        rest = after;
    }
    Ok(destinations)
}
