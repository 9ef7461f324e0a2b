//! From edges to numbers, and to the order of edges.

ghost use Rattle.std.specs.Prelude.{◌≡◌, ◌<◌, ◌^◌, All, IfOk, IsPermutation, IsSorted, Some, length, map, slice_get, true, vec_len};
ghost use Rattle.gx_rows.specs.Order.{edge_cmp};
ghost use Rattle.gx_index.specs.Ends.{IsSetOf};
ghost use Rattle.gx_index.specs.Ids.{IsAscending, has_id};
ghost use Rattle.gx_epart.specs.Edges.{IsEdgeOrderOf, edges_lent, sources_and_destinations};
ghost use Rattle.gx_epart.specs.Numbers.{HasEndsOf, HasIds, HasKnownEnds, destinations_from, edge_of_numbers, ends_of_numbers, locals_of};

use crate::EPart;
use crate::local_edge::LocalEdge;
use gx_index::{Index, distinct_ids};
use gx_rows::{NoMemory, Row, Vid};
use std::alloc::Global;
use std::rc::Rc;

/// The distinct ends of edges in ascending order. `destinations` are those of the edges. If sources
/// and destinations ascend, each is looked at once and nothing is sorted.
pub fn index_of_ends(
    alloc: Global,
    edges: &[(Vid, Vid, &Row)],
    destinations: &[(Vid, u32)],
) -> Result<Index, NoMemory>
    requires { IsPermutation (destinations_from 0 (edges_lent edges.now)) destinations.now }
    ensures exact { IfOk result (IsSetOf (sources_and_destinations (edges_lent edges.now))) }
    ensures all_ends { IfOk result (λ ends. All (HasKnownEnds ends) (edges_lent edges.now)) }
{
    let ids = ids_of_ends(alloc, edges, destinations)?;
    let ids = distinct_ids(alloc, ids.as_slice())?;
    if ids.len() > u32::MAX as usize {
        return Err(NoMemory);
    }
    Index::from_vec(alloc, ids)
}

// The sources, and after them the destinations, each once in a run of equal ones.
fn ids_of_ends(
    alloc: Global,
    edges: &[(Vid, Vid, &Row)],
    destinations: &[(Vid, u32)],
) -> Result<Vec<Vid>, NoMemory>
    requires { IsPermutation (destinations_from 0 (edges_lent edges.now)) destinations.now }
    ensures { IfOk result (λ ids. HasEndsOf (edges_lent edges.now) ids.items) }
{
    let mut ids = sources_of(alloc, edges)?;
    ids.dedup();
    let mut others = ids_of(alloc, destinations)?;
    others.dedup();
    ids.extend_from_slice(others.as_slice())?;
    Ok(ids)
}

fn sources_of(alloc: Global, edges: &[(Vid, Vid, &Row)]) -> Result<Vec<Vid>, NoMemory>
    ensures { IfOk result (λ ids. ids.items ≡ map (λ e. e.0) (edges_lent edges.now)) }
{
    let mut ids = Vec::with_capacity(alloc, edges.len())?;
    let mut rest = edges;
    while let [edge, after @ ..] = rest {
        ids.push(edge.0)?;
        rest = after;
    }
    Ok(ids)
}

fn ids_of(alloc: Global, destinations: &[(Vid, u32)]) -> Result<Vec<Vid>, NoMemory>
    ensures { IfOk result (λ ids. ids.items ≡ map (λ d. d.0) destinations.now) }
{
    Ok(destinations.iter().map(|d| d.0).collect(alloc)?)
}

/// The number of `v`. The identifiers from the number `from` on are looked at one by one, so that
/// identifiers that ascend are numbered in one pass over the ends.
pub fn number_from(ends: &Index, from: u32, v: Vid) -> u32
    requires { has_id v ends.now ≡ true }
    ensures { slice_get ends.now result ≡ Some v }
{
    let mut number = from;
    while number < ends.len() {
        let id = ends.id_at(number);
        if id == v {
            return number;
        }
        if v < id {
            break;
        }
        number += 1;
    }
    number_of(ends, v)
}

fn number_of(ends: &Index, v: Vid) -> u32
    requires { has_id v ends.now ≡ true }
    ensures { slice_get ends.now result ≡ Some v }
{
    match ends.find(v) {
        Some(number) => number,
        None => unreachable!(),
    }
}

/// The partition of edges that have numbers, which are in any order.
pub fn sort_numbered(
    alloc: Global,
    ends: Rc<Index>,
    mut numbered: Vec<(u32, u32, Row)>,
) -> Result<EPart, NoMemory>
    requires few { vec_len numbered < 2 ^ 32 }
    requires ascending { IsAscending ends.value }
    requires in_range { All (HasIds ends.value) numbered.items }
    requires exact { IsSetOf (ends_of_numbers ends.value numbered.items) ends.value }
    ensures { IfOk result (IsEdgeOrderOf (map (edge_of_numbers ends.value) numbered.items)) }
{
    numbered.sort_unstable();
    pack(alloc, ends, numbered)
}

/// The partition of edges that have numbers, which are in edge order.
pub fn pack(
    alloc: Global,
    ends: Rc<Index>,
    numbered: Vec<(u32, u32, Row)>,
) -> Result<EPart, NoMemory>
    requires few { vec_len numbered < 2 ^ 32 }
    requires ascending { IsAscending ends.value }
    requires in_range { All (HasIds ends.value) numbered.items }
    requires exact { IsSetOf (ends_of_numbers ends.value numbered.items) ends.value }
    requires sorted { IsSorted edge_cmp (map (edge_of_numbers ends.value) numbered.items) }
    ensures { IfOk result (λ part. part ≡ map (edge_of_numbers ends.value) numbered.items) }
{
    let (edges, rows) = split(alloc, numbered)?;
    let rows = Rc::new(alloc, rows)?;
    EPart::of_locals(alloc, ends, edges.as_slice(), rows)
}

// The rows in the same order, and each edge with the position of its row.
fn split(
    alloc: Global,
    numbered: Vec<(u32, u32, Row)>,
) -> Result<(Vec<LocalEdge>, Vec<Row>), NoMemory>
    requires { vec_len numbered < 2 ^ 32 }
    ensures edges { IfOk result (λ both. both.0.items ≡ locals_of numbered.items) }
    ensures rows { IfOk result (λ both. both.1.items ≡ map (λ e. e.2) numbered.items) }
{
    let mut edges = Vec::with_capacity(alloc, numbered.len())?;
    let mut rows = Vec::with_capacity(alloc, numbered.len())?;
    for (src, dst, row) in numbered {
        let position = rows.len() as u32;
        edges.push(LocalEdge {
            src,
            dst,
            row: position,
        })?;
        rows.push(row)?;
    }
    Ok((edges, rows))
}
