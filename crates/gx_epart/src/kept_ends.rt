//! The ends of edges that are left, numbered anew.

ghost use Rattle.std.specs.Prelude.{◌≡◌, ◌<◌, ◌^◌, All, IfOk, length, map};
ghost use Rattle.gx_index.specs.Ids.{IsAscending};
ghost use Rattle.gx_index.specs.Sets.{masked_ids};
ghost use Rattle.gx_epart.specs.Renumbering.{HasNumbers, marked_by, numbers_anew, renumbered};

use crate::local_edge::LocalEdge;
use gx_index::Index;
use gx_rows::{NoMemory, Vid};
use std::alloc::Global;

/// The identifiers that are ends of these edges, and the edges by their numbers among these alone.
/// Each edge and each identifier is looked at once.
pub fn number_anew(
    alloc: Global,
    ids: &[Vid],
    edges: &[LocalEdge],
) -> Result<(Index, Vec<LocalEdge>), NoMemory>
    requires few { length ids.now < 2 ^ 32 }
    requires ascending { IsAscending ids.now }
    requires in_range { All (HasNumbers (length ids.now)) edges.now }
    ensures ids { IfOk result (λ new. new.0
        ≡ masked_ids (marked_by (length ids.now) edges.now) ids.now) }
    ensures edges { IfOk result (λ new. new.1.items
        ≡ map (renumbered (numbers_anew 0 (marked_by (length ids.now) edges.now))) edges.now) }
{
    let marks = marks_of(alloc, ids.len(), edges)?;
    let (left, numbers) = left_ids(alloc, ids, marks.as_slice())?;
    let edges = with_numbers(alloc, edges, numbers.as_slice())?;
    Ok((Index::from_vec(alloc, left)?, edges))
}

// By number, whether it is that of an end.
fn marks_of(alloc: Global, count: usize, edges: &[LocalEdge]) -> Result<Vec<bool>, NoMemory>
    requires { All (HasNumbers count) edges.now }
    ensures { IfOk result (λ marks. marks.items ≡ marked_by count edges.now) }
{
    let mut marks = vec![in alloc; false; count]?;
    let mut rest = edges;
    while let [edge, after @ ..] = rest {
        marks[edge.src as usize] = true;
        marks[edge.dst as usize] = true;
        rest = after;
    }
    Ok(marks)
}

// The identifiers with a mark, and by number how many of those before it have one.
fn left_ids(alloc: Global, ids: &[Vid], marks: &[bool]) -> Result<(Vec<Vid>, Vec<u32>), NoMemory>
    requires few { length ids.now < 2 ^ 32 }
    requires one_mark_each { length marks.now ≡ length ids.now }
    ensures ids { IfOk result (λ both. both.0.items ≡ masked_ids marks.now ids.now) }
    ensures numbers { IfOk result (λ both. both.1.items ≡ numbers_anew 0 marks.now) }
{
    let mut left = Vec::new(alloc);
    let mut numbers = Vec::with_capacity(alloc, ids.len())?;
    let mut rest = ids;
    let mut others = marks;
    while let [mark, after @ ..] = others {
        let [id, later @ ..] = rest else {
            return Ok((left, numbers));
        };
        numbers.push(left.len() as u32)?;
        if *mark {
            left.push(*id)?;
        }
        others = after;
        rest = later;
    }
    Ok((left, numbers))
}

// The edges by other numbers.
fn with_numbers(
    alloc: Global,
    edges: &[LocalEdge],
    numbers: &[u32],
) -> Result<Vec<LocalEdge>, NoMemory>
    requires { All (HasNumbers (length numbers.now)) edges.now }
    ensures { IfOk result (λ new. new.items ≡ map (renumbered numbers.now) edges.now) }
{
    let mut new = Vec::with_capacity(alloc, edges.len())?;
    for edge in edges {
        new.push(with_number(*edge, numbers))?;
    }
    Ok(new)
}

fn with_number(edge: LocalEdge, numbers: &[u32]) -> LocalEdge
    requires { HasNumbers (length numbers.now) edge }
    ensures { result ≡ renumbered numbers.now edge }
{
    LocalEdge {
        src: numbers[edge.src as usize],
        dst: numbers[edge.dst as usize],
        row: edge.row,
    }
}
