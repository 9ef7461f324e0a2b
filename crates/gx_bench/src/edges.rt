//! The calls of edge partitions.

ghost use Rattle.std.specs.Prelude.{◌≡◌, ◌<◌, ◌^◌, IfOk, vec_len};

use crate::kept::keep;
use crate::shape::{Shape, number_of, raised};
use crate::totals::Totals;
use gx_epart::EPart;
use gx_rows::{NoMemory, PartStop, Row, Vid};
use std::alloc::Global;

/// A call of edge partitions.
#[derive(Clone, Copy)]
pub enum EdgeCall {
    /// A copy of the edges, which `FromEdges` makes too, before the call.
    Copy,
    /// `EPart::from_edges`, of edges in scattered order.
    FromEdges,
    /// `map`, adding 1 to the last value.
    Map,
    /// `filter`, by even numbers.
    Filter,
    /// `reverse`.
    Reverse,
    /// `ends`.
    Ends,
}

impl EdgeCall {
    /// The call of this name.
    pub fn of_word(word: &str) -> Option<EdgeCall> {
        match word {
            "copy_edges" => Some(EdgeCall::Copy),
            "from_edges" => Some(EdgeCall::FromEdges),
            "map_edges" => Some(EdgeCall::Map),
            "filter_edges" => Some(EdgeCall::Filter),
            "reverse" => Some(EdgeCall::Reverse),
            "ends" => Some(EdgeCall::Ends),
            _ => None,
        }
    }

    /// Makes the call `rounds` times on `count` edges, and keeps each result to the end. The totals
    /// are those of the last result, or of the edges if there is none.
    ///
    /// # Errors
    ///
    /// `NoMemory`. The closures of the calls have no fault.
    pub fn measure(
        self,
        alloc: Global,
        shape: Shape,
        count: u32,
        rounds: u32,
    ) -> Result<Totals, PartStop> {
        let given = edges(alloc, shape, count)?;
        match self {
            EdgeCall::Copy => measure_copy(alloc, given.as_slice(), rounds),
            EdgeCall::FromEdges => measure_from_edges(alloc, given.as_slice(), rounds),
            EdgeCall::Ends => measure_ends(alloc, &partition_of(alloc, given)?, rounds),
            _ => self.measure_call(alloc, &partition_of(alloc, given)?, rounds),
        }
    }

    fn measure_call(self, alloc: Global, all: &EPart, rounds: u32) -> Result<Totals, PartStop> {
        let mut results = Vec::new(alloc);
        for _ in 0..rounds {
            keep(&mut results, self.result(all)?)?;
        }
        Ok(totals_of(results.last().unwrap_or(all)))
    }

    fn result(self, all: &EPart) -> Result<EPart, PartStop> {
        match self {
            EdgeCall::Map => all.map(|_, _, row| Ok(raised(row, 1)?)),
            EdgeCall::Filter => all.filter(|_, _, row| Ok(number_of(row) & 1 == 0)),
            _ => Ok(all.reverse()?),
        }
    }
}

// `count` edges in scattered order between a quarter as many vertices. The edge of number `i` has
// the row of `i`.
fn edges(alloc: Global, shape: Shape, count: u32) -> Result<Vec<(Vid, Vid, Row)>, NoMemory> {
    let vertices = (count / 4).max(1);
    let mut edges = Vec::with_capacity(alloc, count as usize)?;
    for i in 0..count {
        let src = i.wrapping_mul(7919) % vertices;
        let dst = i.wrapping_mul(6007).wrapping_add(i / vertices) % vertices;
        let row = shape.row(alloc, i64::from(i))?;
        edges.push((Vid(i64::from(src)), Vid(i64::from(dst)), row))?;
    }
    Ok(edges)
}

fn copies(alloc: Global, edges: &[(Vid, Vid, Row)]) -> Result<Vec<(Vid, Vid, Row)>, NoMemory> {
    Ok(Vec::from_clones(alloc, edges)?)
}

fn partition_of(alloc: Global, edges: Vec<(Vid, Vid, Row)>) -> Result<EPart, NoMemory> {
    if edges.len() > u32::MAX as usize {
        return Err(NoMemory);
    }
    EPart::from_edges(alloc, edges)
}

fn measure_copy(alloc: Global, given: &[(Vid, Vid, Row)], rounds: u32) -> Result<Totals, PartStop> {
    for _ in 0..rounds {
        let _ = copies(alloc, given)?;
    }
    Ok(totals_of_edges(given))
}

fn measure_from_edges(
    alloc: Global,
    given: &[(Vid, Vid, Row)],
    rounds: u32,
) -> Result<Totals, PartStop> {
    let mut results = Vec::new(alloc);
    for _ in 0..rounds {
        keep(&mut results, partition_of(alloc, copies(alloc, given)?)?)?;
    }
    match results.last() {
        Some(part) => Ok(totals_of(part)),
        None => Ok(totals_of_edges(given)),
    }
}

// The totals are those of the ends: their identifiers.
fn measure_ends(alloc: Global, all: &EPart, rounds: u32) -> Result<Totals, PartStop> {
    let mut results = Vec::new(alloc);
    for _ in 0..rounds {
        keep(&mut results, all.ends()?)?;
    }
    let mut totals = Totals::none();
    if let Some(ends) = results.last() {
        for v in ends.ids() {
            totals = totals.with(v.0);
        }
    }
    Ok(totals)
}

fn totals_of(part: &EPart) -> Totals {
    let mut totals = Totals::none();
    for i in 0..part.len() {
        let (src, dst, row) = part.edge(i);
        totals = totals.with(number_of_edge(src, dst, row));
    }
    totals
}

fn totals_of_edges(edges: &[(Vid, Vid, Row)]) -> Totals {
    let mut totals = Totals::none();
    for (src, dst, row) in edges {
        totals = totals.with(number_of_edge(*src, *dst, row));
    }
    totals
}

fn number_of_edge(src: Vid, dst: Vid, row: &Row) -> i64 {
    src.0
        .wrapping_mul(2)
        .wrapping_add(dst.0)
        .wrapping_add(number_of(row))
}
