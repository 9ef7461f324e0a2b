//! The calls of vertex partitions.

use crate::kept::keep;
use crate::shape::{Shape, number_of, raised};
use crate::totals::Totals;
use crate::vertices::{copies, partition, partition_of, vertices};
use gx_rows::{PartStop, Row, Vid};
use gx_vpart::VPart;
use std::alloc::Global;

/// A call of vertex partitions, with the partitions that it is given.
#[derive(Clone, Copy)]
pub enum TableCall {
    /// A copy of the vertices, which `Of` makes too, before the call.
    Copy,
    /// `VPart::of`, of vertices in scattered order.
    Of,
    /// `map`, adding 1 to the last value.
    Map,
    /// `filter`, by even numbers.
    Filter,
    /// `inner_join` with a partition that shares the index.
    JoinShared,
    /// `inner_join` with one that has every second identifier, and an index of its own.
    Join,
    /// `left_join` with the same.
    LeftJoin,
    /// `minus` by the same.
    Minus,
    /// `diff` with one that shares the index, and has every second row changed.
    Diff,
    /// A walk over `rows`.
    Rows,
    /// A `left_join` that changes one row in 10,000 and copies the others.
    StepFew,
    /// A `left_join` that changes each row.
    StepAll,
}

impl TableCall {
    /// The call of this name.
    pub fn of_word(word: &str) -> Option<TableCall> {
        match word {
            "copy" => Some(TableCall::Copy),
            "of" => Some(TableCall::Of),
            "map" => Some(TableCall::Map),
            "filter" => Some(TableCall::Filter),
            "join_shared" => Some(TableCall::JoinShared),
            "join" => Some(TableCall::Join),
            "left_join" => Some(TableCall::LeftJoin),
            "minus" => Some(TableCall::Minus),
            "diff" => Some(TableCall::Diff),
            "rows" => Some(TableCall::Rows),
            "step_few" => Some(TableCall::StepFew),
            "step_all" => Some(TableCall::StepAll),
            _ => None,
        }
    }

    /// Makes the call `rounds` times on `count` vertices, and keeps each result to the end. The
    /// totals are those of the last result, or of the vertices if there is none; of `rows`, those of
    /// all walks.
    ///
    /// # Errors
    ///
    /// `NoMemory`. The closures of the calls have no fault.
    pub fn measure(
        self,
        alloc: Global,
        shape: Shape,
        count: u32,
        rounds: u32,
    ) -> Result<Totals, PartStop> {
        match self {
            TableCall::Copy => measure_copy(alloc, shape, count, rounds),
            TableCall::Of => measure_of(alloc, shape, count, rounds),
            TableCall::Rows => measure_rows(alloc, shape, count, rounds),
            _ => self.measure_call(alloc, shape, count, rounds),
        }
    }

    fn measure_call(
        self,
        alloc: Global,
        shape: Shape,
        count: u32,
        rounds: u32,
    ) -> Result<Totals, PartStop> {
        let all = partition(alloc, shape, count, 1)?;
        let other = self.other(alloc, shape, count, &all)?;
        let mut results = Vec::new(alloc);
        for _ in 0..rounds {
            keep(&mut results, self.result(&all, &other)?)?;
        }
        Ok(totals_of_last(results.as_slice(), &all))
    }

    // The partition that the call is given beside all vertices; an empty one if it takes none.
    fn other(
        self,
        alloc: Global,
        shape: Shape,
        count: u32,
        all: &VPart,
    ) -> Result<VPart, PartStop> {
        match self {
            TableCall::JoinShared => all.map(|_, row| Ok(raised(row, 1)?)),
            TableCall::Diff => all.map(|v, row| Ok(raised(row, (v.0 & 1) ^ 1)?)),
            TableCall::Join | TableCall::LeftJoin | TableCall::Minus => {
                Ok(partition(alloc, shape, count, 2)?)
            }
            TableCall::StepFew => Ok(partition(alloc, shape, count.div_ceil(10_000), 10_000)?),
            TableCall::StepAll => Ok(partition(alloc, shape, count, 1)?),
            _ => Ok(partition(alloc, shape, 0, 1)?),
        }
    }

    fn result(self, all: &VPart, other: &VPart) -> Result<VPart, PartStop> {
        match self {
            TableCall::Map => all.map(|_, row| Ok(raised(row, 1)?)),
            TableCall::Filter => all.filter(|_, row| Ok(number_of(row) & 1 == 0)),
            TableCall::Minus => Ok(all.minus(other)?),
            TableCall::Diff => Ok(all.diff(other)?),
            _ => self.joined(all, other),
        }
    }

    fn joined(self, all: &VPart, other: &VPart) -> Result<VPart, PartStop> {
        match self {
            TableCall::LeftJoin => all.left_join(other, |_, row, beside| {
                Ok(raised(row, beside.map_or(0, number_of))?)
            }),
            TableCall::StepFew | TableCall::StepAll => {
                all.left_join(other, |_, row, beside| match beside {
                    Some(new) => Ok(raised(new, 1)?),
                    None => Ok(row.copy()?),
                })
            }
            _ => all.inner_join(other, |_, row, beside| Ok(raised(row, number_of(beside))?)),
        }
    }
}

fn measure_copy(alloc: Global, shape: Shape, count: u32, rounds: u32) -> Result<Totals, PartStop> {
    let given = vertices(alloc, shape, count, 1)?;
    for _ in 0..rounds {
        let _ = copies(alloc, given.as_slice())?;
    }
    Ok(totals_of_vertices(given.as_slice()))
}

fn measure_of(alloc: Global, shape: Shape, count: u32, rounds: u32) -> Result<Totals, PartStop> {
    let given = vertices(alloc, shape, count, 1)?;
    let mut results = Vec::new(alloc);
    for _ in 0..rounds {
        let part = partition_of(alloc, copies(alloc, given.as_slice())?)?;
        keep(&mut results, part)?;
    }
    match results.last() {
        Some(part) => Ok(totals_after(Totals::none(), part)),
        None => Ok(totals_of_vertices(given.as_slice())),
    }
}

fn measure_rows(alloc: Global, shape: Shape, count: u32, rounds: u32) -> Result<Totals, PartStop> {
    let all = partition(alloc, shape, count, 1)?;
    let mut totals = Totals::none();
    for _ in 0..rounds {
        totals = totals_after(totals, &all);
    }
    Ok(totals)
}

fn totals_of_last(parts: &[VPart], all: &VPart) -> Totals {
    totals_after(Totals::none(), parts.last().unwrap_or(all))
}

fn totals_after(before: Totals, part: &VPart) -> Totals {
    let mut totals = before;
    for (v, row) in part.rows() {
        totals = totals.with(v.0.wrapping_add(number_of(row)));
    }
    totals
}

fn totals_of_vertices(rows: &[(Vid, Row)]) -> Totals {
    let mut totals = Totals::none();
    for (v, row) in rows {
        totals = totals.with(v.0.wrapping_add(number_of(row)));
    }
    totals
}
