//! Edges by numbers, in columns.
//!
//! Kernels that walk the edges by source read the column of destinations alone. Most partitions keep
//! their rows in the order of the edges, and then no column says where the row of an edge is.

ghost use Rattle.std.specs.Prelude.{◌≡◌, ◌<◌, ◌^◌, IfOk, Some, length, map, slice_get, true};
ghost use Rattle.std.specs.List.{range_with_len};
ghost use Rattle.gx_epart.specs.Columns.{locals_of_columns, row_numbers};

use crate::local_edge::LocalEdge;
use gx_rows::NoMemory;
use std::alloc::Global;
use std::marker::Model;

/// Edges by numbers, fewer than 2^32. Contracts see their list.
#[derive(Drop)]
pub struct LocalEdges {
    srcs: Vec<u32>,
    dsts: Vec<u32>,
    // Where the row of each edge is. `None`: the edge at position `i` has the row at position `i`.
    at: Option<Vec<u32>>,
}

impl Model for LocalEdges {
    ghost use Rattle.std.specs.Prelude.{List, length};
    ghost use Rattle.gx_epart.specs.Columns.{HasColumns, locals_of_columns, row_numbers};
    ghost use Rattle.gx_epart.specs.declared.local_edge.LocalEdge.{LocalEdge as EdgeByNumbers};

    ghost Value = { List EdgeByNumbers };

    ghost view = { λ e. locals_of_columns e.srcs.items e.dsts.items
        (row_numbers e.at (length e.srcs.items)) };

    ghost invariant = { λ e. HasColumns e.srcs.items e.dsts.items
        (row_numbers e.at (length e.srcs.items)) };
}

impl LocalEdges {
    /// The same edges, in columns.
    ///
    /// # Errors
    ///
    /// `NoMemory` if memory for the columns runs out.
    pub fn of(alloc: Global, edges: &[LocalEdge]) -> Result<LocalEdges, NoMemory>
        requires { length edges.now < 2 ^ 32 }
        ensures { IfOk result (λ columns. columns ≡ edges.now) }
    {
        let srcs = sources_of(alloc, edges)?;
        let dsts = destinations_of(alloc, edges)?;
        if are_positions(edges) {
            return Ok(LocalEdges {
                srcs,
                dsts,
                at: None,
            });
        }
        let at = Some(rows_of(alloc, edges)?);
        Ok(LocalEdges { srcs, dsts, at })
    }

    /// The number of edges.
    pub fn len(&self) -> u32
        ensures count { result ≡ length self.now }
        ensures fits_u32 { length self.now < 2 ^ 32 }
    {
        self.srcs.len() as u32
    }

    /// The edge at position `i`.
    pub fn get(&self, i: u32) -> LocalEdge
        requires { i < length self.now }
        ensures { slice_get self.now i ≡ Some result }
    {
        let src = self.srcs[i as usize];
        let dst = self.dsts[i as usize];
        let row = match &self.at {
            Some(at) => at[i as usize],
            None => i,
        };
        LocalEdge { src, dst, row }
    }

    /// The edges, one after another.
    ///
    /// # Errors
    ///
    /// `NoMemory` if memory for the list runs out.
    pub fn to_vec(&self) -> Result<Vec<LocalEdge>, NoMemory>
        ensures { IfOk result (λ list. list.items ≡ self.now) }
    {
        let mut list = Vec::with_capacity(self.alloc(), self.srcs.len())?;
        for i in 0..self.len() {
            list.push(self.get(i))?;
        }
        Ok(list)
    }

    /// The number of the source of each edge, borrowed.
    pub fn srcs(&self) -> &[u32]
        ensures { result.now ≡ map (λ e. e.src) self.now }
    {
        self.srcs.as_slice()
    }

    /// The number of the destination of each edge, borrowed.
    pub fn dsts(&self) -> &[u32]
        ensures { result.now ≡ map (λ e. e.dst) self.now }
    {
        self.dsts.as_slice()
    }

    /// The allocator that further lists of these edges are made with.
    pub fn alloc(&self) -> Global {
        *self.srcs.allocator()
    }
}

fn sources_of(alloc: Global, edges: &[LocalEdge]) -> Result<Vec<u32>, NoMemory>
    ensures { IfOk result (λ srcs. srcs.items ≡ map (λ e. e.src) edges.now) }
{
    Ok(edges.iter().map(|e| e.src).collect(alloc)?)
}

fn destinations_of(alloc: Global, edges: &[LocalEdge]) -> Result<Vec<u32>, NoMemory>
    ensures { IfOk result (λ dsts. dsts.items ≡ map (λ e. e.dst) edges.now) }
{
    Ok(edges.iter().map(|e| e.dst).collect(alloc)?)
}

fn rows_of(alloc: Global, edges: &[LocalEdge]) -> Result<Vec<u32>, NoMemory>
    ensures { IfOk result (λ rows. rows.items ≡ map (λ e. e.row) edges.now) }
{
    Ok(edges.iter().map(|e| e.row).collect(alloc)?)
}

// Whether each edge has the row at its own position.
fn are_positions(edges: &[LocalEdge]) -> bool
    requires { length edges.now < 2 ^ 32 }
    ensures { result ≡ true
        → map (λ e. e.row) edges.now ≡ range_with_len 0 (length edges.now) }
{
    let mut position = 0u32;
    let mut rest = edges;
    while let [edge, after @ ..] = rest {
        if edge.row != position {
            return false;
        }
        position += 1;
        rest = after;
    }
    true
}
