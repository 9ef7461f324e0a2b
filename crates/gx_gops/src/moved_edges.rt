//! The edges that move to a partition.

ghost use Rattle.std.specs.Prelude.{◌≡◌, ◌≢◌, ◌<◌, IfOk};
ghost use Rattle.gx_rows.specs.declared.cut.Cut.TheVariants as cut_of;
ghost use Rattle.gx_epart.specs.Edges.{IsEdgeOrderOf, edges_lent};
ghost use Rattle.gx_gops.specs.AllEdges.{edges_of_parts};
ghost use Rattle.gx_gops.specs.Moving.{edges_placed_in as placed_edges, is_placed_in as is_placed};

use crate::all_edges::AllEdges;
use crate::lists::append;
use gx_cuts::place;
use gx_epart::EPart;
use gx_rows::{Cut, NoMemory, Row, Vid};
use std::alloc::Global;
use std::rc::Rc;

/// The edges of these partitions that the cut places in partition `part` of `parts`, whatever their
/// positions in a file. Each of their rows is copied once.
///
/// # Errors
///
/// `NoMemory` if memory for the edges runs out, or if there are 2^32 of them or more.
pub fn move_edges(
    alloc: Global,
    edges: &[Rc<EPart>],
    cut: Cut,
    part: u32,
    parts: u32,
) -> Result<EPart, NoMemory>
    requires by_ends { cut ≢ cut_of.Rows }
    requires in_range { part < parts }
    ensures { IfOk result
        (IsEdgeOrderOf (placed_edges cut part parts (edges_of_parts edges.now))) }
{
    let mut moved = edges_placed_in(alloc, edges, cut, part, parts)?;
    if moved.len() > u32::MAX as usize {
        return Err(NoMemory);
    }
    // The edges of each partition are in order, and a stable sort merges them. So the sort in
    // `from_lent` is one pass.
    moved.sort()?;
    EPart::from_lent(alloc, moved)
}

// The edges that the cut places in the partition, in their order, with their rows lent.
fn edges_placed_in<'a>(
    alloc: Global,
    edges: &'a [Rc<EPart>],
    cut: Cut,
    part: u32,
    parts: u32,
) -> Result<Vec<(Vid, Vid, &'a Row)>, NoMemory>
    requires { part < parts }
    ensures { IfOk result (λ placed. edges_lent placed.items
        ≡ placed_edges cut part parts (edges_of_parts edges.now)) }
{
    let mut placed = Vec::new(alloc);
    'edges: for (src, dst, row) in AllEdges::of(edges) {
        if is_placed_in(cut, part, parts, src, dst) {
            append(&mut placed, (src, dst, row))?;
        }
    }
    Ok(placed)
}

// Whether the cut places an edge in the partition. Only `Rows` looks at the ordinal, here 0.
fn is_placed_in(cut: Cut, part: u32, parts: u32, src: Vid, dst: Vid) -> bool
    requires { part < parts }
    ensures { result ≡ is_placed cut part parts src dst }
{
    place(cut, parts, src.0, dst.0, 0) == part
}
