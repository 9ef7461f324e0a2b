//! Edge partitions.

ghost use Rattle.std.specs.Prelude.{◌≡◌, ◌<◌, ◌^◌, IfOk, IsPermutation, IsSorted, Some, length, slice_get, vec_len};
ghost use Rattle.gx_rows.specs.Order.{edge_cmp};
ghost use Rattle.gx_index.specs.Ends.{IsEndsOf, IsSetOf};
ghost use Rattle.gx_epart.specs.Numbers.{HasEdges, edges_of_locals};
ghost use Rattle.gx_epart.specs.Edges.{IsEdgeOrderOf, edges_lent, ends_of_edges, reversed_edges, sources_and_destinations};

use crate::copies::{lent, local_edges, row_copies, sorted_destinations};
use crate::local_edge::LocalEdge;
use crate::local_edges::LocalEdges;
use crate::numbering::index_of_ends;
use crate::traverse::turned;
use gx_index::{Ends, Index};
use gx_rows::{NoMemory, Row, Vid};
use std::alloc::Global;
use std::marker::Model;
use std::rc::Rc;

/// The edges of one partition. Contracts see them as the list of (source, destination, values of
/// the row), sorted by source, destination and row, with equal edges repeated; it has fewer than
/// 2^32 items.
#[derive(Drop)]
pub struct EPart {
    // Those of these edges and no other; an end's number is its slot.
    pub(crate) ends: Ends,
    // In edge order. Rows may be in another order, and some may be the row of no edge.
    pub(crate) edges: LocalEdges,
    pub(crate) rows: Rc<Vec<Row>>,
}

impl Model for EPart {
    ghost use Rattle.std.specs.Prelude.{List};
    ghost use Rattle.std.specs.Map.{keys_of};
    ghost use Rattle.gx_rows.specs.Order.{Edge};
    ghost use Rattle.gx_epart.specs.Numbers.{HasEnds, edges_of_locals};

    ghost Value = { List Edge };

    ghost view = { λ p. edges_of_locals (keys_of p.ends) p.rows.value.items p.edges };

    ghost invariant = { λ p. HasEnds p.ends p.rows.value.items p.edges };
}

impl EPart {
    /// The partition of these edges, which are in any order and may repeat.
    ///
    /// # Errors
    ///
    /// `NoMemory` if memory for the partition runs out, or if the edges have 2^32 ends or more.
    pub fn from_edges(alloc: Global, edges: Vec<(Vid, Vid, Row)>) -> Result<EPart, NoMemory>
        requires few { vec_len edges < 2 ^ 32 }
        ensures sorted { IfOk result (IsSorted edge_cmp) }
        ensures same { IfOk result (IsPermutation edges.items) }
    {
        EPart::from_lent(alloc, lent(alloc, edges.as_slice())?)
    }

    /// The partition of these edges, which are in any order and may repeat, with a copy of each row.
    ///
    /// # Errors
    ///
    /// `NoMemory` if memory for the partition runs out, or if the edges have 2^32 ends or more.
    pub fn from_lent(alloc: Global, mut edges: Vec<(Vid, Vid, &Row)>) -> Result<EPart, NoMemory>
        requires { vec_len edges < 2 ^ 32 }
        ensures { IfOk result (IsEdgeOrderOf (edges_lent edges.entry.items)) }
    {
        // References are sorted, and each row is copied to where it is kept.
        edges.sort_unstable();
        let ordered = edges.as_slice();
        let destinations = sorted_destinations(alloc, ordered)?;
        let ends = index_of_ends(alloc, ordered, destinations.as_slice())?;
        let locals = local_edges(alloc, &ends, ordered, destinations)?;
        let rows = Rc::new(alloc, row_copies(alloc, ordered)?)?;
        EPart::of_locals(alloc, Rc::new(alloc, ends)?, locals.as_slice(), rows)
    }

    /// The number of edges.
    pub fn len(&self) -> u32
        ensures count { result ≡ length self.now }
        ensures fits_u32 { length self.now < 2 ^ 32 }
        ensures sorted { IsSorted edge_cmp self.now }
    {
        self.edges.len()
    }

    /// Source, destination and row of the edge at position `i`. It takes no memory.
    pub fn edge(&self, i: u32) -> (Vid, Vid, &Row)
        requires { i < length self.now }
        ensures { slice_get self.now i ≡ Some (result.0, result.1, result.2.now) }
    {
        let edge = self.edges.get(i);
        let ids = self.ends.ids();
        let src = ids[edge.src as usize];
        let dst = ids[edge.dst as usize];
        (src, dst, &self.rows[edge.row as usize])
    }

    /// The ends of the edges, with the sides on which each is one. They are shared.
    ///
    /// # Errors
    ///
    /// `NoMemory` if no further share of the ends can be counted.
    pub fn ends(&self) -> Result<Ends, NoMemory>
        ensures { IfOk result (IsEndsOf (ends_of_edges self.now)) }
    {
        self.ends.share()
    }

    /// The distinct ends of the edges in ascending order, borrowed. It takes no memory.
    pub fn distinct_ends(&self) -> &[Vid]
        ensures { IsSetOf (sources_and_destinations self.now) result.now }
    {
        self.ends.ids()
    }

    /// Each edge with source and destination exchanged. The rows are shared.
    ///
    /// # Errors
    ///
    /// `NoMemory` if memory for the numbers of the edges runs out, or if no further share of the
    /// ends or rows can be counted.
    pub fn reverse(&self) -> Result<EPart, NoMemory>
        ensures { IfOk result (IsEdgeOrderOf (reversed_edges self.now)) }
    {
        let alloc = self.edges.alloc();
        let index = self.ends.index().clone()?;
        let rows = self.rows.clone()?;
        let locals = self.edges.to_vec()?;
        let mut edges = turned(alloc, locals.as_slice())?;
        // A stable sort: parallel edges stay in the order of their rows.
        edges.sort_by_key(|e| (e.src, e.dst))?;
        EPart::of_locals(alloc, index, edges.as_slice(), rows)
    }

    // The partition of edges by numbers, which are in edge order. All identifiers are ends of them.
    pub(crate) fn of_locals(
        alloc: Global,
        ids: Rc<Index>,
        edges: &[LocalEdge],
        rows: Rc<Vec<Row>>,
    ) -> Result<EPart, NoMemory>
        requires { HasEdges ids.value rows.value.items edges.now }
        ensures { IfOk result (λ part. part
            ≡ edges_of_locals ids.value rows.value.items edges.now) }
    {
        let edges = LocalEdges::of(alloc, edges)?;
        let ends = Ends::of_slots(alloc, ids, edges.srcs(), edges.dsts())?;
        Ok(EPart { ends, edges, rows })
    }
}
