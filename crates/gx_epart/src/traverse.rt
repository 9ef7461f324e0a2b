//! The calls that apply a closure to each edge, and what they make of its values.

ghost use Rattle.std.specs.Prelude.{◌≡◌, ◌<◌, ◌^◌, All, IfOk, length, map, vec_len};
ghost use Rattle.gx_traverse.specs.Calls.{MayCallAtEdge, ReturnsAtEdge};
ghost use Rattle.gx_traverse.specs.Traversal.{IsTraversal};
ghost use Rattle.gx_epart.specs.Edges.{IsEdgeOrderOf, edges_kept, edges_with_rows, key_of_edge};
ghost use Rattle.gx_epart.specs.Numbers.{numbers_with_rows, reversed_local};

use crate::EPart;
use crate::kept_ends::number_anew;
use crate::local_edge::LocalEdge;
use crate::numbering::sort_numbered;
use gx_rows::{EvalStop, NoMemory, PartStop, Row, RowKey, Vid};
use gx_traverse::stop_at;
use std::alloc::Global;
use std::rc::Rc;

impl EPart {
    /// The same edges, each with the row that `f` returns for its source, destination and row. Rows
    /// of parallel edges are sorted again; the ends are shared.
    ///
    /// # Errors
    ///
    /// The fault of the first edge on which `f` has one, with that edge as its key. `NoMemory` if
    /// `f` returns it before that, or if memory for the key or the new edges runs out.
    pub fn map<F: Fn(Vid, Vid, &Row) -> Result<Row, EvalStop>>(
        &self,
        f: F,
    ) -> Result<EPart, PartStop>
        requires { All (MayCallAtEdge (F.pre f)) self.now }
        ensures { IsTraversal (ReturnsAtEdge (F.post f)) key_of_edge self.now
            (λ rows new. IsEdgeOrderOf (edges_with_rows self.now rows) new) result }
    {
        let rows = self.traverse(f)?;
        let new = self.with_rows(rows)?;
        Ok(new)
    }

    /// The edges for which `f` returns true. Ends and rows are shared.
    ///
    /// # Errors
    ///
    /// The fault of the first edge on which `f` has one, with that edge as its key. `NoMemory` if
    /// `f` returns it before that, or if memory for the key or the numbers of the edges runs out.
    pub fn filter<F: Fn(Vid, Vid, &Row) -> Result<bool, EvalStop>>(
        &self,
        f: F,
    ) -> Result<EPart, PartStop>
        requires { All (MayCallAtEdge (F.pre f)) self.now }
        ensures { IsTraversal (ReturnsAtEdge (F.post f)) key_of_edge self.now
            (λ keeps new. new ≡ edges_kept self.now keeps) result }
    {
        let keeps = self.traverse(f)?;
        let new = self.kept(keeps.as_slice())?;
        Ok(new)
    }

    // What `f` returns for each edge, in order.
    fn traverse<B: Drop, F: Fn(Vid, Vid, &Row) -> Result<B, EvalStop>>(
        &self,
        f: F,
    ) -> Result<Vec<B>, PartStop>
        requires { All (MayCallAtEdge (F.pre f)) self.now }
        ensures { IsTraversal (ReturnsAtEdge (F.post f)) key_of_edge self.now
            (λ ys values. values.items ≡ ys) result }
    {
        let mut values = Vec::new(self.edges.alloc());
        for i in 0..self.len() {
            let (src, dst, row) = self.edge(i);
            match f(src, dst, row) {
                Ok(value) => values.push(value).map_err(|_| NoMemory)?,
                Err(stop) => return Err(stop_at(RowKey::Edge(src, dst, row.copy()?), stop)),
            }
        }
        Ok(values)
    }

    // The same edges with new rows, one for each.
    fn with_rows(&self, rows: Vec<Row>) -> Result<EPart, NoMemory>
        requires { length rows.items ≡ length self.now }
        ensures { IfOk result (IsEdgeOrderOf (edges_with_rows self.now rows.items)) }
    {
        let alloc = self.edges.alloc();
        let locals = self.edges.to_vec()?;
        let numbered = numbers_with(alloc, locals.as_slice(), rows)?;
        sort_numbered(alloc, self.ends.index().clone()?, numbered)
    }

    // The ends are numbered anew, since some may be the end of no edge that is left.
    fn kept(&self, keeps: &[bool]) -> Result<EPart, NoMemory>
        ensures { IfOk result (λ new. new ≡ edges_kept self.now keeps.now) }
    {
        let alloc = self.edges.alloc();
        let rows = self.rows.clone()?;
        let locals = self.edges.to_vec()?;
        let edges = keep(alloc, locals.as_slice(), keeps)?;
        // The call takes no time; its clause says that the ends are fewer than 2^32.
        let _len = self.ends.len();
        let (ids, edges) = number_anew(alloc, self.ends.ids(), edges.as_slice())?;
        EPart::of_locals(alloc, Rc::new(alloc, ids)?, edges.as_slice(), rows)
    }
}

// The numbers of the ends of each edge, with its new row.
fn numbers_with(
    alloc: Global,
    edges: &[LocalEdge],
    rows: Vec<Row>,
) -> Result<Vec<(u32, u32, Row)>, NoMemory>
    ensures { IfOk result (λ es. es.items ≡ numbers_with_rows edges.now rows.items) }
{
    let mut numbered = Vec::with_capacity(alloc, edges.len())?;
    let mut rest = edges;
    for row in rows {
        let [edge, after @ ..] = rest else {
            return Ok(numbered);
        };
        numbered.push((edge.src, edge.dst, row))?;
        rest = after;
    }
    Ok(numbered)
}

// The edges whose bool is true.
fn keep(alloc: Global, edges: &[LocalEdge], keeps: &[bool]) -> Result<Vec<LocalEdge>, NoMemory>
    ensures { IfOk result (λ kept. kept.items ≡ edges_kept edges.now keeps.now) }
{
    let mut kept = Vec::new(alloc);
    let mut rest = edges;
    let mut bools = keeps;
    while let [edge, after @ ..] = rest {
        let [keep, others @ ..] = bools else {
            return Ok(kept);
        };
        if *keep {
            kept.push(*edge)?;
        }
        rest = after;
        bools = others;
    }
    Ok(kept)
}

/// Source and destination of each edge exchanged.
pub fn turned(alloc: Global, edges: &[LocalEdge]) -> Result<Vec<LocalEdge>, NoMemory>
    ensures { IfOk result (λ turned. turned.items ≡ map reversed_local edges.now) }
{
    let mut turned = Vec::with_capacity(alloc, edges.len())?;
    let mut rest = edges;
    while let [edge, after @ ..] = rest {
        turned.push(LocalEdge {
            src: edge.dst,
            dst: edge.src,
            row: edge.row,
        })?;
        rest = after;
    }
    Ok(turned)
}
