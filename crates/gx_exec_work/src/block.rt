//! Blocks.

use gx_epart::EPart;
use gx_rows::{Cause, RowKey};
use gx_vpart::VPart;
use std::rc::Rc;

/// What a block holds.
#[derive(Drop)]
pub enum Block {
    /// A partition of vertices: of a table or of a graph.
    Table(Rc<VPart>),
    /// A partition of edges.
    Edges(Rc<EPart>),
    /// Nothing, since the block or one that it is computed from has a fault: the vertex or edge on
    /// which an expression has no value, the number of the node, and why.
    Stopped {
        key: RowKey,
        expr: u32,
        cause: Cause,
    },
}
