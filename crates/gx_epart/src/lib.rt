//! Edge partitions: the edges of one partition of a graph, each with its row.
//!
//! Contracts see a partition as a list of edges (source, destination, values of the row), sorted by
//! source, destination and row, with equal edges repeated. It keeps the ends with their sides, and the
//! edges in columns of numbers: positions among the ends, and among the rows. Rows are shared between
//! partitions, so `reverse` and `filter` copy none. The operators are
//! those of lists (`specs/Edges.antt`); a closure is applied as `gx_traverse` says. The crate depends
//! on `gx_rows`, `gx_index` and `gx_traverse`; kernels over edges and triplets are built on it. It
//! never sees rows of vertices, expressions or other partitions of the same graph.
#![tactic(auto)]

mod copies;
mod epart;
mod kept_ends;
mod laws;
mod local_edge;
mod local_edges;
mod numbering;
mod traverse;

pub use epart::EPart;
pub use laws::edge_order_is_unique;
