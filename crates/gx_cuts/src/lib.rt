//! The partition of a vertex, and the partition of an edge under each cut.
//!
//! A partition is a number below the count of partitions, computed from identifiers of 64 bits or
//! from the position of an edge in its file. Contracts give each result by a definition over whole
//! numbers modulo 2^64. The crate depends on `gx_rows` for the names of the cuts alone; partitioned
//! vertices and edges are built on it. It never sees rows, files or the other edges.
#![tactic(auto)]

mod cut;
mod grid;
mod mixing;

pub use cut::place;
pub use grid::two_d_bound;
pub use mixing::{mix, vertex_part};
