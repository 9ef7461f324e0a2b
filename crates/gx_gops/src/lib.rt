//! Kernels of graphs on one partition: each makes one partition from others.
//!
//! Contracts see partitions as lists, as `gx_vpart` and `gx_epart` do, and say of a kernel which
//! list it makes (`specs/`). `add_missing` makes the vertices of a partition complete, so that each
//! end of an edge is one; `move_edges` gathers the edges that a cut places in a partition;
//! `table_of_lent` makes a table of lent rows in any order. The crate depends on `gx_rows`,
//! `gx_cuts`, `gx_index`, `gx_chunks`, `gx_vpart` and `gx_epart`; the engine that computes the
//! partitions of a graph is built on it. It never sees a script, a plan or a file.
//!
//! Each kernel has a file of its own; a further one is a file beside them.
#![tactic(auto)]

mod all_edges;
mod lent_rows;
mod lists;
mod missing_ends;
mod moved_edges;

pub use lent_rows::table_of_lent;
pub use missing_ends::add_missing;
pub use moved_edges::move_edges;
