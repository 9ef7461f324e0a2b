//! Vertex partitions: the vertices of one partition of a graph or table, each with its row.
//!
//! Contracts see a partition as a list of identifiers with rows, identifiers ascending. It keeps an
//! index of the identifiers, rows by slot and a mask of the slots that count; the index and the rows
//! are shared between partitions, so that what drops rows copies none. The operators are those of
//! lists (`specs/Operators.antt`); a closure is applied as `gx_traverse` says. The crate depends on
//! `gx_rows`, `gx_mask`, `gx_index`, `gx_chunks` and `gx_traverse`; kernels over tables are built on
//! it. It never sees edges, expressions or other partitions of the same table.
#![tactic(auto)]

mod beside;
mod columns;
mod joins;
mod peekable_rows;
mod slots;
mod traverse;
mod vpart;
mod vrows;

pub use vpart::VPart;
pub use vrows::VRows;
