//! Kernels of vertex tables: what the table statements do on one partition.
//!
//! A kernel makes one `VPart` from those that it is given. Contracts see each as a list of
//! identifiers with rows, identifiers ascending, and a kernel as a list operator: each vertex gets
//! the row that expressions make at it (`specs/NewRows.antt`), and if one has no value there, the
//! fault is that of the first such vertex (`specs/Kernels.antt`). The crate depends on `gx_rows`,
//! `gx_expr` and `gx_vpart`, and for its proofs on `gx_traverse`. It never sees a script, a plan, a
//! file or the other partitions of a table.
#![tactic(auto)]

mod join_scope;
mod joins;
mod maps;
mod new_row;
mod vertex_scope;

pub use joins::{table_inner, table_left};
pub use maps::{table_filter, table_map};
