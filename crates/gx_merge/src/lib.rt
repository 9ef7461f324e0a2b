//! Merges of the values of a column: which kinds each takes, and which kind it gives.
//!
//! The crate depends on `gx_rows` for kinds. The type checker asks it about kinds.
#![tactic(auto)]

mod merge_kind;

pub use merge_kind::MergeKind;
