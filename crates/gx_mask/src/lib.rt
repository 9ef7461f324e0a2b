//! Masks: which indices of a list are chosen.
//!
//! Contracts see a mask as a list of bools, one for each index. It is stored in `u64`s, so that
//! masks are combined, counted and searched 64 bits at a time. The crate depends on `gx_rows` for
//! `NoMemory` alone; partitions of vertices and of edges are built on it. It never sees the list
//! whose indices it chooses.
#![tactic(auto)]

mod mask;

pub use mask::Mask;
