//! Immutable parts: a collection in numbered partitions.
//!
//! Contracts see `Parts` as the list of its parts. The parts are shared and never change. Each call
//! that computes makes new parts, one by one, with a closure that is given the number of the part
//! and the part. The crate depends on `gx_rows` for `NoMemory` alone. Partitions of vertices, edges
//! and views are stored in `Parts`; the crate never sees what is in them.
#![tactic(auto)]

mod parts;

pub use parts::Parts;
