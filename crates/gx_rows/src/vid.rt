//! Vertex identifiers.

/// The identifier of a vertex, any signed number of 64 bits.
#[derive(Clone, Copy, Debug, PartialEq, Eq, PartialOrd, Ord, Hash)]
pub struct Vid(pub i64);
