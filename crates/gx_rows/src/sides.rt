//! Sides of edges.

/// Which sides of an edge are meant: those on which a vertex is, or those that an expression reads.
#[derive(Clone, Copy, Debug, PartialEq, Eq)]
pub struct Sides {
    /// The source.
    pub src: bool,
    /// The destination.
    pub dst: bool,
}
