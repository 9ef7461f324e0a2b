//! Edges by numbers.

/// An edge of a partition, by numbers.
#[derive(Clone, Copy, Debug, PartialEq, Eq)]
pub struct LocalEdge {
    /// The position of the source among the ends of the partition.
    pub src: u32,
    /// The position of the destination there.
    pub dst: u32,
    /// The position of the row among the rows of the partition.
    pub row: u32,
}
