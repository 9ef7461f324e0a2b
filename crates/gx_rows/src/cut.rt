//! The strategies that place edges. Where each places an edge is defined in `gx_cuts`; here are
//! their names alone, so that what names one does not depend on its arithmetic.

/// The strategy that places edges in partitions. The first four are those of GraphX's
/// `PartitionStrategy`: `EdgePartition1D`, `EdgePartition2D`, `RandomVertexCut` and
/// `CanonicalRandomVertexCut`.
#[derive(Clone, Copy, Debug, PartialEq, Eq)]
pub enum Cut {
    /// By the source: the edges that leave a vertex are together.
    OneD,
    /// By source and destination on a square grid: the edges at a vertex are in one row and one
    /// column of the grid.
    TwoD,
    /// By source and destination: the edges from one vertex to another are together.
    Random,
    /// By the two ends in ascending order: the edges between two vertices are together, in both
    /// directions.
    Canonical,
    /// By the position of the edge in its file.
    Rows,
}
