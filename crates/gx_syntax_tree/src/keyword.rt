//! The words that statements begin with, and the words after `print` and `count`, in the order of
//! the families of `Stmt`. Their spellings are known to the parser and the printer alone.

/// The word that a statement begins with.
#[derive(Clone, Copy)]
pub enum StmtKeyword {
    /// `vertices`
    Vertices,
    /// `edges`
    Edges,
    /// `edgelist`
    EdgeList,
    /// `graph`
    Graph,
    /// `fromedges`
    FromEdges,
    /// `reverse`
    Reverse,
    /// `mask`
    Mask,
    /// `subgraph`
    Subgraph,
    /// `groupedges`
    GroupEdges,
    /// `partition`
    Partition,
    /// `mapvertices`
    MapVertices,
    /// `mapedges`
    MapEdges,
    /// `maptriplets`
    MapTriplets,
    /// `joinvertices`
    JoinVertices,
    /// `outerjoin`
    OuterJoin,
    /// `aggregate`
    Aggregate,
    /// `indegrees`
    InDegrees,
    /// `outdegrees`
    OutDegrees,
    /// `degrees`
    Degrees,
    /// `neighbours`
    Neighbours,
    /// `pregel`
    Pregel,
    /// `filter`
    Filter,
    /// `mapvalues`
    MapValues,
    /// `minus`
    Minus,
    /// `diff`
    Diff,
    /// `innerjoin`
    InnerJoin,
    /// `leftjoin`
    LeftJoin,
    /// `print`
    Print,
    /// `count`
    Count,
}

/// What is printed.
#[derive(Clone, Copy)]
pub enum PrintTarget {
    /// `vertices`
    Vertices,
    /// `edges`
    Edges,
    /// `triplets`
    Triplets,
    /// `table`
    Table,
}

/// What is counted.
#[derive(Clone, Copy)]
pub enum CountTarget {
    /// `vertices`
    Vertices,
    /// `edges`
    Edges,
    /// `table`
    Table,
}
