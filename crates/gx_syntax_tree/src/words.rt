//! Words that choose: cuts, merges, ends of edges, and directions. `gx_syntax_stmts` knows their
//! spellings.

/// How edges are placed in partitions.
#[derive(Clone, Copy, Debug, PartialEq, Eq)]
pub enum CutWord {
    /// `oned`: by the source.
    OneD,
    /// `twod`: by both ends, on a grid.
    TwoD,
    /// `random`: by both ends.
    Random,
    /// `canonical`: by both ends, in either order.
    Canonical,
}

/// How the values of one column are merged.
#[derive(Clone, Copy, Debug, PartialEq, Eq)]
pub enum MergeWord {
    /// `sum`
    Sum,
    /// `count`
    Count,
    /// `min`
    Min,
    /// `max`
    Max,
    /// `all`
    All,
    /// `any`
    Any,
    /// `bag`
    Bag,
}

/// An end of an edge.
#[derive(Clone, Copy, Debug, PartialEq, Eq)]
pub enum SideWord {
    /// `src`
    Src,
    /// `dst`
    Dst,
}

/// The neighbours that are collected.
#[derive(Clone, Copy, Debug, PartialEq, Eq)]
pub enum NeighbourWord {
    /// `in`: the sources of the edges that come in.
    In,
    /// `out`: the destinations of the edges that go out.
    Out,
    /// `either`: both.
    Either,
}

/// The edges that send in a round of a `pregel`: those at a vertex that changed.
#[derive(Clone, Copy, Debug, PartialEq, Eq)]
pub enum ActiveWord {
    /// `out`: the source changed.
    Out,
    /// `in`: the destination changed.
    In,
    /// `either`: one of the ends changed.
    Either,
    /// `both`: both ends changed.
    Both,
}
