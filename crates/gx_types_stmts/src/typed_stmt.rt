//! Statements whose types are checked, in the families of `Stmt` and in its order.

use crate::TypedSend;
use gx_expr::Expr;
use gx_merge::MergeKind;
use gx_rows::{Cut, Direction, Row, Text};
use sqlite_items::Items;

/// A statement as it is run. A name is the number of the statement that defines it, counted from
/// 1; a column is its position; the nodes of all expressions of a statement are numbered from 0 in
/// text order. What the statement does is said at the variant of `Stmt` with its name. The four
/// short forms of `aggregate` are `Aggregate` too.
#[derive(Drop)]
pub enum TypedStmt {
    /// `vertices`
    Vertices {
        file: Text,
    },
    /// `edges`
    Edges {
        file: Text,
    },
    /// `edgelist`
    EdgeList {
        file: Text,
        oriented: bool,
    },
    /// `graph`
    Graph {
        vertices: u32,
        edges: u32,
        default: Row,
    },
    /// `fromedges`
    FromEdges {
        edges: u32,
        row: Row,
    },
    /// `reverse`
    Reverse {
        graph: u32,
    },
    /// `mask`
    Mask {
        graph: u32,
        by: u32,
    },
    /// `subgraph`
    Subgraph {
        graph: u32,
        vertices: Option<Expr>,
        edges: Option<Expr>,
    },
    /// `groupedges`
    GroupEdges {
        graph: u32,
        merges: Items<MergeKind>,
    },
    /// `partition`
    Partition {
        graph: u32,
        cut: Cut,
    },
    /// `mapvertices`
    MapVertices {
        graph: u32,
        sets: Items<Expr>,
    },
    /// `mapedges`
    MapEdges {
        graph: u32,
        sets: Items<Expr>,
    },
    /// `maptriplets`
    MapTriplets {
        graph: u32,
        sets: Items<Expr>,
    },
    /// `joinvertices`
    JoinVertices {
        graph: u32,
        table: u32,
        sets: Items<Expr>,
    },
    /// `outerjoin`
    OuterJoin {
        graph: u32,
        table: u32,
        default: Row,
        sets: Items<Expr>,
    },
    /// `aggregate`, `indegrees`, `outdegrees`, `degrees` and `neighbours`. The faults of its merges
    /// are numbered from `nodes` on, the number of the nodes that are written in the statement.
    Aggregate {
        graph: u32,
        sends: Items<TypedSend>,
        merges: Items<MergeKind>,
        nodes: u32,
    },
    /// `pregel`. The faults of its merges are numbered from `nodes` on, the number of the nodes
    /// that are written in the statement.
    Pregel {
        graph: u32,
        rounds: u32,
        active: Direction,
        merges: Items<MergeKind>,
        initial: Row,
        program: Items<Expr>,
        sends: Items<TypedSend>,
        nodes: u32,
    },
    /// `filter`
    Filter {
        table: u32,
        condition: Expr,
    },
    /// `mapvalues`
    MapValues {
        table: u32,
        sets: Items<Expr>,
    },
    /// `minus`
    Minus {
        table: u32,
        other: u32,
    },
    /// `diff`
    Diff {
        table: u32,
        other: u32,
    },
    /// `innerjoin`
    InnerJoin {
        table: u32,
        other: u32,
        sets: Items<Expr>,
    },
    /// `leftjoin`
    LeftJoin {
        table: u32,
        other: u32,
        default: Row,
        sets: Items<Expr>,
    },
    /// `print vertices`
    PrintVertices {
        graph: u32,
    },
    /// `print edges`
    PrintEdges {
        graph: u32,
    },
    /// `print triplets`
    PrintTriplets {
        graph: u32,
    },
    /// `print table`
    PrintTable {
        table: u32,
    },
    /// `count vertices`
    CountVertices {
        graph: u32,
    },
    /// `count edges`
    CountEdges {
        graph: u32,
    },
    /// `count table`
    CountTable {
        table: u32,
    },
}
