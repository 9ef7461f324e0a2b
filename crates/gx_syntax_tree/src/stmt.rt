//! Statements, in families: loads, graphs, maps, joins, messages, tables and actions.
//!
//! A statement defines the name `name` as a table, a list of edges or a graph, or is an action that
//! prints or counts. Each variant has the items of its spelling in text order. To add a statement,
//! add its variant here, its keyword in keyword.rt, and its lines in specs/Forms.antt and
//! proofs/Views.antt.

use crate::constant::{ColumnConst, Const};
use crate::expr::Expr;
use crate::parts::{ColumnDecl, ColumnExpr, ColumnMerge, SendClause};
use crate::words::{ActiveWord, CutWord, NeighbourWord};
use gx_rows::Text;
use sqlite_items::Items;

/// A statement. Names are as they are written: nothing here says that they are defined, or of what
/// kind. The operators are those of the GraphX Programming Guide, in the sections that are named.
#[derive(Drop)]
pub enum Stmt {
    /// `vertices NAME from FILE columns`: loads a table of vertices from a CSV file.
    Vertices {
        name: Text,
        file: Text,
        columns: Items<ColumnDecl>,
    },
    /// `edges NAME from FILE columns`: loads edges from a CSV file.
    Edges {
        name: Text,
        file: Text,
        columns: Items<ColumnDecl>,
    },
    /// `edgelist NAME from FILE [oriented]`: loads edges from a file of pairs of identifiers; with
    /// `oriented`, each edge goes from the smaller to the larger one (Graph Builders,
    /// `edgeListFile`).
    EdgeList {
        name: Text,
        file: Text,
        oriented: bool,
    },
    /// `graph NAME = VERTICES, EDGES default row`: a graph from a table and edges, in which an end
    /// of an edge that has no row gets the default row (Graph Builders, `Graph.apply`).
    Graph {
        name: Text,
        vertices: Text,
        edges: Text,
        default: Items<Const>,
    },
    /// `fromedges NAME = EDGES row`: a graph whose vertices are the ends of the edges, each with
    /// this row (Graph Builders, `Graph.fromEdges`).
    FromEdges {
        name: Text,
        edges: Text,
        row: Items<ColumnConst>,
    },
    /// `reverse NAME = GRAPH`: the graph with the direction of each edge reversed (Structural
    /// Operators).
    Reverse {
        name: Text,
        graph: Text,
    },
    /// `mask NAME = GRAPH by OTHER`: the vertices and edges that are in the other graph too, with
    /// the rows of the first (Structural Operators).
    Mask {
        name: Text,
        graph: Text,
        by: Text,
    },
    /// `subgraph NAME = GRAPH [vertices expr] [edges expr]`: the vertices that pass the first test,
    /// and the edges between them that pass the second; at least one test is given (Structural
    /// Operators).
    Subgraph {
        name: Text,
        graph: Text,
        vertices: Option<Expr>,
        edges: Option<Expr>,
    },
    /// `groupedges NAME = GRAPH merges`: the graph with its parallel edges merged into one
    /// (Structural Operators, `groupEdges`).
    GroupEdges {
        name: Text,
        graph: Text,
        merges: Items<ColumnMerge>,
    },
    /// `partition NAME = GRAPH by CUT`: the same graph with its edges in other partitions (Graph
    /// Builders, `partitionBy`).
    Partition {
        name: Text,
        graph: Text,
        cut: CutWord,
    },
    /// `mapvertices NAME = GRAPH sets`: computes new rows of the vertices (Property Operators).
    MapVertices {
        name: Text,
        graph: Text,
        sets: Items<ColumnExpr>,
    },
    /// `mapedges NAME = GRAPH sets`: computes new rows of the edges from the edges alone (Property
    /// Operators).
    MapEdges {
        name: Text,
        graph: Text,
        sets: Items<ColumnExpr>,
    },
    /// `maptriplets NAME = GRAPH sets`: computes new rows of the edges from the edges and the rows
    /// of their ends (Property Operators).
    MapTriplets {
        name: Text,
        graph: Text,
        sets: Items<ColumnExpr>,
    },
    /// `joinvertices NAME = GRAPH, TABLE sets`: computes new rows of the vertices that have a row
    /// in the table, and keeps the others (Join Operators, `joinVertices`).
    JoinVertices {
        name: Text,
        graph: Text,
        table: Text,
        sets: Items<ColumnExpr>,
    },
    /// `outerjoin NAME = GRAPH, TABLE default row sets`: computes new rows of all vertices, from
    /// the default row if the table has none (Join Operators, `outerJoinVertices`).
    OuterJoin {
        name: Text,
        graph: Text,
        table: Text,
        default: Items<Const>,
        sets: Items<ColumnExpr>,
    },
    /// `aggregate NAME = GRAPH sends merge merges`: a table of the messages that edges send to
    /// their ends, merged for each vertex (Neighborhood Aggregation, `aggregateMessages`).
    Aggregate {
        name: Text,
        graph: Text,
        sends: Items<SendClause>,
        merges: Items<ColumnMerge>,
    },
    /// `indegrees NAME = GRAPH`: a table of the numbers of edges that come in (Computing Degree
    /// Information).
    InDegrees {
        name: Text,
        graph: Text,
    },
    /// `outdegrees NAME = GRAPH`: a table of the numbers of edges that go out (Computing Degree
    /// Information).
    OutDegrees {
        name: Text,
        graph: Text,
    },
    /// `degrees NAME = GRAPH`: a table of the numbers of edges that come in or go out (Computing
    /// Degree Information).
    Degrees {
        name: Text,
        graph: Text,
    },
    /// `neighbours NAME = GRAPH DIRECTION`: a table of the identifiers of the neighbours
    /// (Collecting Neighbors).
    Neighbours {
        name: Text,
        graph: Text,
        direction: NeighbourWord,
    },
    /// `pregel NAME = GRAPH rounds NUMBER [active DIRECTION] merge merges initial row program sets
    /// sends`: computes the rows of the vertices in rounds of messages, at most so many (Pregel
    /// API).
    Pregel {
        name: Text,
        graph: Text,
        rounds: i64,
        active: ActiveWord,
        merges: Items<ColumnMerge>,
        initial: Items<Const>,
        program: Items<ColumnExpr>,
        sends: Items<SendClause>,
    },
    /// `filter NAME = TABLE where expr`: the rows that pass a test (VertexRDDs).
    Filter {
        name: Text,
        table: Text,
        condition: Expr,
    },
    /// `mapvalues NAME = TABLE sets`: computes new rows from the rows of a table (VertexRDDs).
    MapValues {
        name: Text,
        table: Text,
        sets: Items<ColumnExpr>,
    },
    /// `minus NAME = TABLE, OTHER`: the rows whose identifiers are not in the other table
    /// (VertexRDDs).
    Minus {
        name: Text,
        table: Text,
        other: Text,
    },
    /// `diff NAME = TABLE, OTHER`: the identifiers in both tables whose rows differ, with the rows
    /// of the other table (VertexRDDs).
    Diff {
        name: Text,
        table: Text,
        other: Text,
    },
    /// `innerjoin NAME = TABLE, OTHER sets`: computes rows for the identifiers in both tables
    /// (VertexRDDs).
    InnerJoin {
        name: Text,
        table: Text,
        other: Text,
        sets: Items<ColumnExpr>,
    },
    /// `leftjoin NAME = TABLE, OTHER default row sets`: computes rows for the identifiers of the
    /// first table, from the default row if the other has none (VertexRDDs).
    LeftJoin {
        name: Text,
        table: Text,
        other: Text,
        default: Items<Const>,
        sets: Items<ColumnExpr>,
    },
    /// `print vertices GRAPH`: prints the vertices of a graph.
    PrintVertices {
        graph: Text,
    },
    /// `print edges GRAPH`: prints the edges of a graph.
    PrintEdges {
        graph: Text,
    },
    /// `print triplets GRAPH`: prints the edges of a graph with the rows of their ends (The
    /// Property Graph).
    PrintTriplets {
        graph: Text,
    },
    /// `print table TABLE`: prints a table.
    PrintTable {
        table: Text,
    },
    /// `count vertices GRAPH`: prints how many vertices a graph has.
    CountVertices {
        graph: Text,
    },
    /// `count edges GRAPH`: prints how many edges a graph has.
    CountEdges {
        graph: Text,
    },
    /// `count table TABLE`: prints how many rows a table has.
    CountTable {
        table: Text,
    },
}
