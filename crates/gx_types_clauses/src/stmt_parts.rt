//! The names of a statement, in text order: what the first three checks look at. To add a
//! statement, add its arm here and its line in specs/NamedParts.antt.

ghost use Rattle.std.specs.Prelude.{◌≡◌, List, ℤ, Some, option_map, length};
ghost use Rattle.gx_types_clauses.specs.NamedParts as parts;
ghost use Rattle.gx_types_clauses.specs.NamedParts.{list_names, named_parts, parts_record};

use crate::column_list::ColumnList;
use crate::sort::Sort;
use gx_rows::Text;
use gx_syntax_tree::Stmt;

/// A name that a statement uses.
#[derive(Clone, Copy)]
pub struct UsedName<'a> {
    /// The name.
    pub name: &'a str,
    /// What it has to stand for.
    pub sort: Sort,
}

/// The names of a statement, and what is counted in it.
#[derive(Clone, Copy)]
pub struct StmtParts<'a> {
    /// The name that it defines; an action has none.
    pub name: Option<&'a str>,
    /// The first name that it uses.
    pub first: Option<UsedName<'a>>,
    /// The second name that it uses.
    pub second: Option<UsedName<'a>>,
    /// Its list of columns.
    pub columns: ColumnList<'a>,
    /// The columns of a program, after the merges.
    pub program: ColumnList<'a>,
    /// The number of its sends.
    pub sends: usize,
    /// Its rounds.
    pub rounds: i64,
}

// A table that is used.
fn table(name: &Text) -> UsedName<'_>
    ensures { parts.used_name result ≡ parts.used_table name.now }
{
    UsedName {
        name: name.as_str(),
        sort: Sort::Table,
    }
}

// An edge collection that is used.
fn edges(name: &Text) -> UsedName<'_>
    ensures { parts.used_name result ≡ parts.used_edges name.now }
{
    UsedName {
        name: name.as_str(),
        sort: Sort::Edges,
    }
}

// A graph that is used.
fn graph(name: &Text) -> UsedName<'_>
    ensures { parts.used_name result ≡ parts.used_graph name.now }
{
    UsedName {
        name: name.as_str(),
        sort: Sort::Graph,
    }
}

// A statement that uses no name.
fn load<'a>(name: &'a Text, columns: ColumnList<'a>) -> StmtParts<'a>
    ensures { parts_record result ≡ parts.from_none name.now (list_names columns.entry) }
{
    StmtParts {
        name: Some(name.as_str()),
        first: None,
        second: None,
        columns,
        program: ColumnList::None,
        sends: 0,
        rounds: 0,
    }
}

// A statement that uses one name.
fn from_one<'a>(name: &'a Text, used: UsedName<'a>, columns: ColumnList<'a>) -> StmtParts<'a>
    ensures { parts_record result
        ≡ parts.from_one name.now (parts.used_name used.entry) (list_names columns.entry) }
{
    let mut stmt = load(name, columns);
    stmt.first = Some(used);
    stmt
}

// A statement that uses two names.
fn from_two<'a>(
    name: &'a Text,
    first: UsedName<'a>,
    second: UsedName<'a>,
    columns: ColumnList<'a>,
) -> StmtParts<'a>
    ensures { parts_record result ≡ parts.from_two name.now (parts.used_name first.entry)
        (parts.used_name second.entry) (list_names columns.entry) }
{
    let mut stmt = from_one(name, first, columns);
    stmt.second = Some(second);
    stmt
}

// An action on one name.
fn action<'a>(used: UsedName<'a>) -> StmtParts<'a>
    ensures { parts_record result ≡ parts.on_one (parts.used_name used.entry) }
{
    StmtParts {
        name: None,
        first: Some(used),
        second: None,
        columns: ColumnList::None,
        program: ColumnList::None,
        sends: 0,
        rounds: 0,
    }
}

/// The names of a statement.
pub fn parts_of(stmt: &Stmt) -> StmtParts<'_>
    ensures { parts_record result ≡ named_parts stmt.now }
{
    match stmt {
        Stmt::Vertices { name, columns, .. } => load(name, ColumnList::Declared(columns)),
        Stmt::Edges { name, columns, .. } => load(name, ColumnList::Declared(columns)),
        Stmt::EdgeList { name, .. } => load(name, ColumnList::None),
        Stmt::Graph {
            name,
            vertices,
            edges: used,
            ..
        } => from_two(name, table(vertices), edges(used), ColumnList::None),
        Stmt::FromEdges {
            name,
            edges: used,
            row,
        } => from_one(name, edges(used), ColumnList::Constant(row)),
        Stmt::Reverse { name, graph: used } => from_one(name, graph(used), ColumnList::None),
        Stmt::Mask {
            name,
            graph: used,
            by,
        } => from_two(name, graph(used), graph(by), ColumnList::None),
        Stmt::Subgraph {
            name,
            graph: used,
            ..
        } => from_one(name, graph(used), ColumnList::None),
        Stmt::GroupEdges {
            name,
            graph: used,
            merges,
        } => from_one(name, graph(used), ColumnList::Merged(merges)),
        Stmt::Partition {
            name,
            graph: used,
            ..
        } => from_one(name, graph(used), ColumnList::None),
        Stmt::MapVertices {
            name,
            graph: used,
            sets,
        } => from_one(name, graph(used), ColumnList::Computed(sets)),
        Stmt::MapEdges {
            name,
            graph: used,
            sets,
        } => from_one(name, graph(used), ColumnList::Computed(sets)),
        Stmt::MapTriplets {
            name,
            graph: used,
            sets,
        } => from_one(name, graph(used), ColumnList::Computed(sets)),
        Stmt::JoinVertices {
            name,
            graph: used,
            table: other,
            sets,
        } => from_two(name, graph(used), table(other), ColumnList::Computed(sets)),
        Stmt::OuterJoin {
            name,
            graph: used,
            table: other,
            sets,
            ..
        } => from_two(name, graph(used), table(other), ColumnList::Computed(sets)),
        Stmt::Aggregate {
            name,
            graph: used,
            sends,
            merges,
        } => {
            let mut stmt = from_one(name, graph(used), ColumnList::Merged(merges));
            stmt.sends = sends.len();
            stmt
        }
        Stmt::InDegrees { name, graph: used } => from_one(name, graph(used), ColumnList::None),
        Stmt::OutDegrees { name, graph: used } => from_one(name, graph(used), ColumnList::None),
        Stmt::Degrees { name, graph: used } => from_one(name, graph(used), ColumnList::None),
        Stmt::Neighbours {
            name,
            graph: used,
            ..
        } => from_one(name, graph(used), ColumnList::None),
        Stmt::Pregel {
            name,
            graph: used,
            rounds,
            merges,
            program,
            sends,
            ..
        } => {
            let mut stmt = from_one(name, graph(used), ColumnList::Merged(merges));
            stmt.program = ColumnList::Computed(program);
            stmt.sends = sends.len();
            stmt.rounds = *rounds;
            stmt
        }
        Stmt::Filter {
            name,
            table: used,
            ..
        } => from_one(name, table(used), ColumnList::None),
        Stmt::MapValues {
            name,
            table: used,
            sets,
        } => from_one(name, table(used), ColumnList::Computed(sets)),
        Stmt::Minus {
            name,
            table: used,
            other,
        } => from_two(name, table(used), table(other), ColumnList::None),
        Stmt::Diff {
            name,
            table: used,
            other,
        } => from_two(name, table(used), table(other), ColumnList::None),
        Stmt::InnerJoin {
            name,
            table: used,
            other,
            sets,
        } => from_two(name, table(used), table(other), ColumnList::Computed(sets)),
        Stmt::LeftJoin {
            name,
            table: used,
            other,
            sets,
            ..
        } => from_two(name, table(used), table(other), ColumnList::Computed(sets)),
        Stmt::PrintVertices { graph: used } => action(graph(used)),
        Stmt::PrintEdges { graph: used } => action(graph(used)),
        Stmt::PrintTriplets { graph: used } => action(graph(used)),
        Stmt::PrintTable { table: used } => action(table(used)),
        Stmt::CountVertices { graph: used } => action(graph(used)),
        Stmt::CountEdges { graph: used } => action(graph(used)),
        Stmt::CountTable { table: used } => action(table(used)),
    }
}
