//! Statements and scripts.
//!
//! A statement is parsed by its keyword; most then have a name, `=` and a source. To add one, see
//! specs/Forms.antt.

ghost use Rattle.std.specs.Prelude.{true};
ghost use Rattle.gx_syntax_exprs.specs.Parses.{Parses, terminals_of};
ghost use Rattle.gx_syntax_stmts.specs.Forms as forms;
ghost use Rattle.gx_syntax_stmts.specs.Forms.{SpellsScript};
ghost use Rattle.gx_syntax_stmts.specs.Refusals.{IsScript, ParsesScript};

use crate::grammar_stop::GrammarStop;
use crate::keywords::keyword_value;
use crate::repetition::{Repeated, many};
use crate::{actions, graphs, joins, loads, maps, messages, tables};
use gx_rows::{NoMemory, Text};
use gx_syntax_exprs::{Cursor, ParseStop, expressions_are_parsed_exactly};
use gx_syntax_tokens::{PlacedToken, Symbol};
use gx_syntax_tree::{Script, Stmt, StmtKeyword};
use sqlite_items::{Boxed, Items};
use std::alloc::Global;

/// Parses a name, `=` and a source.
fn target(cursor: &mut Cursor<'_>, alloc: Global) -> Result<(Text, Text), ParseStop>
    ensures { Parses result cursor.new (forms.target cursor.old) }
{
    let name = cursor.name(alloc)?;
    cursor.symbol(Symbol::Assign)?;
    let source = cursor.name(alloc)?;
    Ok((name, source))
}

/// Parses the rest of a statement after its name and its source, which is a graph, or a table for
/// statements on tables.
fn rest(
    cursor: &mut Cursor<'_>,
    alloc: Global,
    keyword: StmtKeyword,
    name: Text,
    graph: Text,
) -> Result<Stmt, ParseStop>
    ensures { Parses result cursor.new (forms.rest keyword name graph cursor.old) }
{
    match keyword {
        StmtKeyword::Graph => graphs::graph(cursor, alloc, name, graph),
        StmtKeyword::FromEdges => graphs::from_edges(cursor, alloc, name, graph),
        StmtKeyword::Reverse => Ok(Stmt::Reverse { name, graph }),
        StmtKeyword::Mask => graphs::mask(cursor, alloc, name, graph),
        StmtKeyword::Subgraph => graphs::subgraph(cursor, alloc, name, graph),
        StmtKeyword::GroupEdges => graphs::group_edges(cursor, alloc, name, graph),
        StmtKeyword::Partition => graphs::partition(cursor, name, graph),
        StmtKeyword::MapVertices => maps::map_vertices(cursor, alloc, name, graph),
        StmtKeyword::MapEdges => maps::map_edges(cursor, alloc, name, graph),
        StmtKeyword::MapTriplets => maps::map_triplets(cursor, alloc, name, graph),
        StmtKeyword::JoinVertices => joins::join_vertices(cursor, alloc, name, graph),
        StmtKeyword::OuterJoin => joins::outer_join(cursor, alloc, name, graph),
        StmtKeyword::Aggregate => messages::aggregate(cursor, alloc, name, graph),
        StmtKeyword::InDegrees => Ok(Stmt::InDegrees { name, graph }),
        StmtKeyword::OutDegrees => Ok(Stmt::OutDegrees { name, graph }),
        StmtKeyword::Degrees => Ok(Stmt::Degrees { name, graph }),
        StmtKeyword::Neighbours => messages::neighbours(cursor, name, graph),
        StmtKeyword::Pregel => messages::pregel(cursor, alloc, name, graph),
        StmtKeyword::Filter => tables::filter(cursor, alloc, name, graph),
        StmtKeyword::MapValues => tables::map_values(cursor, alloc, name, graph),
        StmtKeyword::Minus => tables::minus(cursor, alloc, name, graph),
        StmtKeyword::Diff => tables::diff(cursor, alloc, name, graph),
        StmtKeyword::InnerJoin => tables::inner_join(cursor, alloc, name, graph),
        StmtKeyword::LeftJoin => tables::left_join(cursor, alloc, name, graph),
        StmtKeyword::Vertices
        | StmtKeyword::Edges
        | StmtKeyword::EdgeList
        | StmtKeyword::Print
        | StmtKeyword::Count => Err(ParseStop::Refused),
    }
}

/// Parses a statement after its keyword.
fn body(cursor: &mut Cursor<'_>, alloc: Global, keyword: StmtKeyword) -> Result<Stmt, ParseStop>
    ensures { Parses result cursor.new (forms.body keyword cursor.old) }
{
    match keyword {
        StmtKeyword::Vertices => loads::vertices(cursor, alloc),
        StmtKeyword::Edges => loads::edges(cursor, alloc),
        StmtKeyword::EdgeList => loads::edge_list(cursor, alloc),
        StmtKeyword::Print => actions::print(cursor, alloc),
        StmtKeyword::Count => actions::count(cursor, alloc),
        _ => {
            let (name, source) = target(cursor, alloc)?;
            rest(cursor, alloc, keyword, name, source)
        }
    }
}

/// Parses a statement and its `;`.
#[tactic(auto, unfolding(crate::specs::Forms::statement))]
fn statement(cursor: &mut Cursor<'_>, alloc: Global) -> Result<Stmt, ParseStop>
    ensures { Parses result cursor.new (forms.statement cursor.old) }
{
    let keyword = keyword_value(cursor)?;
    // A large value that is dropped on the way of a `?` is dear to check; a box is not.
    let statement = Boxed::new(alloc, body(cursor, alloc, keyword)?).map_err(|_| NoMemory)?;
    cursor.symbol(Symbol::Semicolon)?;
    Ok(statement.into_inner())
}

/// One more statement.
struct NextStatement;

impl Repeated for NextStatement {
    type Item = Stmt;

    ghost starts = { λ t. true };

    ghost parsed = { forms.statement };

    fn is_next(cursor: &Cursor<'_>) -> bool {
        cursor.has_next()
    }

    fn parse(cursor: &mut Cursor<'_>, alloc: Global) -> Result<Stmt, ParseStop> {
        statement(cursor, alloc)
    }
}

/// Parses statements up to the end of the tokens.
fn script(cursor: &mut Cursor<'_>, alloc: Global) -> Result<Items<Stmt>, ParseStop>
    ensures { Parses result cursor.new (forms.script cursor.old) }
{
    many::<NextStatement>(cursor, alloc, Items::new(alloc))
}

/// Parses the script that tokens spell.
///
/// # Errors
///
/// `At` the first refused token if they spell none, and `NoMemory`.
pub fn parse_script(alloc: Global, tokens: &[PlacedToken<'_>]) -> Result<Script, GrammarStop>
    ensures parses { ParsesScript (terminals_of tokens.now) result }
    ensures complete { (s : _) → SpellsScript (terminals_of tokens.now) s → IsScript s result }
{
    expressions_are_parsed_exactly();
    let mut cursor = Cursor::new(tokens);
    match script(&mut cursor, alloc) {
        Ok(statements) => Ok(Script { statements }),
        Err(ParseStop::Refused) => Err(GrammarStop::At(tokens.len() - cursor.len())),
        Err(ParseStop::NoMemory) => Err(GrammarStop::NoMemory),
    }
}
