//! Statements that make a graph with new rows: `mapvertices`, `mapedges`, `maptriplets`.

ghost use Rattle.gx_syntax_exprs.specs.Parses.{Parses};
ghost use Rattle.gx_syntax_tree.specs.declared.keyword.StmtKeyword.TheVariants as keywords;
ghost use Rattle.gx_syntax_stmts.specs.Forms.{rest};

use crate::lists::paren_list;
use gx_rows::Text;
use gx_syntax_exprs::{Cursor, ParseStop};
use gx_syntax_tree::Stmt;
use std::alloc::Global;

/// Parses the rest of `mapvertices`.
pub(crate) fn map_vertices(
    cursor: &mut Cursor<'_>,
    alloc: Global,
    name: Text,
    graph: Text,
) -> Result<Stmt, ParseStop>
    ensures { Parses result cursor.new (rest keywords.MapVertices name graph cursor.old) }
{
    let sets = paren_list(cursor, alloc)?;
    Ok(Stmt::MapVertices { name, graph, sets })
}

/// Parses the rest of `mapedges`.
pub(crate) fn map_edges(
    cursor: &mut Cursor<'_>,
    alloc: Global,
    name: Text,
    graph: Text,
) -> Result<Stmt, ParseStop>
    ensures { Parses result cursor.new (rest keywords.MapEdges name graph cursor.old) }
{
    let sets = paren_list(cursor, alloc)?;
    Ok(Stmt::MapEdges { name, graph, sets })
}

/// Parses the rest of `maptriplets`.
pub(crate) fn map_triplets(
    cursor: &mut Cursor<'_>,
    alloc: Global,
    name: Text,
    graph: Text,
) -> Result<Stmt, ParseStop>
    ensures { Parses result cursor.new (rest keywords.MapTriplets name graph cursor.old) }
{
    let sets = paren_list(cursor, alloc)?;
    Ok(Stmt::MapTriplets { name, graph, sets })
}
