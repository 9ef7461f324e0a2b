//! Statements that make a graph: `graph`, `fromedges`, `reverse`, `mask`, `subgraph`, `groupedges`,
//! `partition`.

ghost use Rattle.gx_syntax_exprs.specs.Parses.{Parses};
ghost use Rattle.gx_syntax_tree.specs.declared.keyword.StmtKeyword.TheVariants as keywords;
ghost use Rattle.gx_syntax_stmts.specs.Forms.{rest};
ghost use Rattle.gx_syntax_stmts.specs.Parts as parts;

use crate::keywords::keyword_value;
use crate::lists::paren_list;
use crate::parts::{keyword_expr, optional_expr};
use gx_rows::Text;
use gx_syntax_exprs::{Cursor, ParseStop};
use gx_syntax_tokens::Symbol;
use gx_syntax_tree::{Stmt, SubgraphFilter};
use std::alloc::Global;

/// Parses the filter of a subgraph: a test of vertices, of edges, or both.
#[tactic(auto, unfolding(crate::specs::Parts::subgraph_filter))]
fn subgraph_filter(cursor: &mut Cursor<'_>, alloc: Global) -> Result<SubgraphFilter, ParseStop>
    ensures { Parses result cursor.new (parts.subgraph_filter cursor.old) }
{
    if cursor.is_word_next("vertices") {
        let vertices = Some(keyword_expr(cursor, alloc, "vertices")?);
        let edges = optional_expr(cursor, alloc, "edges")?;
        Ok(SubgraphFilter { vertices, edges })
    } else {
        let edges = Some(keyword_expr(cursor, alloc, "edges")?);
        Ok(SubgraphFilter {
            vertices: None,
            edges,
        })
    }
}

/// Parses the rest of `graph`.
pub(crate) fn graph(
    cursor: &mut Cursor<'_>,
    alloc: Global,
    name: Text,
    vertices: Text,
) -> Result<Stmt, ParseStop>
    ensures { Parses result cursor.new (rest keywords.Graph name vertices cursor.old) }
{
    cursor.symbol(Symbol::Comma)?;
    let edges = cursor.name(alloc)?;
    cursor.keyword("default")?;
    let default = paren_list(cursor, alloc)?;
    Ok(Stmt::Graph {
        name,
        vertices,
        edges,
        default,
    })
}

/// Parses the rest of `fromedges`.
pub(crate) fn from_edges(
    cursor: &mut Cursor<'_>,
    alloc: Global,
    name: Text,
    edges: Text,
) -> Result<Stmt, ParseStop>
    ensures { Parses result cursor.new (rest keywords.FromEdges name edges cursor.old) }
{
    let row = paren_list(cursor, alloc)?;
    Ok(Stmt::FromEdges { name, edges, row })
}

/// Parses the rest of `mask`.
pub(crate) fn mask(
    cursor: &mut Cursor<'_>,
    alloc: Global,
    name: Text,
    graph: Text,
) -> Result<Stmt, ParseStop>
    ensures { Parses result cursor.new (rest keywords.Mask name graph cursor.old) }
{
    cursor.keyword("by")?;
    let by = cursor.name(alloc)?;
    Ok(Stmt::Mask { name, graph, by })
}

/// Parses the rest of `subgraph`.
pub(crate) fn subgraph(
    cursor: &mut Cursor<'_>,
    alloc: Global,
    name: Text,
    graph: Text,
) -> Result<Stmt, ParseStop>
    ensures { Parses result cursor.new (rest keywords.Subgraph name graph cursor.old) }
{
    let SubgraphFilter { vertices, edges } = subgraph_filter(cursor, alloc)?;
    Ok(Stmt::Subgraph {
        name,
        graph,
        vertices,
        edges,
    })
}

/// Parses the rest of `groupedges`.
pub(crate) fn group_edges(
    cursor: &mut Cursor<'_>,
    alloc: Global,
    name: Text,
    graph: Text,
) -> Result<Stmt, ParseStop>
    ensures { Parses result cursor.new (rest keywords.GroupEdges name graph cursor.old) }
{
    let merges = paren_list(cursor, alloc)?;
    Ok(Stmt::GroupEdges {
        name,
        graph,
        merges,
    })
}

/// Parses the rest of `partition`.
pub(crate) fn partition(cursor: &mut Cursor<'_>, name: Text, graph: Text) -> Result<Stmt, ParseStop>
    ensures { Parses result cursor.new (rest keywords.Partition name graph cursor.old) }
{
    cursor.keyword("by")?;
    let cut = keyword_value(cursor)?;
    Ok(Stmt::Partition { name, graph, cut })
}
