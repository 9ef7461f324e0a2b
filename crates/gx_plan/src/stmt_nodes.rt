//! The nodes that each statement adds, what they read, and whose nodes it takes over.

ghost use Rattle.std.specs.Prelude.{◌≡◌, ◌≤◌, ◌∷◌, [], IfOk, length};
ghost use Rattle.std.specs.Option.{option_to_list};
ghost use Rattle.gx_plan.specs.Plans.{own_recipes};
ghost use Rattle.gx_plan.specs.Recipes.{same_part};
ghost use Rattle.gx_plan.specs.StmtNodes as nodes;
ghost use Rattle.gx_plan.specs.StmtNodes.{statement_of};
ghost use Rattle.gx_plan.specs.declared.kind.Kind.TheVariants as kinds;

use crate::{Feed, Kind, Plan, Recipe};
use gx_rows::NoMemory;
use gx_types::TypedStmt;
use std::alloc::Global;

/// The kinds of the nodes that a statement adds, in order.
pub(crate) fn own_kinds(alloc: Global, stmt: &TypedStmt) -> Result<Vec<Kind>, NoMemory>
    ensures { IfOk result (λ ks. ks.items ≡ nodes.own_kinds stmt.now) }
{
    match stmt {
        TypedStmt::Edges { .. }
        | TypedStmt::EdgeList { .. }
        | TypedStmt::Reverse { .. }
        | TypedStmt::Partition { .. }
        | TypedStmt::MapEdges { .. } => Ok(vec![in alloc; Kind::Edges]?),
        TypedStmt::Vertices { .. }
        | TypedStmt::Graph { .. }
        | TypedStmt::FromEdges { .. }
        | TypedStmt::MapVertices { .. }
        | TypedStmt::JoinVertices { .. }
        | TypedStmt::OuterJoin { .. }
        | TypedStmt::Filter { .. }
        | TypedStmt::MapValues { .. }
        | TypedStmt::Minus { .. }
        | TypedStmt::Diff { .. }
        | TypedStmt::InnerJoin { .. }
        | TypedStmt::LeftJoin { .. } => Ok(vec![in alloc; Kind::Vertices]?),
        TypedStmt::Mask { .. } => Ok(vec![in alloc; Kind::Vertices, Kind::Edges]?),
        _ => Ok(Vec::new(alloc)),
    }
}

impl Plan {
    /// The recipes of the nodes that statement `s` adds, in order.
    pub(crate) fn own_recipes(&self, s: u32) -> Result<Vec<Recipe>, NoMemory>
        requires from_one { 1 ≤ s }
        requires within { s ≤ length self.now.source.script }
        ensures { IfOk result (λ rs. rs.items
            ≡ own_recipes self.now.planned s (statement_of self.now.source.script s)) }
    {
        let mut recipes = Vec::new(self.alloc);
        for kind in &own_kinds(self.alloc, self.statement(s))? {
            recipes.push(Recipe::of(*kind, s))?;
        }
        Ok(recipes)
    }

    /// What a node of this recipe reads, input by input.
    pub(crate) fn feeds(&self, r: Recipe) -> Result<Vec<Feed>, NoMemory>
        requires from_one { 1 ≤ r.statement }
        requires within { r.statement ≤ length self.now.source.script }
        ensures { IfOk result (λ fs. fs.items ≡ nodes.feeds self.now.source r) }
    {
        match r.kind {
            Kind::Vertices => self.vertex_feeds(r),
            Kind::Edges => self.edge_feeds(r),
        }
    }

    fn vertex_feeds(&self, r: Recipe) -> Result<Vec<Feed>, NoMemory>
        requires from_one { 1 ≤ r.statement }
        requires within { r.statement ≤ length self.now.source.script }
        ensures { IfOk result (λ fs. fs.items ≡ nodes.feeds_kind kinds.Vertices
            (statement_of self.now.source.script r.statement) self.now.source r) }
    {
        match self.statement(r.statement) {
            TypedStmt::Graph {
                vertices,
                edges,
                ..
            } => {
                let vertices = Feed::same_part(Kind::Vertices, *vertices);
                let edges = Feed::each_part(Kind::Edges, *edges);
                Ok(vec![in self.alloc; vertices, edges]?)
            }
            TypedStmt::FromEdges { edges, .. } => {
                Ok(vec![in self.alloc; Feed::each_part(Kind::Edges, *edges)]?)
            }
            TypedStmt::MapVertices { graph, .. } => one_table(self.alloc, *graph),
            TypedStmt::Mask { graph, by } => two_tables(self.alloc, *graph, *by),
            TypedStmt::JoinVertices { graph, table, .. } => two_tables(self.alloc, *graph, *table),
            TypedStmt::OuterJoin { graph, table, .. } => two_tables(self.alloc, *graph, *table),
            TypedStmt::Filter { table, .. } => one_table(self.alloc, *table),
            TypedStmt::MapValues { table, .. } => one_table(self.alloc, *table),
            TypedStmt::Minus { table, other } => two_tables(self.alloc, *table, *other),
            TypedStmt::Diff { table, other } => two_tables(self.alloc, *table, *other),
            TypedStmt::InnerJoin { table, other, .. } => two_tables(self.alloc, *table, *other),
            TypedStmt::LeftJoin { table, other, .. } => two_tables(self.alloc, *table, *other),
            _ => Ok(Vec::new(self.alloc)),
        }
    }

    fn edge_feeds(&self, r: Recipe) -> Result<Vec<Feed>, NoMemory>
        requires from_one { 1 ≤ r.statement }
        requires within { r.statement ≤ length self.now.source.script }
        ensures { IfOk result (λ fs. fs.items ≡ nodes.feeds_kind kinds.Edges
            (statement_of self.now.source.script r.statement) self.now.source r) }
    {
        match self.statement(r.statement) {
            TypedStmt::Reverse { graph } | TypedStmt::MapEdges { graph, .. } => {
                Ok(vec![in self.alloc; Feed::same_part(Kind::Edges, *graph)]?)
            }
            TypedStmt::Partition { graph, .. } => {
                Ok(vec![in self.alloc; Feed::each_part(Kind::Edges, *graph)]?)
            }
            TypedStmt::Mask { graph, by } => {
                let kept = Feed::same_part(Kind::Edges, *graph);
                let by = Feed::each_part(Kind::Edges, *by);
                Ok(vec![in self.alloc; kept, by]?)
            }
            _ => Ok(Vec::new(self.alloc)),
        }
    }
}

// The rows of a table or of the vertices of a graph, part by part.
fn one_table(alloc: Global, table: u32) -> Result<Vec<Feed>, NoMemory>
    ensures { IfOk result (λ fs. fs.items ≡ same_part kinds.Vertices table ∷ []) }
{
    Ok(vec![in alloc; Feed::same_part(Kind::Vertices, table)]?)
}

// The rows of two of them, part by part.
fn two_tables(alloc: Global, table: u32, other: u32) -> Result<Vec<Feed>, NoMemory>
    ensures { IfOk result
        (λ fs. fs.items ≡ same_part kinds.Vertices table ∷ same_part kinds.Vertices other ∷ []) }
{
    let table = Feed::same_part(Kind::Vertices, table);
    let other = Feed::same_part(Kind::Vertices, other);
    Ok(vec![in alloc; table, other]?)
}

/// The statement whose node of this kind a statement takes over, if it does.
pub(crate) fn inherits(kind: Kind, stmt: &TypedStmt) -> Option<u32>
    ensures { result ≡ nodes.inherits kind stmt.now }
{
    match kind {
        Kind::Vertices => inherited_vertices(stmt),
        Kind::Edges => inherited_edges(stmt),
    }
}

fn inherited_vertices(stmt: &TypedStmt) -> Option<u32>
    ensures { result ≡ nodes.inherits kinds.Vertices stmt.now }
{
    match stmt {
        TypedStmt::Reverse { graph }
        | TypedStmt::Partition { graph, .. }
        | TypedStmt::MapEdges { graph, .. } => Some(*graph),
        _ => None,
    }
}

fn inherited_edges(stmt: &TypedStmt) -> Option<u32>
    ensures { result ≡ nodes.inherits kinds.Edges stmt.now }
{
    match stmt {
        TypedStmt::Graph { edges, .. } | TypedStmt::FromEdges { edges, .. } => Some(*edges),
        TypedStmt::MapVertices { graph, .. }
        | TypedStmt::JoinVertices { graph, .. }
        | TypedStmt::OuterJoin { graph, .. } => Some(*graph),
        _ => None,
    }
}

/// What an action demands, if it is one.
pub(crate) fn demanded_by(stmt: &TypedStmt) -> Option<Recipe>
    ensures { option_to_list result ≡ nodes.demanded_by stmt.now }
{
    match stmt {
        TypedStmt::PrintVertices { graph } | TypedStmt::CountVertices { graph } => {
            Some(Recipe::of(Kind::Vertices, *graph))
        }
        TypedStmt::PrintEdges { graph } | TypedStmt::CountEdges { graph } => {
            Some(Recipe::of(Kind::Edges, *graph))
        }
        TypedStmt::PrintTable { table } | TypedStmt::CountTable { table } => {
            Some(Recipe::of(Kind::Vertices, *table))
        }
        _ => None,
    }
}
