//! Kinds of planned nodes.

ghost use Rattle.std.specs.Prelude.{◌≡◌};
ghost use Rattle.gx_plan.specs.Recipes as recipes;

use gx_lineage::NodeKind;
use gx_types::TypedStmt;

/// What the blocks of a planned node hold.
#[derive(Clone, Copy, Debug, PartialEq, Eq)]
pub enum Kind {
    /// The rows of a table, or of the vertices of a graph.
    Vertices,
    /// Edges with their rows.
    Edges,
}

impl Kind {
    /// What a node of this kind of a statement is in the lineage.
    pub(crate) fn node_kind(self, stmt: &TypedStmt) -> NodeKind
        ensures { result ≡ recipes.node_kind_of self stmt.now }
    {
        let _ = stmt;
        match self {
            Kind::Vertices => NodeKind::Vertices,
            Kind::Edges => NodeKind::Edges,
        }
    }

    /// Whether the two are the same.
    pub(crate) fn is(self, other: Kind) -> bool
        ensures { result ≡ recipes.is_kind self other }
    {
        match (self, other) {
            (Kind::Vertices, Kind::Vertices) => true,
            (Kind::Edges, Kind::Edges) => true,
            _ => false,
        }
    }
}
