//! The nodes of a statement's result.

ghost use Rattle.std.specs.Prelude.{◌≡◌};
ghost use Rattle.gx_plan.specs.Plans as plans;

use crate::Kind;
use gx_lineage::NodeId;

/// The nodes of a statement's result. They may be nodes that an earlier statement added.
#[derive(Clone, Copy, Debug, PartialEq, Eq)]
pub struct ResultNodes {
    /// The node of its rows: those of a table, or of the vertices of a graph.
    pub vertices: Option<NodeId>,
    /// The node of its edges.
    pub edges: Option<NodeId>,
}

impl ResultNodes {
    /// The node of this kind.
    pub(crate) fn node(self, kind: Kind) -> Option<NodeId>
        ensures { result ≡ plans.node_in kind self }
    {
        match kind {
            Kind::Vertices => self.vertices,
            Kind::Edges => self.edges,
        }
    }
}
