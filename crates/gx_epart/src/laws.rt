//! What holds of the order of edges, as a clause that a caller can use.

ghost use Rattle.std.specs.Prelude.{◌≡◌, List};
ghost use Rattle.gx_rows.specs.Order.{Edge};
ghost use Rattle.gx_epart.specs.Edges.{IsEdgeOrderOf, edge_order_of};

use gx_rows::order_is_total;

/// A list of edges has one edge order, which `edge_order_of` computes.
pub fn edge_order_is_unique()
    ensures { (edges ordered : List Edge) → IsEdgeOrderOf edges ordered → ordered ≡ edge_order_of edges }
{
    order_is_total()
}
