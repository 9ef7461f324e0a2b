//! Messages that edges send, with their types checked.

use gx_expr::Expr;
use sqlite_items::Items;

/// An end of an edge, to which a message goes.
#[derive(Clone, Copy, Debug, PartialEq, Eq)]
pub enum EdgeEnd {
    /// The source.
    Src,
    /// The destination.
    Dst,
}

/// A message that each edge sends to one of its ends.
#[derive(Drop)]
pub struct TypedSend {
    /// The end to which it goes.
    pub to: EdgeEnd,
    /// The values of the message, one for each merge.
    pub values: Items<Expr>,
    /// The test of the edges that send it: all edges, if there is none.
    pub when: Option<Expr>,
}
