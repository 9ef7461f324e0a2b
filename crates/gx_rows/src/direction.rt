//! Directions of messages.

/// Which ends of an edge have to be active for the edge to send messages.
#[derive(Clone, Copy, Debug, PartialEq, Eq)]
pub enum Direction {
    /// The source.
    Out,
    /// The destination.
    In,
    /// At least one of the two.
    Either,
    /// The source and the destination.
    Both,
}
