//! Expressions made from texts, how many nodes they have, and what the nodes of a tree are.

mod shape;
mod sizes;
mod written;

pub(super) use shape::put_nodes;
pub(super) use sizes::remaining_nodes;
pub(super) use written::{nested, written};
