//! Nodes as a `Dag` stores them.

use crate::{Input, NodeKind};
use std::marker::Model;

/// A node. Contracts see it as its kind and its list of inputs.
#[derive(Drop)]
pub(crate) struct Node {
    pub(crate) kind: NodeKind,
    pub(crate) inputs: Vec<Input>,
}

impl Model for Node {
    ghost use Rattle.gx_lineage.specs.Nodes.{Node as KindWithInputs};

    ghost Value = { KindWithInputs };

    ghost view = { λ n. record { kind = n.kind; inputs = n.inputs.items } };
}
