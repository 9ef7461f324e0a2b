//! How a node is added to a lineage.

use gx_lineage::{Dag, Input, NodeId, NodeKind};
use gx_rows::NoMemory;
use std::process::Abort;

/// Adds a node. The test stops if it reads a node that is not there.
pub(super) fn add(
    rt: &impl Abort,
    dag: &mut Dag,
    kind: NodeKind,
    inputs: &[Input],
) -> Result<NodeId, NoMemory> {
    let len = dag.len();
    assert!(rt; len < u64::MAX && inputs.iter().all(|x| x.node.0 < len));
    dag.add(kind, inputs)
}
