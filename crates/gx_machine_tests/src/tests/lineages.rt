//! A graph of two nodes: the inputs of a block, and the graph truncated to its first node.

use super::support::add;
use gx_lineage::{BlockId, Dag, Input, NodeId, NodeKind, Pattern};
use std::test::Fail;

#[test]
fn lists_inputs_and_truncates(rt: HostRuntime) -> Result<(), Fail> {
    let mut dag = Dag::new(rt.alloc(), 2);
    let node = add(&rt, &mut dag, NodeKind::Vertices, &[])?;
    let inputs = [Pattern::Same, Pattern::All].map(|pattern| Input { node, pattern });
    let view = add(&rt, &mut dag, NodeKind::View, &inputs)?;
    assert!(rt; view == NodeId(1) && view.0 < dag.len() && 1 < dag.parts());
    assert_eq!(rt; dag.kind(view), NodeKind::View);

    let blocks = dag.inputs(BlockId {
        node: view,
        part: 1,
    })?;
    // The part of the same number, and then all parts.
    assert_eq!(rt; blocks.len(), 3);
    for (block, part) in blocks.iter().zip([1, 0, 1]) {
        assert_eq!(rt; *block, BlockId { node, part });
    }

    dag.truncate(1);
    assert_eq!(rt; dag.len(), 1);
    Ok(())
}
