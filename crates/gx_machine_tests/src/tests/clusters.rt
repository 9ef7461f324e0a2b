//! Logs of small lineages, entry by entry, with 1, 2 and 64 workers.

ghost use Rattle.std.specs.Prelude.{◌≡◌, [], All};
ghost use Rattle.gx_lineage.specs.Lineage.{IsBlock};
ghost use Rattle.gx_cluster.specs.States.{HoldsContents};

use super::support::add;
use gx_cluster::{Cargo, Cluster, Events, LogEntry, Work};
use gx_lineage::{BlockId, Dag, Input, NodeId, NodeKind, Pattern};
use gx_rows::NoMemory;
use std::alloc::Global;
use std::process::Abort;
use std::rc::Rc;
use std::test::Fail;

// Work in which the value of a block is its part.
#[derive(Drop)]
struct PartNumbers {
    dag: Dag,
    alloc: Global,
}

impl Work<u64> for PartNumbers {
    ghost lineage = { λ w. w.dag };

    ghost content = { λ w b t. t ≡ b.part };

    ghost fits = { λ w b ts. Unit };

    ghost freight = { λ w b. [] };

    fn dag(&self) -> &Dag {
        let _ = self.dag.len();
        &self.dag
    }

    fn run(&self, b: BlockId, _inputs: &[Rc<u64>]) -> Result<u64, NoMemory> {
        Ok(b.part as u64)
    }

    fn cargo(&self, _b: BlockId, _value: &u64) -> Result<Cargo, NoMemory> {
        Ok(Cargo::of(Vec::new(self.alloc)))
    }

    ghost fits_contents = { λ w b ts d h. tt };
}

// A turn: 's' for a start or 'f' for a finish, with the worker, the node and the part.
type Turn = (char, u32, u64, u32);

fn turn_of(entry: &LogEntry) -> Turn {
    match entry {
        LogEntry::Started { worker, block } => ('s', *worker, block.node.0, block.part),
        LogEntry::Finished { worker, block, .. } => ('f', *worker, block.node.0, block.part),
        _ => ('?', 0, 0, 0),
    }
}

fn has_turns(cluster: &Cluster<u64>, turns: &[Turn]) -> bool {
    cluster.log().len() == turns.len()
        && cluster
            .log()
            .iter()
            .zip(turns)
            .all(|(entry, turn)| turn_of(entry) == *turn)
}

// A diamond: node 3 depends on nodes 1 and 2, and both on node 0.
fn diamond(rt: &impl Abort, alloc: Global) -> Result<Dag, NoMemory> {
    let same = |node: u64| Input {
        node: NodeId(node),
        pattern: Pattern::Same,
    };
    let all = |node: u64| Input {
        node: NodeId(node),
        pattern: Pattern::All,
    };
    let mut dag = Dag::new(alloc, 2);
    add(rt, &mut dag, NodeKind::Vertices, &[])?;
    add(rt, &mut dag, NodeKind::Vertices, &[same(0)])?;
    add(rt, &mut dag, NodeKind::Vertices, &[all(0)])?;
    add(rt, &mut dag, NodeKind::Vertices, &[same(1), all(2)])?;
    Ok(dag)
}

// The cluster after a demand of all blocks of the last node, twice.
fn run(rt: &impl Abort, alloc: Global, dag: Dag, workers: u32) -> Result<Cluster<u64>, NoMemory> {
    assert!(rt; 1 <= workers && workers <= 64 && dag.len() >= 1 && dag.parts() == 2);
    let node = NodeId(dag.len() - 1);
    let targets = [BlockId { node, part: 0 }, BlockId { node, part: 1 }];
    let work = PartNumbers { dag, alloc };
    let mut cluster = Cluster::empty(alloc);
    cluster.configure(workers)?;
    let mut events = Events::none(alloc);
    cluster.demand(&work, &targets, &mut events)?;
    cluster.demand(&work, &targets, &mut events)?;
    Ok(cluster)
}

#[test]
fn two_workers_share_a_node(rt: HostRuntime) -> Result<(), Fail> {
    let mut dag = Dag::new(rt.alloc(), 2);
    add(&rt, &mut dag, NodeKind::Vertices, &[])?;
    let cluster = run(&rt, rt.alloc(), dag, 2)?;
    assert!(rt;
        has_turns(
            &cluster,
            &[
                ('s', 0, 0, 0),
                ('s', 1, 0, 1),
                ('f', 0, 0, 0),
                ('f', 1, 0, 1),
            ]
        )
    );
    let node = NodeId(0);
    assert!(rt;
        cluster
            .take(BlockId { node, part: 1 })
            .is_some_and(|value| **value == 1)
    );
    assert!(rt; cluster.take(BlockId { node, part: 2 }).is_none());
    assert_eq!(rt; cluster.spare(), 8);
    Ok(())
}

#[test]
fn one_worker_takes_blocks_in_order(rt: HostRuntime) -> Result<(), Fail> {
    let dag = diamond(&rt, rt.alloc())?;
    let cluster = run(&rt, rt.alloc(), dag, 1)?;
    assert!(rt;
        has_turns(
            &cluster,
            &[
                ('s', 0, 0, 0),
                ('f', 0, 0, 0),
                ('s', 0, 0, 1),
                ('f', 0, 0, 1),
                ('s', 0, 1, 0),
                ('f', 0, 1, 0),
                ('s', 0, 1, 1),
                ('f', 0, 1, 1),
                ('s', 0, 2, 0),
                ('f', 0, 2, 0),
                ('s', 0, 2, 1),
                ('f', 0, 2, 1),
                ('s', 0, 3, 0),
                ('f', 0, 3, 0),
                ('s', 0, 3, 1),
                ('f', 0, 3, 1),
            ]
        )
    );
    Ok(())
}

#[test]
fn two_workers_share_a_diamond(rt: HostRuntime) -> Result<(), Fail> {
    let dag = diamond(&rt, rt.alloc())?;
    let cluster = run(&rt, rt.alloc(), dag, 2)?;
    assert!(rt;
        has_turns(
            &cluster,
            &[
                ('s', 0, 0, 0),
                ('s', 1, 0, 1),
                ('f', 0, 0, 0),
                ('s', 0, 1, 0),
                ('f', 0, 1, 0),
                ('f', 1, 0, 1),
                ('s', 0, 1, 1),
                ('s', 1, 2, 0),
                ('f', 0, 1, 1),
                ('s', 0, 2, 1),
                ('f', 0, 2, 1),
                ('f', 1, 2, 0),
                ('s', 0, 3, 0),
                ('s', 1, 3, 1),
                ('f', 0, 3, 0),
                ('f', 1, 3, 1),
            ]
        )
    );
    Ok(())
}

#[test]
fn idle_workers_wait_for_inputs(rt: HostRuntime) -> Result<(), Fail> {
    let dag = diamond(&rt, rt.alloc())?;
    let cluster = run(&rt, rt.alloc(), dag, 64)?;
    assert!(rt;
        has_turns(
            &cluster,
            &[
                ('s', 0, 0, 0),
                ('s', 1, 0, 1),
                ('f', 0, 0, 0),
                ('s', 0, 1, 0),
                ('f', 0, 1, 0),
                ('f', 1, 0, 1),
                ('s', 0, 1, 1),
                ('s', 1, 2, 0),
                ('s', 2, 2, 1),
                ('f', 0, 1, 1),
                ('f', 1, 2, 0),
                ('f', 2, 2, 1),
                ('s', 0, 3, 0),
                ('s', 1, 3, 1),
                ('f', 0, 3, 0),
                ('f', 1, 3, 1),
            ]
        )
    );
    Ok(())
}
