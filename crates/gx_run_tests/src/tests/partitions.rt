//! Runs on two partitions and two workers: the log, entry by entry, and the least fault.

use super::support::{NONE, after_graph, assert_ends, assert_ends_on, files_of};
use gx_cluster::LogEntry;
use gx_run::{Block, Cluster};
use std::test::Fail;

const ON_TWO: [&str; 6] = ["run", "s.gx", "--parts", "2", "--workers", "2"];

// A turn: 's' for a start or 'f' for a finish, with the worker, the node and the part.
type Turn = (char, u32, u64, u32);

fn turn_of(entry: &LogEntry) -> Turn {
    match entry {
        LogEntry::Started { worker, block } => ('s', *worker, block.node.0, block.part),
        LogEntry::Finished { worker, block, .. } => ('f', *worker, block.node.0, block.part),
        _ => ('?', 0, 0, 0),
    }
}

fn has_turns(cluster: &Cluster<Block>, turns: &[Turn]) -> bool {
    cluster.log().len() == turns.len()
        && cluster
            .log()
            .iter()
            .zip(turns)
            .all(|(entry, turn)| turn_of(entry) == *turn)
}

#[test]
fn two_workers_share_a_table(rt: HostRuntime) -> Result<(), Fail> {
    let alloc = rt.alloc();
    let script = "vertices people from \"people.csv\" (name: text, age: int); print table people;";
    let mut files = files_of(alloc, script.as_bytes(), ("", b""), 7, None)?;
    let mut cluster = Cluster::empty(alloc);
    let out = "id,name,age\n1,bob,25\n2,eve,17\n3,ann,30\n";
    assert_ends_on(
        &rt,
        alloc,
        &mut cluster,
        &ON_TWO,
        &mut files,
        NONE,
        (out, "", 0),
    )?;
    assert!(rt;
        has_turns(
            &cluster,
            &[
                ('s', 0, 0, 0),
                ('s', 1, 0, 1),
                ('f', 0, 0, 0),
                ('f', 1, 0, 1),
            ]
        )
    );
    Ok(())
}

#[test]
fn the_least_fault_of_the_partitions(rt: HostRuntime) -> Result<(), Fail> {
    let alloc = rt.alloc();
    let script = after_graph(
        alloc,
        "mapvertices h = g (name: v.name, x: 1 / (v.id / 2 - 1)); print vertices h;",
    )?;
    let mut files = files_of(alloc, script.as_str().as_bytes(), ("", b""), 7, None)?;
    let err = "fault: statement 4, vertex 2, expression 1: divide by zero\n";
    assert_ends(&rt, alloc, &ON_TWO, &mut files, NONE, ("", err, 1))
}
