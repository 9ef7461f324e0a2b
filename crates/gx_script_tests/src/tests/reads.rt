//! Actions of a script, read from blocks that are those of no script: what is held is printed.

ghost use Rattle.std.specs.Prelude.{◌≡◌, ◌≤◌, [], All, length, true};
ghost use Rattle.gx_cluster.specs.States.{HoldsContents};
ghost use Rattle.gx_exec_reads.specs.Actions.{IsAction};
ghost use Rattle.gx_lineage.specs.Lineage.{IsBlock};
ghost use Rattle.gx_plan.specs.StmtNodes.{statement_of};

use super::support::{assert_shown, typed};
use gx_cluster::{Cargo, Cluster, Events, Work};
use gx_exec_reads::read_answer;
use gx_exec_work::Block;
use gx_lineage::{BlockId, Dag, NodeId, NodeKind};
use gx_rows::{NoMemory, Row, Text, Value, Vid};
use gx_types::{Typed, TypedStmt};
use gx_vpart::VPart;
use std::alloc::Global;
use std::process::Abort;
use std::rc::Rc;
use std::test::Fail;

const SCRIPT: &str = "vertices people from \"f\" (name: text, age: int); \
    edges follows from \"g\" (since: int); graph g = people, follows default (\"\", 0); \
    print table people; count table people; print edges g;";

// ---- a work that reads no file

// Ann, 3, is in the first block and bob, 1, in the other.
#[derive(Drop)]
struct TwoPeople {
    dag: Dag,
    age_of_bob: i64,
    alloc: Global,
}

impl Work<Block> for TwoPeople {
    ghost lineage = { λ w. w.dag };

    ghost content = { λ w b t. Unit };

    ghost fits = { λ w b ts. Unit };

    ghost freight = { λ w b. [] };

    fn dag(&self) -> &Dag {
        let _ = self.dag.len();
        &self.dag
    }

    fn run(&self, b: BlockId, _inputs: &[Rc<Block>]) -> Result<Block, NoMemory> {
        let part = match b.part {
            0 => one_person(self.alloc, 3, "ann", 30)?,
            _ => one_person(self.alloc, 1, "bob", self.age_of_bob)?,
        };
        Ok(Block::Table(Rc::new(self.alloc, part)?))
    }

    fn cargo(&self, _b: BlockId, _value: &Block) -> Result<Cargo, NoMemory> {
        Ok(Cargo::of(Vec::new(self.alloc)))
    }

    ghost fits_contents = { λ w b ts d h. tt };
}

fn one_person(alloc: Global, id: i64, name: &str, age: i64) -> Result<VPart, NoMemory> {
    let name = Value::Text(Text::of(alloc, name)?);
    let mut rows = Vec::new(alloc);
    rows.push((Vid(id), Row::two(name, Value::Int(age))))?;
    VPart::of(alloc, rows)
}

const BLOCKS: [BlockId; 2] = [
    BlockId {
        node: NodeId(0),
        part: 0,
    },
    BlockId {
        node: NodeId(0),
        part: 1,
    },
];

// A cluster that holds the two blocks.
fn cluster(rt: &impl Abort, alloc: Global, age_of_bob: i64) -> Result<Cluster<Block>, NoMemory> {
    let mut dag = Dag::new(alloc, 2);
    assert!(rt; dag.len() < u64::MAX);
    dag.add(NodeKind::Vertices, &[])?;
    assert!(rt; dag.len() == 1 && dag.parts() == 2);
    let work = TwoPeople {
        dag,
        age_of_bob,
        alloc,
    };
    let mut cluster = Cluster::empty(alloc);
    cluster.configure(2)?;
    cluster.demand(&work, &BLOCKS, &mut Events::none(alloc))?;
    Ok(cluster)
}

// ---- what is printed

fn statement(typed: &Typed, s: u32) -> &TypedStmt
    requires from_one { 1 ≤ s }
    requires within { s ≤ length typed.now }
    ensures { result.now ≡ statement_of typed.now s }
{
    typed.statement(s)
}

fn prints(stmt: &TypedStmt) -> bool
    ensures { result ≡ true → IsAction stmt.now }
{
    match stmt {
        TypedStmt::PrintTable { .. }
        | TypedStmt::CountTable { .. }
        | TypedStmt::PrintEdges { .. } => true,
        _ => false,
    }
}

fn assert_printed(
    rt: &impl Abort,
    alloc: Global,
    typed: &Typed,
    cluster: &Cluster<Block>,
    a: u32,
    expected: &str,
) -> Result<(), Fail> {
    assert!(rt; 1 <= a && a <= typed.len() && prints(statement(typed, a)));
    let answer = read_answer(alloc, typed, cluster, a, &BLOCKS)?;
    assert_shown(rt, alloc, &answer, expected)
}

// With bob of this age: the table, its count, and the edges, of which no block is held.
fn assert_actions(
    rt: &impl Abort,
    alloc: Global,
    typed: &Typed,
    age_of_bob: i64,
    table: &str,
) -> Result<(), Fail> {
    let cluster = cluster(rt, alloc, age_of_bob)?;
    assert_printed(rt, alloc, typed, &cluster, 4, table)?;
    assert_printed(rt, alloc, typed, &cluster, 5, "count /2 /")?;
    assert_printed(rt, alloc, typed, &cluster, 6, "src dst since /")
}

#[test]
fn what_is_held_is_printed(rt: HostRuntime) -> Result<(), Fail> {
    let alloc = rt.alloc();
    let typed = typed(alloc, SCRIPT);
    assert!(&rt; typed.is_some());
    if let Some(typed) = typed {
        assert_actions(&rt, alloc, &typed, 25, "id name age /1 bob 25 /3 ann 30 /")?;
        assert_actions(&rt, alloc, &typed, 99, "id name age /1 bob 99 /3 ann 30 /")?;
    }
    Ok(())
}
