//! The plan of a script of two loads, a graph, a map and an action, in 1, 2 and 64 parts.

ghost use Rattle.std.specs.Prelude.{◌≡◌, ◌-◌, None, true};
ghost use Rattle.std.specs.List.{AllByRecursion};
ghost use Rattle.gx_plan.specs.Plans.{IsAdded};
ghost use Rattle.gx_types_stmts.specs.StmtNumbers.{named_numbers};

use super::support::typed;
use gx_lineage::{BlockId, NodeId};
use gx_plan::{Kind, Plan, Recipe};
use gx_rows::{Cut, NoMemory};
use gx_types::{Typed, TypedStmt};
use std::alloc::Global;
use std::process::Abort;
use std::rc::Rc;
use std::test::Fail;

const SCRIPT: &str = "vertices t from \"f\" (a: int); edges e from \"f\" (w: int); \
    graph g = t, e default (0); mapvertices h = g (x: v.a); print edges h;";

// Whether `s` is the number of a statement that was added.
fn has(plan: &Plan, s: u32) -> bool
    ensures { result ≡ true → IsAdded plan.now.planned s }
{
    1 <= s && s <= plan.typed().len() && plan.is_added(s)
}

// Whether all statements that this one names were added.
fn names_are_added(plan: &Plan, stmt: &TypedStmt) -> bool
    ensures { result ≡ true → AllByRecursion (IsAdded plan.now.planned) (named_numbers stmt.now) }
{
    match stmt {
        TypedStmt::Vertices { .. } | TypedStmt::Edges { .. } => true,
        TypedStmt::Graph {
            vertices,
            edges,
            ..
        } => has(plan, *vertices) && has(plan, *edges),
        TypedStmt::MapVertices { graph, .. } | TypedStmt::PrintEdges { graph } => {
            has(plan, *graph)
        }
        _ => false,
    }
}

fn extend(rt: &impl Abort, plan: &mut Plan, s: u32) -> Result<(), NoMemory> {
    assert!(rt; 1 <= s && s <= plan.typed().len());
    assert!(rt; !plan.is_added(s) && names_are_added(plan, plan.typed().statement(s)));
    plan.extend(s)
}

fn assert_nodes(rt: &impl Abort, plan: &Plan, s: u32, vertices: Option<u64>, edges: Option<u64>) {
    assert!(rt; has(plan, s));
    assert_eq!(rt; plan.vertices_of(s), vertices.map(NodeId));
    assert_eq!(rt; plan.edges_of(s), edges.map(NodeId));
}

// A block of the graph is computed from its part of the table, and from all edges.
fn assert_graph_inputs(rt: &impl Abort, plan: &Plan, part: u32) -> Result<(), Fail> {
    let node = NodeId(2);
    assert!(rt; node.0 < plan.dag().len() && part < plan.dag().parts());
    assert_eq!(rt; plan.recipe(node), Recipe::of(Kind::Vertices, 3));
    let blocks = plan.dag().inputs(BlockId { node, part })?;
    assert_eq!(rt; blocks.len() as u64, 1 + plan.dag().parts() as u64);
    assert!(rt; blocks.len() > 1);
    assert_eq!(rt;
        blocks[0],
        BlockId {
            node: NodeId(0),
            part
        }
    );
    assert_eq!(rt;
        blocks[1],
        BlockId {
            node: NodeId(1),
            part: 0
        }
    );
    Ok(())
}

fn assert_plan(rt: &impl Abort, alloc: Global, typed: Typed, parts: u32) -> Result<(), Fail> {
    assert!(rt; 1 <= parts && parts <= 64);
    let mut plan = Plan::new(alloc, Rc::new(alloc, typed)?, parts, Cut::OneD)?;
    for s in 1..6 {
        extend(rt, &mut plan, s)?;
    }
    assert_eq!(rt; plan.dag().len(), 4);
    assert_nodes(rt, &plan, 1, Some(0), None);
    assert_nodes(rt, &plan, 2, None, Some(1));
    assert_nodes(rt, &plan, 3, Some(2), Some(1));
    assert_nodes(rt, &plan, 4, Some(3), Some(1));
    assert_graph_inputs(rt, &plan, parts - 1)?;
    // The action demands the edges of `h`, which are those of the load.
    assert!(rt; plan.typed().len() >= 5);
    let phases = plan.phases(5)?;
    assert!(rt; phases.len() == 1 && phases[0].len() == 1);
    assert_eq!(rt; phases[0][0], NodeId(1));
    Ok(())
}

#[test]
fn plans_a_script(rt: HostRuntime) -> Result<(), Fail> {
    for parts in [1, 2, 64] {
        let typed = typed(rt.alloc(), SCRIPT);
        assert!(&rt; typed.is_some());
        if let Some(typed) = typed {
            assert_plan(&rt, rt.alloc(), typed, parts)?;
        }
    }
    Ok(())
}
