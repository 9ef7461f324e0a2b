//! Two partitions of vertices whose identifiers interleave, and two of edges with an edge in both,
//! worked by hand.

ghost use Rattle.std.specs.Prelude.{◌<◌};

use super::support::assert_shown;
use gx_epart::EPart;
use gx_exec_answers::{edge_count_answer, edges_answer, vertex_count_answer, vertices_answer};
use gx_rows::{NoMemory, Row, RowType, Text, Value, ValueKind, Vid};
use gx_vpart::VPart;
use std::alloc::Global;
use std::process::Abort;
use std::test::Fail;

fn row_of(number: i64) -> Row {
    Row::one(Value::Int(number))
}

fn weight_type(alloc: Global) -> Result<RowType, NoMemory> {
    let mut columns = Vec::new(alloc);
    columns.push((Text::of(alloc, "w")?, ValueKind::Int))?;
    Ok(RowType::of(columns))
}

fn odd_vertices(alloc: Global) -> Result<VPart, NoMemory> {
    let mut rows = Vec::new(alloc);
    rows.push((Vid(3), row_of(30)))?;
    rows.push((Vid(1), row_of(6)))?;
    VPart::of(alloc, rows)
}

// Vertex 1 is in both partitions.
fn low_vertices(alloc: Global) -> Result<VPart, NoMemory> {
    let mut rows = Vec::new(alloc);
    rows.push((Vid(1), row_of(5)))?;
    rows.push((Vid(2), row_of(20)))?;
    VPart::of(alloc, rows)
}

// Each edge is a source, a destination and the one number of its row.
fn edges_of(rt: &impl Abort, alloc: Global, edges: &[(i64, i64, i64)]) -> Result<EPart, Fail> {
    let mut list = Vec::new(alloc);
    for (src, dst, number) in edges {
        list.push((Vid(*src), Vid(*dst), row_of(*number)))?;
    }
    assert!(rt; list.len() < 10);
    Ok(EPart::from_edges(alloc, list)?)
}

// The vertices of these partitions, whose rows have one column, are printed so.
fn assert_vertices(
    rt: &impl Abort,
    alloc: Global,
    parts: &[&VPart],
    expected: &str,
) -> Result<(), Fail> {
    let weight = weight_type(alloc)?;
    let answer = vertices_answer(alloc, Some(&weight), parts)?;
    assert_shown(rt, alloc, &answer, expected)
}

#[test]
fn answers_with_vertices(rt: HostRuntime) -> Result<(), Fail> {
    let alloc = rt.alloc();
    let odd = odd_vertices(alloc)?;
    assert_vertices(&rt, alloc, &[&odd], "id w /1 6 /3 30 /")?;
    let low = low_vertices(alloc)?;
    assert_vertices(&rt, alloc, &[&odd, &low], "id w /1 6 /1 5 /2 20 /3 30 /")?;
    assert_vertices(&rt, alloc, &[&low, &odd], "id w /1 5 /1 6 /2 20 /3 30 /")?;
    let count = vertex_count_answer(alloc, &[&odd, &low])?;
    assert_shown(&rt, alloc, &count, "count /4 /")
}

// The edges of these partitions, whose rows have one column, are printed so.
fn assert_edges(
    rt: &impl Abort,
    alloc: Global,
    parts: &[&EPart],
    expected: &str,
) -> Result<(), Fail> {
    let weight = weight_type(alloc)?;
    let answer = edges_answer(alloc, Some(&weight), parts)?;
    assert_shown(rt, alloc, &answer, expected)
}

#[test]
fn answers_with_edges(rt: HostRuntime) -> Result<(), Fail> {
    let alloc = rt.alloc();
    let first = edges_of(&rt, alloc, &[(3, 1, 7), (1, 2, 4)])?;
    assert_edges(&rt, alloc, &[&first], "src dst w /1 2 4 /3 1 7 /")?;
    let second = edges_of(&rt, alloc, &[(2, 3, 1), (1, 2, 4), (1, 2, 1)])?;
    let both = "src dst w /1 2 1 /1 2 4 /1 2 4 /2 3 1 /3 1 7 /";
    assert_edges(&rt, alloc, &[&first, &second], both)?;
    let count = edge_count_answer(alloc, &[&first, &second])?;
    assert_shown(&rt, alloc, &count, "count /5 /")
}

#[test]
fn answers_with_nothing(rt: HostRuntime) -> Result<(), Fail> {
    let alloc = rt.alloc();
    let vertices = vertices_answer(alloc, None, &[])?;
    assert_shown(&rt, alloc, &vertices, "id /")?;
    let edges = edges_answer(alloc, None, &[])?;
    assert_shown(&rt, alloc, &edges, "src dst /")?;
    let count = edge_count_answer(alloc, &[])?;
    assert_shown(&rt, alloc, &count, "count /0 /")
}
