//! Partitions that several tests use, and how their rows are compared. Most rows are one number.

use gx_epart::EPart;
use gx_rows::{NoMemory, Row, Text, Value, Vid};
use gx_vpart::VPart;
use std::alloc::Global;
use std::process::Abort;
use std::test::Fail;

pub(super) fn row_of(number: i64) -> Row {
    Row::one(Value::Int(number))
}

/// The last value, if it is a number; 99 if not.
pub(super) fn number_of(row: &Row) -> i64 {
    match row.as_slice().last() {
        Some(Value::Int(number)) => *number,
        _ => 99,
    }
}

fn person(alloc: Global, name: &str, age: i64) -> Result<Row, NoMemory> {
    let name = Value::Text(Text::of(alloc, name)?);
    Ok(Row::two(name, Value::Int(age)))
}

/// The three people of the examples, in the order of a data file.
pub(super) fn people(alloc: Global) -> Result<VPart, NoMemory> {
    let mut rows = Vec::new(alloc);
    rows.push((Vid(3), person(alloc, "ann", 30)?))?;
    rows.push((Vid(1), person(alloc, "bob", 25)?))?;
    rows.push((Vid(2), person(alloc, "eve", 17)?))?;
    VPart::of(alloc, rows)
}

/// The partition has these identifiers with these numbers, in this order.
pub(super) fn assert_rows(rt: &impl Abort, part: &VPart, expected: &[(i64, i64)]) {
    assert_eq!(rt; part.rows().count(), expected.len());
    for ((id, row), expected) in part.rows().zip(expected) {
        assert_eq!(rt; (id.0, number_of(row)), *expected);
    }
}

/// A partition of edges, each of which is a source, a destination and the number of its row.
pub(super) fn edges_of(
    rt: &impl Abort,
    alloc: Global,
    edges: &[(i64, i64, i64)],
) -> Result<EPart, Fail> {
    let mut list = Vec::new(alloc);
    for (src, dst, number) in edges {
        list.push((Vid(*src), Vid(*dst), row_of(*number)))?;
    }
    assert!(rt; list.len() < 10);
    Ok(EPart::from_edges(alloc, list)?)
}

/// The partition has these edges, in this order.
pub(super) fn assert_edges(rt: &impl Abort, part: &EPart, expected: &[(i64, i64, i64)]) {
    assert_eq!(rt; part.len() as usize, expected.len());
    for i in 0..part.len() {
        let (src, dst, row) = part.edge(i);
        let edge = (src.0, dst.0, number_of(row));
        assert_eq!(rt; Some(&edge), expected.get(i as usize));
    }
}
