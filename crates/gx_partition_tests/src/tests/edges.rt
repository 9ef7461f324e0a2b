//! Parallel edges, equal ones, a self loop, no edge, and both extremes of identifiers.

use super::support::{assert_edges, edges_of, number_of, row_of};
use gx_epart::{EPart, edge_order_is_unique};
use gx_rows::{Cause, EvalStop, PartStop, RowKey, Vid};
use std::alloc::Global;
use std::process::Abort;
use std::test::Fail;

// An end is an identifier, whether it is a source and whether it is a destination.
fn assert_ends(rt: &impl Abort, part: &EPart, expected: &[(i64, bool, bool)]) -> Result<(), Fail> {
    let ends = part.ends()?;
    assert_eq!(rt; ends.len() as usize, expected.len());
    for slot in 0..ends.len() {
        let end = ends.end(slot);
        let found = (end.0.0, end.1.src, end.1.dst);
        assert_eq!(rt; Some(&found), expected.get(slot as usize));
    }
    Ok(())
}

fn assert_sorted(
    rt: &impl Abort,
    alloc: Global,
    edges: &[(i64, i64, i64)],
    sorted: &[(i64, i64, i64)],
    reversed: &[(i64, i64, i64)],
) -> Result<(), Fail> {
    let part = edges_of(rt, alloc, edges)?;
    assert_edges(rt, &part, sorted);
    assert_edges(rt, &part.reverse()?, reversed);
    Ok(())
}

#[test]
fn sorts_and_reverses(rt: HostRuntime) -> Result<(), Fail> {
    let edges = [(1, 2, 4), (2, 3, 1), (3, 1, 7), (1, 2, 6)];
    let sorted = [(1, 2, 4), (1, 2, 6), (2, 3, 1), (3, 1, 7)];
    let reversed = [(1, 3, 7), (2, 1, 4), (2, 1, 6), (3, 2, 1)];
    assert_sorted(&rt, rt.alloc(), &edges, &sorted, &reversed)?;

    let equal = [(5, 6, 1), (5, 6, 1)];
    assert_sorted(&rt, rt.alloc(), &equal, &equal, &[(6, 5, 1), (6, 5, 1)])?;
    let loops = [(9, 9, 1)];
    assert_sorted(&rt, rt.alloc(), &loops, &loops, &loops)?;
    assert_sorted(&rt, rt.alloc(), &[], &[], &[])?;

    edge_order_is_unique();
    let edges = [(i64::MAX, i64::MIN, 2), (i64::MIN, i64::MAX, 1)];
    let sorted = [(i64::MIN, i64::MAX, 1), (i64::MAX, i64::MIN, 2)];
    let reversed = [(i64::MIN, i64::MAX, 2), (i64::MAX, i64::MIN, 1)];
    assert_sorted(&rt, rt.alloc(), &edges, &sorted, &reversed)
}

const FOUR_EDGES: [(i64, i64, i64); 4] = [(1, 2, 4), (2, 3, 1), (3, 1, 7), (1, 2, 6)];

#[test]
fn lists_the_ends(rt: HostRuntime) -> Result<(), Fail> {
    let part = edges_of(&rt, rt.alloc(), &FOUR_EDGES)?;
    let ends = [(1, true, true), (2, true, true), (3, true, true)];
    assert_ends(&rt, &part, &ends)?;
    assert_eq!(&rt; part.distinct_ends(), [Vid(1), Vid(2), Vid(3)].as_slice());
    Ok(())
}

// The rows of the parallel edges change their order.
#[test]
fn maps_edges(rt: HostRuntime) -> Result<(), Fail> {
    let part = edges_of(&rt, rt.alloc(), &FOUR_EDGES)?;
    match part.map(|_, _, row| Ok(row_of(10i64.wrapping_sub(number_of(row))))) {
        Ok(mapped) => assert_edges(&rt, &mapped, &[(1, 2, 4), (1, 2, 6), (2, 3, 9), (3, 1, 3)]),
        Err(_) => assert!(&rt; false),
    }
    Ok(())
}

#[test]
fn filters_edges(rt: HostRuntime) -> Result<(), Fail> {
    let part = edges_of(&rt, rt.alloc(), &FOUR_EDGES)?;
    match part.filter(|_, _, row| Ok(number_of(row) > 5)) {
        Ok(filtered) => {
            assert_edges(&rt, &filtered, &[(1, 2, 6), (3, 1, 7)]);
            assert_eq!(&rt; filtered.distinct_ends().len(), 3);
            let ends = [(1, true, true), (2, false, true), (3, true, false)];
            assert_ends(&rt, &filtered, &ends)
        }
        Err(_) => {
            assert!(&rt; false);
            Ok(())
        }
    }
}

// The ends of the edge that is left are numbered anew.
#[test]
fn filters_to_one_edge(rt: HostRuntime) -> Result<(), Fail> {
    let part = edges_of(&rt, rt.alloc(), &FOUR_EDGES)?;
    match part.filter(|_, _, row| Ok(number_of(row) > 6)) {
        Ok(one) => {
            assert_edges(&rt, &one, &[(3, 1, 7)]);
            assert_ends(&rt, &one, &[(1, false, true), (3, true, false)])
        }
        Err(_) => {
            assert!(&rt; false);
            Ok(())
        }
    }
}

// Of the edges with 6 and 7, that with 6 comes first in edge order, though it was given last.
#[test]
fn faults_on_the_first_edge(rt: HostRuntime) -> Result<(), Fail> {
    let part = edges_of(&rt, rt.alloc(), &FOUR_EDGES)?;
    let stop = EvalStop::Fault {
        cause: Cause::Overflow,
        expr: 3,
    };
    let mapped = part.map(|_, _, row| if number_of(row) > 5 {
        Err(stop)
    } else {
        Ok(row_of(0))
    });
    assert_fault(&rt, mapped);
    let filtered = part.filter(|_, _, row| if number_of(row) > 5 {
        Err(stop)
    } else {
        Ok(true)
    });
    assert_fault(&rt, filtered);
    Ok(())
}

fn assert_fault(rt: &impl Abort, returned: Result<EPart, PartStop>) {
    let key = RowKey::Edge(Vid(1), Vid(2), row_of(6));
    let fault = PartStop::Fault {
        key,
        expr: 3,
        cause: Cause::Overflow,
    };
    match returned {
        Ok(_) => assert!(rt; false),
        Err(stop) => assert_eq!(rt; stop, fault),
    }
}
