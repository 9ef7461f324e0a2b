//! Three vertices, of which two have rows, and five edges, worked by hand. By the hashes 1, 3 and 9
//! are in the first of two vertex partitions, and 2 is in the second.

ghost use Rattle.std.specs.Prelude.{◌≢◌, ◌<◌};
ghost use Rattle.gx_rows.specs.declared.cut.Cut.TheVariants as cut_of;

use super::support::{assert_edges, edges_of, number_of, row_of};
use gx_epart::EPart;
use gx_gops::{add_missing, move_edges};
use gx_rows::{Cut, NoMemory, Vid};
use gx_vpart::VPart;
use std::alloc::Global;
use std::process::Abort;
use std::rc::Rc;
use std::test::Fail;

// The rows of 1 and 3, not in order.
fn two_rows(alloc: Global) -> Result<VPart, NoMemory> {
    let mut rows = Vec::new(alloc);
    rows.push((Vid(3), row_of(30)))?;
    rows.push((Vid(1), row_of(10)))?;
    VPart::of(alloc, rows)
}

// The five edges, in two partitions.
fn five_edges(rt: &impl Abort, alloc: Global) -> Result<Vec<Rc<EPart>>, Fail> {
    let mut parts = Vec::new(alloc);
    let first = edges_of(rt, alloc, &[(3, 1, 7), (1, 2, 6)])?;
    parts.push(Rc::new(alloc, first)?)?;
    let second = edges_of(rt, alloc, &[(9, 9, 1), (2, 3, 1), (1, 2, 4)])?;
    parts.push(Rc::new(alloc, second)?)?;
    Ok(parts)
}

fn assert_vertices(rt: &impl Abort, part: &VPart, expected: &[(i64, i64)]) {
    assert_eq!(rt; part.rows().count(), expected.len());
    for (id, number) in expected {
        assert_eq!(rt; part.row(Vid(*id)).map(number_of), Some(*number));
    }
}

// What the five edges add to these rows has these numbers.
fn assert_added(
    rt: &impl Abort,
    alloc: Global,
    known: Option<&VPart>,
    part: u32,
    parts: u32,
    expected: &[(i64, i64)],
) -> Result<(), Fail>
    requires in_range { part < parts }
{
    let edges = five_edges(rt, alloc)?;
    let made = add_missing(alloc, known, edges.as_slice(), &row_of(0), part, parts)?;
    assert_vertices(rt, &made, expected);
    Ok(())
}

#[test]
fn adds_missing_ends(rt: HostRuntime) -> Result<(), Fail> {
    let alloc = rt.alloc();
    assert_added(&rt, alloc, None, 1, 2, &[(2, 0)])?;
    assert_added(&rt, alloc, None, 0, 2, &[(1, 0), (3, 0), (9, 0)])?;
    Ok(())
}

#[test]
fn adds_missing_ends_beside_rows(rt: HostRuntime) -> Result<(), Fail> {
    let alloc = rt.alloc();
    let known = two_rows(alloc)?;
    assert_added(&rt, alloc, Some(&known), 0, 2, &[(1, 10), (3, 30), (9, 0)])?;
    Ok(())
}

#[test]
fn adds_missing_ends_to_a_lone_part(rt: HostRuntime) -> Result<(), Fail> {
    let alloc = rt.alloc();
    let known = two_rows(alloc)?;
    let all = [(1, 10), (2, 0), (3, 30), (9, 0)];
    assert_added(&rt, alloc, Some(&known), 0, 1, &all)?;
    Ok(())
}

// Of the rows to which the ends were added, nothing is missing.
#[test]
fn adds_no_end_twice(rt: HostRuntime) -> Result<(), Fail> {
    let alloc = rt.alloc();
    let edges = five_edges(&rt, alloc)?;
    let known = two_rows(alloc)?;
    let first = add_missing(alloc, Some(&known), edges.as_slice(), &row_of(0), 0, 2)?;
    assert_added(&rt, alloc, Some(&first), 0, 2, &[(1, 10), (3, 30), (9, 0)])?;
    Ok(())
}

#[test]
fn adds_nothing_of_no_edges(rt: HostRuntime) -> Result<(), Fail> {
    let alloc = rt.alloc();
    let none = add_missing(alloc, None, &[], &row_of(0), 0, 2)?;
    assert_vertices(&rt, &none, &[]);
    let known = two_rows(alloc)?;
    let same = add_missing(alloc, Some(&known), &[], &row_of(0), 0, 2)?;
    assert_vertices(&rt, &same, &[(1, 10), (3, 30)]);
    Ok(())
}

// The loop at 9 is dropped, and so 9 is no end.
#[test]
fn adds_no_end_of_a_dropped_edge(rt: HostRuntime) -> Result<(), Fail> {
    let alloc = rt.alloc();
    let edges = edges_of(&rt, alloc, &[(9, 9, 1), (2, 3, 4)])?;
    match edges.filter(|_, _, row| Ok(number_of(row) > 1)) {
        Ok(kept) => {
            let kept = [Rc::new(alloc, kept)?];
            let whole = add_missing(alloc, None, kept.as_slice(), &row_of(0), 0, 1)?;
            assert_vertices(&rt, &whole, &[(2, 0), (3, 0)]);
        }
        Err(_) => assert!(&rt; false),
    }
    Ok(())
}

fn assert_moved(
    rt: &impl Abort,
    alloc: Global,
    cut: Cut,
    part: u32,
    parts: u32,
    expected: &[(i64, i64, i64)],
) -> Result<(), Fail>
    requires by_ends { cut ≢ cut_of.Rows }
    requires in_range { part < parts }
{
    let edges = five_edges(rt, alloc)?;
    let moved = move_edges(alloc, edges.as_slice(), cut, part, parts)?;
    assert_edges(rt, &moved, expected);
    Ok(())
}

#[test]
fn moves_edges_by_the_source(rt: HostRuntime) -> Result<(), Fail> {
    let alloc = rt.alloc();
    let five = [(1, 2, 4), (1, 2, 6), (2, 3, 1), (3, 1, 7), (9, 9, 1)];
    let of_odd = [(1, 2, 4), (1, 2, 6), (3, 1, 7), (9, 9, 1)];
    assert_moved(&rt, alloc, Cut::OneD, 0, 1, &five)?;
    assert_moved(&rt, alloc, Cut::OneD, 0, 2, &of_odd)?;
    assert_moved(&rt, alloc, Cut::OneD, 1, 2, &[(2, 3, 1)])?;
    assert_moved(&rt, alloc, Cut::OneD, 1, 3, &[])?;
    Ok(())
}

// Of two partitions the three cuts make the same.
#[test]
fn moves_edges_by_both_ends(rt: HostRuntime) -> Result<(), Fail> {
    let alloc = rt.alloc();
    let five = [(1, 2, 4), (1, 2, 6), (2, 3, 1), (3, 1, 7), (9, 9, 1)];
    let first = [(2, 3, 1), (3, 1, 7), (9, 9, 1)];
    let second = [(1, 2, 4), (1, 2, 6)];
    assert_moved(&rt, alloc, Cut::TwoD, 0, 1, &five)?;
    assert_moved(&rt, alloc, Cut::TwoD, 0, 2, &first)?;
    assert_moved(&rt, alloc, Cut::TwoD, 1, 2, &second)?;
    assert_moved(&rt, alloc, Cut::TwoD, 1, 3, &second)?;
    assert_moved(&rt, alloc, Cut::Random, 0, 1, &five)?;
    assert_moved(&rt, alloc, Cut::Random, 0, 2, &first)?;
    assert_moved(&rt, alloc, Cut::Random, 1, 2, &second)?;
    assert_moved(&rt, alloc, Cut::Random, 1, 3, &[(9, 9, 1)])?;
    assert_moved(&rt, alloc, Cut::Canonical, 0, 1, &five)?;
    assert_moved(&rt, alloc, Cut::Canonical, 0, 2, &first)?;
    assert_moved(&rt, alloc, Cut::Canonical, 1, 2, &second)?;
    assert_moved(&rt, alloc, Cut::Canonical, 1, 3, &[(3, 1, 7), (9, 9, 1)])?;
    let none = move_edges(alloc, &[], Cut::Canonical, 0, 2)?;
    assert_edges(&rt, &none, &[]);
    Ok(())
}
