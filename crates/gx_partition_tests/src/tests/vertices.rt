//! The three people of the examples, and partitions of numbers, worked by hand.

ghost use Rattle.std.specs.Prelude.{◌≡◌, IfOk};
ghost use Rattle.std.specs.Map.{keys_of};

use super::support::{assert_rows, number_of, people, row_of};
use gx_index::distinct_ids;
use gx_rows::{Cause, EvalStop, NoMemory, PartStop, Row, RowKey, Vid};
use gx_vpart::VPart;
use std::alloc::Global;
use std::test::Fail;

// Each identifier with itself and `more` as its number.
fn vertices(alloc: Global, ids: &[Vid], more: i64) -> Result<Vec<(Vid, Row)>, NoMemory>
    ensures { IfOk result (λ rows. keys_of rows.items ≡ ids.now) }
{
    let mut rows = Vec::new(alloc);
    let mut rest = ids;
    while let [id, after @ ..] = rest {
        rows.push((*id, row_of(id.0.wrapping_add(more))))?;
        rest = after;
    }
    Ok(rows)
}

fn numbers(alloc: Global, ids: &[Vid], more: i64) -> Result<VPart, NoMemory> {
    let ids = distinct_ids(alloc, ids)?;
    let rows = vertices(alloc, ids.as_slice(), more)?;
    if rows.len() < 1000 {
        VPart::of(alloc, rows)
    } else {
        Err(NoMemory)
    }
}

// The least identifier, and two more.
fn low(alloc: Global) -> Result<VPart, NoMemory> {
    numbers(alloc, &[Vid(i64::MIN), Vid(2), Vid(5)], 0)
}

// Two of `low`, the greatest identifier, and one more. The numbers are greater by 10.
fn high(alloc: Global) -> Result<VPart, NoMemory> {
    numbers(alloc, &[Vid(9), Vid(5), Vid(2), Vid(i64::MAX)], 10)
}

// A refusal of memory in place of any refusal.
fn or_no_memory(made: Result<VPart, PartStop>) -> Result<VPart, NoMemory> {
    match made {
        Ok(part) => Ok(part),
        Err(_) => Err(NoMemory),
    }
}

fn adults(alloc: Global) -> Result<VPart, NoMemory> {
    let all = people(alloc)?;
    or_no_memory(all.filter(|_, row| Ok(number_of(row) >= 18)))
}

// Twice the identifiers of the adults.
fn doubled(alloc: Global) -> Result<VPart, NoMemory> {
    let adults = adults(alloc)?;
    or_no_memory(adults.map(|v, _| Ok(row_of(v.0.wrapping_mul(2)))))
}

#[test]
fn maps_people(rt: HostRuntime) -> Result<(), Fail> {
    let all = people(rt.alloc())?;
    assert_rows(&rt, &all, &[(1, 25), (2, 17), (3, 30)]);
    let older = or_no_memory(all.map(|_, row| Ok(row_of(number_of(row).wrapping_add(1)))))?;
    assert_rows(&rt, &older, &[(1, 26), (2, 18), (3, 31)]);
    Ok(())
}

#[test]
fn filters_people(rt: HostRuntime) -> Result<(), Fail> {
    let adults = adults(rt.alloc())?;
    assert_rows(&rt, &adults, &[(1, 25), (3, 30)]);
    assert!(rt; adults.row(Vid(2)).is_none());
    assert_eq!(rt; adults.row(Vid(3)).map(number_of), Some(30));
    Ok(())
}

#[test]
fn maps_and_filters_what_was_kept(rt: HostRuntime) -> Result<(), Fail> {
    let doubled = doubled(rt.alloc())?;
    assert_rows(&rt, &doubled, &[(1, 2), (3, 6)]);
    let nobody = or_no_memory(doubled.filter(|_, _| Ok(false)))?;
    assert_rows(&rt, &nobody, &[]);
    Ok(())
}

#[test]
fn returns_the_fault_of_the_least_identifier(rt: HostRuntime) -> Result<(), Fail> {
    let all = people(rt.alloc())?;
    let cause = Cause::Overflow;
    let stopped = all.map(|v, row| {
        if v.0 >= 2 {
            return Err(EvalStop::Fault { cause, expr: 7 });
        }
        Ok(row.copy()?)
    });
    let key = RowKey::Vertex(Vid(2));
    match stopped {
        Ok(_) => assert!(rt; false),
        Err(stop) => assert_eq!(rt;
            stop,
            PartStop::Fault {
                key,
                expr: 7,
                cause
            }
        ),
    }
    Ok(())
}

#[test]
fn joins_what_both_have(rt: HostRuntime) -> Result<(), Fail> {
    let low = low(rt.alloc())?;
    let high = high(rt.alloc())?;
    let both = or_no_memory(low.inner_join(&high, |_, a, b| {
        Ok(row_of(number_of(a).wrapping_mul(100).wrapping_add(number_of(b))))
    }))?;
    assert_rows(&rt, &both, &[(2, 212), (5, 515)]);
    Ok(())
}

#[test]
fn joins_with_or_without_a_partner(rt: HostRuntime) -> Result<(), Fail> {
    let low = low(rt.alloc())?;
    let high = high(rt.alloc())?;
    let left = or_no_memory(low.left_join(&high, |_, _, b| Ok(row_of(b.map_or(-1, number_of)))))?;
    assert_rows(&rt, &left, &[(i64::MIN, -1), (2, 12), (5, 15)]);
    Ok(())
}

#[test]
fn subtracts_by_identifier(rt: HostRuntime) -> Result<(), Fail> {
    let high = high(rt.alloc())?;
    let low = low(rt.alloc())?;
    let rest = high.minus(&low)?;
    assert_rows(&rt, &rest, &[(9, 19), (i64::MAX, i64::MIN + 9)]);
    Ok(())
}

#[test]
fn subtracts_from_what_was_kept(rt: HostRuntime) -> Result<(), Fail> {
    let low = low(rt.alloc())?;
    let some = or_no_memory(low.filter(|v, _| Ok(v.0 != 5)))?;
    assert_rows(&rt, &some.minus(&low)?, &[]);
    Ok(())
}

// Of 2 the number is another.
#[test]
fn compares_with_changed_rows(rt: HostRuntime) -> Result<(), Fail> {
    let low = low(rt.alloc())?;
    let changed = or_no_memory(low.map(|v, row| Ok(if v.0 == 2 {
        row_of(0)
    } else {
        row.copy()?
    })))?;
    assert_rows(&rt, &low.diff(&changed)?, &[(2, 0)]);
    Ok(())
}

#[test]
fn compares_what_both_have(rt: HostRuntime) -> Result<(), Fail> {
    let low = low(rt.alloc())?;
    let high = high(rt.alloc())?;
    assert_rows(&rt, &low.diff(&high)?, &[(2, 12), (5, 15)]);
    Ok(())
}

#[test]
fn subtracts_from_no_rows(rt: HostRuntime) -> Result<(), Fail> {
    let none = numbers(rt.alloc(), &[], 0)?;
    assert_rows(&rt, &none, &[]);
    let one = numbers(rt.alloc(), &[Vid(7)], 1)?;
    assert_rows(&rt, &none.minus(&one)?, &[]);
    Ok(())
}

#[test]
fn subtracts_no_rows(rt: HostRuntime) -> Result<(), Fail> {
    let one = numbers(rt.alloc(), &[Vid(7)], 1)?;
    let none = numbers(rt.alloc(), &[], 0)?;
    assert_rows(&rt, &one.diff(&none)?, &[]);
    assert_rows(&rt, &one.minus(&none)?, &[(7, 8)]);
    Ok(())
}

#[test]
fn joins_with_no_rows(rt: HostRuntime) -> Result<(), Fail> {
    let one = numbers(rt.alloc(), &[Vid(7)], 1)?;
    let none = numbers(rt.alloc(), &[], 0)?;
    let left = or_no_memory(one.left_join(&none, |_, _, b| Ok(row_of(b.map_or(-1, number_of)))))?;
    assert_rows(&rt, &left, &[(7, -1)]);
    Ok(())
}

#[test]
fn keeps_a_hundred_rows(rt: HostRuntime) -> Result<(), Fail> {
    let alloc = rt.alloc();
    let mut ids = Vec::new(alloc);
    for id in 0..100i64 {
        ids.push(Vid(id))?;
    }
    let all = numbers(alloc, ids.as_slice(), 1)?;
    let even = or_no_memory(all.filter(|v, _| Ok(v.0 % 2 == 0)))?;
    assert_eq!(rt; all.rows().count(), 100);
    assert_eq!(rt; even.rows().count(), 50);
    for (v, number) in [
        (0, Some(1)),
        (31, None),
        (32, Some(33)),
        (98, Some(99)),
        (99, None),
    ] {
        assert_eq!(rt; even.row(Vid(v)).map(number_of), number);
    }
    Ok(())
}
