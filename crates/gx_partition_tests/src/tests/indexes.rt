//! Identifiers in order and not in order, with both extremes, found and not found.

use gx_index::{Ends, IdSet, Index};
use gx_rows::{Sides, Vid};
use std::process::Abort;
use std::test::Fail;

fn assert_slots(rt: &impl Abort, index: &Index, ids: &[Vid]) {
    assert_eq!(rt; index.len() as usize, ids.len());
    for (i, id) in ids.iter().enumerate() {
        let slot = i as u32;
        assert_eq!(rt; index.find(*id), Some(slot));
        assert!(rt; slot < index.len());
        assert_eq!(rt; index.id_at(slot), *id);
    }
    assert_eq!(rt; index.find(Vid(3)), None);
    assert_eq!(rt; index.ids(), ids);
}

#[test]
fn finds_the_slot_of_each_identifier(rt: HostRuntime) -> Result<(), Fail> {
    let ascending = [Vid(i64::MIN), Vid(-2), Vid(7), Vid(i64::MAX)];
    let index = Index::of(rt.alloc(), ascending.as_slice())?;
    assert_slots(&rt, &index, ascending.as_slice());
    let mixed = [Vid(7), Vid(i64::MAX), Vid(i64::MIN), Vid(-2)];
    let index = Index::of(rt.alloc(), mixed.as_slice())?;
    assert_slots(&rt, &index, mixed.as_slice());
    let none = Index::of(rt.alloc(), &[])?;
    assert_slots(&rt, &none, &[]);
    Ok(())
}

fn sides(src: bool, dst: bool) -> Sides {
    Sides { src, dst }
}

fn assert_ends(rt: &impl Abort, ends: &Ends, expected: &[(Vid, Sides)]) {
    assert_eq!(rt; ends.len() as usize, expected.len());
    for (i, end) in expected.iter().enumerate() {
        let slot = i as u32;
        assert!(rt; slot < ends.len());
        assert_eq!(rt; ends.end(slot), *end);
    }
}

#[test]
fn lists_ends_with_their_sides(rt: HostRuntime) -> Result<(), Fail> {
    let ends = Ends::of(
        rt.alloc(),
        &[
            (Vid(3), Vid(2)),
            (Vid(9), Vid(9)),
            (Vid(i64::MIN), Vid(i64::MAX)),
            (Vid(1), Vid(2)),
        ],
    )?;
    let expected = [
        (Vid(i64::MIN), sides(true, false)),
        (Vid(1), sides(true, false)),
        (Vid(2), sides(false, true)),
        (Vid(3), sides(true, false)),
        (Vid(9), sides(true, true)),
        (Vid(i64::MAX), sides(false, true)),
    ];
    assert_ends(&rt, &ends, expected.as_slice());
    assert_eq!(rt; ends.side(Vid(i64::MAX)), Some(sides(false, true)));
    assert_eq!(rt; ends.side(Vid(4)), None);
    assert_ends(&rt, &Ends::of(rt.alloc(), &[])?, &[]);
    Ok(())
}

#[test]
fn holds_each_identifier_once(rt: HostRuntime) -> Result<(), Fail> {
    let ids = [Vid(5), Vid(-1), Vid(5), Vid(i64::MAX), Vid(-1)];
    let set = IdSet::of(rt.alloc(), ids.as_slice())?;
    assert_eq!(rt; set.len(), 3);
    let mut last = i64::MIN;
    for id in set.ids() {
        assert!(rt; last < id.0);
        last = id.0;
    }
    assert_eq!(rt; last, i64::MAX);
    assert!(rt; set.holds(Vid(i64::MAX)));
    assert!(rt; !set.holds(Vid(0)));
    Ok(())
}
