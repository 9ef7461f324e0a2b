//! Three parts mapped, zipped and folded.

use gx_parts::Parts;
use std::alloc::Global;
use std::process::Abort;
use std::rc::Rc;
use std::test::Fail;

fn parts_of(rt: &impl Abort, alloc: Global, numbers: &[u64]) -> Result<Parts<u64>, Fail> {
    let mut items = Vec::new(alloc);
    for number in numbers {
        items.push(Rc::new(alloc, *number)?)?;
    }
    assert!(rt; items.len() < 4);
    Ok(Parts::of(items))
}

fn assert_parts(rt: &impl Abort, parts: &Parts<u64>, expected: &[u64]) {
    assert_eq!(rt; parts.len() as usize, expected.len());
    for i in 0..parts.len() {
        assert_eq!(rt; Some(parts.part(i)), expected.get(i as usize));
    }
}

// The numbers as digits, so that the result shows each of them and their order.
fn digits(a: u64, b: u64, c: u64) -> u64 {
    a.wrapping_mul(100)
        .wrapping_add(b.wrapping_mul(10))
        .wrapping_add(c)
}

#[test]
fn maps_zips_and_folds(rt: HostRuntime) -> Result<(), Fail> {
    let first = parts_of(&rt, rt.alloc(), &[5, 7, 9])?;
    let mapped = first.map_parts(rt.alloc(), |i, x| Ok(digits(0, i as u64, *x)))?;
    assert_parts(&rt, &mapped, &[5, 17, 29]);

    let second = parts_of(&rt, rt.alloc(), &[3, 2, 1])?;
    assert_eq!(rt; first.len(), second.len());
    let zipped = first.zip_parts(rt.alloc(), &second, |i, x, y| Ok(digits(i as u64, *x, *y)))?;
    assert_parts(&rt, &zipped, &[53, 172, 291]);

    let folded = first.fold_parts(1, |acc, i, x| Ok(digits(acc, i as u64, *x)))?;
    assert_eq!(rt; folded, 1_051_729);
    Ok(())
}
