//! Masks of lengths around 64 and of many u64s.

use gx_mask::Mask;
use gx_rows::NoMemory;

#[test]
fn masks_by_length(rt: HostRuntime) -> Result<(), NoMemory> {
    // A length, and the first even index from 63 on.
    for (len, next) in [
        (0, None),
        (63, None),
        (64, None),
        (65, Some(64)),
        (1000, Some(64)),
    ] {
        let full = Mask::full(rt.alloc(), len)?;
        let mut odd = Mask::new(rt.alloc(), len)?;
        for i in 0..len {
            if i % 2 == 1 && i < odd.len() {
                odd.set(i);
            }
        }
        assert!(rt; full.len() == odd.len());
        let both = full.and(rt.alloc(), &odd)?;
        let even = full.minus(rt.alloc(), &odd)?;
        assert_eq!(rt; full.count(), len);
        assert_eq!(rt; both.count(), len / 2);
        assert_eq!(rt; even.count(), len.div_ceil(2));
        assert_eq!(rt; even.next_set(63), next);
    }
    Ok(())
}

#[test]
fn sets_and_clears_an_index(rt: HostRuntime) -> Result<(), NoMemory> {
    let mut mask = Mask::new(rt.alloc(), 1000)?;
    assert!(rt; mask.len() == 1000);
    mask.set(999);
    assert!(rt; mask.len() == 1000);
    assert!(rt; mask.test(999));
    mask.clear(999);
    assert_eq!(rt; mask.count(), 0);
    Ok(())
}
