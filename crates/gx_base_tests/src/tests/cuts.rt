//! Hashes and places that were computed apart from this crate.

use gx_cuts::{mix, place, two_d_bound, vertex_part};
use gx_rows::Cut;

#[test]
fn mixes_identifiers(rt: HostRuntime) {
    for (x, mixed) in [
        (0, 0),
        (1, 0xff51_afd7_92fd_5b26),
        (2, 0xfea3_5faf_a5fa_b64d),
        (3, 0xfdf5_0f87_b6fa_21a4),
        (-1, 0x0955_3999_84aa_9ccc),
        (-5, 0x069b_f8f9_361b_cf48),
    ] {
        assert_eq!(rt; mix(x), mixed, "at {x}");
    }
    assert_eq!(rt; vertex_part(4, 1), 2);
    assert_eq!(rt; vertex_part(64, 1), 38);
}

#[test]
fn places_edges(rt: HostRuntime) {
    for (cut, there, back, far) in [
        (Cut::OneD, 1, 2, 2),
        (Cut::TwoD, 3, 3, 0),
        (Cut::Random, 2, 4, 1),
        (Cut::Canonical, 2, 2, 1),
        (Cut::Rows, 2, 2, 1),
    ] {
        assert_eq!(rt; place(cut, 5, 2, 3, 7), there, "from 2 to 3, {cut:?}");
        assert_eq!(rt; place(cut, 5, 3, 2, 7), back, "from 3 to 2, {cut:?}");
        assert_eq!(rt;
            place(cut, 7, i64::MIN, i64::MAX, u64::MAX),
            far,
            "from end to end, {cut:?}"
        );
    }
    two_d_bound(5, 2);
}
