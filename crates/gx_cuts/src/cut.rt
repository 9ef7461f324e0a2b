//! The place of an edge under each cut: its partition.

ghost use Rattle.std.specs.Prelude.{◌≡◌, ◌<◌, ◌≤◌, ◌%◌, ◌^◌};
ghost use Rattle.std.specs.Int.{int_max, int_min};
ghost use Rattle.gx_cuts.specs.Places.{place_of, random_place};

use crate::grid::two_d_place;
use crate::mixing::{mix, part_of, vertex_part};
use gx_rows::Cut;

/// The partition of the edge from `src` to `dst` among `parts` partitions. `ordinal` is the
/// position of the edge in its file, counted from 0.
pub fn place(cut: Cut, parts: u32, src: i64, dst: i64, ordinal: u64) -> u32
    requires { 1 ≤ parts }
    ensures exact { result ≡ place_of cut parts src dst ordinal }
    ensures below { result < parts }
{
    match cut {
        Cut::OneD => vertex_part(parts, src),
        Cut::TwoD => two_d_place(parts, src, dst),
        Cut::Random => hashed_place(parts, src, dst),
        Cut::Canonical => hashed_place(parts, src.min(dst), src.max(dst)),
        Cut::Rows => part_of(parts, ordinal),
    }
}

/// The partition of an edge by both of its ends, in this order.
fn hashed_place(parts: u32, src: i64, dst: i64) -> u32
    requires { 1 ≤ parts }
    ensures exact { result ≡ random_place parts src dst }
    ensures below { result < parts }
{
    let both = mix(src).wrapping_add_signed(dst);
    part_of(parts, mix(both.cast_signed()))
}
