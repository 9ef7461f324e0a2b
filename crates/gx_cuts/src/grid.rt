//! The square grid of the two-dimensional cut: the row of an edge is that of its source, the column
//! that of its destination, and the cells are the partitions, modulo their count.

ghost use Rattle.std.specs.Prelude.{◌≡◌, ◌<◌, ◌≤◌, ◌+◌, ◌-◌, ◌*◌, ◌%◌, ◌^◌};
ghost use Rattle.gx_cuts.specs.Grid.{IsSide, IsSpreadOver, grid_side};
ghost use Rattle.gx_cuts.specs.Places.{two_d_place as two_d_place_of};

use crate::mixing::{mix, part_of};

/// The side of the smallest square grid with at least `parts` cells.
fn side(parts: u32) -> u32
    requires { 1 ≤ parts }
    ensures least { IsSide parts result }
    ensures exact { result ≡ grid_side parts }
    ensures positive { 1 ≤ result }
    ensures small { result ≤ 2 ^ 16 }
{
    root(parts - 1) + 1
}

// The greatest number whose square is at most `n`. Of a byte it takes four steps, not sixteen.
fn root(n: u32) -> u32
    ensures square { result * result ≤ n }
    ensures next_square { n < (result + 1) * (result + 1) }
    ensures bound { result < 2 ^ 16 }
{
    match u8::try_from(n) {
        Ok(byte) => byte.isqrt() as u32,
        Err(_) => n.isqrt(),
    }
}

/// The partition of an edge by the row of its source and the column of its destination.
pub(crate) fn two_d_place(parts: u32, src: i64, dst: i64) -> u32
    requires { 1 ≤ parts }
    ensures exact { result ≡ two_d_place_of parts src dst }
    ensures below { result < parts }
{
    let side = side(parts);
    let row = part_of(side, mix(src)) as u64;
    let column = part_of(side, mix(dst)) as u64;
    part_of(parts, row * side as u64 + column)
}

/// A law of the two-dimensional cut: the edges at the vertex `v` are in at most `2s - 1`
/// partitions. Here `s` is the least number whose square is at least `parts`.
pub fn two_d_bound(parts: u32, v: i64)
    requires { 1 ≤ parts }
    ensures least_side { IsSide parts (grid_side parts) }
    ensures bounded { IsSpreadOver parts v (2 * grid_side parts - 1) }
{}
