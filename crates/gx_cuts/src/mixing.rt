//! Mixes identifiers, so that identifiers near each other fall into different partitions.
//!
//! The shifts and the factor decide the partition of every row, so a change moves them all.

ghost use Rattle.std.specs.Prelude.{◌≡◌, ◌<◌, ◌≤◌, ◌%◌};
ghost use Rattle.gx_cuts.specs.Mixing.{mix_of};

/// A hash of `x`: its 64 bits, xor-shifted, multiplied and xor-shifted again. The hash of 0 is 0.
pub fn mix(x: i64) -> u64
    ensures { result ≡ mix_of x }
{
    let z = x.cast_unsigned();
    let z = (z ^ (z >> 33)).wrapping_mul(0xff51_afd7_ed55_8ccd);
    z ^ (z >> 33)
}

/// The partition of the vertex `v` among `parts` partitions.
pub fn vertex_part(parts: u32, v: i64) -> u32
    requires { 1 ≤ parts }
    ensures exact { result ≡ mix_of v % parts }
    ensures below { result < parts }
{
    part_of(parts, mix(v))
}

/// The number `n` modulo `parts`, as a partition.
pub(crate) fn part_of(parts: u32, n: u64) -> u32
    requires { 1 ≤ parts }
    ensures exact { result ≡ n % parts }
    ensures below { result < parts }
{
    let log = parts.ilog2();
    if parts == 1 << log {
        // A mask takes a fraction of the time of a division.
        (n & ((1 << log) - 1)) as u32
    } else {
        (n % parts as u64) as u32
    }
}
