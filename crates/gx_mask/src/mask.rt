//! A mask, stored as bits.
//!
//! No bit from `len` on is ever 1, so `count` and `next_set` need not look at `len`, and the last
//! `u64`s of two masks are combined as the others are. Each method keeps that.

ghost use Rattle.std.specs.Prelude.{◌≡◌, ◌<◌, ◌^◌, ◌∷◌, [], length, true, false, map, count_by, IfOk, Some, ℕ, replicate, slice_index, slice_get, slice_set, bit_and};
ghost use Rattle.std.specs.Int.{bit_not, w64};
ghost use Rattle.std.specs.List.{zip};
ghost use Rattle.gx_mask.specs.Operations.{and, and_not, next_true};

use gx_rows::NoMemory;
use std::alloc::{AllocError, Global};
use std::marker::Model;

/// A list of bools, fewer than 2^32 of them. Index `i` is bit `i % 64` of `u64s[i / 64]`.
#[derive(Debug, Drop)]
pub struct Mask {
    u64s: Vec<u64>,
    len: u32,
}

impl Model for Mask {
    ghost use Rattle.std.specs.Prelude.{List, Bool};
    ghost use Rattle.gx_mask.specs.U64s.{HasNoStrayBits, bits_of};

    ghost Value = { List Bool };

    ghost view = { λ m. bits_of m.u64s.items m.len };

    ghost invariant = { λ m. HasNoStrayBits m.u64s.items m.len };
}

impl Mask {
    /// A mask of length `len`, all of it false.
    ///
    /// # Errors
    ///
    /// `NoMemory` if memory for the mask runs out.
    pub fn new(alloc: Global, len: u32) -> Result<Mask, NoMemory>
        ensures { IfOk result (λ m. m ≡ replicate len false) }
    {
        let u64s = vec![in alloc; 0u64; len.div_ceil(64) as usize]?;
        Ok(Mask { u64s, len })
    }

    /// A mask of length `len`, all of it true.
    ///
    /// # Errors
    ///
    /// `NoMemory` if memory for the mask runs out.
    pub fn full(alloc: Global, len: u32) -> Result<Mask, NoMemory>
        ensures { IfOk result (λ m. m ≡ replicate len true) }
    {
        let mut u64s = vec![in alloc; u64::MAX; len.div_ceil(64) as usize]?;
        if len % 64 != 0 {
            u64s[(len / 64) as usize] = (1u64 << (len % 64)) - 1;
        }
        Ok(Mask { u64s, len })
    }

    /// The length: the number of indices.
    pub fn len(&self) -> u32
        ensures count { result ≡ length self.now }
        ensures fits_u32 { length self.now < 2 ^ 32 }
    {
        self.len
    }

    /// Whether index `i`, counted from 0, is true.
    pub fn test(&self, i: u32) -> bool
        requires { i < length self.now }
        ensures { slice_get self.now i ≡ Some result }
    {
        (self.u64s[(i / 64) as usize] >> (i % 64)) & 1 == 1
    }

    /// Makes index `i` true.
    pub fn set(&mut self, i: u32)
        requires { i < length self.old }
        ensures { self.new ≡ slice_set self.old i true }
    {
        self.u64s[(i / 64) as usize] |= 1u64 << (i % 64);
    }

    /// Makes index `i` false.
    pub fn clear(&mut self, i: u32)
        requires { i < length self.old }
        ensures { self.new ≡ slice_set self.old i false }
    {
        self.u64s[(i / 64) as usize] &= !(1u64 << (i % 64));
    }

    /// The mask of the indices that are true in both.
    ///
    /// # Errors
    ///
    /// `NoMemory` if memory for the mask runs out.
    pub fn and(&self, alloc: Global, other: &Mask) -> Result<Mask, NoMemory>
        requires { length self.now ≡ length other.now }
        ensures { IfOk result (λ m. m ≡ and self.now other.now) }
    {
        let u64s = and_u64s(alloc, self.u64s.as_slice(), other.u64s.as_slice())?;
        let len = self.len;
        Ok(Mask { u64s, len })
    }

    /// The mask of the indices that are true here and false in `other`.
    ///
    /// # Errors
    ///
    /// `NoMemory` if memory for the mask runs out.
    pub fn minus(&self, alloc: Global, other: &Mask) -> Result<Mask, NoMemory>
        requires { length self.now ≡ length other.now }
        ensures { IfOk result (λ m. m ≡ and_not self.now other.now) }
    {
        let u64s = and_not_u64s(alloc, self.u64s.as_slice(), other.u64s.as_slice())?;
        let len = self.len;
        Ok(Mask { u64s, len })
    }

    /// How many indices are true.
    pub fn count(&self) -> u32
        ensures { result ≡ count_by (λ b. b) self.now }
    {
        let mut total = 0u32;
        'u64s: for bits in &self.u64s {
            total += bits.count_ones();
        }
        total
    }

    /// The first index from `from` on that is true, or `None` if there is none. `from` may be any
    /// number.
    pub fn next_set(&self, from: u32) -> Option<u32>
        ensures { result ≡ next_true from self.now }
    {
        'u64s: for q in (from / 64) as usize..self.u64s.len() {
            // The bits before `from`, which are in the first of these u64s alone.
            let skipped = from.saturating_sub(64 * q as u32);
            let rest = self.u64s[q] >> skipped;
            if rest != 0 {
                return Some(64 * q as u32 + skipped + rest.trailing_zeros());
            }
        }
        None
    }
}

// The bits that are 1 in `a` and in `b`.
fn and_u64s(alloc: Global, a: &[u64], b: &[u64]) -> Result<Vec<u64>, AllocError>
    ensures { IfOk result (λ v. v.items ≡ map (λ p. bit_and p.0 p.1) (zip a.now b.now)) }
{
    a.iter().zip(b).map(|(x, y)| *x & *y).collect(alloc)
}

// The bits that are 1 in `a` and 0 in `b`.
fn and_not_u64s(alloc: Global, a: &[u64], b: &[u64]) -> Result<Vec<u64>, AllocError>
    ensures exact { IfOk result
        (λ v. v.items ≡ map (λ p. bit_and p.0 (bit_not w64 p.1)) (zip a.now b.now)) }
    // The caller needs it: the bits of `!` are known for numbers below 2^64 alone.
    ensures fits_u64 { (q : ℕ) → slice_index b.now q < 2 ^ 64 }
{
    a.iter().zip(b).map(|(x, y)| *x & !*y).collect(alloc)
}
