//! A sink in memory, for tests and for contracts that name what was written: writes take a few
//! bytes at a time, and chosen calls fail.

ghost use Rattle.std.specs.Prelude.{◌≡◌, ◌≤◌, ◌<◌, length, Some, slice_get, IfOk, IsOk, OnOk, OnErr, is_err};
ghost use Rattle.std.specs.Option.{unwrap_or};
ghost use Rattle.std.specs.List.{All};
ghost use Rattle.std.specs.Io.KnownBytes.{WriteAppends};
ghost use Rattle.gx_outside.specs.Faults.{HasCause};
ghost use Rattle.gx_outside.specs.MemSinks.{empty_sink, fails_write, write_count, after_write, after_failed_write};

use crate::calls::Calls;
use crate::{Failed, Sink};
use gx_rows::NoMemory;
use std::alloc::Global;
use std::marker::Model;

/// A sink that keeps the bytes in memory. Each write takes at most a chosen number of bytes, and
/// the writes with chosen numbers fail. Contracts see its bytes, its room, the most that each write
/// takes, and its counts.
#[derive(Debug, Drop)]
pub struct MemSink {
    bytes: Vec<u8>,
    room: usize,
    pieces: Vec<usize>,
    calls: Calls,
}

impl Model for MemSink {
    ghost use Rattle.std.specs.Prelude.{◌≤◌, ◌+◌, vec_len, vec_capacity};
    ghost use Rattle.std.specs.List.{All};
    ghost use Rattle.gx_outside.specs.MemSinks.{SinkState};

    ghost Value = { SinkState };

    ghost view = { λ s. record {
      bytes = s.bytes.items;
      room = s.room;
      pieces = s.pieces.items;
      counts = s.calls;
    } };

    ghost invariant = { λ s.
        (vec_len s.bytes + s.room ≤ vec_capacity s.bytes) × All (λ n. 1 ≤ n) s.pieces.items };
}

impl MemSink {
    /// An empty sink with room for `room` bytes. Its write of number `i`, counted from 0, takes at
    /// most `pieces[i]` bytes, or all past the end of `pieces`, and fails if `failing` has `i`. All
    /// memory that it needs is taken here.
    ///
    /// # Errors
    ///
    /// `NoMemory` if there is no memory for `room` bytes.
    pub fn of(
        alloc: Global,
        pieces: Vec<usize>,
        failing: Vec<u64>,
        room: usize,
    ) -> Result<MemSink, NoMemory>
        requires { All (λ n. 1 ≤ n) pieces.items }
        ensures starts_empty { IfOk result (λ s. s ≡ empty_sink pieces.items failing.items room) }
        ensures no_room_always_ok { room ≡ 0 → IsOk result }
    {
        Ok(MemSink {
            bytes: Vec::with_capacity(alloc, room)?,
            room,
            pieces,
            calls: Calls::of(failing),
        })
    }

    /// The bytes written so far.
    pub fn bytes(&self) -> &[u8]
        ensures { result.now ≡ self.now.bytes }
    {
        self.bytes.as_slice()
    }

    /// How many faults the writes met, up to the last number of `u64`.
    pub fn fault_count(&self) -> u64
        ensures { result ≡ self.now.counts.faults }
    {
        self.calls.fault_count()
    }
}

impl Sink for MemSink {
    ghost written = { λ s. Some s.bytes };

    ghost faults = { λ s. s.counts.faults };

    /// Takes bytes from the start of `piece`: as many as this write may take and the remaining
    /// capacity holds.
    ///
    /// # Errors
    ///
    /// `Failed` if this write has the number of one that fails, or if the piece is not empty and
    /// the capacity is used up. Both are faults and are counted.
    fn write(&mut self, piece: &[u8]) -> Result<usize, Failed>
        ensures faults_only_rise { self.old.counts.faults ≤ self.new.counts.faults }
        ensures within_piece { IfOk result (λ n. n ≤ length piece.now) }
        ensures takes_some { IfOk result (λ n. 0 < length piece.now → 0 < n) }
        ensures piece_appended { WriteAppends (Some self.old.bytes) (Some self.new.bytes) result
            piece.now }
        ensures err_has_cause { HasCause self.old.counts.faults self.new.counts.faults result }
        ensures fails_exactly { is_err result ≡ fails_write self.old piece.now }
        ensures count_exact { IfOk result (λ n. n ≡ write_count self.old piece.now) }
        ensures state_if_ok { OnOk result (self.new ≡ after_write self.old piece.now) }
        ensures state_if_err { OnErr result (self.new ≡ after_failed_write self.old) }
    {
        let most = item_or(&self.pieces, self.calls.number(), piece.len());
        if self.calls.count_call() {
            return Err(Failed);
        }
        if !piece.is_empty() && self.room == 0 {
            self.calls.add_fault();
            return Err(Failed);
        }
        let count = most.min(piece.len()).min(self.room);
        self.bytes.extend_from_slice(&piece[..count]).unwrap();
        self.room -= count;
        Ok(count)
    }
}

/// The item of this number, counted from 0, or `other` past the end.
fn item_or(pieces: &[usize], number: u64, other: usize) -> usize
    requires { All (λ n. 1 ≤ n) pieces.now }
    ensures item { result ≡ unwrap_or (slice_get pieces.now number) other }
    ensures nonzero { 0 < other → 0 < result }
{
    pieces.get(number as usize).copied().unwrap_or(other)
}
