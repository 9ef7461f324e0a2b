//! Files in memory, for tests and for contracts that name contents: reads return a few bytes at a
//! time, and chosen calls fail.

ghost use Rattle.std.specs.Prelude.{◌≡◌, ◌≤◌, ◌<◌, ◌++◌, ◌&&◌, not, true, false, [], Some, is_some, is_ok, is_err, length, take, drop, min, unwrap_or, option_and_then, IfOk, IfSome, OnOk, OnErr};
ghost use Rattle.std.specs.Io.KnownBytes.{ReadConsumes};
ghost use Rattle.gx_outside.specs.Faults.{HasCause};
ghost use Rattle.gx_outside.specs.Contents.{bytes_under, Opens, HasOpenCause};
ghost use Rattle.gx_outside.specs.Calls.{fails_next};
ghost use Rattle.gx_outside.specs.MemFiles.{contents_of, bytes_at, rest_at, IsWithin, fresh_files, after_open, read_count, after_read, after_failed_read};

use crate::calls::Calls;
use crate::{Failed, Files};
use std::marker::Model;

/// Files in memory. A read returns at most `piece` bytes, and the calls with chosen numbers fail.
/// Contracts see the contents, the most bytes of a read, the rest of the open file, and the counts.
#[derive(Debug, Drop)]
pub struct MemFiles {
    files: Vec<(String, Vec<u8>)>,
    piece: usize,
    position: Option<Position>,
    calls: Calls,
}

/// The index of the open file among the files, and the offset of its next byte.
#[derive(Clone, Copy, Debug)]
struct Position {
    file: usize,
    offset: usize,
}

impl Model for MemFiles {
    ghost use Rattle.std.specs.Prelude.{◌≤◌, option_and_then, IfSome};
    ghost use Rattle.gx_outside.specs.MemFiles.{FilesState, contents_of, rest_at, IsWithin};

    ghost Value = { FilesState };

    ghost view = { λ s. record {
      contents = contents_of s.files.items;
      piece = s.piece;
      rest = option_and_then (λ p. rest_at s.files.items p.file p.offset) s.position;
      counts = s.calls;
    } };

    ghost invariant = { λ s.
        (1 ≤ s.piece) × IfSome s.position (λ p. IsWithin s.files.items p.file p.offset) };
}

impl MemFiles {
    /// These files, none of them open. Of files with one name the first alone counts. A read
    /// returns at most `piece` bytes. Calls are numbered from 0 over opens and reads together, and
    /// a call fails if `failing` has its number.
    pub fn of(files: Vec<(String, Vec<u8>)>, piece: usize, failing: Vec<u64>) -> MemFiles
        requires { 1 ≤ piece }
        ensures { result ≡ fresh_files (contents_of files.items) piece failing.items }
    {
        MemFiles {
            files,
            piece,
            position: None,
            calls: Calls::of(failing),
        }
    }

    /// How many faults the calls met, up to the last number of `u64`.
    pub fn fault_count(&self) -> u64
        ensures { result ≡ self.now.counts.faults }
    {
        self.calls.fault_count()
    }
}

impl Files for MemFiles {
    ghost contents = { λ s. Some s.contents };

    ghost rest = { λ s. s.rest };

    ghost is_open = { λ s. is_some s.rest };

    ghost faults = { λ s. s.counts.faults };

    /// Opens the first file of this name, to be read from its start.
    ///
    /// # Errors
    ///
    /// `Failed` if this call has the number of one that fails, which is a fault and is counted, or
    /// if there is no file of this name. No file is open then.
    fn open(&mut self, name: &str) -> Result<(), Failed>
        ensures contents_kept { self.new.contents ≡ self.old.contents }
        ensures faults_only_rise { self.old.counts.faults ≤ self.new.counts.faults }
        ensures open_if_ok { OnOk result (is_some self.new.rest ≡ true) }
        ensures rest_is_whole_file { OnOk result
            (Opens (Some self.old.contents) name.now self.new.rest) }
        ensures closed_if_err { OnErr result (is_some self.new.rest ≡ false) }
        ensures err_has_cause { HasOpenCause self.old.counts.faults self.new.counts.faults
            (Some self.old.contents) name.now result }
        ensures ok_exactly_if_present { is_ok result ≡
            (not (fails_next self.old.counts) && is_some (bytes_under name.now self.old.contents)) }
        ensures absence_is_no_fault { fails_next self.old.counts ≡ false →
            self.new.counts.faults ≡ self.old.counts.faults }
        ensures state_after { self.new ≡ after_open self.old name.now }
    {
        self.position = None;
        if self.calls.count_call() {
            return Err(Failed);
        }
        let file = index_of(&self.files, name).ok_or(Failed)?;
        self.position = Some(Position { file, offset: 0 });
        Ok(())
    }

    /// Moves the next bytes of the open file to the start of `buf`, at most as many as a read may
    /// return, and returns how many.
    ///
    /// # Errors
    ///
    /// `Failed` if this call has the number of one that fails, which is a fault and is counted. No
    /// byte is lost then.
    fn read(&mut self, buf: &mut [u8]) -> Result<usize, Failed>
        requires { is_some self.old.rest ≡ true }
        ensures contents_kept { self.new.contents ≡ self.old.contents }
        ensures faults_only_rise { self.old.counts.faults ≤ self.new.counts.faults }
        ensures stays_open { is_some self.new.rest ≡ true }
        ensures within_buf { IfOk result (λ n. n ≤ length buf.old) }
        ensures rest_consumed { ReadConsumes self.old.rest self.new.rest result buf.new }
        ensures err_has_cause { HasCause self.old.counts.faults self.new.counts.faults result }
        ensures fails_by_number { is_err result ≡ fails_next self.old.counts }
        ensures within_piece { IfOk result (λ n. n ≤ self.old.piece) }
        ensures count_exact { IfOk result (λ n. n ≡ read_count self.old (length buf.old)) }
        ensures buf_filled { IfOk result
            (λ n. buf.new ≡ take n (unwrap_or self.old.rest []) ++ drop n buf.old) }
        ensures buf_kept_if_err { OnErr result (buf.new ≡ buf.old) }
        ensures state_if_ok { OnOk result (self.new ≡ after_read self.old (length buf.old)) }
        ensures state_if_err { OnErr result (self.new ≡ after_failed_read self.old) }
    {
        if self.calls.count_call() {
            return Err(Failed);
        }
        let position = self.position.unwrap();
        let rest = rest_of(&self.files, position);
        let count = copy_prefix(rest, self.piece, buf);
        self.position = Some(Position {
            file: position.file,
            offset: position.offset + count,
        });
        Ok(count)
    }

    ghost knows_rest = { λ s known opened. opened };
}

/// The index of the first file of this name.
fn index_of(files: &[(String, Vec<u8>)], name: &str) -> Option<usize>
    ensures first { option_and_then (λ i. bytes_at files.now i) result ≡
        bytes_under name.now (contents_of files.now) }
    ensures within { IfSome result (λ i. i < length files.now) }
{
    for (i, file) in files.iter().enumerate() {
        if file.0.as_str() == name {
            return Some(i);
        }
    }
    None
}

/// The bytes of the file at this position that are still to be read.
fn rest_of(files: &[(String, Vec<u8>)], position: Position) -> &[u8]
    requires { IsWithin files.now position.file position.offset }
    ensures { rest_at files.now position.file position.offset ≡ Some result.now }
{
    &files[position.file].1[position.offset..]
}

/// Copies the first bytes of `rest` to the start of `buf`, at most `piece` bytes, and returns how
/// many.
fn copy_prefix(rest: &[u8], piece: usize, buf: &mut [u8]) -> usize
    ensures count { result ≡ min (min piece (length rest.now)) (length buf.old) }
    ensures bytes { buf.new ≡ take result rest.now ++ drop result buf.old }
{
    let count = piece.min(rest.len()).min(buf.len());
    buf[..count].copy_from_slice(&rest[..count]);
    count
}
