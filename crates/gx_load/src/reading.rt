//! Reading a whole file, up to a limit. The file's name and its bytes are all that is seen of it.

ghost use Rattle.std.specs.Prelude.{◌≡◌, ◌≢◌, ◌<◌, ◌≤◌, ◌+◌, ◌⊎◌, true, Err, IfOk, OnErr, vec_len};
ghost use Rattle.std.specs.Io.KnownBytes.{Consumes, IsAtEnd};
ghost use Rattle.gx_load.specs.FileBytes.{ConsumesAtMost, HasBytes, HasReadAtMost, IsKnownLonger, IsLonger};
ghost use Rattle.gx_outside.specs.Contents.{IsKnownAbsent};
ghost use Rattle.gx_outside.specs.Faults.{FaultCounted};

use crate::ReadStop;
use gx_outside::Files;
use gx_rows::NoMemory;
use std::alloc::Global;

/// The most bytes that one read asks for.
const PIECE: usize = 8192;

/// All bytes of the file of this name, which may have at most `limit` bytes. At most one byte past
/// the limit is read.
///
/// # Errors
///
/// `Failed` if the source met a fault, or if its contents are known and have no such name,
/// `TooLong` if the file has more bytes than the limit, `NoMemory`.
pub fn read_all<F: Files>(
    alloc: Global,
    files: &mut F,
    name: &str,
    limit: u32,
) -> Result<Vec<u8>, ReadStop>
    ensures contents_kept { F.contents files.new ≡ F.contents files.old }
    ensures faults_only_rise { F.faults files.old ≤ F.faults files.new }
    ensures within_limit { IfOk result (λ bytes. vec_len bytes ≤ limit) }
    ensures whole_if_ok { IfOk result
        (λ bytes. HasBytes (F.contents files.old) name.now bytes.items) }
    ensures longer_if_too_long { (result ≡ Err ReadStop.TooLong) →
        IsLonger (F.contents files.old) name.now limit }
    ensures failed_has_cause { (result ≡ Err ReadStop.Failed) →
        FaultCounted (F.faults files.old) (F.faults files.new)
        ⊎ IsKnownAbsent (F.contents files.old) name.now }
    ensures longer_is_refused { IsKnownLonger (F.contents files.old) name.now limit →
        FaultCounted (F.faults files.old) (F.faults files.new)
        ⊎ (result ≡ Err ReadStop.TooLong) ⊎ (result ≡ Err ReadStop.NoMemory) }

    // What was read of the file that is now open, however the call ended.
    ensures open_unless_failed { result ≢ Err ReadStop.Failed → F.is_open files.new ≡ true }
    ensures one_byte_past_at_most { F.is_open files.new ≡ true →
        HasReadAtMost (limit + 1) (F.contents files.old) name.now (F.rest files.new) }
{
    files.open(name)?;
    let bytes = read_at_most(alloc, files, limit as usize + 1)?;
    if bytes.len() <= limit as usize {
        Ok(bytes)
    } else {
        Err(ReadStop::TooLong)
    }
}

// The next bytes of the open file: all that are left, or `most` if there are more.
fn read_at_most<F: Files>(alloc: Global, files: &mut F, most: usize) -> Result<Vec<u8>, ReadStop>
    requires { F.is_open files.old ≡ true }
    ensures contents_kept { F.contents files.new ≡ F.contents files.old }
    ensures faults_only_rise { F.faults files.old ≤ F.faults files.new }
    ensures stays_open { F.is_open files.new ≡ true }
    ensures within { IfOk result (λ bytes. vec_len bytes ≤ most) }
    ensures rest_consumed { IfOk result
        (λ bytes. Consumes (F.rest files.old) (F.rest files.new) bytes.items) }
    ensures at_end_if_fewer { IfOk result
        (λ bytes. vec_len bytes < most → IsAtEnd (F.rest files.new)) }
    ensures few_consumed_if_err { OnErr result
        (ConsumesAtMost most (F.rest files.old) (F.rest files.new)) }
    ensures failed_has_cause { (result ≡ Err ReadStop.Failed) →
        FaultCounted (F.faults files.old) (F.faults files.new) }
    ensures never_too_long { result ≢ Err ReadStop.TooLong }
{
    let mut bytes = Vec::new(alloc);
    let mut piece = [0u8; PIECE];
    while bytes.len() < most {
        let room = (most - bytes.len()).min(PIECE);
        let count = files.read(&mut piece[..room])?;
        if count == 0 {
            return Ok(bytes);
        }
        bytes
            .extend_from_slice(&piece[..count])
            .map_err(|_| NoMemory)?;
    }
    Ok(bytes)
}
