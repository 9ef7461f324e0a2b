//! The bytes of a file, within a limit.

ghost use Rattle.std.specs.Prelude.{◌≡◌, ◌≤◌, ◌⊎◌, IfErr, IfOk, vec_len};
ghost use Rattle.gx_rows.specs.Limits.{most_of};
ghost use Rattle.gx_model.specs.DataFiles.{bytes_within};
ghost use Rattle.gx_run.specs.Steps.{NamesOnly, Reads};

use gx_load::{ReadStop, read_all};
use gx_outside::Files;
use gx_print::Status;
use gx_rows::{LimitKind, Text};
use std::alloc::Global;

/// All bytes of the file of this name, which may have at most as many as the limit says: `most`.
///
/// # Errors
///
/// `Source`, `Limit` or `NoMemory`.
pub(crate) fn fetch<F: Files>(
    alloc: Global,
    files: &mut F,
    name: &str,
    kind: LimitKind,
    most: u32,
) -> Result<Vec<u8>, Status>
    requires { most ≡ most_of kind }
    ensures contents_kept { F.contents files.new ≡ F.contents files.old }
    ensures faults_only_rise { F.faults files.old ≤ F.faults files.new }
    ensures within { IfOk result (λ bytes. vec_len bytes ≤ most) }
    ensures bytes { Reads (F.contents files.old) (F.faults files.old) (F.faults files.new)
        (λ bytes. bytes.items) result (bytes_within kind name.now) }
    ensures source_is_requested { IfErr result (λ refusal. NamesOnly refusal (λ n. n ≡ name.now)) }
{
    match read_all(alloc, files, name, most) {
        Ok(bytes) => Ok(bytes),
        Err(ReadStop::Failed) => Err(source(alloc, name)),
        Err(ReadStop::TooLong) => Err(Status::Limit(kind)),
        Err(ReadStop::NoMemory) => Err(Status::NoMemory),
    }
}

// The refusal of a file that cannot be read.
fn source(alloc: Global, name: &str) -> Status
    ensures { (result ≡ Status.Source name.now) ⊎ (result ≡ Status.NoMemory) }
{
    match Text::of(alloc, name) {
        Ok(name) => Status::Source(name),
        Err(_) => Status::NoMemory,
    }
}
