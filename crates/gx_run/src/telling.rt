//! The line on the error output that tells why a run ended.

ghost use Rattle.std.specs.Prelude.{◌≡◌, ◌≤◌, ◌⊎◌, ◌↔◌, IsSome, false};
ghost use Rattle.gx_outside.specs.Faults.{FaultCounted};
ghost use Rattle.gx_print.specs.StatusLines.{has_fixed_text};
ghost use Rattle.gx_run.specs.RunResults.{Tells, WritesOrFails};

use gx_outside::{Sink, write_all};
use gx_print::{Status, fixed_text, status_text};
use std::alloc::Global;

/// Writes the text of a status to `err`, and returns the status. If memory for the text runs out, the
/// status is `NoMemory` from there on, whose text needs none. A fault of `err` changes no status.
pub fn tell<E: Sink>(alloc: Global, err: &mut E, end: Status) -> Status
    ensures same { (result ≡ end) ⊎ ((result ≡ Status.NoMemory) × (has_fixed_text end ≡ false)) }
    ensures told { Tells (FaultCounted (E.faults err.old) (E.faults err.new)) result
        (E.written err.old) (E.written err.new) }
    ensures stays_known { IsSome (E.written err.new) ↔ IsSome (E.written err.old) }
    ensures faults_only_rise { E.faults err.old ≤ E.faults err.new }
{
    if let Some(text) = fixed_text(&end) {
        write_text(err, text);
        return end;
    }
    match status_text(alloc, &end) {
        Ok(text) => {
            write_text(err, text.as_str());
            end
        }
        Err(_) => tell_no_memory(err),
    }
}

// Writes the text of `NoMemory`.
fn tell_no_memory<E: Sink>(err: &mut E) -> Status
    ensures same { result ≡ Status.NoMemory }
    ensures told { Tells (FaultCounted (E.faults err.old) (E.faults err.new)) result
        (E.written err.old) (E.written err.new) }
    ensures stays_known { IsSome (E.written err.new) ↔ IsSome (E.written err.old) }
    ensures faults_only_rise { E.faults err.old ≤ E.faults err.new }
{
    let end = Status::NoMemory;
    if let Some(text) = fixed_text(&end) {
        write_text(err, text);
    }
    end
}

// Writes a text, as far as the sink takes it.
fn write_text<E: Sink>(err: &mut E, text: &str)
    ensures written { WritesOrFails (FaultCounted (E.faults err.old) (E.faults err.new)) text.now
        (E.written err.old) (E.written err.new) }
    ensures stays_known { IsSome (E.written err.new) ↔ IsSome (E.written err.old) }
    ensures faults_only_rise { E.faults err.old ≤ E.faults err.new }
{
    let _ = write_all(err, text.as_bytes());
}
