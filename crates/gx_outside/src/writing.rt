//! Writing a whole text to a sink that may take it in several pieces.

ghost use Rattle.std.specs.Prelude.{◌≤◌, ◌<◌, ◌↔◌, length, IsSome, OnOk, OnErr};
ghost use Rattle.std.specs.Io.KnownBytes.{Appends};
ghost use Rattle.gx_outside.specs.Faults.{HasCause};
ghost use Rattle.gx_outside.specs.Prefixes.{AppendsProperPrefix};

use crate::{Failed, Sink};

/// Writes the whole text to the sink, in as many writes as the sink needs. An empty text makes no
/// write.
///
/// # Errors
///
/// `Failed` if a write met a fault, which the sink has counted. The sink keeps what was written
/// before it: a prefix of the text, and never the whole.
pub fn write_all<S: Sink>(sink: &mut S, text: &[u8]) -> Result<(), Failed>
    ensures known_stays_known { IsSome (S.written sink.new) ↔ IsSome (S.written sink.old) }
    ensures faults_only_rise { S.faults sink.old ≤ S.faults sink.new }
    ensures whole_if_ok { OnOk result (Appends (S.written sink.old) (S.written sink.new) text.now) }
    ensures prefix_if_err { OnErr result
        (AppendsProperPrefix (S.written sink.old) (S.written sink.new) text.now) }
    ensures nonempty_if_err { OnErr result (0 < length text.now) }
    ensures err_has_cause { HasCause (S.faults sink.old) (S.faults sink.new) result }
{
    let mut done = 0;
    while done < text.len() {
        done += sink.write(&text[done..])?;
    }
    Ok(())
}
