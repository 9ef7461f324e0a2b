//! The records of a CSV text, taken one by one.
//!
//! A reader of `csv` is wrapped here once, so that a loop over records is proved over the list of
//! the remaining ones. The header is a record as any other, and records may differ in length.

ghost use Rattle.std.specs.Prelude.{◌≡◌, ◌∷◌, [], IfOk, MatchBool};
ghost use Rattle.csv.specs.Reading.{default_config, records, strip_bom};
ghost use Rattle.csv.specs.Records.{fields_of};

use csv::{ByteRecord, Reader, ReaderBuilder};
use gx_rows::NoMemory;
use std::alloc::Global;
use std::marker::Model;

/// The records of a text that are still to be taken. Contracts see a list of records, each of them
/// as the list of its fields' bytes.
#[derive(Drop)]
pub(crate) struct Records<'a> {
    reader: Reader<&'a [u8]>,
    // `csv` returns 'no record' at the end of the text and after a failure alike, and says nothing
    // of a reader that met either, so it is not called again.
    live: bool,
}

impl<'a> Model for Records<'a> {
    ghost use Rattle.std.specs.Prelude.{◌≡◌, true, List, ℕ};
    ghost use Rattle.gx_load.specs.Remaining.{IsPlain, remaining_records};

    ghost Value = { List (List (List ℕ)) };

    ghost view = { λ r. remaining_records r.live r.reader };

    ghost invariant = { λ r. r.live ≡ true → IsPlain r.reader };
}

impl<'a> Records<'a> {
    /// The records of a text, after the byte order mark if the text begins with one.
    pub(crate) fn of(alloc: Global, bytes: &'a [u8]) -> Records<'a>
        ensures { result ≡ records default_config (strip_bom bytes.now) }
    {
        Records {
            reader: ReaderBuilder::new()
                .has_headers(false)
                .flexible(true)
                .from_reader(alloc, bytes),
            live: true,
        }
    }

    /// Moves the next record into `row` and returns whether there was one.
    ///
    /// # Errors
    ///
    /// `NoMemory` if memory for the record runs out. No further record is returned then.
    pub(crate) fn take(&mut self, row: &mut ByteRecord) -> Result<bool, NoMemory>
        ensures { IfOk result (λ found. MatchBool found (self.old ≡ fields_of row.new ∷ self.new)
            ((self.old ≡ []) × (self.new ≡ []))) }
    {
        if !self.live {
            return Ok(false);
        }
        // This stays so if the read fails.
        self.live = false;
        let Ok(found) = self.reader.read_byte_record(row) else {
            return Err(NoMemory);
        };
        self.live = found;
        Ok(found)
    }
}
