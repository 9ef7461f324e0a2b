//! The text of rows: a header line and a line for each row, as `csv` writes them.

ghost use Rattle.std.specs.Prelude.{◌≡◌, IfOk, map};
ghost use Rattle.gx_print.specs.RowTexts.{text_of_rows};

use crate::lines::{into_bytes, write_names, write_values};
use csv::WriterBuilder;
use gx_rows::{NoMemory, Text, Value};
use std::alloc::Global;

/// The text of an action: a line with the names of `header`, and a line for each of `rows`, in
/// order. Fields are separated by commas and quoted as `csv` does by default, and each line ends
/// with a line feed. Numbers are decimal, truth values `true` and `false`, and the entries of a
/// list have one space between them.
///
/// # Errors
///
/// `NoMemory` if memory for the text runs out.
pub fn rows_text(alloc: Global, header: &[Text], rows: &[Vec<Value>]) -> Result<Text, NoMemory>
    ensures { IfOk result (λ text. text ≡ text_of_rows header.now (map (λ row. row.items) rows.now)) }
{
    // A line of another length than the header's is no refusal.
    let mut writer = WriterBuilder::new()
        .flexible(true)
        .from_writer(Vec::new(alloc));
    let mut list = String::new(alloc);
    write_names(&mut writer, header)?;
    for row in rows {
        write_values(&mut writer, &mut list, row.as_slice())?;
    }
    let bytes = into_bytes(writer)?;
    // All that was written is text, so this is no refusal.
    let chars = String::from_utf8(bytes).unwrap();
    Text::from_string(alloc, chars)
}
