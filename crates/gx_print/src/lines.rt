//! Lines of `csv` over one vector of bytes, written field by field.
//!
//! The writer takes lines of any number of fields, and fails only as what it writes to does. Here that
//! is memory, so each of its errors is `NoMemory`.

ghost use Rattle.std.specs.Prelude.{◌≡◌, ◌++◌, IfOk, OnOk};
ghost use Rattle.gx_print.specs.RowTexts.{line_of_fields, line_of_row};
ghost use Rattle.gx_print.specs.Fields.{value_field};
ghost use Rattle.gx_print.specs.WriterStates.{EndsLine, GrowsByField, IsAtLineStart, written_text};

use crate::fields::put_ids;
use csv::Writer;
use gx_rows::{NoMemory, Text, Value};
use itoa::Buffer;

/// Writes a line with these names.
///
/// # Errors
///
/// `NoMemory` if memory for the line runs out.
pub(crate) fn write_names(writer: &mut Writer<Vec<u8>>, names: &[Text]) -> Result<(), NoMemory>
    requires { IsAtLineStart writer.old }
    ensures start { OnOk result (IsAtLineStart writer.new) }
    ensures text { OnOk result (written_text writer.new ≡ written_text writer.old
        ++ line_of_fields names.now) }
{
    for name in names {
        write_field(writer, name.as_str())?;
    }
    end_line(writer)
}

/// Writes a line with these values. `list` is memory for the fields of lists, and is overwritten.
///
/// # Errors
///
/// `NoMemory` if memory for the line or a field runs out.
pub(crate) fn write_values(
    writer: &mut Writer<Vec<u8>>,
    list: &mut String,
    values: &[Value],
) -> Result<(), NoMemory>
    requires { IsAtLineStart writer.old }
    ensures start { OnOk result (IsAtLineStart writer.new) }
    ensures text { OnOk result (written_text writer.new ≡ written_text writer.old
        ++ line_of_row values.now) }
{
    for value in values {
        write_value(writer, list, value)?;
    }
    end_line(writer)
}

// Writes the field of a value.
fn write_value(
    writer: &mut Writer<Vec<u8>>,
    list: &mut String,
    value: &Value,
) -> Result<(), NoMemory>
    ensures { OnOk result (GrowsByField writer.old writer.new (value_field value.now)) }
{
    match value {
        Value::Int(number) => {
            let mut buffer = Buffer::new();
            write_field(writer, buffer.format(*number))
        }
        Value::Text(text) => write_field(writer, text.as_str()),
        Value::Bool(true) => write_field(writer, "true"),
        Value::Bool(false) => write_field(writer, "false"),
        Value::Ids(ids) => {
            put_ids(list, ids.as_slice())?;
            write_field(writer, list.as_str())
        }
    }
}

// Writes a field, quoted if it has to be.
fn write_field(writer: &mut Writer<Vec<u8>>, field: &str) -> Result<(), NoMemory>
    ensures { OnOk result (GrowsByField writer.old writer.new field.now) }
{
    match writer.write_field(field.as_bytes()) {
        Ok(()) => Ok(()),
        Err(_) => Err(NoMemory),
    }
}

// Ends a line.
fn end_line(writer: &mut Writer<Vec<u8>>) -> Result<(), NoMemory>
    ensures { OnOk result (EndsLine writer.old writer.new) }
{
    match writer.end_record() {
        Ok(()) => Ok(()),
        Err(_) => Err(NoMemory),
    }
}

/// The bytes of all lines.
///
/// # Errors
///
/// `NoMemory` if memory for the bytes in the writer's buffer runs out.
pub(crate) fn into_bytes(writer: Writer<Vec<u8>>) -> Result<Vec<u8>, NoMemory>
    ensures { IfOk result (λ bytes. bytes.items ≡ written_text writer) }
{
    writer.into_inner().map_err(|_| NoMemory)
}
