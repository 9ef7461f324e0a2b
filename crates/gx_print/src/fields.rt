//! The field of a value: what stands between two commas, before `csv` quotes it.

ghost use Rattle.std.specs.Prelude.{◌≡◌, ◌∷◌, ◌++◌, OnOk, string_bytes};
ghost use Rattle.std.specs.Fmt.{signed_decimal};
ghost use Rattle.std.specs.List.{flat_map};
ghost use Rattle.gx_print.specs.Fields.{ids_field};

use gx_rows::NoMemory;
use itoa::Buffer;

/// Makes `field` the field of a list of identifiers. Its memory is used again.
///
/// # Errors
///
/// `NoMemory` if memory for the field runs out.
pub(crate) fn put_ids(field: &mut String, ids: &[i64]) -> Result<(), NoMemory>
    ensures { OnOk result (string_bytes field.new ≡ ids_field ids.now) }
{
    field.clear();
    if let [first, rest @ ..] = ids {
        put_decimal(field, *first)?;
        put_others(field, rest)?;
    }
    Ok(())
}

// Appends these identifiers, each after a space.
fn put_others(field: &mut String, ids: &[i64]) -> Result<(), NoMemory>
    ensures { OnOk result (string_bytes field.new ≡ string_bytes field.old
        ++ flat_map (λ id. 32 ∷ signed_decimal id) ids.now) }
{
    for id in ids {
        put_other(field, *id)?;
    }
    Ok(())
}

// Appends an identifier after a space.
fn put_other(field: &mut String, id: i64) -> Result<(), NoMemory>
    ensures { OnOk result (string_bytes field.new ≡ string_bytes field.old
        ++ 32 ∷ signed_decimal id) }
{
    field.push_str(" ")?;
    put_decimal(field, id)
}

// Appends the decimal text of a number.
fn put_decimal(field: &mut String, number: i64) -> Result<(), NoMemory>
    ensures { OnOk result (string_bytes field.new ≡ string_bytes field.old
        ++ signed_decimal number) }
{
    let mut buffer = Buffer::new();
    field.push_str(buffer.format(number))?;
    Ok(())
}
