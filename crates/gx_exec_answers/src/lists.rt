//! Lists that grow by names and by values.

ghost use Rattle.std.specs.Prelude.{◌≡◌, ◌∷◌, ◌++◌, OnOk, []};
ghost use Rattle.std.specs.Option.{option_copied};
ghost use Rattle.gx_rows.specs.Columns.{names_of};
ghost use Rattle.gx_model.specs.ActionAnswers.{names_if};

use gx_rows::{NoMemory, Row, RowType, Text, Value};
use std::alloc::Global;

/// One more item.
pub(crate) fn append<T: Drop>(items: &mut Vec<T>, item: T) -> Result<(), NoMemory>
    ensures { OnOk result (items.new.items ≡ items.old.items ++ item ∷ []) }
{
    items.push(item)?;
    Ok(())
}

/// The names of the columns, if there are some, after the others.
pub(crate) fn append_names(
    alloc: Global,
    header: &mut Vec<Text>,
    columns: Option<&RowType>,
) -> Result<(), NoMemory>
    ensures { OnOk result
        (header.new.items ≡ header.old.items ++ names_if (option_copied columns.entry)) }
{
    match columns {
        Some(columns) => append_columns(alloc, header, columns),
        None => Ok(()),
    }
}

fn append_columns(alloc: Global, header: &mut Vec<Text>, columns: &RowType) -> Result<(), NoMemory>
    ensures { OnOk result (header.new.items ≡ header.old.items ++ names_of columns.now) }
{
    for i in 0..columns.len() {
        append(header, Text::of(alloc, columns.name(i))?)?;
    }
    Ok(())
}

/// The values of a row, after the others. Texts and lists are shared.
pub(crate) fn append_values(values: &mut Vec<Value>, row: &Row) -> Result<(), NoMemory>
    ensures { OnOk result (values.new.items ≡ values.old.items ++ row.now) }
{
    let mut rest = row.as_slice();
    while let [value, after @ ..] = rest {
        append(values, value.copy()?)?;
        rest = after;
    }
    Ok(())
}
