//! The value in one cell. To add a kind of values, add its line to `cell_value` here and in
//! `specs/CellValues.antt`, and what a cell of that kind is refused as to `CellKind`.

ghost use Rattle.std.specs.Prelude.{◌≡◌, IfOk};
ghost use Rattle.gx_load.specs.Ascending.{ascending};
ghost use Rattle.gx_load.specs.Cells.{is_blank, words_of};
ghost use Rattle.gx_load.specs.CellValues.{cell_value, ids_of_cell, numbers_in, text_of_cell};
ghost use Rattle.gx_load.specs.LoadResults.{GivesOfCell};
ghost use Rattle.gx_load.specs.declared.cell_value.CellStop.TheVariants as cell_stop;

use crate::CellKind;
use crate::cell::{bool_of, int_of, number_of};
use crate::words::{Separator, Words};
use gx_rows::{IdList, MOST_LIST_ENTRIES, MOST_TEXT_BYTES, NoMemory, Text, Value, ValueKind};
use std::alloc::Global;
use std::str;

/// Why a cell gives no value.
#[derive(Clone, Copy)]
pub(crate) enum CellStop {
    /// The cell has no value of its column's kind.
    Refused(CellKind),
    /// Out of memory.
    NoMemory,
}

impl From<NoMemory> for CellStop {
    ghost from_gives = { λ _ stop. stop ≡ cell_stop.NoMemory };

    fn from(_error: NoMemory) -> CellStop {
        CellStop::NoMemory
    }
}

// The text in a cell.
fn text_of_cell(alloc: Global, cell: &[u8]) -> Result<Text, CellStop>
    ensures { GivesOfCell (λ text. text) result (text_of_cell cell.now) }
{
    let Ok(text) = str::from_utf8(cell) else {
        return Err(CellStop::Refused(CellKind::NotText));
    };
    let len = text.len();
    if len > MOST_TEXT_BYTES {
        return Err(CellStop::Refused(CellKind::TextTooLong));
    }
    Ok(Text::of(alloc, text)?)
}

// Reads the numbers in a cell of a list into `numbers`, which loses what it had.
fn read_numbers(cell: &[u8], numbers: &mut Vec<i64>) -> Result<(), CellStop>
    ensures { GivesOfCell (λ _. numbers.new.items) result (numbers_in (words_of is_blank cell.now)) }
{
    numbers.clear();
    let mut words = Words::of(cell, Separator::Blank);
    'words: while let Some(word) = words.take() {
        let Some(number) = number_of(word) else {
            return Err(CellStop::Refused(CellKind::NotIds));
        };
        numbers.push(number).map_err(|_| NoMemory)?;
    }
    Ok(())
}

// These numbers in ascending order.
fn sorted_list(alloc: Global, numbers: &[i64]) -> Result<IdList, NoMemory>
    ensures { IfOk result (λ list. list ≡ ascending numbers.now) }
{
    IdList::of(alloc, numbers)
}

// The list in a cell, whose numbers are read into `numbers` first.
fn ids_of_cell(alloc: Global, cell: &[u8], numbers: &mut Vec<i64>) -> Result<IdList, CellStop>
    ensures { GivesOfCell (λ list. list) result (ids_of_cell cell.now) }
{
    read_numbers(cell, numbers)?;
    if numbers.len() > MOST_LIST_ENTRIES {
        return Err(CellStop::Refused(CellKind::ListTooLong));
    }
    Ok(sorted_list(alloc, numbers.as_slice())?)
}

/// The value of this kind in a cell. The numbers of a list are read into `numbers` first, which all
/// calls share so that it grows once.
///
/// # Errors
///
/// `Refused` if the cell has no such value, `NoMemory`.
pub(crate) fn cell_value(
    alloc: Global,
    kind: ValueKind,
    cell: &[u8],
    numbers: &mut Vec<i64>,
) -> Result<Value, CellStop>
    ensures { GivesOfCell (λ value. value) result (cell_value kind cell.now) }
{
    match kind {
        ValueKind::Int => match int_of(cell) {
            Some(number) => Ok(Value::Int(number)),
            None => Err(CellStop::Refused(CellKind::NotInt)),
        },
        ValueKind::Text => Ok(Value::Text(text_of_cell(alloc, cell)?)),
        ValueKind::Bool => match bool_of(cell) {
            Some(truth) => Ok(Value::Bool(truth)),
            None => Err(CellStop::Refused(CellKind::NotBool)),
        },
        ValueKind::Ids => Ok(Value::Ids(ids_of_cell(alloc, cell, numbers)?)),
    }
}
