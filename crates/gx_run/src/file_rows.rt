//! The rows of a data file, or its refusal with the names of the file and of the column.

ghost use Rattle.std.specs.Prelude.{◌≡◌, ◌<◌, ◌⊎◌, ◌^◌, IfOk, length, option_map};
ghost use Rattle.gx_load.specs.LoadResults.{Gives};
ghost use Rattle.gx_load.specs.Loading.{rows_of_csv};
ghost use Rattle.gx_model.specs.DataFiles.{
  file_name,
  refusal_of_rows,
  rows_in_file,
  rows_or_refusal,
};
ghost use Rattle.gx_run.specs.LoadedFiles.{column_refused, data_file_seen};
ghost use Rattle.gx_run.specs.Steps.{StepReturns};

use crate::data_file::DataFile;
use gx_load::{LoadStop, RowStop, edge_list_of, rows_of};
use gx_print::{DataStop, Status};
use gx_rows::{LimitKind, NoMemory, Row, RowType, Text, Vid};
use std::alloc::Global;

/// The rows that the bytes of a data file spell.
///
/// # Errors
///
/// `Data` with the first refused position, `Limit` if there are too many rows, `NoMemory`.
pub(crate) fn rows_in(
    alloc: Global,
    file: &DataFile<'_>,
    bytes: &[u8],
) -> Result<Vec<(Vid, Vid, Row)>, Status>
    requires { length bytes.now < 2 ^ 32 }
    ensures { StepReturns (λ rows. rows.items) result (rows_or_refusal (data_file_seen file.now)
        (rows_in_file (data_file_seen file.now) bytes.now)) }
{
    match spelled_rows(alloc, file, bytes) {
        Ok(rows) => Ok(rows),
        Err(stop) => Err(refusal(alloc, file, stop)),
    }
}

// The rows, or why there are none.
fn spelled_rows(
    alloc: Global,
    file: &DataFile<'_>,
    bytes: &[u8],
) -> Result<Vec<(Vid, Vid, Row)>, LoadStop>
    requires { length bytes.now < 2 ^ 32 }
    ensures { Gives (λ rows. rows.items) result (rows_in_file (data_file_seen file.now) bytes.now) }
{
    match file {
        DataFile::Vertices { columns, .. } => csv_rows(alloc, bytes, 1, columns),
        DataFile::Edges { columns, .. } => csv_rows(alloc, bytes, 2, columns),
        DataFile::EdgeList { oriented, .. } => edge_list_of(alloc, bytes, *oriented),
    }
}

// The rows of a CSV file. No memory holds a row type of as many columns as would be too many.
fn csv_rows(
    alloc: Global,
    bytes: &[u8],
    keys: u32,
    columns: &RowType,
) -> Result<Vec<(Vid, Vid, Row)>, LoadStop>
    requires short { length bytes.now < 2 ^ 32 }
    requires keyed { (keys ≡ 1) ⊎ (keys ≡ 2) }
    ensures { Gives (λ rows. rows.items) result (rows_of_csv keys columns.now bytes.now) }
{
    if columns.len() > u32::MAX - keys {
        return Err(LoadStop::NoMemory);
    }
    rows_of(alloc, bytes, keys, columns)
}

// The refusal of a data file that is not loaded.
fn refusal(alloc: Global, file: &DataFile<'_>, stop: LoadStop) -> Status
    ensures { (result ≡ refusal_of_rows (data_file_seen file.now) stop)
        ⊎ (result ≡ Status.NoMemory) }
{
    match stop {
        LoadStop::Data(position) => match data_stop(alloc, file, position) {
            Ok(stop) => Status::Data(stop),
            Err(_) => Status::NoMemory,
        },
        LoadStop::TooManyRows => Status::Limit(LimitKind::FileRows),
        LoadStop::NoMemory => Status::NoMemory,
    }
}

// The refused position, with the names of the file and of the column.
fn data_stop(alloc: Global, file: &DataFile<'_>, position: RowStop) -> Result<DataStop, NoMemory>
    ensures { IfOk result (λ d. (d.file ≡ file_name (data_file_seen file.now))
        × (d.column ≡ column_refused (data_file_seen file.now) position) × (d.stop ≡ position)) }
{
    let column = match column_name(file, position) {
        Some(name) => Some(Text::of(alloc, name)?),
        None => None,
    };
    Ok(DataStop {
        file: file.name().copy()?,
        column,
        stop: position,
    })
}

// The name of the column of a refused position, if the position is a column's.
fn column_name<'a>(file: &DataFile<'a>, position: RowStop) -> Option<&'a str>
    ensures { option_map (λ name. name.now) result
        ≡ column_refused (data_file_seen file.now) position }
{
    match file {
        DataFile::Vertices { columns, .. } => position.column_name(1, columns),
        DataFile::Edges { columns, .. } => position.column_name(2, columns),
        DataFile::EdgeList { .. } => None,
    }
}
