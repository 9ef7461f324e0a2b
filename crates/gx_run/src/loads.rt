//! All data files of a script, read in its order.

ghost use Rattle.std.specs.Prelude.{
  ◌≡◌,
  ◌<◌,
  ◌≤◌,
  ◌+◌,
  ◌^◌,
  IfErr,
  IsSomeAnd,
  OnOk,
  length,
  option_map,
};
ghost use Rattle.gx_rows.specs.Limits.{most_of};
ghost use Rattle.gx_rows.specs.declared.limit_kind.LimitKind.TheVariants as limit;
ghost use Rattle.gx_model.specs.DataFiles as model;
ghost use Rattle.gx_model.specs.DataFiles.{
  file_name,
  rows_of_script,
  with_bytes,
  with_file,
  with_file_if,
};
ghost use Rattle.gx_run.specs.LoadedFiles.{
  HasSumsWithin,
  IsLoaded,
  data_file_seen,
  file_of_number,
  loaded_seen,
};
ghost use Rattle.gx_run.specs.Steps.{NamesOnly, Reads, StepReturns};

use crate::data_file::DataFile;
use crate::fetch::fetch;
use crate::file_rows::rows_in;
use gx_load::Loads;
use gx_outside::Files;
use gx_print::Status;
use gx_rows::{LimitKind, Row, RowType, Vid};
use gx_types::Typed;
use std::alloc::Global;

/// What was loaded so far, with the sums of bytes and of rows.
#[derive(Drop)]
pub(crate) struct LoadedSoFar {
    loads: Loads,
    bytes: u64,
    rows: u64,
}

/// The rows of all load statements of a script, whether an action needs them or not.
///
/// # Errors
///
/// The first refusal: of each file its `Source` and its size, the sum of sizes, its rows, and the
/// sum of rows; or `NoMemory`.
pub(crate) fn read_loads<F: Files>(
    alloc: Global,
    files: &mut F,
    typed: &Typed,
) -> Result<Loads, Status>
    ensures contents_kept { F.contents files.new ≡ F.contents files.old }
    ensures faults_only_rise { F.faults files.old ≤ F.faults files.new }
    ensures loads { Reads (F.contents files.old) (F.faults files.old) (F.faults files.new)
        (λ loads. loads) result (λ contents. rows_of_script contents typed.now) }
    ensures source_is_requested { IfErr result
        (λ refusal. NamesOnly refusal (IsLoaded typed.now)) }
{
    let no_columns = RowType::of(Vec::new(alloc));
    let mut so_far = LoadedSoFar {
        loads: Loads::new(alloc),
        bytes: 0,
        rows: 0,
    };
    for before in 0..typed.len() {
        let file = DataFile::of(typed, before + 1, &no_columns);
        load_if(alloc, files, before + 1, file, &mut so_far)?;
    }
    Ok(so_far.loads)
}

// Adds the rows of the file that statement `s` loads, if it loads one.
fn load_if<F: Files>(
    alloc: Global,
    files: &mut F,
    s: u32,
    file: Option<DataFile<'_>>,
    so_far: &mut LoadedSoFar,
) -> Result<(), Status>
    requires sums { HasSumsWithin so_far.old }
    requires few { length so_far.old.loads + 1 < 2 ^ 32 }
    ensures contents_kept { F.contents files.new ≡ F.contents files.old }
    ensures faults_only_rise { F.faults files.old ≤ F.faults files.new }
    ensures loaded { Reads (F.contents files.old) (F.faults files.old) (F.faults files.new)
        (λ _. loaded_seen so_far.new) result
        (λ contents. with_file_if contents s (option_map data_file_seen file.entry)
        (loaded_seen so_far.old)) }
    ensures sums { OnOk result (HasSumsWithin so_far.new) }
    ensures few { OnOk result (length so_far.new.loads ≤ length so_far.old.loads + 1) }
    ensures source_is_requested { IfErr result (λ refusal. NamesOnly refusal
        (λ name. IsSomeAnd file.entry (λ f. name ≡ file_name (data_file_seen f)))) }
{
    match file {
        Some(file) => load(alloc, files, s, &file, so_far),
        None => Ok(()),
    }
}

// Adds the rows of a file that statement `s` loads.
fn load<F: Files>(
    alloc: Global,
    files: &mut F,
    s: u32,
    file: &DataFile<'_>,
    so_far: &mut LoadedSoFar,
) -> Result<(), Status>
    requires sums { HasSumsWithin so_far.old }
    requires few { length so_far.old.loads + 1 < 2 ^ 32 }
    ensures contents_kept { F.contents files.new ≡ F.contents files.old }
    ensures faults_only_rise { F.faults files.old ≤ F.faults files.new }
    ensures loaded { Reads (F.contents files.old) (F.faults files.old) (F.faults files.new)
        (λ _. loaded_seen so_far.new) result
        (λ contents. with_file contents s (data_file_seen file.now) (loaded_seen so_far.old)) }
    ensures sums { OnOk result (HasSumsWithin so_far.new) }
    ensures few { OnOk result (length so_far.new.loads ≤ length so_far.old.loads + 1) }
    ensures source_is_requested { IfErr result
        (λ refusal. NamesOnly refusal (λ name. name ≡ file_name (data_file_seen file.now))) }
{
    let kind = LimitKind::FileBytes;
    let bytes = fetch(alloc, files, file.name().as_str(), kind, kind.most() as u32)?;
    so_far.add(alloc, s, file, bytes.as_slice())
}

impl LoadedSoFar {
    // Adds the rows that the bytes of a file spell.
    fn add(
        &mut self,
        alloc: Global,
        s: u32,
        file: &DataFile<'_>,
        bytes: &[u8],
    ) -> Result<(), Status>
        requires short { length bytes.now ≤ most_of limit.FileBytes }
        requires sums { HasSumsWithin self.old }
        requires few { length self.old.loads + 1 < 2 ^ 32 }
        ensures added { StepReturns (λ _. loaded_seen self.new) result
            (with_bytes s (data_file_seen file.now) bytes.now (loaded_seen self.old)) }
        ensures sums { OnOk result (HasSumsWithin self.new) }
        ensures few { OnOk result (length self.new.loads ≤ length self.old.loads + 1) }
    {
        let all_bytes = sum_within(LimitKind::AllBytes, self.bytes + bytes.len() as u64)?;
        let rows = rows_in(alloc, file, bytes)?;
        let all_rows = sum_within(LimitKind::AllRows, self.rows + rows.len() as u64)?;
        self.loads.push(s, rows)?;
        self.bytes = all_bytes;
        self.rows = all_rows;
        Ok(())
    }
}

// A sum, which may not pass its limit.
fn sum_within(kind: LimitKind, sum: u64) -> Result<u64, Status>
    ensures { StepReturns (λ n. n) result (model.sum_within kind sum) }
{
    if sum > kind.most() {
        Err(Status::Limit(kind))
    } else {
        Ok(sum)
    }
}
