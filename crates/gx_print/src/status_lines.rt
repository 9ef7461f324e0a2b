//! The line that tells why a run ended.

ghost use Rattle.std.specs.Prelude.{◌≡◌, IfOk, IfSome, Some, is_some, string_bytes};
ghost use Rattle.gx_print.specs.StatusLines.{
  data_line,
  fault_line,
  has_fixed_text,
  key_text,
  limit_line,
  name_or_empty,
  script_line,
  source_line,
  text_of_status,
};
ghost use Rattle.gx_print.specs.declared.status.ScriptStop.TheVariants as script_stop;

use crate::status::{DataStop, ScriptStop, Status};
use crate::wording::{cause_wording, cell_wording, limit_name, syntax_wording, type_wording};
use gx_load::RowStop;
use gx_rows::{Fault, LimitKind, NoMemory, RowKey, Text, Vid};
use gx_types_exprs::TypeKind;
use std::alloc::Global;

// The three commands: run a script, show it as it is parsed, and run the sample.
const USAGE: &str =
    "usage: gx run SCRIPT [--parts N] [--cut 1d|2d|random|canonical|rows] [--workers N] \
     [--schedule FILE] [--report] | gx show SCRIPT | gx sample SEED N\n";

// The output could not be written.
const SINK: &str = "sink\n";

// Out of memory.
const NO_MEMORY: &str = "no memory\n";

/// The text of a status for which no memory is needed, as `status_text` returns it: that of `Done`,
/// which is empty, of `Usage`, `Sink` and `NoMemory`. `None` for each other status.
#[tactic(auto, unfolding(crate::specs::StatusLines::text_of_status))]
pub fn fixed_text(status: &Status) -> Option<&'static str>
    ensures exact { IfSome result (λ text. text.now ≡ text_of_status status.now) }
    ensures fixed { is_some result ≡ has_fixed_text status.now }
{
    match status {
        Status::Done => Some(""),
        Status::Usage => Some(USAGE),
        Status::Sink => Some(SINK),
        Status::NoMemory => Some(NO_MEMORY),
        Status::Script(_)
        | Status::Schedule(_)
        | Status::Data(_)
        | Status::Fault(_)
        | Status::Limit(_)
        | Status::Source(_) => None,
    }
}

/// The line that is written to the error output if a run ends with this status, its line feed
/// included. `Done` has none: its text is empty.
///
/// # Errors
///
/// `NoMemory` if memory for the text runs out.
#[tactic(auto, unfolding(crate::specs::StatusLines::text_of_status))]
pub fn status_text(alloc: Global, status: &Status) -> Result<Text, NoMemory>
    ensures { IfOk result (λ text. text ≡ text_of_status status.now) }
{
    let line = match status {
        Status::Done => String::new(alloc),
        Status::Usage => String::from_str(alloc, USAGE)?,
        Status::Script(stop) => script_line(alloc, *stop)?,
        Status::Schedule(line) => format!(in alloc; "schedule: line {line}\n")?,
        Status::Data(stop) => data_line(alloc, stop)?,
        Status::Fault(fault) => fault_line(alloc, fault)?,
        Status::Limit(kind) => limit_line(alloc, *kind)?,
        Status::Source(name) => source_line(alloc, name)?,
        Status::Sink => String::from_str(alloc, SINK)?,
        Status::NoMemory => String::from_str(alloc, NO_MEMORY)?,
    };
    Text::from_string(alloc, line)
}

// The line of a refused script.
#[tactic(auto, unfolding(crate::specs::StatusLines::script_line))]
fn script_line(alloc: Global, stop: ScriptStop) -> Result<String, NoMemory>
    ensures { IfOk result (λ line. string_bytes line ≡ script_line stop) }
{
    match stop {
        ScriptStop::NotUtf8(offset) => {
            Ok(format!(in alloc; "script: byte {offset}: not UTF-8\n")?)
        }
        ScriptStop::Syntax(offset, kind) => {
            let wording = syntax_wording(kind);
            Ok(format!(in alloc; "script: byte {offset}: {wording}\n")?)
        }
        ScriptStop::Typing(statement, None, kind) => {
            let wording = type_wording(kind);
            Ok(format!(in alloc; "script: statement {statement}: {wording}\n")?)
        }
        ScriptStop::Typing(statement, Some(expr), kind) => {
            expression_line(alloc, statement, expr, kind)
        }
    }
}

// The line of a refused expression.
#[tactic(auto, unfolding(crate::specs::StatusLines::script_line))]
fn expression_line(
    alloc: Global,
    statement: u32,
    expr: u32,
    kind: TypeKind,
) -> Result<String, NoMemory>
    ensures { IfOk result (λ line. string_bytes line
        ≡ script_line (script_stop.Typing statement (Some expr) kind)) }
{
    let wording = type_wording(kind);
    Ok(format!(in alloc; "script: statement {statement}, expression {expr}: {wording}\n")?)
}

// The line of a refused data file.
#[tactic(auto, unfolding(crate::specs::StatusLines::data_line))]
fn data_line(alloc: Global, refusal: &DataStop) -> Result<String, NoMemory>
    ensures { IfOk result (λ line. string_bytes line
        ≡ data_line refusal.now.file (name_or_empty refusal.now.column) refusal.now.stop) }
{
    let file = refusal.file.as_str();
    let name = name_or_empty(&refusal.column);
    match refusal.stop {
        RowStop::Header(_) => Ok(format!(in alloc; "data: {file}: column {name} missing\n")?),
        RowStop::Shape(row) => Ok(format!(in alloc; "data: {file}: row {row}: shape\n")?),
        RowStop::Cell { row, kind, .. } => {
            let wording = cell_wording(kind);
            Ok(format!(in alloc; "data: {file}: row {row}, column {name}: {wording}\n")?)
        }
        RowStop::Line(line) => Ok(format!(in alloc; "data: {file}: line {line}: not an edge\n")?),
    }
}

// The name of a column, and no byte if there is none.
fn name_or_empty(column: &Option<Text>) -> &str
    ensures { result.now ≡ name_or_empty column.now }
{
    match column {
        Some(name) => name.as_str(),
        None => "",
    }
}

// The line of a fault.
#[tactic(auto, unfolding(crate::specs::StatusLines::fault_line))]
fn fault_line(alloc: Global, fault: &Fault) -> Result<String, NoMemory>
    ensures { IfOk result (λ line. string_bytes line ≡ fault_line fault.now) }
{
    let statement = fault.statement;
    let expr = fault.expr;
    let cause = cause_wording(fault.cause);
    let key = key_text(alloc, &fault.key)?;
    Ok(format!(in alloc; "fault: statement {statement}, {key}, expression {expr}: {cause}\n")?)
}

// The vertex or edge of a fault. Of an edge its ends are named, and its row is not.
#[tactic(auto, unfolding(crate::specs::StatusLines::key_text))]
fn key_text(alloc: Global, key: &RowKey) -> Result<String, NoMemory>
    ensures { IfOk result (λ text. string_bytes text ≡ key_text key.now) }
{
    match key {
        RowKey::Vertex(Vid(v)) => Ok(format!(in alloc; "vertex {v}")?),
        RowKey::Edge(Vid(src), Vid(dst), _) => Ok(format!(in alloc; "edge {src} {dst}")?),
    }
}

// The line of a limit, with its number.
#[tactic(auto, unfolding(crate::specs::StatusLines::limit_line))]
fn limit_line(alloc: Global, kind: LimitKind) -> Result<String, NoMemory>
    ensures { IfOk result (λ line. string_bytes line ≡ limit_line kind) }
{
    let name = limit_name(kind);
    let most = kind.most();
    Ok(format!(in alloc; "limit: {name} {most}\n")?)
}

// The line of a file that could not be read.
#[tactic(auto, unfolding(crate::specs::StatusLines::source_line))]
fn source_line(alloc: Global, name: &Text) -> Result<String, NoMemory>
    ensures { IfOk result (λ line. string_bytes line ≡ source_line name.now) }
{
    let name = name.as_str();
    Ok(format!(in alloc; "source: {name}\n")?)
}
