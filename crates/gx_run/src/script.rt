//! The script in a file: its bytes to a text, the text to a tree, the tree to checked statements.

ghost use Rattle.std.specs.Prelude.{◌≡◌, ◌<◌, ◌≤◌, ◌^◌, All, IfErr, IfOk, length};
ghost use Rattle.gx_syntax.specs.Meanings.{meaning_of};
ghost use Rattle.gx_types.specs.ScriptTyping.{typing_of};
ghost use Rattle.gx_types_stmts.specs.StmtBounds.{IsTypable};
ghost use Rattle.gx_run.specs.ScriptFile as file;
ghost use Rattle.gx_run.specs.Steps.{NamesOnly, Reads, StepReturns};

use crate::fetch::fetch;
use gx_outside::Files;
use gx_print::{ScriptStop, Status};
use gx_rows::LimitKind;
use gx_syntax::{Script, SyntaxStop, parse, parsed_scripts_are_bounded, texts_have_one_meaning};
use gx_types::{TypeStop, Typed, check, parsed_scripts_are_typable};
use std::alloc::Global;

/// The checked script in the file of this name.
///
/// # Errors
///
/// The first refusal: `Source`, `Limit`, `Script`; or `NoMemory`.
pub(crate) fn read_script<F: Files>(
    alloc: Global,
    files: &mut F,
    name: &str,
) -> Result<Typed, Status>
    ensures contents_kept { F.contents files.new ≡ F.contents files.old }
    ensures faults_only_rise { F.faults files.old ≤ F.faults files.new }
    ensures script { Reads (F.contents files.old) (F.faults files.old) (F.faults files.new)
        (λ typed. typed) result (file.script_under name.now) }
    ensures source_is_requested { IfErr result (λ refusal. NamesOnly refusal (λ n. n ≡ name.now)) }
{
    let kind = LimitKind::ScriptBytes;
    let bytes = fetch(alloc, files, name, kind, kind.most() as u32)?;
    script_in(alloc, bytes.as_slice())
}

// The checked script that these bytes spell.
fn script_in(alloc: Global, bytes: &[u8]) -> Result<Typed, Status>
    requires { length bytes.now < 2 ^ 32 }
    ensures { StepReturns (λ typed. typed) result (file.script_in bytes.now) }
{
    let script = parse_text(alloc, text_in(bytes)?)?;
    check_script(alloc, &script)
}

// The text of these bytes.
fn text_in(bytes: &[u8]) -> Result<&str, Status>
    requires { length bytes.now < 2 ^ 32 }
    ensures { StepReturns (λ text. text.now) result (file.text_in bytes.now) }
{
    match str::from_utf8(bytes) {
        Ok(text) => Ok(text),
        Err(stop) => Err(Status::Script(ScriptStop::NotUtf8(stop.valid_up_to() as u32))),
    }
}

// The script that a text spells.
fn parse_text(alloc: Global, text: &str) -> Result<Script, Status>
    requires { length text.now < 2 ^ 32 }
    ensures parsed { StepReturns (λ script. script.statements) result
        (file.stmts_meant (meaning_of text.now)) }
    ensures typable { IfOk result (λ script. All IsTypable script.statements) }
{
    // By these laws a script that is parsed may be checked.
    texts_have_one_meaning();
    parsed_scripts_are_bounded();
    parsed_scripts_are_typable();
    match parse(alloc, text) {
        Ok(script) => Ok(script),
        Err(SyntaxStop::At(offset, kind)) => Err(Status::Script(ScriptStop::Syntax(offset, kind))),
        Err(SyntaxStop::Long(_)) => Err(Status::Limit(LimitKind::StatementTokens)),
        Err(SyntaxStop::NoMemory) => Err(Status::NoMemory),
    }
}

// The script with its types.
fn check_script(alloc: Global, script: &Script) -> Result<Typed, Status>
    requires { All IsTypable script.now.statements }
    ensures { StepReturns (λ typed. typed) result
        (file.checked_or_refusal (typing_of script.now.statements)) }
{
    match check(alloc, script) {
        Ok(typed) => Ok(typed),
        Err(
            TypeStop::At {
                statement,
                expr,
                kind,
            },
        ) => Err(Status::Script(ScriptStop::Typing(statement, expr, kind))),
        Err(TypeStop::Limit(kind)) => Err(Status::Limit(kind)),
        Err(TypeStop::NoMemory) => Err(Status::NoMemory),
    }
}
