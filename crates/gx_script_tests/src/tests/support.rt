//! Helpers of the tests: texts to scripts and outcomes, the tables' loops, and answers as text.

ghost use Rattle.std.specs.Prelude.{All, IfSome};
ghost use Rattle.gx_types_stmts.specs.StmtBounds.{IsTypable};

use gx_exec_answers::Answer;
use gx_rows::{NoMemory, Value};
use gx_syntax::{Script, parse, parsed_scripts_are_bounded, texts_have_one_meaning};
use gx_types::{TypeStop, Typed, check, parsed_scripts_are_typable};
use std::alloc::Global;
use std::process::Abort;
use std::test::Fail;

/// Two tables of the same columns, edges with two columns, and a graph of the first table and the
/// edges: statements 1 to 4.
pub(super) const PRELUDE: &str = "vertices s from \"f\" (a: int, t: text, b: bool, l: ids);\
vertices u from \"f\" (c: int, d: text, x: bool, y: ids); edges e from \"f\" (w: int, x: text);\
graph g = s, e default (0, \"\", true, ids());";

// The script of a text; none if it spells none, or if it is very long.
fn script_of(alloc: Global, text: &str) -> Option<Script>
    ensures { IfSome result (λ script. All IsTypable script.statements) }
{
    texts_have_one_meaning();
    parsed_scripts_are_bounded();
    parsed_scripts_are_typable();
    if text.len() > 1_000_000 {
        return None;
    }
    match parse(alloc, text) {
        Ok(script) => Some(script),
        Err(_) => None,
    }
}

/// `ok` with the number of statements, or where and why a script is refused: its statement, and its
/// node after a dot.
pub(super) fn outcome(alloc: Global, text: &str) -> Result<String, NoMemory> {
    let Some(script) = script_of(alloc, text) else {
        return Ok(String::from_str(alloc, "no script")?);
    };
    shown_check(alloc, check(alloc, &script))
}

fn shown_check(alloc: Global, typed: Result<Typed, TypeStop>) -> Result<String, NoMemory> {
    match typed {
        Ok(typed) => Ok(format!(in alloc; "ok {}", typed.len())?),
        Err(stop) => refusal(alloc, stop),
    }
}

fn refusal(alloc: Global, stop: TypeStop) -> Result<String, NoMemory> {
    match stop {
        TypeStop::At {
            statement,
            expr: Some(expr),
            kind,
        } => Ok(format!(in alloc; "{statement}.{expr} {kind:?}")?),
        TypeStop::At {
            statement,
            expr: None,
            kind,
        } => Ok(format!(in alloc; "{statement} {kind:?}")?),
        TypeStop::Limit(limit) => Ok(format!(in alloc; "{limit:?}")?),
        TypeStop::NoMemory => Err(NoMemory),
    }
}

/// The script of a text, typed, if it passes the checks.
pub(super) fn typed(alloc: Global, text: &str) -> Option<Typed> {
    let script = script_of(alloc, text)?;
    match check(alloc, &script) {
        Ok(typed) => Some(typed),
        Err(_) => None,
    }
}

/// The prelude, the front, `count` units, and the back.
pub(super) fn lengthened(
    alloc: Global,
    front: &str,
    unit: &str,
    count: usize,
    back: &str,
) -> Result<String, NoMemory> {
    let mut text = String::from_str(alloc, PRELUDE)?;
    text.push_str(front)?;
    for _ in 0..count {
        text.push_str(unit)?;
    }
    text.push_str(back)?;
    Ok(text)
}

/// A text has its outcome.
pub(super) fn assert_outcome(
    rt: &impl Abort,
    alloc: Global,
    text: &str,
    expected: &str,
) -> Result<(), NoMemory> {
    let outcome = outcome(alloc, text)?;
    assert_eq!(rt; outcome.as_str(), expected, "at {text}");
    Ok(())
}

/// Each text has its outcome after the prelude.
pub(super) fn assert_each(
    rt: &impl Abort,
    alloc: Global,
    table: &[(&str, &str)],
) -> Result<(), Fail> {
    for (text, expected) in table {
        let whole = lengthened(alloc, text, "", 0, "")?;
        assert_outcome(rt, alloc, whole.as_str(), expected)?;
    }
    Ok(())
}

/// Each text, made of a front, so many units and a back, has its outcome after the prelude.
pub(super) fn assert_lengthened(
    rt: &impl Abort,
    alloc: Global,
    table: &[(&str, &str, usize, &str, &str)],
) -> Result<(), Fail> {
    for (front, unit, count, back, expected) in table {
        let whole = lengthened(alloc, front, unit, *count, back)?;
        assert_outcome(rt, alloc, whole.as_str(), expected)?;
    }
    Ok(())
}

fn show_row(alloc: Global, text: &mut String, row: &[Value]) -> Result<(), NoMemory> {
    for value in row {
        match value {
            Value::Int(number) => text.push_str(format!(in alloc; "{number} ")?.as_str())?,
            Value::Text(name) => {
                text.push_str(name.as_str())?;
                text.push_str(" ")?;
            }
            _ => text.push_str("? ")?,
        }
    }
    text.push_str("/")?;
    Ok(())
}

fn shown(alloc: Global, answer: &Answer) -> Result<String, NoMemory> {
    let mut text = String::new(alloc);
    for name in answer.header.as_slice() {
        text.push_str(name.as_str())?;
        text.push_str(" ")?;
    }
    text.push_str("/")?;
    for row in answer.rows.as_slice() {
        show_row(alloc, &mut text, row.as_slice())?;
    }
    Ok(text)
}

/// An answer has this header and these rows, with a blank after each cell and a slash after each row.
pub(super) fn assert_shown(
    rt: &impl Abort,
    alloc: Global,
    answer: &Answer,
    expected: &str,
) -> Result<(), Fail> {
    assert_eq!(rt; shown(alloc, answer)?.as_str(), expected);
    Ok(())
}
