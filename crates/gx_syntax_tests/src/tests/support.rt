//! Helpers of the tests: texts to outcomes, long texts, and the tables' loops.

use gx_rows::NoMemory;
use gx_syntax::{Script, SyntaxStop, parse, show};
use std::alloc::Global;
use std::process::Abort;
use std::test::Fail;

// The offset and the reason of a refusal.
fn refusal(alloc: Global, stop: SyntaxStop) -> Result<String, NoMemory> {
    match stop {
        SyntaxStop::At(offset, kind) => Ok(format!(in alloc; "{offset} {kind:?}")?),
        SyntaxStop::Long(offset) => Ok(format!(in alloc; "{offset} Long")?),
        SyntaxStop::NoMemory => Err(NoMemory),
    }
}

// The script of a text. Each text here is shorter than this test allows.
fn script_of(alloc: Global, text: &str) -> Result<Script, SyntaxStop> {
    if text.len() > 100_000 {
        return Err(SyntaxStop::NoMemory);
    }
    parse(alloc, text)
}

// `ok`, or where and why a text is refused.
pub(super) fn outcome(alloc: Global, text: &str) -> Result<String, NoMemory> {
    match script_of(alloc, text) {
        Ok(_) => Ok(String::from_str(alloc, "ok")?),
        Err(stop) => refusal(alloc, stop),
    }
}

// The canonical text of a text's script, or where and why the text is refused.
fn shown_text(alloc: Global, text: &str) -> Result<String, NoMemory> {
    match script_of(alloc, text) {
        Ok(script) => {
            let shown = show(alloc, &script)?;
            Ok(String::from_str(alloc, shown.as_str())?)
        }
        Err(stop) => refusal(alloc, stop),
    }
}

// The front, then `count` units, then the back.
pub(super) fn lengthened(
    alloc: Global,
    front: &str,
    unit: &str,
    count: usize,
    back: &str,
) -> Result<String, NoMemory> {
    let mut text = String::from_str(alloc, front)?;
    for _ in 0..count {
        text.push_str(unit)?;
    }
    text.push_str(back)?;
    Ok(text)
}

// A statement whose condition is nested `count` deep.
pub(super) fn nested(
    alloc: Global,
    open: &str,
    middle: &str,
    close: &str,
    count: usize,
) -> Result<String, NoMemory> {
    let front = lengthened(alloc, "filter t = s where ", open, count, middle)?;
    lengthened(alloc, front.as_str(), close, count, ";")
}

// Each text, with its outcome.
pub(super) fn assert_outcomes(
    rt: &impl Abort,
    alloc: Global,
    cases: &[(&str, &str)],
) -> Result<(), Fail> {
    for (text, expected) in cases {
        let found = outcome(alloc, *text)?;
        assert_eq!(rt; found.as_str(), *expected, "at {text:?}");
    }
    Ok(())
}

// Each text, with the canonical text of its script.
pub(super) fn assert_shown(
    rt: &impl Abort,
    alloc: Global,
    cases: &[(&str, &str)],
) -> Result<(), Fail> {
    for (text, expected) in cases {
        let found = shown_text(alloc, *text)?;
        assert_eq!(rt; found.as_str(), *expected, "at {text:?}");
    }
    Ok(())
}

// Each expression, with its canonical text.
pub(super) fn assert_shown_expressions(
    rt: &impl Abort,
    alloc: Global,
    cases: &[(&str, &str)],
) -> Result<(), Fail> {
    for (text, expected) in cases {
        let statement = format!(in alloc; "filter t = s where {text};")?;
        let line = format!(in alloc; "filter t = s where {expected};\n")?;
        let found = shown_text(alloc, statement.as_str())?;
        assert_eq!(rt; found.as_str(), line.as_str(), "at {text:?}");
    }
    Ok(())
}

// Statements that are their own canonical texts, but for the line feed.
pub(super) fn assert_shown_lines(
    rt: &impl Abort,
    alloc: Global,
    cases: &[&str],
) -> Result<(), Fail> {
    for text in cases {
        let line = format!(in alloc; "{text}\n")?;
        let found = shown_text(alloc, *text)?;
        assert_eq!(rt; found.as_str(), line.as_str(), "at {text:?}");
    }
    Ok(())
}
