//! Tables of texts with their tokens and their refused offsets, the limits, escapes, and what is
//! written of tokens.

use gx_rows::NoMemory;
use gx_syntax_tokens::{LexEnd, Symbol, Tokens, Writer, lex, unescape};
use std::alloc::Global;
use std::test::Fail;

// Each token with its offset and kind, and then `end` or the refused offset.
fn spelled(alloc: Global, text: &str) -> Result<String, NoMemory> {
    let mut spelled = String::new(alloc);
    if text.len() > 10_000 {
        return Ok(spelled);
    }
    let mut tokens = Tokens::of(text);
    loop {
        match tokens.next() {
            Ok(Some(token)) => {
                let line = format!(in alloc; "{} {:?} {}|", token.start, token.kind, token.text)?;
                spelled.push_str(line.as_str())?;
            }
            Ok(None) => {
                spelled.push_str("end")?;
                return Ok(spelled);
            }
            Err((offset, kind)) => {
                let line = format!(in alloc; "{} {:?}", offset, kind)?;
                spelled.push_str(line.as_str())?;
                return Ok(spelled);
            }
        }
    }
}

#[test]
fn takes_each_token(rt: HostRuntime) -> Result<(), Fail> {
    let cases = [
        ("", "end"),
        (" \t\r\n", "end"),
        ("ab_1 Z", "0 Word ab_1|5 Word Z|end"),
        ("# c\nx#y\n", "4 Word x|end"),
        ("#é \"", "end"),
        ("007 0", "0 Number 007|4 Number 0|end"),
        ("1a1", "0 Number 1|1 Word a1|end"),
        ("9223372036854775807", "0 Number 9223372036854775807|end"),
        ("a 9223372036854775808", "0 Word a|2 NumberLarge"),
        ("\"é # x\" y", "0 Quoted \"é # x\"|9 Word y|end"),
        (
            "\"\\\"\\\\\\n\\t\\r\"",
            "0 Quoted \"\\\"\\\\\\n\\t\\r\"|end",
        ),
        ("a \"b", "0 Word a|2 TextOpen"),
        ("\"b\nc\"", "0 TextOpen"),
        ("\"b\rc\"", "0 TextOpen"),
        ("\"\\x\"", "0 TextOpen"),
        ("\"\\\"", "0 TextOpen"),
        (
            "(),;:.",
            "0 Symbol (|1 Symbol )|2 Symbol ,|3 Symbol ;|4 Symbol :|5 Symbol .|end",
        ),
        ("===!=", "0 Symbol ==|2 Symbol =|3 Symbol !=|end"),
        (
            "<<=>>=",
            "0 Symbol <|1 Symbol <=|3 Symbol >|4 Symbol >=|end",
        ),
        (
            "+-*/%",
            "0 Symbol +|1 Symbol -|2 Symbol *|3 Symbol /|4 Symbol %|end",
        ),
        ("a ! =", "0 Word a|2 NotToken"),
        ("_a", "0 NotToken"),
        ("x é", "0 Word x|2 NotToken"),
        ("\u{b}", "0 NotToken"),
        ("\u{feff}a", "3 Word a|end"),
        ("\u{feff}\u{feff}a", "3 NotToken"),
        ("a\u{feff}", "0 Word a|1 NotToken"),
    ];
    for (text, expected) in cases {
        let found = spelled(rt.alloc(), text)?;
        assert_eq!(rt; found.as_str(), expected, "at {text:?}");
    }
    Ok(())
}

// The bytes of the first token of a text: a prefix, a unit many times, and a suffix.
fn first_len(
    alloc: Global,
    prefix: &str,
    unit: &str,
    count: usize,
    suffix: &str,
) -> Result<String, NoMemory> {
    let mut text = String::from_str(alloc, prefix)?;
    for _ in 0..count {
        text.push_str(unit)?;
    }
    text.push_str(suffix)?;
    if text.len() > 10_000 {
        return Ok(text);
    }
    let line = match Tokens::of(text.as_str()).next() {
        Ok(Some(token)) => format!(in alloc; "{}", token.text.len())?,
        Ok(None) => String::new(alloc),
        Err((offset, kind)) => format!(in alloc; "{} {:?}", offset, kind)?,
    };
    Ok(line)
}

#[test]
fn keeps_the_limits(rt: HostRuntime) -> Result<(), Fail> {
    let cases = [
        (" ", "w", 64, ";", "64"),
        (" ", "w", 65, ";", "1 NameLong"),
        ("\"", "t", 1024, "\"", "1026"),
        ("\"", "t", 1025, "\"", "0 TextLong"),
        ("\"", "t", 1025, "", "0 TextOpen"),
        ("\"", "t", 1025, "\\x\"", "0 TextOpen"),
        ("\"", "\\n", 1024, "\"", "2050"),
        ("\"", "é", 512, "\"", "1026"),
        ("\"", "é", 513, "\"", "0 TextLong"),
        ("", "0", 100, "7", "101"),
    ];
    for (prefix, unit, count, suffix, expected) in cases {
        let found = first_len(rt.alloc(), prefix, unit, count, suffix)?;
        assert_eq!(rt; found.as_str(), expected, "at {count} of {unit:?}");
    }
    Ok(())
}

#[test]
fn lists_the_tokens(rt: HostRuntime) -> Result<(), Fail> {
    let (tokens, end) = lex(rt.alloc(), "f = g ;")?;
    assert_eq!(rt; tokens.len(), 4);
    assert!(rt; tokens[1].value.is(Symbol::Assign));
    assert!(rt; !tokens[3].value.is(Symbol::Comma));
    assert!(rt; matches!(end, LexEnd::Eof(7)));
    Ok(())
}

#[test]
fn takes_escapes(rt: HostRuntime) -> Result<(), Fail> {
    let cases = [
        ("", ""),
        ("é b", "é b"),
        ("a\\\"b\\\\\\n", "a\"b\\\n"),
        ("\\té\\r", "\té\r"),
    ];
    for (raw, expected) in cases {
        let value = unescape(rt.alloc(), raw)?;
        assert_eq!(rt; value.as_str(), expected, "at {raw:?}");
    }
    Ok(())
}

#[test]
fn writes_lines(rt: HostRuntime) -> Result<(), Fail> {
    let mut out = Writer::new(rt.alloc());
    out.word("x")?;
    out.symbol(Symbol::Assign)?;
    out.function("f")?;
    out.symbol(Symbol::OpenParen)?;
    out.sign()?;
    out.number(70)?;
    out.symbol(Symbol::Comma)?;
    out.quoted("é\"\n")?;
    out.symbol(Symbol::CloseParen)?;
    out.end_line()?;
    out.word("y")?;
    let text = out.into_text()?;
    assert_eq!(rt; text.as_str(), "x = f(-70, \"é\\\"\\n\")\ny");
    Ok(())
}
