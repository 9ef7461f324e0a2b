//! The limits of tokens and of statements.

use super::support::{lengthened, nested, outcome};
use std::test::Fail;

const LIMITS_OF_TOKENS: [(&str, &str, usize, &str, &str); 15] = [
    ("print table ", "w", 64, ";", "ok"),
    ("print table ", "w", 65, ";", "12 NameLong"),
    ("print ", "w", 65, ";", "6 NameLong"),
    ("print print ", "w", 65, ";", "6 Unexpected"),
    ("edgelist e from \"", "t", 1024, "\";", "ok"),
    ("edgelist e from \"", "t", 1025, "\";", "16 TextLong"),
    ("print table \"", "t", 1025, "\";", "12 TextLong"),
    ("edgelist e from \"", "\\n", 1024, "\";", "ok"),
    ("edgelist e from \"", "\\n", 1025, "\";", "16 TextLong"),
    ("edgelist e from \"", "é", 512, "\";", "ok"),
    ("edgelist e from \"", "é", 513, "\";", "16 TextLong"),
    // A text that is not closed is not too long.
    ("edgelist e from \"", "t", 1025, "", "16 TextOpen"),
    ("edgelist e from \"", "t", 1025, "\\q\";", "16 TextOpen"),
    (
        "filter t = s where ",
        "0",
        100,
        "9223372036854775807;",
        "ok",
    ),
    (
        "filter t = s where ",
        "0",
        100,
        "9223372036854775808;",
        "19 NumberLarge",
    ),
];

// A statement has 2,048 tokens if its condition is a sum of 1,022 numbers, and one more with a
// sign.
const LIMITS_OF_STATEMENTS: [(usize, &str, usize, &str, &str); 22] = [
    (1, "filter t = s where 1", 1021, ";", "ok"),
    (1, "filter t = s where -1", 1021, ";", "4104 Long"),
    (1, "filter t = s where 1", 1022, ";", "4105 Long"),
    // The `;` is no token of its statement.
    (1, "filter t = s where -1", 1020, " +;", "4103 Unexpected"),
    (1, "filter t = s where -1", 1020, " + ", "4104 Unexpected"),
    (1, "filter t = s where 1", 1021, "", "4104 Unexpected"),
    // At one offset: first what begins no token, and last what is not expected.
    (1, "filter t = s where 1", 1021, " )", "4105 Long"),
    (1, "filter t = s where 1", 1021, " @", "4105 NotToken"),
    (1, "filter t = s where 1", 1021, " \"x", "4105 TextOpen"),
    (
        1,
        "filter t = s where 1",
        1021,
        " 9223372036854775808",
        "4105 NumberLarge",
    ),
    (1, "filter t = s where 1", 1020, " + v )", "4105 Long"),
    (1, "filter t = s where 1", 1020, " + v;", "4104 Unexpected"),
    // An earlier offset.
    (1, "filter t = s where -1", 1020, " ) 1;", "4102 Unexpected"),
    (1, "filter t = s where -1", 1020, " @ 1;", "4102 NotToken"),
    (1, "print print", 1100, ";", "6 Unexpected"),
    (1, "\u{feff}filter t = s where -1", 1021, ";", "4107 Long"),
    // Each statement is counted by itself, and comments not at all.
    (1, "filter t = s where 1", 1021, " # 1 2 3\n;", "ok"),
    (1, "print table a; filter t = s where 1", 1021, ";", "ok"),
    (
        1,
        "print table a; filter t = s where -1",
        1021,
        ";",
        "4119 Long",
    ),
    (2, "filter t = s where 1", 747, ";", "ok"),
    (2, "filter t = s where 1", 1021, ";", "ok"),
    (1, "filter t = s where 1", 1021, ";;", "4105 Unexpected"),
];

const LIMITS_OF_NESTED_EXPRESSIONS: [(&str, &str, &str, usize, &str); 6] = [
    ("(", "1", ")", 1021, "ok"),
    ("(", "1", ")", 1022, "2062 Long"),
    ("f(", "1", ")", 680, "ok"),
    ("f(", "", "", 1021, "2061 Unexpected"),
    ("(", "", "", 2043, "2062 Unexpected"),
    ("(", "", "", 2044, "2062 Long"),
];

#[test]
fn tokens(rt: HostRuntime) -> Result<(), Fail> {
    for (front, unit, count, back, expected) in LIMITS_OF_TOKENS {
        let text = lengthened(rt.alloc(), front, unit, count, back)?;
        let found = outcome(rt.alloc(), text.as_str())?;
        assert_eq!(rt; found.as_str(), expected, "at {count} of {unit:?}");
    }
    Ok(())
}

#[test]
fn statements(rt: HostRuntime) -> Result<(), Fail> {
    for (times, front, count, back, expected) in LIMITS_OF_STATEMENTS {
        let statement = lengthened(rt.alloc(), front, " + 1", count, back)?;
        let text = lengthened(rt.alloc(), "", statement.as_str(), times, "")?;
        let found = outcome(rt.alloc(), text.as_str())?;
        assert_eq!(rt; found.as_str(), expected, "at {front:?}, {count}, {back:?}");
    }
    Ok(())
}

#[test]
fn nested_expressions(rt: HostRuntime) -> Result<(), Fail> {
    for (open, middle, close, count, expected) in LIMITS_OF_NESTED_EXPRESSIONS {
        let text = nested(rt.alloc(), open, middle, close, count)?;
        let found = outcome(rt.alloc(), text.as_str())?;
        assert_eq!(rt; found.as_str(), expected, "at {count} of {open:?}");
    }
    Ok(())
}
