//! Where texts are refused, and texts of nothing but white space and comments.

use super::support::assert_outcomes;
use std::test::Fail;

const WHAT_BEGINS_NO_TOKEN: [(&str, &str); 25] = [
    // A byte that begins no token.
    ("@", "0 NotToken"),
    ("print table !", "12 NotToken"),
    ("print _a", "6 NotToken"),
    ("print table é;", "12 NotToken"),
    ("print table people&", "18 NotToken"),
    ("print table a; 'x'", "15 NotToken"),
    ("filter t = s where v.a ! = 1", "23 NotToken"),
    ("print table a;\u{b}", "14 NotToken"),
    ("print table a;\u{0}", "14 NotToken"),
    // A byte order mark is skipped at the start of the text alone.
    ("\u{feff}\u{feff}print table a;", "3 NotToken"),
    (" \u{feff}print table a;", "1 NotToken"),
    ("print table a;\u{feff}", "14 NotToken"),
    // A quoted text that is not closed, or has a wrong escape.
    ("vertices a from \"x", "16 TextOpen"),
    ("vertices a from \"x # y", "16 TextOpen"),
    ("vertices a from \"x\ny\" ();", "16 TextOpen"),
    ("vertices a from \"x\ry\" ();", "16 TextOpen"),
    ("vertices a from \"x\\q\" ();", "16 TextOpen"),
    ("vertices a from \"\\", "16 TextOpen"),
    ("vertices a from \"\\\"", "16 TextOpen"),
    ("vertices a from \"x\" \" ();", "20 TextOpen"),
    // A number that is too large, also after a sign.
    ("pregel p = g rounds 9223372036854775808", "20 NumberLarge"),
    (
        "pregel p = g rounds 0009223372036854775808",
        "20 NumberLarge",
    ),
    ("pregel p = g rounds 9223372036854775807", "39 Unexpected"),
    (
        "graph g = s, e default (-9223372036854775808);",
        "25 NumberLarge",
    ),
    ("filter t = s where -99999999999999999999", "20 NumberLarge"),
];

const TOKENS_THAT_ARE_NOT_EXPECTED: [(&str, &str); 20] = [
    ("people;", "0 Unexpected"),
    ("Print table a;", "0 Unexpected"),
    (";", "0 Unexpected"),
    ("\"print\" table a;", "0 Unexpected"),
    ("print table a;;", "14 Unexpected"),
    ("print table a; a;", "15 Unexpected"),
    ("print people;", "6 Unexpected"),
    ("print table \"a\";", "12 Unexpected"),
    ("print table 1;", "12 Unexpected"),
    ("print table a, b;", "13 Unexpected"),
    ("print table a print table b;", "14 Unexpected"),
    ("print table a\n# ;\nprint table b;", "18 Unexpected"),
    ("print table a1 2b;", "15 Unexpected"),
    ("vertices a from \"é\" ;", "21 Unexpected"),
    ("# é\npeople;", "5 Unexpected"),
    // Symbols are the longest that fit.
    ("reverse h == g;", "10 Unexpected"),
    ("filter t = s where 1 = 2;", "21 Unexpected"),
    ("filter t = s where 1 <> 2;", "22 Unexpected"),
    ("filter t = s where 1 === 2;", "23 Unexpected"),
    ("filter t = s where 1 <== 2;", "23 Unexpected"),
];

const ENDS_OF_TEXTS: [(&str, &str); 27] = [
    ("print table people", "18 Unexpected"),
    ("print table people ", "19 Unexpected"),
    ("print table people\t\r\n", "21 Unexpected"),
    ("print table people # x", "22 Unexpected"),
    ("print table people # x\n", "23 Unexpected"),
    ("print table people#;", "20 Unexpected"),
    ("print", "5 Unexpected"),
    ("print table a; print", "20 Unexpected"),
    ("print table a;\nprint table\n", "27 Unexpected"),
    // The byte order mark counts in offsets.
    ("\u{feff}print", "8 Unexpected"),
    ("\u{feff} print \t", "11 Unexpected"),
    ("\u{feff}people", "3 Unexpected"),
    ("\u{feff}print @", "9 NotToken"),
    // Within an expression.
    ("filter t = s where ", "19 Unexpected"),
    ("filter t = s where v", "20 Unexpected"),
    ("filter t = s where v.", "21 Unexpected"),
    ("filter t = s where v.a", "22 Unexpected"),
    ("filter t = s where v.a # ;", "26 Unexpected"),
    ("filter t = s where not", "22 Unexpected"),
    ("filter t = s where not ", "23 Unexpected"),
    ("filter t = s where -", "20 Unexpected"),
    ("filter t = s where (1", "21 Unexpected"),
    ("filter t = s where 1 +", "22 Unexpected"),
    ("filter t = s where f(", "21 Unexpected"),
    ("filter t = s where f(1,", "23 Unexpected"),
    ("filter t = s where f(1", "22 Unexpected"),
    ("filter t = s where true", "23 Unexpected"),
];

const THE_FIRST_OF_SEVERAL: [(&str, &str); 16] = [
    // An unexpected token before a broken one.
    ("print print @", "6 Unexpected"),
    ("print table a b \"x", "14 Unexpected"),
    ("print table \"x\" @", "12 Unexpected"),
    ("print 1 9223372036854775808", "6 Unexpected"),
    ("; @", "0 Unexpected"),
    ("print table a;; \"x", "14 Unexpected"),
    ("filter t = s where 1 == 2 == @", "26 Unexpected"),
    ("filter t = s where (1 ; @", "22 Unexpected"),
    // A broken token before an unexpected one.
    ("@ ;", "0 NotToken"),
    ("print table @ print;;", "12 NotToken"),
    ("filter t = s where (1 @ ;", "22 NotToken"),
    ("print table \"x\\q\" 9223372036854775808", "12 TextOpen"),
    ("print table a 9223372036854775808 @", "14 NumberLarge"),
    // A broken token at which no token of its sort is expected.
    ("print table \"x", "12 TextOpen"),
    ("print table 9223372036854775808", "12 NumberLarge"),
    ("vertices a from \"x\" (b: \"c\\q\")", "24 TextOpen"),
];

const WHITE_SPACE_AND_COMMENTS: [(&str, &str); 11] = [
    ("", "ok"),
    (" \t\r\n", "ok"),
    ("# x", "ok"),
    ("# x\r@", "ok"),
    ("\u{feff}", "ok"),
    ("\u{feff}# x\n", "ok"),
    ("print table a;# x", "ok"),
    ("#\nprint table a;", "ok"),
    ("print#\ntable#;\na\r;", "ok"),
    ("\u{feff}print\ttable\r\na;", "ok"),
    ("print table a;print table b;", "ok"),
];

#[test]
fn outcomes(rt: HostRuntime) -> Result<(), Fail> {
    assert_outcomes(&rt, rt.alloc(), &WHAT_BEGINS_NO_TOKEN)?;
    assert_outcomes(&rt, rt.alloc(), &TOKENS_THAT_ARE_NOT_EXPECTED)?;
    assert_outcomes(&rt, rt.alloc(), &ENDS_OF_TEXTS)?;
    assert_outcomes(&rt, rt.alloc(), &THE_FIRST_OF_SEVERAL)?;
    assert_outcomes(&rt, rt.alloc(), &WHITE_SPACE_AND_COMMENTS)
}
