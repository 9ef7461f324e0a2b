//! What operators bind, by how expressions are shown, and where expressions are refused.

use super::support::{assert_outcomes, assert_shown_expressions};
use std::test::Fail;

const OPERATORS_BETWEEN_OPERANDS: [(&str, &str); 26] = [
    // Chains group to the left.
    ("1 - 2 - 3", "1 - 2 - 3"),
    ("(1 - 2) - 3", "1 - 2 - 3"),
    ("1 - (2 - 3)", "1 - (2 - 3)"),
    ("1 + (2 + 3)", "1 + (2 + 3)"),
    ("(1 + 2) - (3 + 4)", "1 + 2 - (3 + 4)"),
    ("(1 / 2) * 3", "1 / 2 * 3"),
    ("1 / (2 * 3)", "1 / (2 * 3)"),
    ("1 % (2 % 3) % 4", "1 % (2 % 3) % 4"),
    ("(true and false) and true", "true and false and true"),
    ("true and (false and true)", "true and (false and true)"),
    ("(true or false) or true", "true or false or true"),
    ("true or (false or true)", "true or (false or true)"),
    // A product binds tighter than a sum, a sum than a comparison, `and` than `or`.
    ("1 + 2 * 3", "1 + 2 * 3"),
    ("1 + (2 * 3)", "1 + 2 * 3"),
    ("(1 + 2) * 3", "(1 + 2) * 3"),
    ("1 * (2 - 3)", "1 * (2 - 3)"),
    ("(1 + 2) == (3 - 4)", "1 + 2 == 3 - 4"),
    ("1 + (2 == 3)", "1 + (2 == 3)"),
    ("(1 < 2) and (3 > 4)", "1 < 2 and 3 > 4"),
    ("1 < (2 and 3)", "1 < (2 and 3)"),
    ("true or (false and true)", "true or false and true"),
    ("(true and false) or true", "true and false or true"),
    ("(true or false) and true", "(true or false) and true"),
    // Comparisons do not chain.
    ("(1 == 2) == true", "(1 == 2) == true"),
    ("true == (1 == 2)", "true == (1 == 2)"),
    ("(1 <= 2) != (3 >= 4)", "(1 <= 2) != (3 >= 4)"),
];

const OPERATORS_BEFORE_OPERANDS: [(&str, &str); 29] = [
    // A sign binds tighter than a product, and there is only one.
    ("-1 * 2", "-1 * 2"),
    ("(-1) * 2", "-1 * 2"),
    ("-(1 * 2)", "-(1 * 2)"),
    ("1 * -2", "1 * -2"),
    ("1 - (-2)", "1 - -2"),
    ("(-1) - 2", "-1 - 2"),
    ("-(1 - 2)", "-(1 - 2)"),
    ("-(1)", "-1"),
    ("-(-1)", "-(-1)"),
    ("-(v.a)", "-v.a"),
    ("-(f(1))", "-f(1)"),
    ("-(true)", "-true"),
    // `not` is looser than a comparison and tighter than `and`.
    ("not 1 == 2", "not 1 == 2"),
    ("not (1 == 2)", "not 1 == 2"),
    ("(not true) == false", "(not true) == false"),
    ("true == (not false)", "true == (not false)"),
    ("(not true) and false", "not true and false"),
    ("not (true and false)", "not (true and false)"),
    ("true and (not false)", "true and not false"),
    ("not (not true)", "not (not true)"),
    ("not (-1)", "not -1"),
    ("-(not true)", "-(not true)"),
    ("1 + (not true)", "1 + (not true)"),
    // Parentheses around an operand, an argument or the whole are not shown.
    ("((1))", "1"),
    ("(v.a)", "v.a"),
    ("(\"x\")", "\"x\""),
    ("((matched) or (true))", "matched or true"),
    ("f((1), (2 + 3))", "f(1, 2 + 3)"),
    ("(f((true or false)))", "f(true or false)"),
];

const THE_WORD_NOT: [(&str, &str); 8] = [
    // Before a `.` it is the name of a side, and after one that of a column.
    ("not.x", "not.x"),
    ("not not.x", "not not.x"),
    ("-not.x", "-not.x"),
    ("1 + not.not", "1 + not.not"),
    ("not (not.x)", "not not.x"),
    // Before a `(` it is the operator, and the name of no function.
    ("not (true)", "not true"),
    ("not(v.a)", "not v.a"),
    ("true and not (false)", "true and not false"),
];

const WORDS_BY_WHAT_FOLLOWS: [(&str, &str); 10] = [
    // Words that are constants or operators elsewhere are names before a `.` or a `(`.
    ("true.x", "true.x"),
    ("false.x", "false.x"),
    ("matched.x", "matched.x"),
    ("none.x", "none.x"),
    ("v.true", "v.true"),
    ("true(1)", "true(1)"),
    ("matched()", "matched()"),
    ("and(1)", "and(1)"),
    ("or.x or and.y and or(1)", "or.x or and.y and or(1)"),
    ("if(true, ids(), min(1, 2))", "if(true, ids(), min(1, 2))"),
];

const REFUSED_EXPRESSIONS: [(&str, &str); 31] = [
    // Where `not` is no operator, what follows it is refused.
    ("filter t = s where 1 + not (v.a);", "27 Unexpected"),
    ("filter t = s where not not (v.a);", "27 Unexpected"),
    ("filter t = s where -not (v.a);", "24 Unexpected"),
    ("filter t = s where 1 == not v.a;", "28 Unexpected"),
    ("filter t = s where not not true;", "27 Unexpected"),
    ("filter t = s where not;", "22 Unexpected"),
    ("filter t = s where not and true;", "27 Unexpected"),
    // Comparisons do not chain, and there is only one sign.
    ("filter t = s where 1 == 2 == 3;", "26 Unexpected"),
    ("filter t = s where 1 < 2 + 3 <= 4;", "29 Unexpected"),
    ("filter t = s where not 1 == 2 != 3;", "30 Unexpected"),
    ("filter t = s where true and 1 == 2 == 3;", "35 Unexpected"),
    ("filter t = s where - -1;", "21 Unexpected"),
    ("filter t = s where 1 - - - 1;", "25 Unexpected"),
    // Operands that are missing.
    ("filter t = s where + 1;", "19 Unexpected"),
    ("filter t = s where 1 * / 2;", "23 Unexpected"),
    ("filter t = s where true and ;", "28 Unexpected"),
    ("filter t = s where ();", "20 Unexpected"),
    ("filter t = s where f(1,);", "23 Unexpected"),
    ("filter t = s where f(, 1);", "21 Unexpected"),
    // Names that stand alone, and what follows an operand.
    ("filter t = s where v;", "20 Unexpected"),
    ("filter t = s where (v).a;", "21 Unexpected"),
    ("filter t = s where v.1;", "21 Unexpected"),
    ("filter t = s where v.a.b;", "22 Unexpected"),
    ("filter t = s where v.a(1);", "22 Unexpected"),
    ("filter t = s where f(1).a;", "23 Unexpected"),
    ("filter t = s where 1.2;", "20 Unexpected"),
    ("filter t = s where 1 2;", "21 Unexpected"),
    ("filter t = s where (1, 2);", "21 Unexpected"),
    ("filter t = s where 1);", "20 Unexpected"),
    ("filter t = s where f(1));", "23 Unexpected"),
    ("filter t = s where 1 not true;", "21 Unexpected"),
];

#[test]
fn expressions(rt: HostRuntime) -> Result<(), Fail> {
    assert_shown_expressions(&rt, rt.alloc(), &OPERATORS_BETWEEN_OPERANDS)?;
    assert_shown_expressions(&rt, rt.alloc(), &OPERATORS_BEFORE_OPERANDS)?;
    assert_shown_expressions(&rt, rt.alloc(), &THE_WORD_NOT)?;
    assert_shown_expressions(&rt, rt.alloc(), &WORDS_BY_WHAT_FOLLOWS)?;
    assert_outcomes(&rt, rt.alloc(), &REFUSED_EXPRESSIONS)
}
