//! The limits, at their numbers and one past them.

use super::support::{assert_each, assert_lengthened, assert_outcome, lengthened};
use gx_rows::NoMemory;
use std::alloc::Global;
use std::test::Fail;

const SIXTEEN: [(&str, &str); 5] = [
    (
        "vertices r from \"f\" (a: int, b: int, c: int, d: int, e: int, f: int, g: int, h: int, i: int, \
         j: int, k: int, l: int, m: int, n: int, o: int, p: int);",
        "ok 5",
    ),
    (
        "vertices r from \"f\" (a: int, b: int, c: int, d: int, e: int, f: int, g: int, h: int, i: int, \
         j: int, k: int, l: int, m: int, n: int, o: int, p: int, q: int);",
        "Columns",
    ),
    // The number of columns is tested before their names.
    (
        "mapvertices h = g (a: 1, a: 1, id: 1, a: 1, a: 1, a: 1, a: 1, a: 1, a: 1, a: 1, a: 1, a: 1, \
         a: 1, a: 1, a: 1, a: 1, a: 1);",
        "Columns",
    ),
    (
        "mapvertices h = g (a: 1, a: 1, id: 1, a: 1, a: 1, a: 1, a: 1, a: 1, a: 1, a: 1, a: 1, a: 1, \
         a: 1, a: 1, a: 1, a: 1);",
        "5 ColumnTwice",
    ),
    // The names of the merges are tested before the number of the columns of a program.
    (
        "pregel p = g rounds 1 merge (m: sum, m: sum) initial () program (a: 1, a: 1, a: 1, a: 1, \
         a: 1, a: 1, a: 1, a: 1, a: 1, a: 1, a: 1, a: 1, a: 1, a: 1, a: 1, a: 1, a: 1) to src ();",
        "5 ColumnTwice",
    ),
];

const NUMBERS: [(&str, &str, usize, &str, &str); 18] = [
    (
        "aggregate r = g",
        " to src (1)",
        16,
        " merge (x: sum);",
        "5 NotBuilt",
    ),
    (
        "aggregate r = g",
        " to src (1)",
        17,
        " merge (x: sum);",
        "Sends",
    ),
    // The columns before the number of sends, and the number of sends before the sends.
    (
        "aggregate r = g",
        " to src (1)",
        17,
        " merge (id: sum);",
        "5 ColumnName",
    ),
    (
        "aggregate r = g",
        " to src (v.z)",
        17,
        " merge (x: sum);",
        "Sends",
    ),
    (
        "mapvertices h = g (x: ",
        "-(",
        63,
        "1))))))))))))))))))))))))))))))))))))))))))))))))))))))))))))))));",
        "ok 5",
    ),
    (
        "mapvertices h = g (x: ",
        "-(",
        64,
        "1)))))))))))))))))))))))))))))))))))))))))))))))))))))))))))))))));",
        "Depth",
    ),
    // The depth is tested before the rest of an expression, and after earlier expressions.
    (
        "mapvertices h = g (x: ",
        "-(",
        64,
        "z.z)))))))))))))))))))))))))))))))))))))))))))))))))))))))))))))))));",
        "Depth",
    ),
    (
        "mapvertices h = g (y: v.z, x: ",
        "-(",
        64,
        "1)))))))))))))))))))))))))))))))))))))))))))))))))))))))))))))))));",
        "5.0 ColumnUnknown",
    ),
    (
        "mapvertices h = g (id: ",
        "-(",
        64,
        "1)))))))))))))))))))))))))))))))))))))))))))))))))))))))))))))))));",
        "5 ColumnName",
    ),
    ("", "print table s;", 996, "", "ok 1000"),
    ("", "print table s;", 997, "", "Statements"),
    ("print table z;", "print table s;", 996, "", "Statements"),
    ("print table z;", "print table s;", 995, "", "5 NameUnknown"),
    (
        "pregel p = g rounds 1000 merge () initial () program () to src ();",
        "",
        0,
        "",
        "5 ColumnsDiffer",
    ),
    (
        "pregel p = g rounds 1001 merge () initial () program () to src ();",
        "",
        0,
        "",
        "Rounds",
    ),
    (
        "pregel p = g rounds 0 merge () initial () program () to src ();",
        "",
        0,
        "",
        "5 ColumnsDiffer",
    ),
    // The sends before the rounds, and the rounds before the expressions.
    (
        "pregel p = g rounds 1001 merge () initial () program ()",
        " to src ()",
        17,
        ";",
        "Sends",
    ),
    (
        "pregel p = g rounds 1001 merge () initial () program ()",
        " to src (v.z)",
        1,
        ";",
        "Rounds",
    ),
];

// How many times 1,000 rounds come before so many.
const ROUNDS: [(u32, u32, &str); 6] = [
    (0, 1_000, "6 NotBuilt"),
    (0, 1_001, "Rounds"),
    (9, 1_000, "6 NotBuilt"),
    (10, 0, "6 NotBuilt"),
    (10, 1, "AllRounds"),
    (10, 1_001, "Rounds"),
];

fn put_pregel(alloc: Global, text: &mut String, number: u32, rounds: u32) -> Result<(), NoMemory> {
    let head = format!(in alloc; "pregel p{number} = n rounds {rounds} ")?;
    text.push_str(head.as_str())?;
    text.push_str("merge () initial () program () to src ();")?;
    Ok(())
}

// A graph without columns, and so many pregels on it, of which the last has other rounds.
fn pregels(alloc: Global, count: u32, rounds: u32) -> Result<String, NoMemory> {
    let mut text = lengthened(alloc, "fromedges n = e ();", "", 0, "")?;
    for i in 0..count {
        put_pregel(alloc, &mut text, i, 1_000)?;
    }
    put_pregel(alloc, &mut text, count, rounds)?;
    Ok(text)
}

#[test]
fn at_most_16_columns(rt: HostRuntime) -> Result<(), Fail> {
    assert_each(&rt, rt.alloc(), &SIXTEEN)
}

#[test]
fn numbers_are_within_their_limits(rt: HostRuntime) -> Result<(), Fail> {
    assert_lengthened(&rt, rt.alloc(), &NUMBERS)
}

#[test]
fn rounds_are_counted_over_a_script(rt: HostRuntime) -> Result<(), Fail> {
    for (count, rounds, expected) in ROUNDS {
        let text = pregels(rt.alloc(), count, rounds)?;
        assert_outcome(&rt, rt.alloc(), text.as_str(), expected)?;
    }
    Ok(())
}
