//! For each two checks that can fail together, the earlier one.

use super::support::assert_each;
use std::test::Fail;

const ORDER: [(&str, &str); 30] = [
    // The new name before all else.
    ("filter s = z where true;", "5 NameTaken"),
    ("filter s = g where true;", "5 NameTaken"),
    ("mapvertices s = g (id: 1);", "5 NameTaken"),
    (
        "aggregate s = g to src (v.a) merge (x: sum);",
        "5 NameTaken",
    ),
    (
        "aggregate s = g to src (1, 2) merge (x: sum);",
        "5 NameTaken",
    ),
    ("graph s = s, e default ();", "5 NameTaken"),
    ("mapvalues s = s (x: o.a);", "5 NameTaken"),
    ("vertices s from \"f\" (a: int, a: int);", "5 NameTaken"),
    // The used names before the columns and the rest.
    ("mapvertices r = z (id: 1);", "5 NameUnknown"),
    ("mapvertices r = s (id: 1);", "5 WrongSort"),
    ("innerjoin r = s, z (x: 1, x: 2);", "5 NameUnknown"),
    (
        "aggregate r = s to src (v.a) merge (x: sum);",
        "5 WrongSort",
    ),
    ("graph h = s, z default ();", "5 NameUnknown"),
    // The columns before the sends, merges, constants and expressions.
    (
        "aggregate r = g to src (v.a) merge (id: sum);",
        "5 ColumnName",
    ),
    (
        "aggregate r = g to src (1, 2) merge (src: sum);",
        "5 ColumnName",
    ),
    (
        "outerjoin h = g, u default () (x: 1, x: 1);",
        "5 ColumnTwice",
    ),
    ("mapvalues r = s (x: o.a, x: 1);", "5 ColumnTwice"),
    ("joinvertices h = g, u (id: 1);", "5 ColumnName"),
    // The sends before the merges, constants and expressions.
    (
        "aggregate r = g to src (v.a, 1) merge (x: sum);",
        "5.0 SideUnknown",
    ),
    (
        "pregel p = g rounds 1 merge (m: sum) initial (true) program (a: v.z) to src (src.z);",
        "5.1 ColumnUnknown",
    ),
    // The merges before the constants and expressions.
    (
        "pregel p = g rounds 1 merge (m: sum) initial (true, 1) program (a: v.z) to src (src.t);",
        "5 MergeKind",
    ),
    (
        "pregel p = g rounds 1 merge (m: sum) initial (true) program (a: v.z) to src (1, 2);",
        "5 ColumnsDiffer",
    ),
    // The constants before the expressions.
    (
        "pregel p = g rounds 1 merge (m: sum) initial (true) program (a: v.z) to src (1);",
        "5 ConstKind",
    ),
    ("outerjoin h = g, u default () (x: v.z);", "5 ColumnsDiffer"),
    (
        "leftjoin r = s, u default (1, 1, 1, 1) (x: v.z);",
        "5 ConstKind",
    ),
    // The expressions before the kept columns.
    ("joinvertices h = g, u (x: v.z);", "5.0 ColumnUnknown"),
    (
        "pregel p = g rounds 1 merge (m: sum) initial (1) program (a: v.z) to src (1);",
        "5.0 ColumnUnknown",
    ),
    // An earlier statement before a later one, and all checks before what is not run yet.
    (
        "filter r = s where v.z; filter s = z where true;",
        "5.0 ColumnUnknown",
    ),
    ("reverse r = g; filter s = z where true;", "6 NameTaken"),
    (
        "print table s; reverse r = g; reverse q = r; print vertices q;",
        "6 NotBuilt",
    ),
];

#[test]
fn the_first_check_that_fails_is_returned(rt: HostRuntime) -> Result<(), Fail> {
    assert_each(&rt, rt.alloc(), &ORDER)
}
