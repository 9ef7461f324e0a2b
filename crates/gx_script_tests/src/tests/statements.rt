//! Each statement, accepted and refused by each of its checks. A statement that is accepted is not
//! run yet, or else `ok`.

use super::support::assert_each;
use std::test::Fail;

const NAMES: [(&str, &str); 23] = [
    ("vertices s from \"f\" ();", "5 NameTaken"),
    (
        "graph g = s, e default (0, \"\", true, ids());",
        "5 NameTaken",
    ),
    ("vertices r from \"f\" ();", "ok 5"),
    ("filter r = z where true;", "5 NameUnknown"),
    ("filter r = r where true;", "5 NameUnknown"),
    ("filter r = g where true;", "5 WrongSort"),
    ("filter r = e where true;", "5 WrongSort"),
    ("print table s;", "ok 5"),
    ("print table e;", "5 WrongSort"),
    ("print table g;", "5 WrongSort"),
    ("print table z;", "5 NameUnknown"),
    ("print vertices s;", "5 WrongSort"),
    ("print edges e;", "5 WrongSort"),
    ("count vertices g; count edges g; count table u;", "ok 7"),
    ("count edges s;", "5 WrongSort"),
    ("print triplets g;", "5 NotBuilt"),
    ("graph h = e, e default ();", "5 WrongSort"),
    ("graph h = s, g default ();", "5 WrongSort"),
    // A name is looked up and its sort is tested before the next name.
    ("mask m = s by z;", "5 WrongSort"),
    ("mask m = z by s;", "5 NameUnknown"),
    ("mask m = g by e;", "5 WrongSort"),
    ("mask m = g by g;", "5 NotBuilt"),
    ("partition h = g by canonical;", "ok 5"),
];

const COLUMNS: [(&str, &str); 16] = [
    ("vertices r from \"f\" (id: int);", "5 ColumnName"),
    ("vertices r from \"f\" (a: int, src: int);", "5 ColumnName"),
    ("edges r from \"f\" (dst: int);", "5 ColumnName"),
    ("edges r from \"f\" (v: int, edge: int, m: ids);", "ok 5"),
    ("vertices r from \"f\" (a: int, a: text);", "5 ColumnTwice"),
    ("vertices r from \"f\" (a: int, A: text);", "ok 5"),
    (
        "vertices r from \"f\" (a: int, a: int, id: int);",
        "5 ColumnTwice",
    ),
    (
        "vertices r from \"f\" (a: int, id: int, a: int);",
        "5 ColumnName",
    ),
    ("fromedges h = e (a: 1, a: 2);", "5 ColumnTwice"),
    ("fromedges h = e (a: 1, b: ids());", "ok 5"),
    ("mapvertices h = g (x: 1, x: 2);", "5 ColumnTwice"),
    ("groupedges h = g (w: sum, w: sum);", "5 ColumnTwice"),
    (
        "aggregate r = g to src (1) merge (id: sum);",
        "5 ColumnName",
    ),
    ("mapvalues r = s (src: 1);", "5 ColumnName"),
    (
        "pregel p = g rounds 1 merge (m: sum) initial (0) program (a: 1, id: 1) to src (1);",
        "5 ColumnName",
    ),
    (
        "pregel p = g rounds 1 merge (m: sum, m: sum) initial (0) program (id: 1) to src (1);",
        "5 ColumnTwice",
    ),
];

const CONSTANTS: [(&str, &str); 12] = [
    ("graph h = s, e default (0, \"\", true, ids());", "ok 5"),
    ("graph h = s, e default (-5, \"x\", false, ids());", "ok 5"),
    ("graph h = s, e default (-0, \"x\", false, ids());", "ok 5"),
    ("graph h = s, e default (0, \"\", true);", "5 ColumnsDiffer"),
    ("graph h = s, e default ();", "5 ColumnsDiffer"),
    ("graph h = s, e default (0, 0, true, ids());", "5 ConstKind"),
    ("graph h = s, e default (0, \"\", true, 0);", "5 ConstKind"),
    ("graph h = s, e default (true, \"\", 1);", "5 ColumnsDiffer"),
    (
        "outerjoin h = g, u default (0, \"\", true, ids()) (a: 1);",
        "5 NotBuilt",
    ),
    (
        "outerjoin h = g, u default (0, \"\", true, true) (a: 1);",
        "5 ConstKind",
    ),
    ("leftjoin r = s, u default (0) (a: 1);", "5 ColumnsDiffer"),
    (
        "leftjoin r = s, u default (\"\", \"\", true, ids()) (a: 1);",
        "5 ConstKind",
    ),
];

const MERGES: [(&str, &str); 22] = [
    ("aggregate r = g to src (1) merge (x: sum);", "5 NotBuilt"),
    (
        "aggregate r = g to src (1, 2) merge (x: sum);",
        "5 ColumnsDiffer",
    ),
    (
        "aggregate r = g to src () merge (x: sum);",
        "5 ColumnsDiffer",
    ),
    ("aggregate r = g to src () merge ();", "5 NotBuilt"),
    (
        "aggregate r = g to src (edge.x) to dst (1, 1) merge (x: sum);",
        "5 ColumnsDiffer",
    ),
    (
        "aggregate r = g to src (edge.x) merge (x: sum);",
        "5 MergeKind",
    ),
    (
        "aggregate r = g to src (edge.x) merge (x: count);",
        "5 NotBuilt",
    ),
    (
        "aggregate r = g to src (1) to dst (edge.x) merge (x: count);",
        "5 MergeKind",
    ),
    (
        "aggregate r = g to src (1) to dst (2) when true merge (x: min);",
        "5 NotBuilt",
    ),
    (
        "aggregate r = g to src (src.b) merge (x: all);",
        "5 NotBuilt",
    ),
    (
        "aggregate r = g to src (src.b) merge (x: any);",
        "5 NotBuilt",
    ),
    ("aggregate r = g to src (1) merge (x: all);", "5 MergeKind"),
    (
        "aggregate r = g to src (src.l) merge (x: any);",
        "5 MergeKind",
    ),
    (
        "aggregate r = g to src (src.l) merge (x: bag);",
        "5 NotBuilt",
    ),
    (
        "aggregate r = g to src (dst.id) merge (x: bag);",
        "5 NotBuilt",
    ),
    (
        "aggregate r = g to src (src.t) merge (x: bag);",
        "5 MergeKind",
    ),
    ("groupedges h = g (w: sum, x: max);", "5 NotBuilt"),
    ("groupedges h = g (w: sum);", "5 ColumnsDiffer"),
    ("groupedges h = g (x: max, w: sum);", "5 ColumnsDiffer"),
    ("groupedges h = g (w: all, x: max);", "5 MergeKind"),
    ("groupedges h = g (w: bag, x: sum);", "5 MergeKind"),
    (
        "groupedges h = g (w: sum, x: max, y: min);",
        "5 ColumnsDiffer",
    ),
];

const SAME_COLUMNS: [(&str, &str); 14] = [
    (
        "joinvertices h = g, u (a: 1, t: v.t, b: o.x, l: v.l);",
        "5 NotBuilt",
    ),
    (
        "joinvertices h = g, u (a: 1, t: v.t, b: o.x);",
        "5 ColumnsDiffer",
    ),
    (
        "joinvertices h = g, u (a: 1, t: v.t, b: o.x, k: v.l);",
        "5 ColumnsDiffer",
    ),
    (
        "joinvertices h = g, u (a: true, t: v.t, b: o.x, l: v.l);",
        "5 ColumnsDiffer",
    ),
    (
        "joinvertices h = g, u (t: v.t, a: 1, b: o.x, l: v.l);",
        "5 ColumnsDiffer",
    ),
    ("diff r = s, u;", "ok 5"),
    (
        "vertices r from \"f\" (a: int); diff q = s, r;",
        "6 ColumnsDiffer",
    ),
    (
        "vertices r from \"f\" (a: int, t: text, b: bool, l: int); diff q = s, r;",
        "6 ColumnsDiffer",
    ),
    (
        "vertices r from \"f\" (t: text, a: int, b: bool, l: ids); diff q = s, r;",
        "6 ColumnsDiffer",
    ),
    ("minus r = s, u;", "ok 5"),
    (
        "pregel p = g rounds 1 merge (m: sum) initial (0) program (a: m.m, t: v.t, b: v.b, l: v.l) \
         to src (1);",
        "5 NotBuilt",
    ),
    (
        "pregel p = g rounds 1 merge (m: sum) initial (0) program (a: m.m) to src (1);",
        "5 ColumnsDiffer",
    ),
    (
        "pregel p = g rounds 1 merge (m: sum) initial (\"\") program (a: m.m) to src (1);",
        "5 ConstKind",
    ),
    (
        "pregel p = g rounds 1 merge (m: bag) initial (ids()) program (a: 1, t: v.t, b: v.b, l: m.m) \
         to src (1);",
        "5 NotBuilt",
    ),
];

#[test]
fn names_are_free_and_defined(rt: HostRuntime) -> Result<(), Fail> {
    assert_each(&rt, rt.alloc(), &NAMES)
}

#[test]
fn columns_have_names(rt: HostRuntime) -> Result<(), Fail> {
    assert_each(&rt, rt.alloc(), &COLUMNS)
}

#[test]
fn constants_fit_their_columns(rt: HostRuntime) -> Result<(), Fail> {
    assert_each(&rt, rt.alloc(), &CONSTANTS)
}

#[test]
fn merges_take_kinds(rt: HostRuntime) -> Result<(), Fail> {
    assert_each(&rt, rt.alloc(), &MERGES)
}

#[test]
fn columns_are_kept(rt: HostRuntime) -> Result<(), Fail> {
    assert_each(&rt, rt.alloc(), &SAME_COLUMNS)
}
