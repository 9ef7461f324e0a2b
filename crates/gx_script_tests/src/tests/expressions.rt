//! Expressions at each place of a statement: what they may read, and the numbers of their nodes.

use super::support::assert_each;
use std::test::Fail;

const SCOPES: [(&str, &str); 27] = [
    ("mapvertices h = g (x: v.a + v.id);", "ok 5"),
    ("mapvertices h = g (x: src.a);", "5.0 SideUnknown"),
    (
        "mapedges h = g (x: edge.w + src.id + dst.id);",
        "5 NotBuilt",
    ),
    ("mapedges h = g (x: src.a);", "5.0 ColumnUnknown"),
    ("mapedges h = g (x: v.id);", "5.0 SideUnknown"),
    (
        "maptriplets h = g (x: src.a + dst.a + edge.w);",
        "5 NotBuilt",
    ),
    ("maptriplets h = g (x: edge.id);", "5.0 ColumnUnknown"),
    ("subgraph h = g vertices v.b;", "5 NotBuilt"),
    ("subgraph h = g edges src.b;", "5 NotBuilt"),
    ("subgraph h = g vertices src.b;", "5.0 SideUnknown"),
    ("subgraph h = g vertices v.a;", "5.0 KindWrong"),
    (
        "subgraph h = g vertices not v.b edges edge.w;",
        "5.2 KindWrong",
    ),
    ("filter r = s where v.a < v.id;", "ok 5"),
    ("filter r = s where v.a;", "5.0 KindWrong"),
    ("filter r = s where v.z;", "5.0 ColumnUnknown"),
    ("mapvalues r = s (x: v.a);", "ok 5"),
    ("mapvalues r = s (x: o.a);", "5.0 SideUnknown"),
    ("innerjoin r = s, u (x: v.a + o.c);", "ok 5"),
    ("innerjoin r = s, u (x: matched);", "5.0 SideUnknown"),
    ("innerjoin r = s, u (x: o.id);", "5.0 ColumnUnknown"),
    ("joinvertices h = g, u (x: matched);", "5.0 SideUnknown"),
    (
        "outerjoin h = g, u default (0, \"\", true, ids()) (x: matched, y: o.c);",
        "5 NotBuilt",
    ),
    (
        "leftjoin r = s, u default (0, \"\", true, ids()) (x: not matched, y: v.a + o.c);",
        "ok 5",
    ),
    (
        "aggregate r = g to src (v.a) merge (x: sum);",
        "5.0 SideUnknown",
    ),
    (
        "aggregate r = g to src (1) when edge.w merge (x: sum);",
        "5.1 KindWrong",
    ),
    (
        "pregel p = g rounds 1 merge (m: sum) initial (0) program (a: m.a) to src (1);",
        "5.0 ColumnUnknown",
    ),
    (
        "pregel p = g rounds 1 merge (m: sum) initial (0) program (a: 1) to src (v.a);",
        "5.1 SideUnknown",
    ),
];

const NUMBERS: [(&str, &str); 10] = [
    (
        "mapvertices h = g (x: v.a + 1, y: -v.z);",
        "5.4 ColumnUnknown",
    ),
    ("mapvertices h = g (x: v.a + 1, y: -v.t);", "5.3 KindWrong"),
    ("mapvertices h = g (x: foo(v.z));", "5.1 ColumnUnknown"),
    ("mapvertices h = g (x: foo(v.a));", "5.0 FunctionUnknown"),
    ("mapvertices h = g (x: abs(1, 2));", "5.0 FunctionUnknown"),
    (
        "aggregate r = g to src (1 + 2) when true to dst (edge.z) merge (x: sum);",
        "5.4 ColumnUnknown",
    ),
    (
        "aggregate r = g to src (1) to dst (edge.w, edge.z) merge (x: sum);",
        "5.2 ColumnUnknown",
    ),
    // The constants of a list have no numbers.
    (
        "outerjoin h = g, u default (0, \"\", true, ids()) (x: 1, y: o.z);",
        "5.1 ColumnUnknown",
    ),
    // The nodes of a program come before those of the sends, which are checked first.
    (
        "pregel p = g rounds 1 merge (m: sum) initial (0) program (a: v.a + m.m, t: m.z) \
         to src (1) when src.z;",
        "5.5 ColumnUnknown",
    ),
    (
        "pregel p = g rounds 1 merge (m: sum) initial (0) program (a: v.a + m.m, t: m.z) to src (1);",
        "5.3 ColumnUnknown",
    ),
];

#[test]
fn each_place_has_its_scope(rt: HostRuntime) -> Result<(), Fail> {
    assert_each(&rt, rt.alloc(), &SCOPES)
}

#[test]
fn nodes_are_numbered_over_a_statement(rt: HostRuntime) -> Result<(), Fail> {
    assert_each(&rt, rt.alloc(), &NUMBERS)
}
