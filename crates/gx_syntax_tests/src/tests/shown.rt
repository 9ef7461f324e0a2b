//! How scripts are shown.

use super::support::{assert_shown, nested};
use std::test::Fail;

const SPACES: [(&str, &str); 6] = [
    ("print   table people ; # x", "print table people;\n"),
    ("print\ttable\r\npeople#\n;", "print table people;\n"),
    (
        "\u{feff}count table a;print vertices b;",
        "count table a;\nprint vertices b;\n",
    ),
    // No script, or nothing but white space and comments.
    ("", ""),
    (" # print table people;\n", ""),
    ("\u{feff}", ""),
];

// White space around each token of a statement, or none.
const SPACES_IN_STATEMENTS: [(&str, &str); 13] = [
    (
        "vertices a from\"f\"(b:int,c:text);",
        "vertices a from \"f\" (b: int, c: text);\n",
    ),
    (
        "vertices a from \"f\" ( b : int , c : text ) ;",
        "vertices a from \"f\" (b: int, c: text);\n",
    ),
    ("edges e from \"f\" ( );", "edges e from \"f\" ();\n"),
    (
        "graph g=s,e default(1,-2,ids ( ));",
        "graph g = s, e default (1, -2, ids());\n",
    ),
    (
        "graph g = s , e default ( - 2 );",
        "graph g = s, e default (-2);\n",
    ),
    (
        "fromedges h=e(a:-1,b:ids());",
        "fromedges h = e (a: -1, b: ids());\n",
    ),
    (
        "mapvertices h=g(a:v . b,c:f ( 1 ,2 ));",
        "mapvertices h = g (a: v.b, c: f(1, 2));\n",
    ),
    (
        "mapvertices h = g (a: f ( ), b: -f(-1));",
        "mapvertices h = g (a: f(), b: -f(-1));\n",
    ),
    (
        "filter t=s where 1-2--3*-(4+5)<=6;",
        "filter t = s where 1 - 2 - -3 * -(4 + 5) <= 6;\n",
    ),
    (
        "filter t=s where not(true and(not(v.a)));",
        "filter t = s where not (true and not v.a);\n",
    ),
    (
        "aggregate t=g to dst(1)when true to src(2)merge(a:sum);",
        "aggregate t = g to dst (1) when true to src (2) merge (a: sum);\n",
    ),
    (
        "filter t=s where 1and 2or 3;",
        "filter t = s where 1 and 2 or 3;\n",
    ),
    (
        "subgraph h=g vertices(true)edges(false);",
        "subgraph h = g vertices true edges false;\n",
    ),
];

const CONSTANTS_AND_TEXTS: [(&str, &str); 12] = [
    // Numbers have no leading zeros.
    (
        "mapvalues t = s (a: 000, b: 007);",
        "mapvalues t = s (a: 0, b: 7);\n",
    ),
    (
        "graph g = s, e default (-00, -009223372036854775807);",
        "graph g = s, e default (0, -9223372036854775807);\n",
    ),
    (
        "pregel p = g rounds 010 merge () initial () program () to src ();",
        "pregel p = g rounds 10 merge () initial () program () to src ();\n",
    ),
    // Minus zero is zero as a constant, and an operation in an expression.
    (
        "graph g = s, e default (-0);",
        "graph g = s, e default (0);\n",
    ),
    ("fromedges h = e (a: - 0);", "fromedges h = e (a: 0);\n"),
    (
        "mapvalues t = s (a: -0, b: - 00);",
        "mapvalues t = s (a: -0, b: -0);\n",
    ),
    // Escapes, and what needs none.
    (
        "edgelist e from \"\\\"\\\\\\n\\t\\r\";",
        "edgelist e from \"\\\"\\\\\\n\\t\\r\";\n",
    ),
    ("edgelist e from \"a\tb\";", "edgelist e from \"a\\tb\";\n"),
    ("edgelist e from \"\";", "edgelist e from \"\";\n"),
    (
        "edgelist e from \"é # /x; ' \u{7f}\";",
        "edgelist e from \"é # /x; ' \u{7f}\";\n",
    ),
    (
        "mapvalues t = s (a: \"\\t\", b: concat(\"\\\\n\", \"n\"));",
        "mapvalues t = s (a: \"\\t\", b: concat(\"\\\\n\", \"n\"));\n",
    ),
    // The direction that is meant if none is written.
    (
        "pregel p = g rounds 1 active either merge () initial () program () to src ();",
        "pregel p = g rounds 1 merge () initial () program () to src ();\n",
    ),
];

// Expressions as deep as statements of 2,048 tokens have them.
const DEEP_EXPRESSIONS: [(&str, &str, &str, usize); 4] = [
    ("", "1", " + 1", 1021),
    ("f(", "1", ")", 680),
    ("-(", "-1", ")", 680),
    ("not (", "not true", ")", 680),
];

// Loads, a graph, messages and counts, each statement on its line.
const WHOLE_SCRIPT: &str = "\
        vertices v from \"sample\" (w: int);\n\
        edges e from \"sample\" (w: int);\n\
        graph g = v, e default (0);\n\
        aggregate t = g to dst (edge.w) merge (s: sum);\n\
        mapvertices l = g (label: v.id);\n\
        pregel c = l rounds 20 merge (m: min) initial (9223372036854775807) \
        program (label: min(v.label, m.m)) to dst (src.label) when src.label < dst.label \
        to src (dst.label) when dst.label < src.label;\n\
        subgraph z = c vertices v.id == v.label;\n\
        count vertices g;\n\
        count edges g;\n\
        count table t;\n\
        count vertices z;\n\
";

#[test]
fn scripts(rt: HostRuntime) -> Result<(), Fail> {
    assert_shown(&rt, rt.alloc(), &SPACES)?;
    assert_shown(&rt, rt.alloc(), &SPACES_IN_STATEMENTS)?;
    assert_shown(&rt, rt.alloc(), &CONSTANTS_AND_TEXTS)?;
    assert_shown(&rt, rt.alloc(), &[(WHOLE_SCRIPT, WHOLE_SCRIPT)])
}

#[test]
fn deep_scripts(rt: HostRuntime) -> Result<(), Fail> {
    for (open, middle, close, count) in DEEP_EXPRESSIONS {
        let text = nested(rt.alloc(), open, middle, close, count)?;
        let line = format!(in rt.alloc(); "{text}\n")?;
        assert_shown(&rt, rt.alloc(), &[(text.as_str(), line.as_str())])?;
    }
    Ok(())
}
