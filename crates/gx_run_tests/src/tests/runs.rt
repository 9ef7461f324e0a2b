//! Whole runs that print, and those that end with a fault.

use super::support::{AGES, NO_FILE, NONE, after_graph, assert_runs};
use std::test::Fail;

#[test]
fn tables(rt: HostRuntime) -> Result<(), Fail> {
    let people = "vertices people from \"people.csv\" (name: text, age: int); print table people;";
    let cut = "vertices c from \"cut.csv\" (name: text); print table c;";
    let kinds =
        "vertices k from \"k.csv\" (b: bool, n: ids, t: text); print table k; count table k;";
    let cases = [
        (
            people,
            NO_FILE,
            "id,name,age\n1,bob,25\n2,eve,17\n3,ann,30\n",
        ),
        // The first row of a repeated identifier is kept.
        (
            AGES,
            ("ages.csv", "id,age\n3,30\n1,25\n1,26\n"),
            "id,age\n1,25\n3,30\n",
        ),
        (AGES, ("ages.csv", "id,age\n"), "id,age\n"),
        ("", NO_FILE, ""),
        // A field that is not closed ends with the file.
        (cut, NO_FILE, "id,name\n1,bob\n"),
        // Every kind.
        (
            kinds,
            ("k.csv", "t,id,n,b\n\"a,b\",-7,3 1 3,true\n,4,,false\n"),
            "id,b,n,t\n-7,true,1 3 3,\"a,b\"\n4,false,,\ncount\n2\n",
        ),
    ];
    for (script, file, out) in cases {
        assert_runs(&rt, rt.alloc(), script, file, NONE, (out, "", 0))?;
    }
    Ok(())
}

#[test]
fn graphs(rt: HostRuntime) -> Result<(), Fail> {
    let alloc = rt.alloc();
    let ages = "vertices a from \"ages.csv\" (age: int); edges l from \"links.csv\" (w: int); \
         graph g = a, l default (0); ";
    let mapped = format!(in alloc;
        "{ages}mapvertices h = g (x: ((v.age * 2) + 1)); print vertices h; print edges g;"
    )?;
    let silent = format!(in alloc; "{ages}mapvertices h = g (x: (1 / v.age)); print table a;")?;
    let people = after_graph(
        alloc,
        "mapvertices h = g (name: v.name, x: 1 / (v.age - v.age)); print table people;",
    )?;
    let edges = after_graph(alloc, "print edges g; count edges g; count vertices g;")?;
    let follow = "edgelist e from \"follow.txt\"; fromedges h = e (value: 1, name: \"?\"); \
         print vertices h; print edges h; count edges h;";
    let twice = "edgelist e from \"f\" oriented; fromedges h = e (d: true); \
         mapvertices i = h (n: v.id); mapvertices j = i (m: v.n + v.id); print vertices j; \
         print vertices i; print edges j; # the end";
    let cases = [
        (
            mapped.as_str(),
            NO_FILE,
            "id,x\n1,51\n2,1\n3,61\nsrc,dst,w\n1,2,4\n2,3,1\n",
        ),
        // No action needs what has a fault.
        (silent.as_str(), NO_FILE, "id,age\n1,25\n3,30\n"),
        (
            people.as_str(),
            NO_FILE,
            "id,name,age\n1,bob,25\n2,eve,17\n3,ann,30\n",
        ),
        // An end without a row gets the default, and edges are printed in edge order.
        (
            edges.as_str(),
            ("knows.csv", "src,dst,w\n3,1,7\n1,9,6\n1,9,6\n1,2,4\n"),
            "src,dst,w\n1,2,4\n1,9,6\n1,9,6\n3,1,7\ncount\n4\ncount\n4\n",
        ),
        (
            follow,
            NO_FILE,
            "id,value,name\n1,1,?\n2,1,?\n3,1,?\nsrc,dst,value\n1,2,1\n2,3,1\n3,1,1\ncount\n3\n",
        ),
        (
            twice,
            ("f", "5 2\n2 2\n"),
            "id,m\n2,4\n5,10\nid,n\n2,2\n5,5\nsrc,dst,value\n2,2,1\n2,5,1\n",
        ),
    ];
    for (script, file, out) in cases {
        assert_runs(&rt, alloc, script, file, NONE, (out, "", 0))?;
    }
    Ok(())
}

#[test]
fn faults(rt: HostRuntime) -> Result<(), Fail> {
    let alloc = rt.alloc();
    let ages = "vertices a from \"ages.csv\" (age: int); edges l from \"links.csv\" (w: int); \
         graph g = a, l default (0); mapvertices h = g (x: (1 / v.age)); print vertices h;";
    let first = after_graph(
        alloc,
        "mapvertices h = g (name: v.name, x: 1 / (v.age - v.age)); print vertices h;",
    )?;
    let later = after_graph(
        alloc,
        "count edges g; mapvertices h = g (x: 1 / (v.id / 2 - 1)); print edges g; print vertices h;",
    )?;
    let left = after_graph(
        alloc,
        "mapvertices h = g (x: (1 / 0) + (9223372036854775807 + 1)); print edges h;",
    )?;
    let cases = [
        (
            ages,
            "",
            "fault: statement 4, vertex 2, expression 0: divide by zero\n",
        ),
        (
            first.as_str(),
            "",
            "fault: statement 4, vertex 1, expression 1: divide by zero\n",
        ),
        // What was printed before it stays.
        (
            later.as_str(),
            "count\n4\nsrc,dst,w\n1,2,4\n1,2,6\n2,3,1\n3,1,7\n",
            "fault: statement 5, vertex 2, expression 0: divide by zero\n",
        ),
        // The left operand comes first.
        (
            left.as_str(),
            "",
            "fault: statement 4, vertex 1, expression 1: divide by zero\n",
        ),
    ];
    for (script, out, err) in cases {
        assert_runs(&rt, alloc, script, NO_FILE, NONE, (out, err, 1))?;
    }
    Ok(())
}
