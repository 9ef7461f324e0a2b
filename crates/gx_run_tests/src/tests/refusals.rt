//! Runs of refused scripts, files and arguments, and runs over devices that fail.

use super::support::{
    AGES, Faults, NO_FILE, NONE, after_graph, assert_ends, assert_runs, files_of,
};
use std::test::Fail;

#[test]
fn refused_scripts_and_files(rt: HostRuntime) -> Result<(), Fail> {
    let alloc = rt.alloc();
    let unbuilt = after_graph(alloc, "reverse h = g; print edges h;")?;
    let ill_typed = after_graph(alloc, "reverse h = g; print edges nope;")?;
    let list = "edgelist e from \"follow.txt\";";
    let cases = [
        (
            "print table people",
            NO_FILE,
            "script: byte 18: not expected here\n",
            1,
        ),
        (
            "print table people;",
            NO_FILE,
            "script: statement 1: name unknown\n",
            1,
        ),
        // Each statement is checked before one is refused that is not built.
        (
            unbuilt.as_str(),
            NO_FILE,
            "script: statement 4: not built\n",
            1,
        ),
        (
            ill_typed.as_str(),
            NO_FILE,
            "script: statement 5: name unknown\n",
            1,
        ),
        (
            AGES,
            ("ages.csv", "id,age\n3,30\n1,x\n"),
            "data: ages.csv: row 2, column age: not an int\n",
            1,
        ),
        (
            AGES,
            ("ages.csv", "key,age\n3,30\n"),
            "data: ages.csv: column id missing\n",
            1,
        ),
        (
            AGES,
            ("ages.csv", "id,age\n3\n"),
            "data: ages.csv: row 1: shape\n",
            1,
        ),
        (
            list,
            ("follow.txt", "1 2\n4\n"),
            "data: follow.txt: line 2: not an edge\n",
            1,
        ),
        // A file that no action needs is read too.
        (
            "vertices a from \"none\" (x: int);",
            NO_FILE,
            "source: none\n",
            4,
        ),
    ];
    for (script, file, err, code) in cases {
        assert_runs(&rt, alloc, script, file, NONE, ("", err, code))?;
    }
    Ok(())
}

#[test]
fn failing_devices(rt: HostRuntime) -> Result<(), Fail> {
    let alloc = rt.alloc();
    let two = "vertices a from \"ages.csv\" (age: int); count table a; print table a;";
    let cases = [
        // The sink takes 5 bytes and then fails; its second text fails at once.
        (
            AGES,
            Faults {
                out: Some(1),
                first: Some(5),
                ..NONE
            },
            ("id,ag", "sink\n", 5),
        ),
        (
            two,
            Faults {
                out: Some(1),
                ..NONE
            },
            ("count\n2\n", "sink\n", 5),
        ),
        // The script, and then the data file, cannot be opened or read.
        (
            AGES,
            Faults {
                read: Some(0),
                ..NONE
            },
            ("", "source: s.gx\n", 4),
        ),
        (
            AGES,
            Faults {
                read: Some(1),
                ..NONE
            },
            ("", "source: s.gx\n", 4),
        ),
        (
            AGES,
            Faults {
                read: Some(10),
                ..NONE
            },
            ("", "source: ages.csv\n", 4),
        ),
        // A fault of `err` changes nothing else.
        (
            "print",
            Faults {
                err: Some(0),
                ..NONE
            },
            ("", "", 1),
        ),
    ];
    for (script, faults, end) in cases {
        assert_runs(&rt, alloc, script, NO_FILE, faults, end)?;
    }
    Ok(())
}

#[test]
fn arguments(rt: HostRuntime) -> Result<(), Fail> {
    let alloc = rt.alloc();
    let usage =
        "usage: gx run SCRIPT [--parts N] [--cut 1d|2d|random|canonical|rows] [--workers N] \
         [--schedule FILE] [--report] | gx show SCRIPT | gx sample SEED N\n";
    let cases = [
        ([].as_slice(), usage, 2),
        (["run"].as_slice(), usage, 2),
        (["Run", "s.gx"].as_slice(), usage, 2),
        (["run", "s.gx", "t.gx"].as_slice(), usage, 2),
        (["run", "t.gx"].as_slice(), "source: t.gx\n", 4),
        // The script is not UTF-8 after its first byte.
        (["run", "s.gx"].as_slice(), "script: byte 1: not UTF-8\n", 1),
    ];
    for (args, err, code) in cases {
        let mut files = files_of(alloc, b"#\xff", ("", b""), 1, None)?;
        assert_ends(&rt, alloc, args, &mut files, NONE, ("", err, code))?;
    }
    Ok(())
}
