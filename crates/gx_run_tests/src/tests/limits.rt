//! Runs over files and scripts at their limits, and past them.

use super::support::{NONE, assert_ends, files_of};
use std::alloc::{AllocError, Global};
use std::process::Abort;
use std::test::Fail;

// `start`, and then `piece` so many times.
fn repeated(alloc: Global, start: &str, piece: &str, times: usize) -> Result<Vec<u8>, AllocError> {
    let mut text = Vec::from_slice(alloc, start.as_bytes())?;
    for _time in 0..times {
        text.extend_from_slice(piece.as_bytes())?;
    }
    Ok(text)
}

// Stops the test unless the run of this script over this file, `f`, ends so.
fn assert_limit(
    rt: &impl Abort,
    alloc: Global,
    script: &[u8],
    file: &[u8],
    err: &str,
    code: u8,
) -> Result<(), Fail> {
    let mut files = files_of(alloc, script, ("f", file), 1_048_576, None)?;
    assert_ends(
        rt,
        alloc,
        &["run", "s.gx"],
        &mut files,
        NONE,
        ("", err, code),
    )
}

#[test]
fn limits_are_at_their_numbers(rt: HostRuntime) -> Result<(), Fail> {
    let alloc = rt.alloc();
    let load = "vertices a from \"f\" (x: int);";
    let twice = "vertices a from \"f\" (x: int); vertices b from \"f\" (x: int);";
    let thrice = "vertices a from \"f\" (x: int); vertices b from \"f\" (x: int); \
         vertices c from \"ages.csv\" (age: int);";
    let bad = "vertices a from \"f\" (x: int); vertices b from \"f\" (x: int); \
         vertices c from \"ages.csv\" (years: int);";
    // The script, the start, the piece and the pieces of its file, the text on `err`, and the status.
    let files = [
        (
            load,
            "id,x\n",
            "1,2\n",
            500_001,
            "limit: file rows 500000\n",
            3,
        ),
        (
            thrice,
            "id,x\n",
            "1,2\n",
            500_000,
            "limit: all rows 1000000\n",
            3,
        ),
        // The rows of a file come before the sum of rows.
        (
            bad,
            "id,x\n",
            "1,2\n",
            500_000,
            "data: ages.csv: column years missing\n",
            1,
        ),
        (twice, "id,x,", "yyy", 11_184_809, "", 0),
        (
            load,
            "id,x,y",
            "yyy",
            11_184_809,
            "limit: file bytes 33554432\n",
            3,
        ),
        // The sum of sizes comes before the rows.
        (
            bad,
            "id,x,",
            "yyy",
            11_184_809,
            "limit: all bytes 67108864\n",
            3,
        ),
    ];
    for (script, start, piece, times, err, code) in files {
        let file = repeated(alloc, start, piece, times)?;
        assert_limit(&rt, alloc, script.as_bytes(), file.as_slice(), err, code)?;
    }
    let scripts = [
        ("", " ", 1_048_576, "", 0),
        ("", " ", 1_048_577, "limit: script bytes 1048576\n", 3),
        ("", "print table a;", 1_001, "limit: statements 1000\n", 3),
        (
            "vertices a from \"f\" (",
            "x: int,",
            512,
            "limit: statement tokens 2048\n",
            3,
        ),
    ];
    for (start, piece, times, err, code) in scripts {
        let script = repeated(alloc, start, piece, times)?;
        assert_limit(&rt, alloc, script.as_slice(), b"", err, code)?;
    }
    Ok(())
}
