//! Files, sinks and arguments for whole runs.

ghost use Rattle.std.specs.Prelude.{◌≡◌, ◌≤◌, ◌∷◌, [], None};

use gx_outside::{MemFiles, MemSink};
use gx_rows::NoMemory;
use gx_run::{Block, Cluster, run};
use std::alloc::{AllocError, Global};
use std::process::Abort;
use std::test::Fail;

// A table, an edge collection and a graph of both.
const GRAPH: &str = "vertices people from \"people.csv\" (name: text, age: int); \
     edges knows from \"knows.csv\" (w: int); graph g = people, knows default (\"?\", 0); ";

/// A table, printed.
pub(super) const AGES: &str = "vertices a from \"ages.csv\" (age: int); print table a;";

/// No file beside those that each run finds.
pub(super) const NO_FILE: (&str, &str) = ("", "");

// The files that each run finds, unless a row has one of the same name.
const FILES: [(&str, &str); 7] = [
    ("people.csv", "id,name,age\n3,ann,30\n1,bob,25\n2,eve,17\n"),
    ("knows.csv", "src,dst,w\n1,2,4\n2,3,1\n3,1,7\n1,2,6\n"),
    ("loop.csv", "src,dst,w\n9,9,1\n"),
    ("ages.csv", "id,age\n3,30\n1,25\n"),
    ("links.csv", "src,dst,w\n1,2,4\n2,3,1\n"),
    ("cut.csv", "id,name\n1,\"bob"),
    ("follow.txt", "# follower\n1 2\n2\t3\n\n3 1 extra\n"),
];

/// What fails in a run: the opens and reads of these numbers, counted together, the writes of these
/// numbers to `out` and to `err`, and the most bytes that the first write to `out` takes, if there
/// is such a number.
#[derive(Clone, Copy)]
pub(super) struct Faults {
    pub(super) read: Option<u64>,
    pub(super) out: Option<u64>,
    pub(super) err: Option<u64>,
    pub(super) first: Option<usize>,
}

/// Nothing fails.
pub(super) const NONE: Faults = Faults {
    read: None,
    out: None,
    err: None,
    first: None,
};

/// `GRAPH`, and then this.
pub(super) fn after_graph(alloc: Global, rest: &str) -> Result<String, AllocError> {
    format!(in alloc; "{GRAPH}{rest}")
}

// The list of this item, or no item.
fn list_of(alloc: Global, item: Option<u64>) -> Result<Vec<u64>, AllocError> {
    let mut items = Vec::new(alloc);
    if let Some(item) = item {
        items.push(item)?;
    }
    Ok(items)
}

// A sink whose first write takes at most so many bytes, if there is a number, and at least one.
fn sink_of(alloc: Global, first: Option<usize>, failing: Option<u64>) -> Result<MemSink, NoMemory> {
    let failing = list_of(alloc, failing)?;
    let mut pieces = Vec::new(alloc);
    if let Some(first) = first {
        pieces.push(first.max(1)).map_err(|_| NoMemory)?;
    }
    MemSink::of(alloc, pieces, failing, 400)
}

// These arguments, owned.
fn args_of(alloc: Global, args: &[&str]) -> Result<Vec<String>, AllocError> {
    let mut owned = Vec::new(alloc);
    for arg in args {
        owned.push(String::from_str(alloc, *arg)?)?;
    }
    Ok(owned)
}

// Adds a file of this name.
fn add_file(
    alloc: Global,
    files: &mut Vec<(String, Vec<u8>)>,
    name: &str,
    bytes: &[u8],
) -> Result<(), AllocError> {
    let name = String::from_str(alloc, name)?;
    let bytes = Vec::from_slice(alloc, bytes)?;
    files.push((name, bytes))?;
    Ok(())
}

/// The script `s.gx`, this file, and the files that each run finds. A read gives at most `piece` bytes.
pub(super) fn files_of(
    alloc: Global,
    script: &[u8],
    file: (&str, &[u8]),
    piece: usize,
    failing: Option<u64>,
) -> Result<MemFiles, AllocError>
    requires { 1 ≤ piece }
{
    let failing = list_of(alloc, failing)?;
    let mut files = Vec::new(alloc);
    add_file(alloc, &mut files, "s.gx", script)?;
    add_file(alloc, &mut files, file.0, file.1)?;
    for (name, text) in FILES {
        add_file(alloc, &mut files, name, text.as_bytes())?;
    }
    Ok(MemFiles::of(files, piece, failing))
}

/// Stops the test unless a run with these arguments over these files, on this cluster, writes `out` and
/// `err` and ends with this exit status.
pub(super) fn assert_ends_on(
    rt: &impl Abort,
    alloc: Global,
    cluster: &mut Cluster<Block>,
    args: &[&str],
    files: &mut MemFiles,
    faults: Faults,
    end: (&str, &str, u8),
) -> Result<(), Fail>
    requires { cluster.old ≡ record { held = []; running = None ∷ []; log = []; spare = 0 } }
{
    let args = args_of(alloc, args)?;
    let mut out = sink_of(alloc, faults.first, faults.out)?;
    let mut err = sink_of(alloc, None, faults.err)?;
    let status = run(alloc, args.as_slice(), files, &mut out, &mut err, cluster);
    assert_eq!(rt; str::from_utf8(err.bytes())?, end.1);
    assert_eq!(rt; str::from_utf8(out.bytes())?, end.0);
    assert_eq!(rt; status.code(), end.2);
    Ok(())
}

/// Stops the test unless a run with these arguments over these files writes `out` and `err` and ends
/// with this exit status.
pub(super) fn assert_ends(
    rt: &impl Abort,
    alloc: Global,
    args: &[&str],
    files: &mut MemFiles,
    faults: Faults,
    end: (&str, &str, u8),
) -> Result<(), Fail> {
    let mut cluster = Cluster::empty(alloc);
    assert_ends_on(rt, alloc, &mut cluster, args, files, faults, end)
}

/// Stops the test unless the run of this script, with this file among the others, writes `out` and
/// `err` and ends with this exit status.
pub(super) fn assert_runs(
    rt: &impl Abort,
    alloc: Global,
    script: &str,
    file: (&str, &str),
    faults: Faults,
    end: (&str, &str, u8),
) -> Result<(), Fail> {
    let file = (file.0, file.1.as_bytes());
    let mut files = files_of(alloc, script.as_bytes(), file, 7, faults.read)?;
    assert_ends(rt, alloc, &["run", "s.gx"], &mut files, faults, end)
}
