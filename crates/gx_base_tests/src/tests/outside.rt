//! The files and the sink in memory, call by call, and a whole write over the sink.

ghost use Rattle.std.specs.Prelude.{◌≡◌, ◌≤◌, true, is_some};

use gx_outside::{Failed, Files, MemFiles, MemSink, Sink, write_all};
use gx_rows::NoMemory;
use std::alloc::{AllocError, Global};
use std::process::Abort;
use std::test::Fail;

/// A number that no call of these tests has.
const NEVER: u64 = 9;

#[test]
fn sink_takes_writes_in_part(rt: HostRuntime) -> Result<(), Fail> {
    let full = [Some(2), Some(0), Some(2), Some(1)];
    for (failing, room, want, bytes, faults) in [
        ([NEVER, NEVER], 100, full, "abfgh", 0),
        (
            [NEVER, NEVER],
            3,
            [Some(2), Some(0), Some(1), None],
            "abf",
            1,
        ),
        ([NEVER, NEVER], 0, [None, Some(0), None, None], "", 3),
        ([0, 2], 100, [None, Some(0), None, Some(1)], "h", 2),
        ([1, NEVER], 4, [Some(2), None, Some(2), None], "abfg", 2),
    ] {
        let mut sink = sink_of(rt.alloc(), 2, 1, &failing, room)?;
        let got = four_writes(&mut sink);
        assert_eq!(rt; got, want, "with room for {room}");
        assert_took(&rt, &sink, bytes, faults);
    }
    Ok(())
}

#[test]
fn whole_write_stops_at_a_fault(rt: HostRuntime) -> Result<(), Fail> {
    for (failing, room, text, want, bytes, faults) in [
        (1, 100, "id,age\n", Err(Failed), "id,a", 1),
        (2, 7, "id,age\n", Ok(()), "id,age\n", 0),
        (NEVER, 6, "id,age\n", Err(Failed), "id,age", 1),
        (0, 0, "", Ok(()), "", 0),
    ] {
        let mut sink = sink_of(rt.alloc(), 4, 100, &[failing], room)?;
        let got = write_all(&mut sink, text.as_bytes());
        assert_eq!(rt; got, want, "with room for {room}");
        assert_took(&rt, &sink, bytes, faults);
    }
    Ok(())
}

#[test]
fn files_are_read_in_part(rt: HostRuntime) -> Result<(), Fail> {
    let ends = [Some(0), Some(0), Some(0), Some(0)];
    let whole = [Some(2), Some(2), Some(1), Some(0)];
    for (failing, name, want, text, faults) in [
        (NEVER, "a", Some(whole), "first", 0),
        (0, "a", None, "", 1),
        (2, "a", Some([Some(2), None, Some(2), Some(1)]), "first", 1),
        (5, "b", Some(ends), "", 0),
        (1, "c", None, "", 0),
    ] {
        let mut files = three_files(rt.alloc(), failing)?;
        let mut read = Vec::new(rt.alloc());
        let got = four_reads(&mut files, name, &mut read)?;
        assert_eq!(rt; got, want, "of {name}");
        assert_eq!(rt; read.as_slice(), text.as_bytes(), "of {name}");
        assert_eq!(rt; files.fault_count(), faults, "of {name}");
    }
    Ok(())
}

/// A sink whose first two writes take at most so many bytes.
fn sink_of(
    alloc: Global,
    first: usize,
    second: usize,
    failing: &[u64],
    room: usize,
) -> Result<MemSink, NoMemory>
    requires first { 1 ≤ first }
    requires second { 1 ≤ second }
{
    let pieces = vec![in alloc; first, second]?;
    let failing = Vec::from_slice(alloc, failing)?;
    MemSink::of(alloc, pieces, failing, room)
}

/// Stops the test unless the sink has taken these bytes and met so many faults.
fn assert_took(rt: &impl Abort, sink: &MemSink, bytes: &str, faults: u64) {
    assert_eq!(rt; sink.bytes(), bytes.as_bytes(), "after {faults} faults");
    assert_eq!(rt; sink.fault_count(), faults, "after {bytes:?}");
}

/// Writes four pieces, one of them empty, and returns how many bytes of each the sink took; `None`
/// if the write failed.
fn four_writes(sink: &mut MemSink) -> [Option<usize>; 4] {
    [
        sink.write(b"abcde").ok(),
        sink.write(b"").ok(),
        sink.write(b"fg").ok(),
        sink.write(b"h").ok(),
    ]
}

/// Three files, two of them with one name. A read returns at most two bytes.
fn three_files(alloc: Global, failing: u64) -> Result<MemFiles, AllocError> {
    let mut files = Vec::new(alloc);
    add_file(alloc, &mut files, "a", "first")?;
    add_file(alloc, &mut files, "b", "")?;
    add_file(alloc, &mut files, "a", "second")?;
    Ok(MemFiles::of(files, 2, vec![in alloc; failing]?))
}

/// Adds a file of this name with this text.
fn add_file(
    alloc: Global,
    files: &mut Vec<(String, Vec<u8>)>,
    name: &str,
    text: &str,
) -> Result<(), AllocError> {
    let bytes = Vec::from_slice(alloc, text.as_bytes())?;
    let name = String::from_str(alloc, name)?;
    files.push((name, bytes))?;
    Ok(())
}

/// Opens the file, reads four times, and appends the bytes to `read`; `None` if the open failed.
fn four_reads(
    files: &mut MemFiles,
    name: &str,
    read: &mut Vec<u8>,
) -> Result<Option<[Option<usize>; 4]>, AllocError> {
    if files.open(name).is_err() {
        return Ok(None);
    }
    Ok(Some([
        read_more(files, read)?,
        read_more(files, read)?,
        read_more(files, read)?,
        read_more(files, read)?,
    ]))
}

/// Reads once, appends the bytes to `read`, and returns how many; `None` if the read failed.
fn read_more(files: &mut MemFiles, read: &mut Vec<u8>) -> Result<Option<usize>, AllocError>
    requires { is_some files.old.rest ≡ true }
    ensures { is_some files.new.rest ≡ true }
{
    let mut buf = [0; 4];
    let Ok(count) = files.read(&mut buf) else {
        return Ok(None);
    };
    read.extend_from_slice(&buf[..count])?;
    Ok(Some(count))
}
