//! Edge lists with their edges, or the line that is refused.

use gx_load::edge_list_of;
use gx_rows::{NoMemory, Value};
use std::alloc::Global;
use std::process::Abort;
use std::test::Fail;

// The edges of an edge list, as text, or why it is refused.
fn edges_text(
    rt: &impl Abort,
    alloc: Global,
    bytes: &[u8],
    oriented: bool,
) -> Result<String, NoMemory> {
    assert!(rt; bytes.len() < 1 << 32);
    let rows = match edge_list_of(alloc, bytes, oriented) {
        Ok(rows) => rows,
        Err(stop) => return Ok(format!(in alloc; "{stop:?}")?),
    };
    let mut text = String::new(alloc);
    for (source, target, row) in &rows {
        assert!(rt; row.as_slice() == [Value::Int(1)].as_slice());
        let edge = format!(in alloc; "{} {};", source.0, target.0)?;
        text.push_str(&edge)?;
    }
    Ok(text)
}

// Stops the test unless this edge list has these edges, or is refused, as expected.
fn assert_edges(
    rt: &impl Abort,
    alloc: Global,
    bytes: &[u8],
    oriented: bool,
    expected: &str,
) -> Result<(), NoMemory> {
    let text = edges_text(rt, alloc, bytes, oriented)?;
    assert_eq!(rt; text.as_str(), expected, "at {bytes:?}");
    Ok(())
}

#[test]
fn loads_edge_lists(rt: HostRuntime) -> Result<(), Fail> {
    let lists: [(&[u8], &str); 20] = [
        (b"# follower\n1 2\n2\t3\n\n3 1 extra", "1 2;2 3;3 1;"),
        (b"", ""),
        (b"\n \t\r\n", ""),
        (b"  # x\n\r\t1\t \t2\t\n", "1 2;"),
        (b"1 2\r\n3 4\r\n", "1 2;3 4;"),
        (b"1\r2\n", "1 2;"),
        (b"1 2 \xff #\n", "1 2;"),
        (b"+1 -2\n007 -0\n", "1 -2;7 0;"),
        (
            b"9223372036854775807 -9223372036854775808\n",
            "9223372036854775807 -9223372036854775808;",
        ),
        (b"9223372036854775808 1\n", "Data(Line(1))"),
        // one byte order mark is skipped
        (b"\xef\xbb\xbf1 2\n", "1 2;"),
        (b"\xef\xbb\xbf# x\n4\n", "Data(Line(2))"),
        (b"\xef\xbb\xbf\xef\xbb\xbf1 2\n", "Data(Line(1))"),
        // lines that do not begin with two numbers, and the first of two such lines
        (b"4", "Data(Line(1))"),
        (b"1 2\n\n# x\n4\nx y\n", "Data(Line(4))"),
        (b"1,2\n", "Data(Line(1))"),
        (b"1 2x\n", "Data(Line(1))"),
        (b"1 2# x\n", "Data(Line(1))"),
        (b"1 # 2\n", "Data(Line(1))"),
        (b"1\x0c2\n", "Data(Line(1))"),
    ];
    for (bytes, expected) in lists {
        assert_edges(&rt, rt.alloc(), bytes, false, expected)?;
    }
    let bytes = b"3 1\n1 3\n2 2\n-1 -2";
    assert_edges(&rt, rt.alloc(), bytes, true, "1 3;1 3;2 2;-2 -1;")?;
    assert_edges(&rt, rt.alloc(), bytes, false, "3 1;1 3;2 2;-1 -2;")?;
    Ok(())
}
