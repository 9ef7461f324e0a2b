//! What loading a CSV text returns, over tables of texts.

ghost use Rattle.std.specs.Prelude.{◌≡◌, ◌⊎◌, length, IfOk};
ghost use Rattle.std.specs.List.{IsDistinct};

use gx_load::{CellKind, LoadStop, RowStop, rows_of};
use gx_rows::{MOST_TEXT_BYTES, NoMemory, Row, RowType, Text, Value, ValueKind, Vid};
use std::alloc::Global;
use std::process::Abort;
use std::test::Fail;

// The columns `a` and `b` of these kinds.
fn columns(alloc: Global, first: ValueKind, second: ValueKind) -> Result<RowType, NoMemory>
    ensures { IfOk result (λ t. length t ≡ 2) }
{
    let mut columns = Vec::new(alloc);
    columns.push((Text::of(alloc, "a")?, first))?;
    columns.push((Text::of(alloc, "b")?, second))?;
    Ok(RowType::of(columns))
}

// Appends a value, as text.
fn put_value(alloc: Global, text: &mut String, value: &Value) -> Result<(), NoMemory> {
    let more = match value {
        Value::Int(number) => format!(in alloc; " {number}")?,
        Value::Bool(truth) => format!(in alloc; " {truth}")?,
        Value::Text(chars) => format!(in alloc; " '{}'", chars.as_str())?,
        Value::Ids(ids) => format!(in alloc; " {:?}", ids.as_slice())?,
    };
    text.push_str(&more)?;
    Ok(())
}

// Appends the keys and the values of a row, as text.
fn put_row(alloc: Global, text: &mut String, row: &(Vid, Vid, Row)) -> Result<(), NoMemory> {
    let keys = format!(in alloc; "{} {}", row.0.0, row.1.0)?;
    text.push_str(&keys)?;
    for value in row.2.as_slice() {
        put_value(alloc, text, value)?;
    }
    text.push_str(";")?;
    Ok(())
}

// What loading these bytes with columns of these kinds returns, as text.
fn loaded_text(
    rt: &impl Abort,
    alloc: Global,
    bytes: &[u8],
    keys: u32,
    kinds: (ValueKind, ValueKind),
) -> Result<String, NoMemory>
    requires { (keys ≡ 1) ⊎ (keys ≡ 2) }
{
    assert!(rt; bytes.len() < 1 << 32);
    let columns = columns(alloc, kinds.0, kinds.1)?;
    let rows = match rows_of(alloc, bytes, keys, &columns) {
        Ok(rows) => rows,
        Err(stop) => return Ok(format!(in alloc; "{stop:?}")?),
    };
    let mut text = String::new(alloc);
    for row in &rows {
        put_row(alloc, &mut text, row)?;
    }
    Ok(text)
}

// Stops the test unless loading these bytes with two int columns returns what is expected.
fn assert_loads(
    rt: &impl Abort,
    alloc: Global,
    keys: u32,
    bytes: &[u8],
    expected: &str,
) -> Result<(), NoMemory>
    requires { (keys ≡ 1) ⊎ (keys ≡ 2) }
{
    let text = loaded_text(rt, alloc, bytes, keys, (ValueKind::Int, ValueKind::Int))?;
    assert_eq!(rt; text.as_str(), expected, "at {bytes:?}");
    Ok(())
}

// With two text columns, which show each byte of a field.
#[test]
fn takes_each_record(rt: HostRuntime) -> Result<(), Fail> {
    let texts = [
        ("\n\r\n", "Data(Header(0))"),
        ("\u{feff}id,a,b\n1, 25,x\n", "1 0 ' 25' 'x';"),
        ("id,a,b\r\n\r\n1,b,c\r2,,d", "1 0 'b' 'c';2 0 '' 'd';"),
        ("id,a,b\n1,b,\"c,\"\"d\"\n2,,", "1 0 'b' 'c,\"d';2 0 '' '';"),
        ("id,a,b\r\n\r\n1,b\r", "Data(Shape(1))"),
    ];
    let kinds = (ValueKind::Text, ValueKind::Text);
    for (text, expected) in texts {
        let found = loaded_text(&rt, rt.alloc(), text.as_bytes(), 1, kinds)?;
        assert_eq!(rt; found.as_str(), expected, "at {text:?}");
    }
    Ok(())
}

// A file with one row, whose second cell is this one in quotes.
fn file_with_cell(alloc: Global, cell: &[u8]) -> Result<Vec<u8>, NoMemory> {
    let mut bytes = Vec::from_slice(alloc, b"id,a,b\n1,\"")?;
    bytes.extend_from_slice(cell)?;
    bytes.extend_from_slice(b"\",3\n")?;
    Ok(bytes)
}

// Stops the test unless this cell of this kind is loaded, or refused, as expected.
fn assert_cell(
    rt: &impl Abort,
    alloc: Global,
    kind: ValueKind,
    cell: &[u8],
    expected: &str,
) -> Result<(), NoMemory> {
    let bytes = file_with_cell(alloc, cell)?;
    let text = loaded_text(rt, alloc, bytes.as_slice(), 1, (kind, ValueKind::Int))?;
    assert_eq!(rt; text.as_str(), expected, "at {cell:?}");
    Ok(())
}

#[test]
fn loads_vertices(rt: HostRuntime) -> Result<(), Fail> {
    let vertices = [
        // the byte order mark, and what ends a record
        ("\u{feff}id,a,b\n1,2,3\n", "1 0 2 3;"),
        (
            "\n\nid,a,b\r\n1,2,3\r4,5,6\n\r\n\n7,8,9",
            "1 0 2 3;4 0 5 6;7 0 8 9;",
        ),
        // quoted fields, which may hold line ends and may lack their last quote
        (
            "id,\"a\",b,c\n\"1\",2,\"3\",\"x\ny\"\n4,5,6,\n",
            "1 0 2 3;4 0 5 6;",
        ),
        ("id,a,b\n1,2,\"3", "1 0 2 3;"),
        (
            "id,a,b\n1,2,\"3\n4,5,6\n",
            "Data(Cell { row: 1, column: 2, kind: NotInt })",
        ),
        // as many fields as the header, which is seen before any cell
        ("id,a,b\n1,2,3\n4,5,6,7\n", "Data(Shape(2))"),
        ("id,a,b\nx,2\n", "Data(Shape(1))"),
        ("id,a,b\n\"\"\n", "Data(Shape(1))"),
        // numbers
        ("id,a,b\n+7,-0,007\n \t7\t,\t8, 9 \n", "7 0 0 7;7 0 8 9;"),
        (
            "id,a,b\n-9223372036854775808,9223372036854775807,-1\n",
            "-9223372036854775808 0 9223372036854775807 -1;",
        ),
        (
            "id,a,b\n-9223372036854775809,0,0\n",
            "Data(Cell { row: 1, column: 0, kind: NotInt })",
        ),
        (
            "id,a,b\n0,9223372036854775808,0\n",
            "Data(Cell { row: 1, column: 1, kind: NotInt })",
        ),
        (
            "id,a,b\n1,2,3\n0,,x\n",
            "Data(Cell { row: 2, column: 1, kind: NotInt })",
        ),
        // the header
        ("x,b, a\t,,\tid ,a,id\n9,3,2,,1,8,8\n", "1 0 2 3;"),
        (
            "b,a,id\nx,y,1\n",
            "Data(Cell { row: 1, column: 1, kind: NotInt })",
        ),
        ("id,a,b\n", ""),
        ("", "Data(Header(0))"),
        ("\u{feff}", "Data(Header(0))"),
        ("\r\n\n", "Data(Header(0))"),
        ("b,ID\n1,2\n", "Data(Header(0))"),
        ("b,id\nx,2\n", "Data(Header(1))"),
        ("id,a\n1,2\n", "Data(Header(2))"),
    ];
    for (text, expected) in vertices {
        assert_loads(&rt, rt.alloc(), 1, text.as_bytes(), expected)?;
    }
    Ok(())
}

#[test]
fn loads_edges(rt: HostRuntime) -> Result<(), Fail> {
    let edges = [
        ("src,dst,a,b\n1,2,3,4\n-5,6,7,8\n", "1 2 3 4;-5 6 7 8;"),
        ("b,dst,src,a\n4,2,1,3\n", "1 2 3 4;"),
        ("src,id,a,b\n1,2,3,4\n", "Data(Header(1))"),
        ("src,dst,a\n1,2,3\n", "Data(Header(3))"),
        (
            "src,dst,a,b\n1,2,3,4\n1,x,x,4\n",
            "Data(Cell { row: 2, column: 1, kind: NotInt })",
        ),
        (
            "src,dst,a,b\n1,2,3,0x4\n",
            "Data(Cell { row: 1, column: 3, kind: NotInt })",
        ),
    ];
    for (text, expected) in edges {
        assert_loads(&rt, rt.alloc(), 2, text.as_bytes(), expected)?;
    }
    Ok(())
}

#[test]
fn refuses_cells_that_are_not_numbers(rt: HostRuntime) -> Result<(), Fail> {
    let not_numbers: [&[u8]; 9] = [
        b"-",
        b"+-1",
        b"1 2",
        b"1.0",
        b"1e3",
        b"0x1",
        b"\xff",
        b"\xc2\xa01",
        b"1\n",
    ];
    let expected = "Data(Cell { row: 1, column: 1, kind: NotInt })";
    for cell in not_numbers {
        let bytes = file_with_cell(rt.alloc(), cell)?;
        assert_loads(&rt, rt.alloc(), 1, bytes.as_slice(), expected)?;
    }
    Ok(())
}

#[test]
fn loads_truth_values(rt: HostRuntime) -> Result<(), Fail> {
    let refused = "Data(Cell { row: 1, column: 1, kind: NotBool })";
    let cells = [
        ("true", "1 0 true 3;"),
        (" \tfalse\t ", "1 0 false 3;"),
        ("True", refused),
        ("", refused),
        ("1", refused),
        ("true false", refused),
        ("true\r", refused),
    ];
    for (cell, expected) in cells {
        assert_cell(&rt, rt.alloc(), ValueKind::Bool, cell.as_bytes(), expected)?;
    }
    Ok(())
}

#[test]
fn loads_texts(rt: HostRuntime) -> Result<(), Fail> {
    let cells = [
        ("", "1 0 '' 3;"),
        (" \ta\t ", "1 0 ' \ta\t ' 3;"),
        ("x,\r\n\"\"y\"\"", "1 0 'x,\r\n\"y\"' 3;"),
        ("\u{feff}é", "1 0 '\u{feff}é' 3;"),
    ];
    for (cell, expected) in cells {
        assert_cell(&rt, rt.alloc(), ValueKind::Text, cell.as_bytes(), expected)?;
    }
    let refused = "Data(Cell { row: 1, column: 1, kind: NotText })";
    assert_cell(&rt, rt.alloc(), ValueKind::Text, b"a\xff", refused)?;
    Ok(())
}

#[test]
fn loads_lists(rt: HostRuntime) -> Result<(), Fail> {
    let refused = "Data(Cell { row: 1, column: 1, kind: NotIds })";
    let cells = [
        ("", "1 0 [] 3;"),
        (" \t ", "1 0 [] 3;"),
        ("\t3 1\t 2  1 ", "1 0 [1, 1, 2, 3] 3;"),
        ("+2 -1 007 -0", "1 0 [-1, 0, 2, 7] 3;"),
        ("1,2", refused),
        ("1 x", refused),
        ("1 -", refused),
        ("1\n2", refused),
        ("1\r2", refused),
        ("1 9223372036854775808", refused),
    ];
    for (cell, expected) in cells {
        assert_cell(&rt, rt.alloc(), ValueKind::Ids, cell.as_bytes(), expected)?;
    }
    Ok(())
}

// What a text cell is refused as: so many times `a`, and then this end.
fn text_refusal(
    rt: &impl Abort,
    alloc: Global,
    count: usize,
    end: &[u8],
) -> Result<Option<CellKind>, NoMemory> {
    let mut cell = Vec::new(alloc);
    for _ in 0..count {
        cell.push(b'a')?;
    }
    cell.extend_from_slice(end)?;
    let bytes = file_with_cell(alloc, cell.as_slice())?;
    assert!(rt; bytes.len() < 1 << 32);
    let columns = columns(alloc, ValueKind::Text, ValueKind::Int)?;
    match rows_of(alloc, bytes.as_slice(), 1, &columns) {
        Err(LoadStop::Data(RowStop::Cell { kind, .. })) => Ok(Some(kind)),
        _ => Ok(None),
    }
}

// A list of 1,000,001 entries, and a file of 500,001 edges, would take a minute to try.
#[test]
fn refuses_long_texts(rt: HostRuntime) -> Result<(), Fail> {
    let most = MOST_TEXT_BYTES;
    assert_eq!(rt; text_refusal(&rt, rt.alloc(), most, b"")?, None);
    let too_long = Some(CellKind::TextTooLong);
    assert_eq!(rt; text_refusal(&rt, rt.alloc(), most, b"a")?, too_long);
    let not_text = Some(CellKind::NotText);
    assert_eq!(rt; text_refusal(&rt, rt.alloc(), most, b"\xff")?, not_text);
    Ok(())
}

#[test]
fn refuses_the_first_of_several(rt: HostRuntime) -> Result<(), Fail> {
    let cases = [
        ("id,a,b\nx,True\n", "Data(Shape(1))"),
        (
            "id,a,b\nx,True,y\n",
            "Data(Cell { row: 1, column: 0, kind: NotInt })",
        ),
        (
            "id,a,b\n1,True,y\n2\n",
            "Data(Cell { row: 1, column: 1, kind: NotBool })",
        ),
        (
            "b,id,a\ny,1,true\nx,2,True\n",
            "Data(Cell { row: 1, column: 2, kind: NotIds })",
        ),
        ("id,a,b\n1,true,2 1\n", "1 0 true [1, 2];"),
    ];
    for (text, expected) in cases {
        let kinds = (ValueKind::Bool, ValueKind::Ids);
        let found = loaded_text(&rt, rt.alloc(), text.as_bytes(), 1, kinds)?;
        assert_eq!(rt; found.as_str(), expected, "at {text:?}");
    }
    Ok(())
}
