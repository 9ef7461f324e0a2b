//! The texts of rows, to the byte. The expected texts are written by hand.

use super::support::text;
use gx_print::rows_text;
use gx_rows::{IdList, NoMemory, Text, Value};
use std::alloc::Global;
use std::process::Abort;
use std::test::Fail;

// Stops the test unless the text of these rows under this header is this one.
fn assert_prints(
    rt: &impl Abort,
    alloc: Global,
    header: &[Text],
    rows: &[Vec<Value>],
    want: &str,
) -> Result<(), Fail> {
    assert_eq!(rt; rows_text(alloc, header, rows)?.as_str(), want);
    Ok(())
}

fn names(alloc: Global, names: &[&str]) -> Result<Vec<Text>, NoMemory> {
    let mut texts = Vec::new(alloc);
    for name in names {
        texts.push(text(alloc, name)?)?;
    }
    Ok(texts)
}

fn row(
    alloc: Global,
    id: i64,
    name: &str,
    seen: bool,
    ids: &[i64],
) -> Result<Vec<Value>, NoMemory> {
    let mut values = Vec::new(alloc);
    values.push(Value::Int(id))?;
    values.push(Value::Text(text(alloc, name)?))?;
    values.push(Value::Bool(seen))?;
    values.push(Value::Ids(IdList::of(alloc, ids)?))?;
    Ok(values)
}

// A row of one text for each of these.
fn text_rows(alloc: Global, texts: &[&str]) -> Result<Vec<Vec<Value>>, NoMemory> {
    let mut rows = Vec::new(alloc);
    for chars in texts {
        let mut values = Vec::new(alloc);
        values.push(Value::Text(text(alloc, chars)?))?;
        rows.push(values)?;
    }
    Ok(rows)
}

#[test]
fn rows_of_each_kind(rt: HostRuntime) -> Result<(), Fail> {
    let alloc = rt.alloc();
    let header = names(alloc, &["id", "name", "src.seen", "ids"])?;
    let mut rows = Vec::new(alloc);
    assert_prints(
        &rt,
        alloc,
        header.as_slice(),
        rows.as_slice(),
        "id,name,src.seen,ids\n",
    )?;
    rows.push(row(alloc, 3, "ann", true, &[3, -1, 3])?)?;
    rows.push(row(alloc, i64::MIN, "", false, &[])?)?;
    rows.push(row(alloc, i64::MAX, "höhe", true, &[i64::MAX, i64::MIN])?)?;
    rows.push(row(alloc, 0, "a b", false, &[0])?)?;
    assert_prints(
        &rt,
        alloc,
        header.as_slice(),
        rows.as_slice(),
        "id,name,src.seen,ids\n\
         3,ann,true,-1 3 3\n\
         -9223372036854775808,,false,\n\
         9223372036854775807,höhe,true,-9223372036854775808 9223372036854775807\n\
         0,a b,false,0\n",
    )
}

#[test]
fn rows_longer_than_their_header(rt: HostRuntime) -> Result<(), Fail> {
    let alloc = rt.alloc();
    let header = names(alloc, &["a"])?;
    let mut rows = Vec::new(alloc);
    rows.push(row(alloc, 1, "b", true, &[])?)?;
    assert_prints(
        &rt,
        alloc,
        header.as_slice(),
        rows.as_slice(),
        "a\n1,b,true,\n",
    )
}

#[test]
fn quoted_fields(rt: HostRuntime) -> Result<(), Fail> {
    let alloc = rt.alloc();
    let header = names(alloc, &["a,b"])?;
    let cases = [
        ("x,y", "\"x,y\""),
        ("say \"hi\"", "\"say \"\"hi\"\"\""),
        ("\"", "\"\"\"\""),
        ("x\ny", "\"x\ny\""),
        ("x\r", "\"x\r\""),
        ("", "\"\""),
        (" x ", " x "),
        ("#x", "#x"),
        ("x\\y", "x\\y"),
        ("ä\"€", "\"ä\"\"€\""),
    ];
    for (chars, field) in cases {
        let rows = text_rows(alloc, &[chars, "z"])?;
        let want = format!(in alloc; "\"a,b\"\n{field}\nz\n")?;
        assert_prints(
            &rt,
            alloc,
            header.as_slice(),
            rows.as_slice(),
            want.as_str(),
        )?;
    }
    Ok(())
}

#[test]
fn texts_longer_than_a_buffer(rt: HostRuntime) -> Result<(), Fail> {
    let alloc = rt.alloc();
    let header = names(alloc, &["t"])?;
    let mut chars = String::new(alloc);
    for _ in 0..333 {
        chars.push_str("€")?;
    }
    let texts = [chars.as_str(); 20];
    let rows = text_rows(alloc, &texts)?;
    let mut want = String::from_str(alloc, "t\n")?;
    for line in texts {
        want.push_str(line)?;
        want.push_str("\n")?;
    }
    assert_prints(
        &rt,
        alloc,
        header.as_slice(),
        rows.as_slice(),
        want.as_str(),
    )
}
