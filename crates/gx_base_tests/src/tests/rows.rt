//! Values, rows and row types: made, copied, ordered and sorted, with results that are worked by
//! hand.

ghost use Rattle.std.specs.Prelude.{IsPermutation, IsSorted};
ghost use Rattle.gx_rows.specs.Order.{value_cmp, row_cmp, edge_cmp};

use gx_rows::{IdList, LimitKind, NoMemory, Row, Text, Value, ValueKind, Vid, order_is_total};
use std::alloc::Global;
use std::cmp::Ordering;
use std::test::Fail;

fn text_value(alloc: Global, text: &str) -> Result<Value, NoMemory> {
    Ok(Value::Text(Text::of(alloc, text)?))
}

fn ids_value(alloc: Global, ids: &[i64]) -> Result<Value, NoMemory> {
    Ok(Value::Ids(IdList::of(alloc, ids)?))
}

/// The row of these numbers, of which there are fewer than 100.
fn int_row(alloc: Global, numbers: &[i64]) -> Result<Row, NoMemory> {
    let mut values = Vec::new(alloc);
    for number in numbers.iter() {
        values.push(Value::Int(*number))?;
    }
    if values.len() < 100 {
        Ok(Row::of(values))
    } else {
        Err(NoMemory)
    }
}

/// Rows in ascending order, no two of them equal.
fn ascending(alloc: Global) -> Result<Vec<Row>, NoMemory> {
    let mut rows = Vec::new(alloc);
    for numbers in [
        [].as_slice(),
        [i64::MIN].as_slice(),
        [-1].as_slice(),
        [-1, i64::MIN].as_slice(),
        [-1, i64::MIN, 7].as_slice(),
        [-1, 0].as_slice(),
        [0].as_slice(),
        [i64::MAX].as_slice(),
    ] {
        rows.push(int_row(alloc, numbers)?)?;
    }
    for text in [
        "",
        "a",
        "aa",
        "ab",
        "b",
        "bbbbbbbbbbbbbbbbbbbbbb",
        "bbbbbbbbbbbbbbbbbbbbbbb",
        "z",
        "ä",
    ] {
        rows.push(Row::one(text_value(alloc, text)?))?;
    }
    rows.push(Row::two(Value::Bool(false), Value::Bool(true)))?;
    rows.push(Row::one(Value::Bool(true)))?;
    for ids in [
        [].as_slice(),
        [i64::MIN].as_slice(),
        [3, -2].as_slice(),
        [3, -2, 3].as_slice(),
        [1].as_slice(),
    ] {
        rows.push(Row::one(ids_value(alloc, ids)?))?;
    }
    Ok(rows)
}

#[test]
fn orders_rows(rt: HostRuntime) -> Result<(), Fail> {
    order_is_total();
    let rows = ascending(rt.alloc())?;
    assert_eq!(rt; rows.len(), 24);
    for (i, row) in rows.iter().enumerate() {
        for (j, other) in rows.iter().enumerate() {
            assert_eq!(rt; row.compare(other), i.cmp(&j), "rows {i} and {j}");
            assert_eq!(rt; row == other, i == j, "rows {i} and {j}");
        }
        assert_eq!(rt; row.copy()?.compare(row), Ordering::Equal, "row {i}");
    }
    let copies = Vec::from_clones(rt.alloc(), rows.as_slice())?;
    assert_eq!(rt; copies.len(), 24);
    Ok(())
}

fn sort_values(values: &mut Vec<Value>)
    ensures sorted { IsSorted value_cmp values.new.items }
    ensures same { IsPermutation values.old.items values.new.items }
{
    values.sort_unstable();
}

fn sort_rows(rows: &mut Vec<Row>)
    ensures sorted { IsSorted row_cmp rows.new.items }
    ensures same { IsPermutation rows.old.items rows.new.items }
{
    rows.sort_unstable();
}

fn sort_edges(edges: &mut Vec<(Vid, Vid, Row)>)
    ensures sorted { IsSorted edge_cmp edges.new.items }
    ensures same { IsPermutation edges.old.items edges.new.items }
{
    edges.sort_unstable();
}

#[test]
fn sorts_by_std(rt: HostRuntime) -> Result<(), Fail> {
    let alloc = rt.alloc();
    let mut values = Vec::new(alloc);
    values.push(ids_value(alloc, &[])?)?;
    values.push(Value::Bool(true))?;
    values.push(text_value(alloc, "b")?)?;
    values.push(text_value(alloc, "aa")?)?;
    values.push(Value::Int(5))?;
    sort_values(&mut values);
    let mut seen = Vec::new(alloc);
    for value in values.iter() {
        match value {
            Value::Int(number) => assert_eq!(rt; *number, 5),
            Value::Text(text) => seen.push(text.copy()?)?,
            Value::Bool(truth) => assert!(rt; *truth),
            Value::Ids(ids) => assert!(rt; ids.copy()?.as_slice().is_empty()),
        }
    }
    assert!(rt; seen.len() == 2);
    assert_eq!(rt; seen[0].as_str(), "aa");
    assert_eq!(rt; seen[1].as_str(), "b");
    let mut edges = Vec::new(alloc);
    for (source, target, number) in [(2, -1, 0), (-2, 9, 1), (2, -1, -7), (2, -3, 4)] {
        edges.push((Vid(source), Vid(target), Row::one(Value::Int(number))))?;
    }
    sort_edges(&mut edges);
    let mut rows = Vec::new(alloc);
    for (_, _, row) in edges.iter() {
        rows.push(row.copy()?)?;
    }
    assert_eq!(rt;
        numbers_of(alloc, rows.as_slice())?.as_slice(),
        [1, 4, -7, 0].as_slice()
    );
    sort_rows(&mut rows);
    assert_eq!(rt;
        numbers_of(alloc, rows.as_slice())?.as_slice(),
        [-7, 0, 1, 4].as_slice()
    );
    Ok(())
}

/// The first value of each row; 99 if it is not a number.
fn numbers_of(alloc: Global, rows: &[Row]) -> Result<Vec<i64>, NoMemory> {
    let mut numbers = Vec::new(alloc);
    for row in rows.iter() {
        numbers.push(match row.get(0) {
            Some(Value::Int(number)) => *number,
            _ => 99,
        })?;
    }
    Ok(numbers)
}

#[test]
fn gives_what_it_was_made_of(rt: HostRuntime) -> Result<(), Fail> {
    let alloc = rt.alloc();
    let row = int_row(alloc, &[7, -8, 9])?;
    assert_eq!(rt; row.len(), 3);
    for (i, want) in [(0, Some(7)), (1, Some(-8)), (2, Some(9)), (3, None)] {
        let found = match row.get(i) {
            Some(Value::Int(number)) => Some(*number),
            _ => None,
        };
        assert_eq!(rt; found, want, "at {i}");
    }
    let ids = IdList::of(alloc, [3, i64::MIN, 3, i64::MAX].as_slice())?;
    assert_eq!(rt; ids.as_slice(), [i64::MIN, 3, 3, i64::MAX].as_slice());
    assert_eq!(rt; text_value(alloc, "höhe")?.copy()?.kind(), ValueKind::Text);
    assert_eq!(rt; LimitKind::FileBytes.most(), 33_554_432);
    Ok(())
}
