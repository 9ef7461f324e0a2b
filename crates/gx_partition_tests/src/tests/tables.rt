//! The three people of the examples and their hours, worked by hand. A shown table has a blank
//! after each value and a slash after each row.

use super::support::{people, row_of};
use gx_expr::{BinaryOp, Expr, Side};
use gx_rows::{Cause, NoMemory, PartStop, Row, RowKey, Value, Vid};
use gx_vpart::VPart;
use gx_vtable::{table_filter, table_inner, table_left, table_map};
use sqlite_items::Boxed;
use std::alloc::Global;
use std::test::Fail;

// ---- tables and expressions

// Of a person and of someone else.
fn hours(alloc: Global) -> Result<VPart, NoMemory> {
    let mut rows = Vec::new(alloc);
    rows.push((Vid(9), row_of(40)))?;
    rows.push((Vid(2), row_of(8)))?;
    VPart::of(alloc, rows)
}

fn nobody(alloc: Global) -> Result<VPart, NoMemory> {
    VPart::of(alloc, Vec::new(alloc))
}

fn number(node: u32, number: i64) -> Expr {
    Expr::Const(node, Value::Int(number))
}

fn name(node: u32) -> Expr {
    Expr::Column(node, Side::Vertex, 0)
}

fn age(node: u32) -> Expr {
    Expr::Column(node, Side::Vertex, 1)
}

fn other_hours(node: u32) -> Expr {
    Expr::Column(node, Side::Other, 0)
}

fn binary(alloc: Global, node: u32, op: BinaryOp, a: Expr, b: Expr) -> Result<Expr, NoMemory> {
    let a = Boxed::new(alloc, a)?;
    let b = Boxed::new(alloc, b)?;
    Ok(Expr::Binary(node, op, a, b))
}

// `1 / (1 / v.id)`, which divides by zero at each vertex from 2 on.
fn share(alloc: Global, node: u32) -> Result<Expr, NoMemory> {
    let id = Expr::Id(4, Side::Vertex);
    let inverse = binary(alloc, 2, BinaryOp::Div, number(3, 1), id)?;
    binary(alloc, node, BinaryOp::Div, number(1, 1), inverse)
}

fn two_columns(alloc: Global, first: Expr, second: Expr) -> Result<Vec<Expr>, NoMemory> {
    let mut sets = Vec::new(alloc);
    sets.push(first)?;
    sets.push(second)?;
    Ok(sets)
}

// The name, and the age in a year.
fn next_ages(alloc: Global) -> Result<Vec<Expr>, NoMemory> {
    let next_age = binary(alloc, 1, BinaryOp::Add, age(2), number(3, 1))?;
    two_columns(alloc, name(0), next_age)
}

// The name, and the age with the hours of the other table.
fn sums(alloc: Global) -> Result<Vec<Expr>, NoMemory> {
    let sum = binary(alloc, 1, BinaryOp::Add, age(2), other_hours(3))?;
    two_columns(alloc, name(0), sum)
}

// The hours of the other table, and whether they are of it.
fn hours_if_any(alloc: Global) -> Result<Vec<Expr>, NoMemory> {
    two_columns(alloc, other_hours(0), Expr::Matched(1))
}

fn shares(alloc: Global) -> Result<Vec<Expr>, NoMemory> {
    two_columns(alloc, name(0), share(alloc, 7)?)
}

fn is_adult(alloc: Global) -> Result<Expr, NoMemory> {
    binary(alloc, 0, BinaryOp::Ge, age(1), number(2, 18))
}

fn has_share(alloc: Global) -> Result<Expr, NoMemory> {
    binary(alloc, 0, BinaryOp::Gt, share(alloc, 7)?, number(8, 0))
}

// ---- shown results

fn show_value(alloc: Global, text: &mut String, value: &Value) -> Result<(), NoMemory> {
    match value {
        Value::Int(number) => text.push_str(format!(in alloc; "{number} ")?.as_str())?,
        Value::Text(chars) => text.push_str(format!(in alloc; "{} ", chars.as_str())?.as_str())?,
        Value::Bool(true) => text.push_str("true ")?,
        Value::Bool(false) => text.push_str("false ")?,
        Value::Ids(_) => text.push_str("? ")?,
    }
    Ok(())
}

fn show_row(alloc: Global, text: &mut String, id: Vid, row: &Row) -> Result<(), NoMemory> {
    show_value(alloc, text, &Value::Int(id.0))?;
    for value in row.as_slice() {
        show_value(alloc, text, value)?;
    }
    text.push_str("/")?;
    Ok(())
}

fn shown_rows(alloc: Global, part: &VPart) -> Result<String, NoMemory> {
    let mut text = String::new(alloc);
    for (id, row) in part.rows() {
        show_row(alloc, &mut text, id, row)?;
    }
    Ok(text)
}

fn shown(alloc: Global, made: &Result<VPart, PartStop>) -> Result<String, NoMemory> {
    match made {
        Ok(part) => shown_rows(alloc, part),
        Err(
            PartStop::Fault {
                key: RowKey::Vertex(v),
                expr,
                cause: Cause::DivideByZero,
            },
        ) => Ok(format!(in alloc; "zero at {}, node {}", v.0, *expr)?),
        Err(_) => Err(NoMemory),
    }
}

fn mapped(alloc: Global, table: VPart, sets: Vec<Expr>) -> Result<String, NoMemory> {
    shown(alloc, &table_map(alloc, &table, sets.as_slice()))
}

fn filtered(alloc: Global, table: VPart, test: Expr) -> Result<String, NoMemory> {
    shown(alloc, &table_filter(alloc, &table, &test))
}

// With the hours.
fn joined(alloc: Global, table: VPart, sets: Vec<Expr>) -> Result<String, NoMemory> {
    shown(
        alloc,
        &table_inner(alloc, &table, &hours(alloc)?, sets.as_slice()),
    )
}

// With the hours, or else 0.
fn left_joined(alloc: Global, table: VPart, sets: Vec<Expr>) -> Result<String, NoMemory> {
    shown(
        alloc,
        &table_left(alloc, &table, &hours(alloc)?, &row_of(0), sets.as_slice()),
    )
}

// ---- tests

#[test]
fn maps_a_table(rt: HostRuntime) -> Result<(), Fail> {
    let alloc = rt.alloc();
    assert_eq!(rt;
        mapped(alloc, people(alloc)?, next_ages(alloc)?)?.as_str(),
        "1 bob 26 /2 eve 18 /3 ann 31 /"
    );
    assert_eq!(rt;
        mapped(alloc, people(alloc)?, shares(alloc)?)?.as_str(),
        "zero at 2, node 7"
    );
    assert_eq!(rt; mapped(alloc, nobody(alloc)?, shares(alloc)?)?.as_str(), "");
    Ok(())
}

#[test]
fn filters_a_table(rt: HostRuntime) -> Result<(), Fail> {
    let alloc = rt.alloc();
    assert_eq!(rt;
        filtered(alloc, people(alloc)?, is_adult(alloc)?)?.as_str(),
        "1 bob 25 /3 ann 30 /"
    );
    assert_eq!(rt;
        filtered(alloc, people(alloc)?, has_share(alloc)?)?.as_str(),
        "zero at 2, node 7"
    );
    assert_eq!(rt;
        filtered(alloc, nobody(alloc)?, has_share(alloc)?)?.as_str(),
        ""
    );
    Ok(())
}

#[test]
fn joins_what_both_tables_have(rt: HostRuntime) -> Result<(), Fail> {
    let alloc = rt.alloc();
    assert_eq!(rt;
        joined(alloc, people(alloc)?, sums(alloc)?)?.as_str(),
        "2 eve 25 /"
    );
    assert_eq!(rt;
        joined(alloc, people(alloc)?, shares(alloc)?)?.as_str(),
        "zero at 2, node 7"
    );
    assert_eq!(rt; joined(alloc, nobody(alloc)?, shares(alloc)?)?.as_str(), "");
    Ok(())
}

#[test]
fn joins_with_a_default(rt: HostRuntime) -> Result<(), Fail> {
    let alloc = rt.alloc();
    assert_eq!(rt;
        left_joined(alloc, people(alloc)?, hours_if_any(alloc)?)?.as_str(),
        "1 0 false /2 8 true /3 0 false /"
    );
    assert_eq!(rt;
        left_joined(alloc, people(alloc)?, shares(alloc)?)?.as_str(),
        "zero at 2, node 7"
    );
    assert_eq!(rt;
        left_joined(alloc, nobody(alloc)?, shares(alloc)?)?.as_str(),
        ""
    );
    Ok(())
}
