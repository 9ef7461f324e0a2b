//! Texts that are printed for scripts made by hand.

use gx_rows::{NoMemory, Text};
use gx_syntax_show::show;
use gx_syntax_tree::{BinaryOp, ColumnConst, Const, Expr, Script, Stmt, UnaryOp};
use sqlite_items::{Boxed, Items};
use std::alloc::Global;
use std::test::Fail;

fn column(alloc: Global, name: &str) -> Result<Expr, NoMemory> {
    Ok(Expr::Column(Text::of(alloc, "v")?, Text::of(alloc, name)?))
}

fn unary(alloc: Global, operator: UnaryOp, operand: Expr) -> Result<Expr, NoMemory> {
    Ok(Expr::Unary(operator, Boxed::new(alloc, operand)?))
}

fn binary(alloc: Global, operator: BinaryOp, left: Expr, right: Expr) -> Result<Expr, NoMemory> {
    let left = Boxed::new(alloc, left)?;
    let right = Boxed::new(alloc, right)?;
    Ok(Expr::Binary(operator, left, right))
}

// `-max(v.x, v.y) + 1 < (2 - 3) * 4 or not matched`
fn condition(alloc: Global) -> Result<Expr, NoMemory> {
    let mut arguments = Items::new(alloc);
    arguments.push(column(alloc, "x")?)?;
    arguments.push(column(alloc, "y")?)?;
    let call = Expr::Call(Text::of(alloc, "max")?, arguments);
    let turned = unary(alloc, UnaryOp::Neg, call)?;
    let left = binary(alloc, BinaryOp::Add, turned, Expr::Number(1))?;
    let sum = binary(alloc, BinaryOp::Sub, Expr::Number(2), Expr::Number(3))?;
    let right = binary(alloc, BinaryOp::Mul, sum, Expr::Number(4))?;
    let less = binary(alloc, BinaryOp::Lt, left, right)?;
    let matched = unary(alloc, UnaryOp::Not, Expr::Matched)?;
    binary(alloc, BinaryOp::Or, less, matched)
}

fn row(alloc: Global) -> Result<Items<ColumnConst>, NoMemory> {
    let mut row = Items::new(alloc);
    let values = [
        ("n", Const::Number(-7)),
        ("t", Const::Quoted(Text::of(alloc, "a \"b\"\n")?)),
        ("b", Const::Truth(true)),
        ("i", Const::NoIds),
    ];
    for (name, value) in values {
        let name = Text::of(alloc, name)?;
        row.push(ColumnConst { name, value })?;
    }
    Ok(row)
}

fn script(alloc: Global) -> Result<Script, NoMemory> {
    let mut statements = Items::new(alloc);
    statements.push(Stmt::FromEdges {
        name: Text::of(alloc, "g")?,
        edges: Text::of(alloc, "e")?,
        row: row(alloc)?,
    })?;
    statements.push(Stmt::Filter {
        name: Text::of(alloc, "t")?,
        table: Text::of(alloc, "s")?,
        condition: condition(alloc)?,
    })?;
    let table = Text::of(alloc, "t")?;
    statements.push(Stmt::PrintTable { table })?;
    Ok(Script { statements })
}

#[test]
fn shows_each_statement_on_its_line(rt: HostRuntime) -> Result<(), Fail> {
    let empty = Items::new(rt.alloc());
    let table = [
        (Script { statements: empty }, ""),
        (
            script(rt.alloc())?,
            "fromedges g = e (n: -7, t: \"a \\\"b\\\"\\n\", b: true, i: ids());\n\
                filter t = s where -max(v.x, v.y) + 1 < (2 - 3) * 4 or not matched;\n\
                print table t;\n",
        ),
    ];
    for (script, expected) in table {
        let shown = show(rt.alloc(), &script)?;
        assert_eq!(rt; shown.as_str(), expected);
    }
    Ok(())
}
