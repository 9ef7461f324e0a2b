//! Expressions over a small scope, each with the value or the fault that is worked by hand. The
//! number of a row's operation is 3; an operand that must fault first, or not at all, is 7.

ghost use Rattle.std.specs.Prelude.{[], None, Some};
ghost use Rattle.gx_expr.specs.declared.side.Side.TheVariants.{Vertex};

use gx_expr::{BinaryOp, Expr, Function, Scope, Side, UnaryOp, eval, eval_row, truth};
use gx_rows::{Cause, EvalStop, IdList, NoMemory, Row, Text, Value, Vid};
use sqlite_items::{Boxed, Items};
use std::alloc::Global;
use std::process::Abort;
use std::test::Fail;

type Case = (Expr, Result<Value, EvalStop>);

#[derive(Drop)]
struct Sample {
    vertex: Row,
    id: Vid,
    matched: bool,
}

impl Scope for Sample {
    ghost values = { λ s. record {
      columns = λ side. (elim side [ Vertex ↦ s.vertex | _ ↦ [] ]);
      id = λ side. (elim side [ Vertex ↦ Some s.id | _ ↦ None ]);
      matched = s.matched;
    } };

    fn column(&self, side: Side, i: u32) -> Option<&Value> {
        match side {
            Side::Vertex => self.vertex.get(i),
            _ => None,
        }
    }

    fn id(&self, side: Side) -> Option<Vid> {
        match side {
            Side::Vertex => Some(self.id),
            _ => None,
        }
    }

    fn matched(&self) -> bool {
        self.matched
    }
}

fn text(alloc: Global, chars: &str) -> Result<Value, NoMemory> {
    Ok(Value::Text(Text::of(alloc, chars)?))
}

fn ids(alloc: Global, entries: &[i64]) -> Result<Value, NoMemory> {
    Ok(Value::Ids(IdList::of(alloc, entries)?))
}

fn int(number: i64) -> Expr {
    Expr::Const(9, Value::Int(number))
}

fn constant(value: Value) -> Expr {
    Expr::Const(9, value)
}

fn fault(cause: Cause, expr: u32) -> Result<Value, EvalStop> {
    Err(EvalStop::Fault { cause, expr })
}

fn unary(alloc: Global, operator: UnaryOp, a: Expr) -> Result<Expr, NoMemory> {
    Ok(Expr::Unary(3, operator, Boxed::new(alloc, a)?))
}

fn binary(alloc: Global, n: u32, operator: BinaryOp, a: Expr, b: Expr) -> Result<Expr, NoMemory> {
    let a = Boxed::new(alloc, a)?;
    let b = Boxed::new(alloc, b)?;
    Ok(Expr::Binary(n, operator, a, b))
}

// `1 / 0`, at node 7.
fn faulty(alloc: Global) -> Result<Expr, NoMemory> {
    binary(alloc, 7, BinaryOp::Div, int(1), int(0))
}

// `1 / 0 == 0`, which has no truth.
fn faulty_test(alloc: Global) -> Result<Expr, NoMemory> {
    let a = faulty(alloc)?;
    binary(alloc, 8, BinaryOp::Eq, a, int(0))
}

fn call_one(alloc: Global, function: Function, a: Expr) -> Result<Expr, NoMemory> {
    let mut arguments = Vec::new(alloc);
    arguments.push(a)?;
    Ok(Expr::Call(3, function, Items::from_vec(arguments)))
}

fn call_two(alloc: Global, function: Function, a: Expr, b: Expr) -> Result<Expr, NoMemory> {
    let mut arguments = Vec::new(alloc);
    arguments.push(a)?;
    arguments.push(b)?;
    Ok(Expr::Call(3, function, Items::from_vec(arguments)))
}

fn call_if(alloc: Global, condition: Expr, a: Expr, b: Expr) -> Result<Expr, NoMemory> {
    let mut arguments = Vec::new(alloc);
    arguments.push(condition)?;
    arguments.push(a)?;
    arguments.push(b)?;
    Ok(Expr::Call(3, Function::If, Items::from_vec(arguments)))
}

#[test]
fn computes_numbers(rt: HostRuntime) -> Result<(), Fail> {
    let alloc = rt.alloc();
    let scope = test_scope(alloc)?;
    let overflow = Err(Cause::Overflow);
    let by_zero = Err(Cause::DivideByZero);
    for (operator, a, b, expected) in [
        (BinaryOp::Add, i64::MAX, -1, Ok(i64::MAX - 1)),
        (BinaryOp::Add, i64::MAX, 1, overflow),
        (BinaryOp::Sub, i64::MIN, -1, Ok(i64::MIN + 1)),
        (BinaryOp::Sub, i64::MIN, 1, overflow),
        (BinaryOp::Mul, 3_037_000_500, 3_037_000_500, overflow),
        (BinaryOp::Mul, i64::MIN, -1, overflow),
        (BinaryOp::Mul, -3, 4, Ok(-12)),
        (BinaryOp::Div, -7, 2, Ok(-3)),
        (BinaryOp::Div, 7, -2, Ok(-3)),
        (BinaryOp::Div, i64::MIN, -1, overflow),
        (BinaryOp::Div, 0, 0, by_zero),
        (BinaryOp::Rem, -7, 2, Ok(-1)),
        (BinaryOp::Rem, 7, -2, Ok(1)),
        (BinaryOp::Rem, i64::MIN, -1, Ok(0)),
        (BinaryOp::Rem, 7, 0, by_zero),
    ] {
        let e = binary(alloc, 3, operator, int(a), int(b))?;
        let expected = match expected {
            Ok(number) => Ok(Value::Int(number)),
            Err(cause) => fault(cause, 3),
        };
        assert_eq!(rt; eval(alloc, &e, &scope), expected, "{operator:?} {a} {b}");
    }
    Ok(())
}

fn test_scope(alloc: Global) -> Result<Sample, NoMemory> {
    let name = text(alloc, "ab")?;
    Ok(Sample {
        vertex: Row::two(Value::Int(40), name),
        id: Vid(-5),
        matched: true,
    })
}

// Values of each kind, each list in ascending order.
fn ascending(alloc: Global) -> Result<Vec<(Value, Value)>, NoMemory> {
    let mut pairs = Vec::new(alloc);
    pairs.push((Value::Int(-2), Value::Int(1)))?;
    pairs.push((text(alloc, "ab")?, text(alloc, "b")?))?;
    pairs.push((Value::Bool(false), Value::Bool(true)))?;
    pairs.push((ids(alloc, &[1])?, ids(alloc, &[1, 2])?))?;
    Ok(pairs)
}

// That `a` and `b` compare so, as a value and as a truth.
fn assert_compares(
    rt: &impl Abort,
    alloc: Global,
    operator: BinaryOp,
    a: &Value,
    b: &Value,
    holds: bool,
) -> Result<(), NoMemory> {
    let left = constant(a.copy()?);
    let e = binary(alloc, 3, operator, left, constant(b.copy()?))?;
    let scope = test_scope(alloc)?;
    assert_eq!(rt;
        eval(alloc, &e, &scope),
        Ok(Value::Bool(holds)),
        "{operator:?}"
    );
    assert_eq!(rt; truth(alloc, &e, &scope), Ok(holds), "{operator:?}");
    Ok(())
}

// Each operator, and whether it holds of a lesser and a greater value, of equal ones, and of a
// greater and a lesser one.
const COMPARISONS: [(BinaryOp, bool, bool, bool); 6] = [
    (BinaryOp::Eq, false, true, false),
    (BinaryOp::Ne, true, false, true),
    (BinaryOp::Lt, true, false, false),
    (BinaryOp::Le, true, true, false),
    (BinaryOp::Gt, false, false, true),
    (BinaryOp::Ge, false, true, true),
];

#[test]
fn compares_values(rt: HostRuntime) -> Result<(), Fail> {
    let alloc = rt.alloc();
    for (a, b) in ascending(alloc)?.iter() {
        for (operator, less, same, greater) in COMPARISONS {
            assert_compares(&rt, alloc, operator, a, b, less)?;
            assert_compares(&rt, alloc, operator, a, a, same)?;
            assert_compares(&rt, alloc, operator, b, a, greater)?;
        }
    }
    Ok(())
}

fn push_numbers(alloc: Global, cases: &mut Vec<Case>) -> Result<(), NoMemory> {
    let minus = unary(alloc, UnaryOp::Neg, int(5))?;
    cases.push((minus, Ok(Value::Int(-5))))?;
    let minus = unary(alloc, UnaryOp::Neg, int(i64::MIN))?;
    cases.push((minus, fault(Cause::Overflow, 3)))?;
    let abs = call_one(alloc, Function::Abs, int(-5))?;
    cases.push((abs, Ok(Value::Int(5))))?;
    let abs = call_one(alloc, Function::Abs, int(i64::MIN))?;
    cases.push((abs, fault(Cause::Overflow, 3)))?;
    let not = unary(alloc, UnaryOp::Not, constant(Value::Bool(true)))?;
    cases.push((not, Ok(Value::Bool(false))))?;
    let len = call_one(alloc, Function::Len, constant(text(alloc, "äb")?))?;
    cases.push((len, Ok(Value::Int(3))))?;
    let len = call_one(alloc, Function::Len, constant(ids(alloc, &[2, 1, 2])?))?;
    cases.push((len, Ok(Value::Int(3))))?;
    let decimal = call_one(alloc, Function::Text, int(i64::MIN))?;
    cases.push((decimal, Ok(text(alloc, "-9223372036854775808")?)))?;
    Ok(())
}

fn push_added(alloc: Global, cases: &mut Vec<Case>) -> Result<(), NoMemory> {
    let none = Expr::Call(3, Function::Ids, Items::new(alloc));
    cases.push((none, Ok(ids(alloc, &[])?)))?;
    for (entries, entry, expected) in [
        ([].as_slice(), 5, [5].as_slice()),
        ([1, 3].as_slice(), 2, [1, 2, 3].as_slice()),
        ([1, 3].as_slice(), 1, [1, 1, 3].as_slice()),
        ([1, 3].as_slice(), i64::MAX, [1, 3, i64::MAX].as_slice()),
    ] {
        let list = constant(ids(alloc, entries)?);
        let add = call_two(alloc, Function::Add, list, int(entry))?;
        cases.push((add, Ok(ids(alloc, expected)?)))?;
    }
    Ok(())
}

fn push_found(alloc: Global, cases: &mut Vec<Case>) -> Result<(), NoMemory> {
    for (entry, expected) in [(1, true), (3, true), (5, true), (4, false), (6, false)] {
        let list = constant(ids(alloc, &[1, 3, 5])?);
        let has = call_two(alloc, Function::Has, list, int(entry))?;
        cases.push((has, Ok(Value::Bool(expected))))?;
    }
    Ok(())
}

fn push_extremes(alloc: Global, cases: &mut Vec<Case>) -> Result<(), NoMemory> {
    for (function, expected) in [(Function::Min, "ab"), (Function::Max, "b")] {
        let b = constant(text(alloc, "b")?);
        let one = call_two(alloc, function, b, constant(text(alloc, "ab")?))?;
        cases.push((one, Ok(text(alloc, expected)?)))?;
    }
    Ok(())
}

// This truth value, or the fault of what has none.
fn truth_or_fault(expected: Option<bool>) -> Result<Value, EvalStop> {
    match expected {
        Some(holds) => Ok(Value::Bool(holds)),
        None => fault(Cause::DivideByZero, 7),
    }
}

// `and` and `or` of a truth value and of what has no truth.
fn push_right(alloc: Global, cases: &mut Vec<Case>) -> Result<(), NoMemory> {
    for (operator, left, expected) in [
        (BinaryOp::And, false, Some(false)),
        (BinaryOp::And, true, None),
        (BinaryOp::Or, true, Some(true)),
    ] {
        let right = faulty_test(alloc)?;
        let e = binary(alloc, 3, operator, constant(Value::Bool(left)), right)?;
        cases.push((e, truth_or_fault(expected)))?;
    }
    Ok(())
}

// What has a fault, and then an operand that has a value or another fault.
fn push_left(alloc: Global, cases: &mut Vec<Case>) -> Result<(), NoMemory> {
    let test = faulty_test(alloc)?;
    let or = binary(alloc, 3, BinaryOp::Or, test, constant(Value::Bool(true)))?;
    cases.push((or, fault(Cause::DivideByZero, 7)))?;
    let overflow = binary(alloc, 8, BinaryOp::Sub, int(i64::MIN), int(1))?;
    let left = binary(alloc, 3, BinaryOp::Add, faulty(alloc)?, overflow)?;
    cases.push((left, fault(Cause::DivideByZero, 7)))?;
    Ok(())
}

// A branch that is not taken has a fault, or the condition has one.
fn push_branches(alloc: Global, cases: &mut Vec<Case>) -> Result<(), NoMemory> {
    let other = faulty(alloc)?;
    let first = call_if(alloc, constant(Value::Bool(true)), int(1), other)?;
    cases.push((first, Ok(Value::Int(1))))?;
    let other = faulty(alloc)?;
    let second = call_if(alloc, constant(Value::Bool(false)), other, int(2))?;
    cases.push((second, Ok(Value::Int(2))))?;
    let neither = call_if(alloc, faulty_test(alloc)?, int(1), int(2))?;
    cases.push((neither, fault(Cause::DivideByZero, 7)))?;
    Ok(())
}

fn push_reads(alloc: Global, cases: &mut Vec<Case>) -> Result<(), NoMemory> {
    cases.push((Expr::Column(3, Side::Vertex, 0), Ok(Value::Int(40))))?;
    cases.push((Expr::Column(3, Side::Vertex, 1), Ok(text(alloc, "ab")?)))?;
    cases.push((Expr::Id(3, Side::Vertex), Ok(Value::Int(-5))))?;
    cases.push((Expr::Matched(3), Ok(Value::Bool(true))))?;
    let v = Expr::Column(9, Side::Vertex, 0);
    let sum = binary(alloc, 3, BinaryOp::Add, v, Expr::Id(9, Side::Vertex))?;
    cases.push((sum, Ok(Value::Int(35))))?;
    Ok(())
}

fn assert_cases(rt: &impl Abort, alloc: Global, cases: &[Case]) -> Result<(), NoMemory> {
    let scope = test_scope(alloc)?;
    for (i, case) in cases.iter().enumerate() {
        assert_eq!(rt; eval(alloc, &case.0, &scope), case.1, "case {i}");
    }
    Ok(())
}

#[test]
fn computes_values(rt: HostRuntime) -> Result<(), Fail> {
    let alloc = rt.alloc();
    let mut cases = Vec::new(alloc);
    push_numbers(alloc, &mut cases)?;
    push_reads(alloc, &mut cases)?;
    assert_cases(&rt, alloc, cases.as_slice())?;
    Ok(())
}

#[test]
fn computes_lists_and_extremes(rt: HostRuntime) -> Result<(), Fail> {
    let alloc = rt.alloc();
    let mut cases = Vec::new(alloc);
    push_added(alloc, &mut cases)?;
    push_found(alloc, &mut cases)?;
    push_extremes(alloc, &mut cases)?;
    assert_cases(&rt, alloc, cases.as_slice())?;
    Ok(())
}

#[test]
fn evaluates_what_is_needed_from_the_left(rt: HostRuntime) -> Result<(), Fail> {
    let alloc = rt.alloc();
    let mut cases = Vec::new(alloc);
    push_right(alloc, &mut cases)?;
    push_left(alloc, &mut cases)?;
    push_branches(alloc, &mut cases)?;
    assert_cases(&rt, alloc, cases.as_slice())?;
    Ok(())
}

// The expressions `v.0`, `v.1`, `v.0`, .., of which there are `len`.
fn columns(alloc: Global, len: u32) -> Result<Vec<Expr>, NoMemory> {
    let mut exprs = Vec::new(alloc);
    for i in 0..len {
        exprs.push(Expr::Column(i, Side::Vertex, i % 2))?;
    }
    Ok(exprs)
}

fn row_of(alloc: Global, exprs: Vec<Expr>, scope: &Sample) -> Result<Row, EvalStop> {
    if exprs.len() < 100 {
        eval_row(alloc, exprs.as_slice(), scope)
    } else {
        Err(EvalStop::NoMemory)
    }
}

#[test]
fn makes_rows(rt: HostRuntime) -> Result<(), Fail> {
    let alloc = rt.alloc();
    let scope = test_scope(alloc)?;
    for len in [0, 1, 2, 3, 16] {
        let row = row_of(alloc, columns(alloc, len)?, &scope)?;
        assert_eq!(rt; row.len(), len);
        for i in 0..len {
            assert_eq!(rt; row.get(i), scope.vertex.get(i % 2), "value {i} of {len}");
        }
    }
    Ok(())
}

// A text of `len` letters.
fn letters(alloc: Global, len: usize) -> Result<Expr, NoMemory> {
    let mut chars = String::new(alloc);
    for _ in 0..len {
        chars.push('a')?;
    }
    Ok(constant(Value::Text(Text::from_string(alloc, chars)?)))
}

// A text of 1,000 letters and of `len` more.
fn joined(alloc: Global, len: usize) -> Result<Expr, NoMemory> {
    call_two(
        alloc,
        Function::Concat,
        letters(alloc, 1_000)?,
        letters(alloc, len)?,
    )
}

// A list of `len` entries and of one more.
fn added(alloc: Global, len: usize) -> Result<Expr, NoMemory> {
    let zeros = Vec::from_elem(alloc, 0i64, len)?;
    call_two(
        alloc,
        Function::Add,
        constant(ids(alloc, zeros.as_slice())?),
        int(1),
    )
}

fn assert_len(
    rt: &impl Abort,
    alloc: Global,
    e: Expr,
    expected: Result<Value, EvalStop>,
) -> Result<(), NoMemory> {
    let scope = test_scope(alloc)?;
    let length = call_one(alloc, Function::Len, e)?;
    assert_eq!(rt; eval(alloc, &length, &scope), expected);
    Ok(())
}

#[test]
fn keeps_texts_and_lists_within_bounds(rt: HostRuntime) -> Result<(), Fail> {
    let alloc = rt.alloc();
    assert_len(&rt, alloc, joined(alloc, 24)?, Ok(Value::Int(1_024)))?;
    assert_len(&rt, alloc, joined(alloc, 25)?, fault(Cause::TextTooLong, 3))?;
    assert_len(
        &rt,
        alloc,
        added(alloc, 999_999)?,
        Ok(Value::Int(1_000_000)),
    )?;
    assert_len(
        &rt,
        alloc,
        added(alloc, 1_000_000)?,
        fault(Cause::ListTooLong, 3),
    )?;
    Ok(())
}
