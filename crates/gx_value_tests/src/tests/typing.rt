//! Expressions that are accepted, and those that are refused with the node at which they are. They
//! are made from texts in which each operator comes after its operands: `v.a v.b +` is `v.a + v.b`.

ghost use Rattle.std.specs.Prelude.{◌≡◌, [], ◌∷◌, ◌++◌, OnOk};

use super::support::{nested, put_nodes, remaining_nodes, written};
use gx_rows::{NoMemory, RowType, Text, ValueKind};
use gx_syntax_tree::Expr;
use gx_types_exprs::{ExprScope, ExprStop, TypeKind, TypedExpr, type_expr, type_predicate};
use std::alloc::Global;
use std::process::Abort;
use std::test::Fail;

// What is returned: the kind of the values and the number after those of the nodes, or why it is
// refused.
#[derive(Clone, Copy, Debug, PartialEq, Eq)]
enum Outcome {
    Typed(ValueKind, u32),
    At(u32, TypeKind),
    Depth,
}

fn outcome_of(typed: Result<TypedExpr, ExprStop>) -> Result<Outcome, NoMemory> {
    match typed {
        Ok(typed) => Ok(Outcome::Typed(typed.kind, typed.next)),
        Err(ExprStop::At { expr, kind }) => Ok(Outcome::At(expr, kind)),
        Err(ExprStop::Depth) => Ok(Outcome::Depth),
        Err(ExprStop::NoMemory) => Err(NoMemory),
    }
}

fn add_column(
    alloc: Global,
    columns: &mut Vec<(Text, ValueKind)>,
    name: &str,
    kind: ValueKind,
) -> Result<(), NoMemory>
    ensures { OnOk result (columns.new.items ≡ columns.old.items ++ (name.now, kind) ∷ []) }
{
    columns.push((Text::of(alloc, name)?, kind))?;
    Ok(())
}

// The columns `a` and `b` are numbers, `t` is a text, `c` a truth value and `l` a list.
fn vertex_columns(alloc: Global) -> Result<RowType, NoMemory> {
    let mut columns = Vec::new(alloc);
    add_column(alloc, &mut columns, "a", ValueKind::Int)?;
    add_column(alloc, &mut columns, "b", ValueKind::Int)?;
    add_column(alloc, &mut columns, "t", ValueKind::Text)?;
    add_column(alloc, &mut columns, "c", ValueKind::Bool)?;
    add_column(alloc, &mut columns, "l", ValueKind::Ids)?;
    Ok(RowType::of(columns))
}

// The column `w` is a number.
fn edge_columns(alloc: Global) -> Result<RowType, NoMemory> {
    let mut columns = Vec::new(alloc);
    add_column(alloc, &mut columns, "w", ValueKind::Int)?;
    Ok(RowType::of(columns))
}

fn assert_outcome(
    rt: &impl Abort,
    alloc: Global,
    scope: &ExprScope<'_>,
    expression: &Expr,
    expected: Outcome,
    text: &str,
) -> Result<(), NoMemory> {
    assert!(rt; remaining_nodes(expression, 1_000).is_some());
    let outcome = outcome_of(type_expr(alloc, expression, scope, 0))?;
    assert_eq!(rt; outcome, expected, "at {text}");
    Ok(())
}

fn assert_each(
    rt: &impl Abort,
    alloc: Global,
    scope: &ExprScope<'_>,
    table: &[(&str, Outcome)],
) -> Result<(), NoMemory> {
    for (text, expected) in table {
        let expression = written(alloc, text)?;
        assert_outcome(rt, alloc, scope, &expression, *expected, text)?;
    }
    Ok(())
}

#[test]
fn operators_and_functions_take_their_kinds(rt: HostRuntime) -> Result<(), Fail> {
    let vertices = vertex_columns(rt.alloc())?;
    let scope = ExprScope::Vertex(&vertices);
    let accepted = [
        ("v.a", Outcome::Typed(ValueKind::Int, 1)),
        ("v.id", Outcome::Typed(ValueKind::Int, 1)),
        ("7", Outcome::Typed(ValueKind::Int, 1)),
        ("'x", Outcome::Typed(ValueKind::Text, 1)),
        ("true", Outcome::Typed(ValueKind::Bool, 1)),
        ("v.a v.b %", Outcome::Typed(ValueKind::Int, 3)),
        ("v.t v.t ==", Outcome::Typed(ValueKind::Bool, 3)),
        ("v.l ids/0 <", Outcome::Typed(ValueKind::Bool, 3)),
        ("v.c false or", Outcome::Typed(ValueKind::Bool, 3)),
        ("v.a neg", Outcome::Typed(ValueKind::Int, 2)),
        ("v.c not", Outcome::Typed(ValueKind::Bool, 2)),
        ("v.c v.t 'x if/3", Outcome::Typed(ValueKind::Text, 4)),
        ("v.t v.t max/2", Outcome::Typed(ValueKind::Text, 3)),
        ("v.l v.l min/2", Outcome::Typed(ValueKind::Ids, 3)),
        ("v.a abs/1", Outcome::Typed(ValueKind::Int, 2)),
        ("v.t len/1", Outcome::Typed(ValueKind::Int, 2)),
        ("v.l len/1", Outcome::Typed(ValueKind::Int, 2)),
        ("v.t 'x concat/2", Outcome::Typed(ValueKind::Text, 3)),
        ("v.a text/1", Outcome::Typed(ValueKind::Text, 2)),
        ("ids/0 7 add/2", Outcome::Typed(ValueKind::Ids, 3)),
        ("v.l v.id has/2", Outcome::Typed(ValueKind::Bool, 3)),
    ];
    assert_each(&rt, rt.alloc(), &scope, &accepted)?;
    let refused = [
        "v.t neg",
        "v.a not",
        "v.a v.t +",
        "v.a v.t ==",
        "v.a v.c and",
        "v.a v.a v.a if/3",
        "v.c v.a v.t if/3",
        "v.t v.a min/2",
        "v.t abs/1",
        "v.a len/1",
        "v.t v.a concat/2",
        "v.t text/1",
        "v.l v.t add/2",
        "v.a v.l has/2",
    ];
    for text in refused {
        let expression = written(rt.alloc(), text)?;
        let expected = Outcome::At(0, TypeKind::KindWrong);
        assert_outcome(&rt, rt.alloc(), &scope, &expression, expected, text)?;
    }
    Ok(())
}

#[test]
fn the_first_check_that_fails_is_returned(rt: HostRuntime) -> Result<(), Fail> {
    let vertices = vertex_columns(rt.alloc())?;
    let scope = ExprScope::Vertex(&vertices);
    let refused = [
        ("x.a", Outcome::At(0, TypeKind::SideUnknown)),
        ("src.z", Outcome::At(0, TypeKind::SideUnknown)),
        ("matched", Outcome::At(0, TypeKind::SideUnknown)),
        ("v.z", Outcome::At(0, TypeKind::ColumnUnknown)),
        ("foo/0", Outcome::At(0, TypeKind::FunctionUnknown)),
        ("v.a v.b abs/2", Outcome::At(0, TypeKind::FunctionUnknown)),
        ("v.a ids/1", Outcome::At(0, TypeKind::FunctionUnknown)),
        (
            "v.a v.b v.a v.b min/4",
            Outcome::At(0, TypeKind::FunctionUnknown),
        ),
        ("v.z foo/1", Outcome::At(1, TypeKind::ColumnUnknown)),
        ("src.a foo/1", Outcome::At(1, TypeKind::SideUnknown)),
        ("v.t neg foo/1", Outcome::At(1, TypeKind::KindWrong)),
        ("foo/0 not", Outcome::At(1, TypeKind::FunctionUnknown)),
        ("v.t v.t text/2", Outcome::At(0, TypeKind::FunctionUnknown)),
        ("v.z src.a +", Outcome::At(1, TypeKind::ColumnUnknown)),
        ("src.a v.z +", Outcome::At(1, TypeKind::SideUnknown)),
        ("v.t src.a +", Outcome::At(2, TypeKind::SideUnknown)),
        ("v.t neg v.z +", Outcome::At(1, TypeKind::KindWrong)),
        ("v.a v.z not +", Outcome::At(3, TypeKind::ColumnUnknown)),
        (
            "v.t foo/0 v.z max/3",
            Outcome::At(2, TypeKind::FunctionUnknown),
        ),
        ("matched v.z and", Outcome::At(1, TypeKind::SideUnknown)),
    ];
    assert_each(&rt, rt.alloc(), &scope, &refused)?;
    Ok(())
}

const NUMBER: Outcome = Outcome::Typed(ValueKind::Int, 1);

const NO_SIDE: Outcome = Outcome::At(0, TypeKind::SideUnknown);

const NO_COLUMN: Outcome = Outcome::At(0, TypeKind::ColumnUnknown);

// What can be read at each place with two row types. The edges stand for joined rows and messages
// too.
fn assert_places<'a>(
    rt: &impl Abort,
    alloc: Global,
    vertices: &'a RowType,
    edges: &'a RowType,
) -> Result<(), NoMemory> {
    let triplet = [
        ("src.a", NUMBER),
        ("dst.id", NUMBER),
        ("edge.w", NUMBER),
        ("edge.id", NO_COLUMN),
        ("edge.a", NO_COLUMN),
        ("v.a", NO_SIDE),
        ("matched", NO_SIDE),
    ];
    assert_each(rt, alloc, &ExprScope::Triplet(vertices, edges), &triplet)?;
    let join = [
        ("v.a", NUMBER),
        ("v.id", NUMBER),
        ("o.w", NUMBER),
        ("o.id", NO_COLUMN),
        ("m.w", NO_SIDE),
        ("matched", NO_SIDE),
    ];
    assert_each(rt, alloc, &ExprScope::Join(vertices, edges), &join)?;
    let outer_join = [
        ("o.w", NUMBER),
        ("v.b", NUMBER),
        ("matched", Outcome::Typed(ValueKind::Bool, 1)),
        ("edge.w", NO_SIDE),
    ];
    assert_each(
        rt,
        alloc,
        &ExprScope::OuterJoin(vertices, edges),
        &outer_join,
    )?;
    let program = [
        ("m.w", NUMBER),
        ("v.id", NUMBER),
        ("m.id", NO_COLUMN),
        ("o.w", NO_SIDE),
        ("matched", NO_SIDE),
    ];
    assert_each(rt, alloc, &ExprScope::Program(vertices, edges), &program)
}

#[test]
fn each_place_has_its_scope(rt: HostRuntime) -> Result<(), Fail> {
    let vertices = vertex_columns(rt.alloc())?;
    let edges = edge_columns(rt.alloc())?;
    assert_places(&rt, rt.alloc(), &vertices, &edges)?;
    let edge = [
        ("edge.w", NUMBER),
        ("src.id", NUMBER),
        ("dst.id", NUMBER),
        ("src.w", NO_COLUMN),
        ("v.id", NO_SIDE),
    ];
    assert_each(&rt, rt.alloc(), &ExprScope::Edge(&edges), &edge)?;
    Ok(())
}

#[test]
fn at_most_64_levels(rt: HostRuntime) -> Result<(), Fail> {
    let alloc = rt.alloc();
    let vertices = vertex_columns(alloc)?;
    let scope = ExprScope::Vertex(&vertices);
    let table = [
        (63, "v.a", Outcome::Typed(ValueKind::Int, 64)),
        (64, "v.a", Outcome::Depth),
        (63, "v.z", Outcome::At(63, TypeKind::ColumnUnknown)),
        (64, "v.z", Outcome::Depth),
    ];
    for (levels, leaf, expected) in table {
        let expression = nested(alloc, written(alloc, leaf)?, levels)?;
        assert_outcome(&rt, alloc, &scope, &expression, expected, leaf)?;
    }
    Ok(())
}

#[test]
fn a_condition_is_a_truth_value(rt: HostRuntime) -> Result<(), Fail> {
    let alloc = rt.alloc();
    let vertices = vertex_columns(alloc)?;
    let scope = ExprScope::Vertex(&vertices);
    let table = [
        ("v.a v.b <", Outcome::Typed(ValueKind::Bool, 8)),
        ("v.a", Outcome::At(5, TypeKind::KindWrong)),
        ("v.t v.t concat/2", Outcome::At(5, TypeKind::KindWrong)),
        ("v.a v.z +", Outcome::At(7, TypeKind::ColumnUnknown)),
    ];
    for (text, expected) in table {
        let expression = written(alloc, text)?;
        assert!(rt; remaining_nodes(&expression, 1_000).is_some());
        let outcome = outcome_of(type_predicate(alloc, &expression, &scope, 5))?;
        assert_eq!(rt; outcome, expected, "at {text}");
    }
    Ok(())
}

#[test]
fn nodes_are_numbered_in_text_order(rt: HostRuntime) -> Result<(), Fail> {
    let alloc = rt.alloc();
    let vertices = vertex_columns(alloc)?;
    let scope = ExprScope::Vertex(&vertices);
    let expression = written(alloc, "v.c v.a v.t len/1 + v.id neg if/3")?;
    assert!(rt; remaining_nodes(&expression, 1_000).is_some());
    let mut nodes = String::new(alloc);
    if let Ok(typed) = type_expr(alloc, &expression, &scope, 10) {
        put_nodes(alloc, &mut nodes, &typed.expr)?;
    }
    let expected =
        "10 If, 11 Vertex 3, 12 Add, 13 Vertex 0, 14 Len, 15 Vertex 2, 16 Neg, 17 Vertex, ";
    assert_eq!(rt; nodes.as_str(), expected);
    Ok(())
}
