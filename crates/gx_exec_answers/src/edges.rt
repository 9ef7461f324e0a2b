//! Answers with the edges of partitions.

ghost use Rattle.std.specs.Prelude.{◌≡◌, ◌∷◌, ◌++◌, IfOk, OnOk, map};
ghost use Rattle.std.specs.Option.{option_copied};
ghost use Rattle.gx_rows.specs.declared.value.Value.TheVariants.{Int};
ghost use Rattle.gx_epart.specs.Edges.{edge_order_of, edges_lent};
ghost use Rattle.gx_model.specs.ActionAnswers.{edges_answer as answer_with_edges};
ghost use Rattle.gx_exec_answers.specs.AnswerRows.{answer_record, rows_of_edges};
ghost use Rattle.gx_exec_answers.specs.LentRows.{edges_in_parts};

use crate::answer::Answer;
use crate::lists::{append, append_names, append_values};
use gx_epart::{EPart, edge_order_is_unique};
use gx_rows::{NoMemory, Row, RowType, Text, Value, Vid};
use std::alloc::Global;

/// The edges of all these partitions by source, then by destination, then by row, under `src`,
/// `dst` and the names of the columns. Equal edges are repeated.
///
/// # Errors
///
/// `NoMemory` if memory for the answer runs out, or for a list of references to the edges of two or
/// more partitions.
pub fn edges_answer(
    alloc: Global,
    columns: Option<&RowType>,
    parts: &[&EPart],
) -> Result<Answer, NoMemory>
    ensures { IfOk result (λ a. answer_record a
        ≡ answer_with_edges (option_copied columns.entry) (edges_in_parts parts.now)) }
{
    let mut header = Vec::new(alloc);
    append(&mut header, Text::of(alloc, "src")?)?;
    append(&mut header, Text::of(alloc, "dst")?)?;
    append_names(alloc, &mut header, columns)?;
    let rows = ordered_rows(alloc, parts)?;
    Ok(Answer { header, rows })
}

// The rows of the edges of all partitions in edge order, in which those of one partition are.
fn ordered_rows(alloc: Global, parts: &[&EPart]) -> Result<Vec<Vec<Value>>, NoMemory>
    ensures { IfOk result (λ rows. map (λ row. row.items) rows.items
        ≡ rows_of_edges (edge_order_of (edges_in_parts parts.now))) }
{
    match parts {
        [part] => rows_of_part(alloc, *part),
        _ => edge_rows(alloc, in_edge_order(alloc, parts)?.as_slice()),
    }
}

fn rows_of_part(alloc: Global, part: &EPart) -> Result<Vec<Vec<Value>>, NoMemory>
    ensures { IfOk result (λ rows.
        map (λ row. row.items) rows.items ≡ rows_of_edges (edge_order_of part.now)) }
{
    edge_order_is_unique();
    let mut rows = Vec::with_capacity(alloc, part.len() as usize)?;
    for i in 0..part.len() {
        let (src, dst, row) = part.edge(i);
        append(&mut rows, edge_row(alloc, src, dst, row)?)?;
    }
    Ok(rows)
}

// The edges of all partitions in edge order, borrowed. A stable sort merges partitions, each of
// which is in edge order.
fn in_edge_order<'a>(
    alloc: Global,
    parts: &[&'a EPart],
) -> Result<Vec<(Vid, Vid, &'a Row)>, NoMemory>
    ensures { IfOk result (λ es. edges_lent es.items ≡ edge_order_of (edges_in_parts parts.now)) }
{
    let mut edges = all_edges(alloc, parts)?;
    edges.sort()?;
    edge_order_is_unique();
    Ok(edges)
}

// The edges of all partitions, one partition after another.
fn all_edges<'a>(alloc: Global, parts: &[&'a EPart]) -> Result<Vec<(Vid, Vid, &'a Row)>, NoMemory>
    ensures { IfOk result (λ es. edges_lent es.items ≡ edges_in_parts parts.now) }
{
    let mut edges = Vec::new(alloc);
    let mut rest = parts;
    while let [part, after @ ..] = rest {
        append_edges(&mut edges, *part)?;
        rest = after;
    }
    Ok(edges)
}

fn append_edges<'a>(edges: &mut Vec<(Vid, Vid, &'a Row)>, part: &'a EPart) -> Result<(), NoMemory>
    ensures { OnOk result
        (edges_lent edges.new.items ≡ edges_lent edges.old.items ++ part.now) }
{
    for i in 0..part.len() {
        append(edges, part.edge(i))?;
    }
    Ok(())
}

fn edge_rows(alloc: Global, edges: &[(Vid, Vid, &Row)]) -> Result<Vec<Vec<Value>>, NoMemory>
    ensures { IfOk result (λ rows.
        map (λ row. row.items) rows.items ≡ rows_of_edges (edges_lent edges.now)) }
{
    let mut rows = Vec::with_capacity(alloc, edges.len())?;
    let mut rest = edges;
    while let [edge, after @ ..] = rest {
        append(&mut rows, edge_row(alloc, edge.0, edge.1, edge.2)?)?;
        rest = after;
    }
    Ok(rows)
}

fn edge_row(alloc: Global, src: Vid, dst: Vid, row: &Row) -> Result<Vec<Value>, NoMemory>
    ensures { IfOk result (λ values. values.items ≡ Int src.0 ∷ Int dst.0 ∷ row.now) }
{
    let mut values = Vec::with_capacity(alloc, row.as_slice().len() + 2)?;
    append(&mut values, Value::Int(src.0))?;
    append(&mut values, Value::Int(dst.0))?;
    append_values(&mut values, row)?;
    Ok(values)
}
