//! Answers with a number of vertices or edges.

ghost use Rattle.std.specs.Prelude.{◌≡◌, ◌<◌, ◌≤◌, ◌^◌, IfOk, length};
ghost use Rattle.gx_model.specs.ActionAnswers.{count_answer as answer_with_count};
ghost use Rattle.gx_exec_answers.specs.AnswerRows.{answer_record};
ghost use Rattle.gx_exec_answers.specs.LentRows.{edges_in_parts, vertices_in_parts};

use crate::answer::Answer;
use crate::lists::append;
use gx_epart::EPart;
use gx_rows::{NoMemory, Text, Value};
use gx_vpart::VPart;
use std::alloc::Global;

/// The number of vertices in all these partitions, under `count`.
///
/// # Errors
///
/// `NoMemory` if memory for the answer runs out.
pub fn vertex_count_answer(alloc: Global, parts: &[&VPart]) -> Result<Answer, NoMemory>
    requires { length parts.now ≤ 128 }
    ensures { IfOk result (λ a.
        answer_record a ≡ answer_with_count (length (vertices_in_parts parts.now))) }
{
    count_answer(alloc, vertex_count(parts))
}

/// The number of edges in all these partitions, under `count`. An edge that is repeated counts each
/// time.
///
/// # Errors
///
/// `NoMemory` if memory for the answer runs out.
pub fn edge_count_answer(alloc: Global, parts: &[&EPart]) -> Result<Answer, NoMemory>
    requires { length parts.now ≤ 128 }
    ensures { IfOk result (λ a.
        answer_record a ≡ answer_with_count (length (edges_in_parts parts.now))) }
{
    count_answer(alloc, edge_count(parts))
}

fn count_answer(alloc: Global, n: u64) -> Result<Answer, NoMemory>
    requires { n < 2 ^ 63 }
    ensures { IfOk result (λ a. answer_record a ≡ answer_with_count n) }
{
    let mut header = Vec::new(alloc);
    append(&mut header, Text::of(alloc, "count")?)?;
    let mut row = Vec::new(alloc);
    append(&mut row, Value::Int(n as i64))?;
    let mut rows = Vec::new(alloc);
    append(&mut rows, row)?;
    Ok(Answer { header, rows })
}

fn vertex_count(parts: &[&VPart]) -> u64
    requires { length parts.now ≤ 128 }
    ensures exact { result ≡ length (vertices_in_parts parts.now) }
    ensures fits_i64 { result < 2 ^ 63 }
{
    let mut count = 0u64;
    let mut rest = parts;
    while let [part, after @ ..] = rest {
        count += row_count(*part) as u64;
        rest = after;
    }
    count
}

fn row_count(part: &VPart) -> u32
    ensures count { result ≡ length part.now }
    ensures fits_u32 { length part.now < 2 ^ 32 }
{
    part.rows().count() as u32
}

fn edge_count(parts: &[&EPart]) -> u64
    requires { length parts.now ≤ 128 }
    ensures exact { result ≡ length (edges_in_parts parts.now) }
    ensures fits_i64 { result < 2 ^ 63 }
{
    let mut count = 0u64;
    let mut rest = parts;
    while let [part, after @ ..] = rest {
        count += part.len() as u64;
        rest = after;
    }
    count
}
