//! Functions on texts and lists.

ghost use Rattle.std.specs.Prelude.{◌≡◌, ◌<◌, [], ◌++◌, IfOk, IsSorted, length};
ghost use Rattle.std.specs.Fmt.{signed_decimal};
ghost use Rattle.std.specs.Ordering.{int_cmp};
ghost use Rattle.gx_expr.specs.Evaluates.{EvaluatesTo};
ghost use Rattle.gx_expr.specs.Evaluation.{
  at_node,
  bounded_list,
  bounded_text,
  has_entry,
  with_entry,
};

use gx_rows::{Cause, EvalStop, IdList, MOST_LIST_ENTRIES, MOST_TEXT_BYTES, NoMemory, Text, Value};
use itoa::Buffer;
use std::alloc::Global;

/// The text of both, one after the other.
///
/// # Errors
///
/// `TextTooLong` past 1,024 bytes; `NoMemory`.
pub(crate) fn concat(alloc: Global, n: u32, a: &str, b: &str) -> Result<Value, EvalStop>
    ensures { EvaluatesTo result (at_node n (bounded_text (a.now ++ b.now))) }
{
    if a.len() > MOST_TEXT_BYTES || b.len() > MOST_TEXT_BYTES - a.len() {
        return Err(EvalStop::Fault {
            cause: Cause::TextTooLong,
            expr: n,
        });
    }
    Ok(Value::Text(joined(alloc, a, b)?))
}

// The text of both.
fn joined(alloc: Global, a: &str, b: &str) -> Result<Text, NoMemory>
    ensures { IfOk result (λ text. text ≡ a.now ++ b.now) }
{
    let mut chars = String::with_capacity(alloc, a.len() + b.len())?;
    chars.push_str(a)?;
    chars.push_str(b)?;
    Text::from_string(alloc, chars)
}

/// The decimal text of a number.
///
/// # Errors
///
/// `NoMemory` if memory for it runs out.
pub(crate) fn decimal_text(alloc: Global, n: u32, number: i64) -> Result<Value, EvalStop>
    ensures { EvaluatesTo result (at_node n (bounded_text (signed_decimal number))) }
{
    let mut buffer = Buffer::new();
    Ok(Value::Text(Text::of(alloc, buffer.format(number))?))
}

/// The list without entries.
///
/// # Errors
///
/// `NoMemory` if memory for it runs out.
#[tactic(auto, using(crate::proofs::Entries::no_entries))]
pub(crate) fn no_ids(alloc: Global) -> Result<IdList, NoMemory>
    ensures { IfOk result (λ ids. ids ≡ []) }
{
    IdList::of(alloc, &[])
}

/// The ascending list with one entry more.
///
/// # Errors
///
/// `ListTooLong` past 1,000,000 entries; `NoMemory`.
pub(crate) fn add_entry(
    alloc: Global,
    n: u32,
    entries: &[i64],
    entry: i64,
) -> Result<Value, EvalStop>
    requires { IsSorted int_cmp entries.now }
    ensures { EvaluatesTo result (at_node n (bounded_list (with_entry entries.now entry))) }
{
    if entries.len() >= MOST_LIST_ENTRIES {
        return Err(EvalStop::Fault {
            cause: Cause::ListTooLong,
            expr: n,
        });
    }
    Ok(Value::Ids(with_one_more(alloc, entries, entry)?))
}

// The ascending list of the entries and one more.
fn with_one_more(alloc: Global, entries: &[i64], entry: i64) -> Result<IdList, NoMemory>
    requires few { length entries.now < 1000000 }
    requires sorted { IsSorted int_cmp entries.now }
    ensures { IfOk result (λ ids. ids ≡ with_entry entries.now entry) }
{
    let mut all = Vec::with_capacity(alloc, entries.len() + 1)?;
    all.extend_from_slice(entries)?;
    all.push(entry)?;
    IdList::of(alloc, all.as_slice())
}

/// Whether the ascending list has the entry.
pub(crate) fn has(entries: &[i64], entry: i64) -> bool
    requires { IsSorted int_cmp entries.now }
    ensures { result ≡ has_entry entries.now entry }
{
    entries.binary_search(&entry).is_ok()
}
