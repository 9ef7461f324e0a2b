//! The parts of values. A value of another kind has 0, false or nothing; a well-typed expression
//! asks for none of these.

ghost use Rattle.std.specs.Prelude.{◌≡◌, IsSorted};
ghost use Rattle.std.specs.Ordering.{int_cmp};
ghost use Rattle.gx_expr.specs.Evaluation.{bytes_of, ids_of, int_of_value, size_of, truth_of_value};

use gx_rows::Value;

/// The number of a value.
pub(crate) fn number_of(value: &Value) -> i64
    ensures { result ≡ int_of_value value.now }
{
    match value {
        Value::Int(number) => *number,
        _ => 0,
    }
}

/// The truth of a value.
pub(crate) fn truth_of(value: &Value) -> bool
    ensures { result ≡ truth_of_value value.now }
{
    match value {
        Value::Bool(truth) => *truth,
        _ => false,
    }
}

/// A text, borrowed.
pub(crate) fn text_of(value: &Value) -> &str
    ensures { result.now ≡ bytes_of value.now }
{
    match value {
        Value::Text(text) => text.as_str(),
        _ => "",
    }
}

/// The entries of a list, borrowed.
pub(crate) fn entries_of(value: &Value) -> &[i64]
    ensures entries { result.now ≡ ids_of value.now }
    ensures sorted { IsSorted int_cmp result.now }
{
    match value {
        Value::Ids(ids) => ids.as_slice(),
        _ => &[],
    }
}

/// The bytes of a text, or the entries of a list.
pub(crate) fn size_of_value(value: &Value) -> usize
    ensures { result ≡ size_of value.now }
{
    match value {
        Value::Text(text) => text.as_str().len(),
        Value::Ids(ids) => ids.as_slice().len(),
        _ => 0,
    }
}
