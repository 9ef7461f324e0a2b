//! Values and their kinds.

ghost use Rattle.std.specs.Prelude.{◌≡◌, IfOk};
ghost use Rattle.gx_rows.specs.Kinds.{kind_of};
ghost use Rattle.gx_rows.specs.Order.{value_cmp};

use crate::{IdList, NoMemory, Text};
use std::alloc::AllocError;
use std::cmp::Ordering;

/// The kind of a value and of a column.
#[derive(Clone, Copy, Debug, PartialEq, Eq)]
pub enum ValueKind {
    /// A whole number of 64 bits.
    Int,
    /// A text.
    Text,
    /// A truth value.
    Bool,
    /// An ascending list of identifiers.
    Ids,
}

/// A value of a row. The order of the variants is the order of values of two kinds.
#[derive(Debug, Drop, PartialEq, Eq, PartialOrd, Ord)]
pub enum Value {
    /// A whole number of 64 bits.
    Int(i64),
    /// A text.
    Text(Text),
    /// A truth value.
    Bool(bool),
    /// An ascending list of identifiers.
    Ids(IdList),
}

impl Value {
    /// The kind of the value.
    pub fn kind(&self) -> ValueKind
        ensures { result ≡ kind_of self.now }
    {
        match self {
            Value::Int(_) => ValueKind::Int,
            Value::Text(_) => ValueKind::Text,
            Value::Bool(_) => ValueKind::Bool,
            Value::Ids(_) => ValueKind::Ids,
        }
    }

    /// An equal value. It shares the bytes of a text and the entries of a list.
    ///
    /// # Errors
    ///
    /// `NoMemory` if no further copy of a text or list can be counted.
    pub fn copy(&self) -> Result<Value, NoMemory>
        ensures { IfOk result (λ value. value ≡ self.now) }
    {
        match self {
            Value::Int(number) => Ok(Value::Int(*number)),
            Value::Text(text) => Ok(Value::Text(text.copy()?)),
            Value::Bool(truth) => Ok(Value::Bool(*truth)),
            Value::Ids(ids) => Ok(Value::Ids(ids.copy()?)),
        }
    }

    /// Numbers before texts before truth values before lists; numbers by size, texts by bytes,
    /// false before true, and lists lexicographically, a prefix first.
    pub fn compare(&self, other: &Value) -> Ordering
        ensures { result ≡ value_cmp self.now other.now }
    {
        self.cmp(other)
    }
}

impl Clone for Value {
    ghost is_clone = { λ value clone. clone ≡ value };

    fn clone(&self) -> Result<Value, AllocError> {
        match self.copy() {
            Ok(value) => Ok(value),
            Err(_) => Err(AllocError),
        }
    }
}
