//! The rows that are measured: of one int, of two ints, and of a text with an int.

use gx_rows::{NoMemory, Row, Text, Value};
use std::alloc::Global;

/// Which values a row has. The last one is the number of the row.
#[derive(Clone, Copy)]
pub enum Shape {
    /// One int.
    Int,
    /// Two ints.
    Ints,
    /// A text and an int.
    Text,
}

impl Shape {
    /// The shape of this name.
    pub fn of_word(word: &str) -> Option<Shape> {
        match word {
            "int" => Some(Shape::Int),
            "ints" => Some(Shape::Ints),
            "text" => Some(Shape::Text),
            _ => None,
        }
    }

    /// The row of this number.
    ///
    /// # Errors
    ///
    /// `NoMemory` if memory for a text runs out.
    pub fn row(self, alloc: Global, number: i64) -> Result<Row, NoMemory> {
        let last = Value::Int(number);
        match self {
            Shape::Int => Ok(Row::one(last)),
            Shape::Ints => Ok(Row::two(Value::Int(number.wrapping_neg()), last)),
            Shape::Text => Ok(Row::two(Value::Text(name_of(alloc, number)?), last)),
        }
    }
}

fn name_of(alloc: Global, number: i64) -> Result<Text, NoMemory> {
    let name = format!(in alloc; "vertex {number}")?;
    Text::of(alloc, name.as_str())
}

/// The last value of a row of these shapes.
pub fn number_of(row: &Row) -> i64 {
    match row.as_slice() {
        [.., Value::Int(number)] => *number,
        _ => 0,
    }
}

/// The row with `more` added to its last value.
///
/// # Errors
///
/// `NoMemory` if no further copy of a text can be counted.
pub fn raised(row: &Row, more: i64) -> Result<Row, NoMemory> {
    match row.as_slice() {
        [Value::Int(last)] => Ok(Row::one(Value::Int(last.wrapping_add(more)))),
        [first, Value::Int(last)] => {
            Ok(Row::two(first.copy()?, Value::Int(last.wrapping_add(more))))
        }
        _ => row.copy(),
    }
}
