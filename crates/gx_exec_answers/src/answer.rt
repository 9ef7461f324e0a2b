//! Answers of actions.

use gx_rows::{Text, Value};

/// What an action prints.
#[derive(Debug, Drop)]
pub struct Answer {
    /// The names of the columns.
    pub header: Vec<Text>,
    /// The rows, each with a value for each column.
    pub rows: Vec<Vec<Value>>,
}
