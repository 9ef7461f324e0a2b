//! Constants, as they are written in default rows and in rows of `fromedges`. Unlike expressions
//! they have a sign of their own, and need no names.

use gx_rows::Text;

/// A constant.
#[derive(Drop)]
pub enum Const {
    /// A number with its sign.
    Number(i64),
    /// A text.
    Quoted(Text),
    /// `true` or `false`.
    Truth(bool),
    /// `ids()`: the empty list of identifiers.
    NoIds,
}

/// A column with the same constant in each row.
#[derive(Drop)]
pub struct ColumnConst {
    /// The column's name.
    pub name: Text,
    /// The constant.
    pub value: Const,
}
