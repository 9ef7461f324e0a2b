//! Faults of a run.

use crate::{Cause, RowKey};

/// The fault of a statement: where it is, and why.
#[derive(Debug, Drop, PartialEq, Eq)]
pub struct Fault {
    /// The statement, counted from 1.
    pub statement: u32,
    /// The vertex or edge on which the expression or merge has no value.
    pub key: RowKey,
    /// The number of the expression node that has no value, counted from 0 in its statement. For a
    /// merge it is the number of the statement's expression nodes plus that of the column.
    pub expr: u32,
    /// Why there is no value.
    pub cause: Cause,
}
