//! Rows by slot, in chunks of 32 that are shared.
//!
//! Contracts see `Rows` as the list of its rows; chunks are seen nowhere. Rows are collected one
//! after another (`RowsBuilder`), or made of other rows of which some are replaced at ascending
//! slots (`RowsEditor`, `Rows::replaced`): each chunk that keeps all its rows is then shared, and
//! costs a count. The crate depends on `gx_rows` alone, and partitions of vertices depend on it. It
//! never sees identifiers, masks or tables.
#![tactic(auto)]

mod rows;
mod rows_builder;
mod rows_editor;

pub use rows::Rows;
pub use rows_builder::RowsBuilder;
pub use rows_editor::RowsEditor;
