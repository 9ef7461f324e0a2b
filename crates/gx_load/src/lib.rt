//! Files to rows.
//!
//! `read_all` reads a whole file, up to a limit. `rows_of` turns a CSV file into rows of a row type,
//! and `edge_list_of` an edge list into edges, or each returns the first position that it refuses.
//! `Loads` keeps the rows of each load statement. Contracts speak of bytes and of lists of rows;
//! `csv` defines which records a text has, and `specs/` what headers, cells and lines must be. The
//! crate depends on `gx_rows`, `gx_outside`, `csv` and `thiserror`, and the top call loads through
//! it. It never sees a script, nor which of several rows of one identifier counts.
#![tactic(auto)]

mod cell;
mod cell_value;
mod edge_lines;
mod edge_list;
mod header;
mod load_stop;
mod loading;
mod loads;
mod read_stop;
mod reading;
mod records;
mod row_cells;
mod words;

pub use edge_list::edge_list_of;
pub use load_stop::{CellKind, LoadStop, RowStop};
pub use loading::rows_of;
pub use loads::Loads;
pub use read_stop::ReadStop;
pub use reading::read_all;
