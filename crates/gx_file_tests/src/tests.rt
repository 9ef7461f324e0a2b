//! What is loaded of files, and what is printed of rows and statuses.

mod csv;
mod edge_lists;
mod loads;
mod printed_rows;
mod statuses;
mod support;
