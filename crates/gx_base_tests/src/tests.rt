//! A file of tests for each of the lowest crates.

mod cuts;
mod outside;
mod rows;
