//! Tests of the lowest crates: values and rows, the files and the sink in memory, and places of edges.
//! They are in a crate of their own, so that none of the three is proved a second time with its tests.
//! There is a file for each crate; it sees what the crate exports, and nothing else of it.
#![tactic(auto)]

#[cfg(test)]
mod tests;
