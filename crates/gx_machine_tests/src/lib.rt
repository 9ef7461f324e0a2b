//! Tests of the machine: the inputs of blocks, and the logs of small lineages, entry by entry, with 1, 2
//! and 64 workers. They are in a crate of their own, so that neither `gx_lineage` nor `gx_cluster` is
//! proved a second time with its tests.
#![tactic(auto)]

#[cfg(test)]
mod tests;
