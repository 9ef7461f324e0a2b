//! Tests of whole runs, over files and sinks in memory, and of the words of a command. They are in a
//! crate of their own, so that neither `gx_run` nor `gx_run_args` is proved a second time with its tests.
//! support.rt has the files that each run finds, and compares what a run writes and its exit status.
#![tactic(auto)]

#[cfg(test)]
mod tests;
