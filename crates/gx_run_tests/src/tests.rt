//! The words of a command, and whole runs over files and sinks in memory.

mod commands;
mod limits;
mod partitions;
mod refusals;
mod runs;
mod support;
