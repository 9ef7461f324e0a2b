//! A file of tests for each sort of partition, for what it is made of, and for the kernels.

mod edges;
mod graphs;
mod indexes;
mod masks;
mod parts;
mod support;
mod tables;
mod traversals;
mod vertices;
