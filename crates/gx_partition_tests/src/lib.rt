//! Tests of partitions: masks, indexes, parts, the partitions of vertices and of edges, and the kernels
//! that make one of others, with results worked by hand. They are in a crate of their own, so that no
//! crate of partitions is proved a second time with its tests. A test keeps one or two partitions, since
//! each that is alive where a call may fail makes its proof dearer.
#![tactic(auto)]

#[cfg(test)]
mod tests;
