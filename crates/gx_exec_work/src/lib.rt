//! How the blocks of a planned script are computed.
//!
//! A `Block` is what the workers of a cluster hold: a partition of vertices or of edges, or the fault
//! that stopped it. `GraphWork` has a script with its loaded rows and the plan of the statements that
//! were added, and computes a block from its inputs by the recipe of its node. Contracts see it as
//! the world and what was planned (`specs/`), and a block as its content. The crate is built on
//! `gx_exec_contents`, which says what each block holds, and on the kernels; the engine is built on
//! it. It never sees a file, a worker or an order of work.
#![tactic(auto)]

mod block;
mod graph_work;
mod inputs;
mod kernels;
mod make;

pub use block::Block;
pub use graph_work::GraphWork;
