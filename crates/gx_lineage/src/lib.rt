//! Lineage: which block is computed from which.
//!
//! A `Dag` is a graph of nodes, each computed from earlier ones. Every node has the same number of
//! parts, and one part of one node is a block. Contracts see a `Dag` as its number of parts and its
//! list of nodes, and name the blocks that a block is computed from. The crate depends on `gx_rows`
//! for `NoMemory` alone. The machine that computes blocks on workers asks it for their inputs; it
//! never sees rows, workers or schedules.
#![tactic(auto)]

mod block_id;
mod dag;
mod input;
mod node;
mod node_id;
mod node_kind;

pub use block_id::BlockId;
pub use dag::Dag;
pub use input::{Input, Pattern};
pub use node_id::NodeId;
pub use node_kind::NodeKind;
