//! What an action prints, read from the partitions that hold its rows.
//!
//! An answer is the model's: a header and rows. It is made of partitions that are lent, whatever
//! rows they hold: vertices come by identifier and edges in edge order, by one sort of references,
//! and a row is copied once, into the answer. The crate depends on `gx_vpart` and `gx_epart` for
//! partitions and on `gx_model` for what an answer is; the engine that computes partitions is built
//! on it. It never sees a cluster, a plan or a script, nor how rows are spread over partitions.
//!
//! An action that prints something else is a file beside `vertices`, `edges` and `counts`.
#![tactic(auto)]

mod answer;
mod counts;
mod edges;
mod lists;
mod vertices;

pub use answer::Answer;
pub use counts::{edge_count_answer, vertex_count_answer};
pub use edges::edges_answer;
pub use vertices::vertices_answer;
