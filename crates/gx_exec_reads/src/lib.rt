//! What an action prints, read from the blocks that a cluster holds.
//!
//! `read_answer` borrows the partitions of the blocks from the cluster, whatever they hold, and has
//! the answer made of them: no row is computed here, and none comes from anywhere else. The crate
//! depends on `gx_cluster` for held blocks, on `gx_exec_work` for what a block is, and on
//! `gx_exec_answers` for answers from partitions. The engine calls it once the blocks of an action
//! are held. It never sees a file, a worker or an order of work.
//!
//! To add an action, add its lines in specs/, also in specs/ActionRowLaws.antt, and its arm in
//! `reading.rt`.
#![tactic(auto)]

mod partitions;
mod reading;

pub use reading::read_answer;
