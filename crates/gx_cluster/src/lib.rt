//! A cluster of workers that hold blocks and run tasks, turn by turn, with a log.
//!
//! `Work` says how a block is computed from its inputs. `Cluster::demand` has the workers compute
//! blocks until all targets are held. Contracts see a cluster as what its workers hold and run and
//! as its log, and say that the turns it took are those of the machine that `gx_cluster_state`
//! defines. The crate names the types of that crate again. It never sees rows, statements or files.
#![tactic(auto)]

mod agenda;
mod cluster;
mod demand;
mod filing;
mod sweep;
mod tasks;
mod waiting;
mod work;

pub use cluster::Cluster;
pub use gx_cluster_state::{Cargo, Event, Events, LogEntry};
pub use work::Work;
