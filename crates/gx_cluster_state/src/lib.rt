//! What a cluster of workers is made of, and how its turns change it.
//!
//! A cluster has blocks that workers hold, tasks that they run, and a log of its turns. This crate
//! has the entries of the log, the events of a schedule, shared values, and the definitions of a
//! turn and of a run (`specs/`), which speak of blocks and workers and of no values. `laws` says
//! that a list of commands has a run and no other, and that a run is one under a larger lineage too.
//! The crate depends on `gx_lineage` for blocks; `gx_cluster` is built on it and names its types
//! again.
#![tactic(auto)]

mod captured;
mod cargo;
mod event;
mod events;
mod held;
mod laws;
mod log_entry;
mod running;
mod shared;
mod workers;

pub use captured::Captured;
pub use cargo::Cargo;
pub use event::Event;
pub use events::Events;
pub use held::Held;
pub use laws::{
    commands_have_a_run, commands_have_one_run, runs_stand_under_larger_nets, turns_are_bounded,
};
pub use log_entry::LogEntry;
pub use running::Running;
pub use shared::Shared;
pub use workers::Workers;
