//! The engine: it runs the statements of a script on a cluster, each once and only if it is needed.
//!
//! An `Engine` has a script with its loaded rows and the plan of the statements that were added. To
//! force a statement it adds its nodes to the plan, and phase by phase has the cluster compute all
//! blocks of the phase, and looks for the least fault among them. Contracts (`specs/`) say what
//! each call adds to the plan, that the cluster's log is that of the commands of the call, and
//! which fault of the model ends it. The crate is built on `gx_exec_work` and `gx_cluster`; the run
//! of a script is built on it. It never sees how a block is computed, and it prints nothing.
#![tactic(auto)]

mod answering;
mod engine;
mod forcing;
mod found_stop;
mod judging;
mod run_stop;

pub use engine::Engine;
pub use run_stop::RunStop;
