//! The top call: a whole run of `gx`, from its arguments to the bytes that it writes.
//!
//! `run` reads the script that the arguments name, checks it, reads all data files that it loads, and
//! then answers each action on a cluster and writes its text, in order. What a run means is defined in
//! `specs/Meaning.antt` over plain lists, and clauses of `run` say that its status and the bytes
//! written are just that. What the cluster did is defined in `specs/RunLogs.antt`. The crate puts
//! together what the crates below do: `gx_run_args` reads arguments, `gx_syntax` parses, `gx_types`
//! checks, `gx_load` reads rows, `gx_exec` answers actions, and `gx_print` makes texts. The program
//! `gx` calls it. It never sees a real file or stream, and names no statement that is not a load.
#![tactic(auto)]

mod actions;
mod data_file;
mod fetch;
mod file_rows;
mod loads;
mod script;
mod telling;
mod top;

pub use gx_cluster::Cluster;
pub use gx_exec_work::Block;
pub use gx_print::{DataStop, ScriptStop, Status};
pub use telling::tell;
pub use top::run;
