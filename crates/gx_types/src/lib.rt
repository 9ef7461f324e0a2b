//! Types of scripts: a whole script, checked statement by statement.
//!
//! `check` takes the tree of a script and makes the list of its statements as they are run, each
//! with the row types of what it makes; or it returns the first check that fails. Each statement is
//! checked by `gx_types_stmts`; here are the limit on the number of statements, what is known from
//! one statement to the next, which statements one needs, and which statements cannot be run yet.
//! The planner and the engine read a `Typed`. It never sees a token, a file or a row.
#![tactic(auto)]

mod built;
mod laws;
mod marks;
mod needs;
mod script;
mod type_stop;
mod typed;

pub use gx_types_stmts::{CheckedStmt, EdgeEnd, Made, SharedType, TypeKind, TypedSend, TypedStmt};
pub use laws::parsed_scripts_are_typable;
pub use script::check;
pub use type_stop::TypeStop;
pub use typed::Typed;
