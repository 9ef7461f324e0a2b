//! The arguments of `gx run`: the script's name and the options, from the words of a command line.
//!
//! Contracts see the words as their bytes and the result as a `RunCommand`. Which command the words
//! are, if they are one, is defined in `specs/RunCommands.antt`. The crate depends on `gx_rows` for
//! the cuts alone, and serves the top call. It takes no memory, never sees the script, and does
//! not say what is wrong with words that are no command.
//!
//! To add an option, add a variant to `OptionName` and a field to `Options` (`options.rt`), and in
//! the definition a constructor of `Argument`, a line of `option_reading` and a part of
//! `single_command`.
#![tactic(auto)]

mod command;
mod options;

pub use command::{RunArgs, run_args};
