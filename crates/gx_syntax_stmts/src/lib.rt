//! The grammar of statements and scripts, and its parser.
//!
//! The tokens of a script become its syntax tree. specs/Forms.antt says which tokens spell each
//! statement, and specs/Refusals.antt what is returned for tokens that spell no script. Contracts
//! see tokens without their offsets. The crate depends on the tree and on the parser of expressions;
//! it never sees the text of a script, and checks no types. `gx_syntax` calls it for whole texts.
#![tactic(auto)]

mod actions;
mod grammar_stop;
mod graphs;
mod joins;
mod keywords;
mod laws;
mod limit;
mod lists;
mod loads;
mod maps;
mod messages;
mod parts;
mod repetition;
mod script;
mod tables;

pub use grammar_stop::GrammarStop;
pub use laws::{scripts_are_parsed, scripts_are_unique};
pub use limit::len_within_limit;
pub use script::parse_script;
