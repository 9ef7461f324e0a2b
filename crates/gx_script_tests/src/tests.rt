//! Scripts that are accepted, and scripts that are refused with where and why; the plan of a script;
//! and what is read of held blocks.

mod answers;
mod expressions;
mod limits;
mod needs;
mod order;
mod plans;
mod reads;
mod statements;
mod support;
