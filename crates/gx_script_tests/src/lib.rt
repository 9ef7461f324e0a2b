//! Tests on the texts of scripts: each check of types with what it refuses, the limits at their numbers
//! and the order of the checks; the plan of a script; and what its actions read of held blocks. They are
//! in a crate of their own, since what is tested does not depend on the parser, and is not proved a
//! second time with its tests.
#![tactic(auto)]

#[cfg(test)]
mod tests;
