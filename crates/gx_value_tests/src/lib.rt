//! Tests of expressions: how they are typed in each place of a script, and what they evaluate to. They
//! are in a crate of their own, so that neither crate is proved a second time with its tests. The tests
//! of statements and scripts, which need the parser, are in `gx_script_tests`.
#![tactic(auto)]

#[cfg(test)]
mod tests;
