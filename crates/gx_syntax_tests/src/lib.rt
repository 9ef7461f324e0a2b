//! Tests of the script language, on texts: its tokens, what is parsed or refused where and why, and
//! what is shown. They are in a crate of their own, so that no crate of the language is proved a second
//! time with its tests. Each file is tables of texts with expected values, which support.rt goes through.
#![tactic(auto)]

#[cfg(test)]
mod tests;
