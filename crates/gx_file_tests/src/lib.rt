//! Tests of files: texts with the rows that are loaded of them or the first refused place, and rows and
//! statuses with the texts that are printed of them. They are in a crate of their own, so that neither
//! `gx_load` nor `gx_print` is proved a second time with its tests. Each file is tables of texts.
#![tactic(auto)]

#[cfg(test)]
mod tests;
