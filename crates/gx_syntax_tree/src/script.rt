//! Scripts, the roots of the tree.

use crate::stmt::Stmt;
use sqlite_items::Items;

/// A script: its statements in order, which are numbered from 1.
#[derive(Drop)]
pub struct Script {
    /// The statements.
    pub statements: Items<Stmt>,
}
