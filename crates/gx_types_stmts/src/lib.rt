//! Types of statements: one statement of a script, checked over what the statements before it made.
//!
//! The crate takes a statement with its names as they are written, and makes the statement that is
//! run, in which names are numbers of statements, columns are positions, and expressions are
//! numbered trees; or it returns the first check that fails. It calls `gx_types_clauses` for each
//! clause, and depends on `gx_syntax_tree` for what is written and on `gx_expr` and `gx_merge` for
//! what is made. `gx_types` calls it once for each statement of a script. It never sees a script, a
//! row or a partition.
#![tactic(auto)]

mod body;
mod checked_stmt;
mod graphs;
mod joins;
mod known;
mod loads;
mod made;
mod maps;
mod messages;
mod operand;
mod short_forms;
mod statement;
mod tables;
mod typed_body;
mod typed_stmt;

pub use checked_stmt::CheckedStmt;
pub use gx_types_clauses::{EdgeEnd, SharedType, StmtStop, TypeKind, TypedSend};
pub use known::Known;
pub use made::Made;
pub use statement::type_stmt;
pub use typed_stmt::TypedStmt;
