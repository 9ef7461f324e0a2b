//! Types of the clauses of statements: what comes between the keyword of a statement and its end.
//!
//! A clause is a list of columns, a send, a list of merges, a row of constants, a test or a word.
//! The crate checks each, and makes what is run in its place: numbered trees, rows, kinds of merges.
//! It also has one view of the names of a statement, and the row types that statements share. It
//! calls `gx_types_exprs` for each expression. `gx_types_stmts` puts the clauses of a statement
//! together; this crate never sees what an earlier statement made, a script or a row.
#![tactic(auto)]

mod column_list;
mod columns;
mod constants;
mod declared;
mod limits;
mod merging;
mod nodes;
mod sending;
mod sets;
mod shared_type;
mod sort;
mod stmt_parts;
mod stmt_stop;
mod tests_of_rows;
mod typed_send;
mod values;
mod words;

pub use column_list::ColumnList;
pub use columns::{check_same_columns, check_same_kinds};
pub use constants::{named_row, named_type, type_row};
pub use declared::{declared_type, lone_type};
pub use gx_types_exprs::TypeKind;
pub use limits::{check_lists, rounds_of};
pub use merging::{grouped_type, merge_kinds, message_type};
pub use nodes::count_nodes;
pub use sending::{TypedSends, type_sends};
pub use sets::{TypedSets, type_sets};
pub use shared_type::SharedType;
pub use sort::Sort;
pub use stmt_parts::{StmtParts, UsedName, parts_of};
pub use stmt_stop::StmtStop;
pub use tests_of_rows::{TypedTest, type_condition, type_test};
pub use typed_send::{EdgeEnd, TypedSend};
pub use words::{cut_of_written, direction_of_written};
