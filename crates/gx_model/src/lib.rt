//! What a script means over plain lists: the values of its names, the faults of its statements, and
//! the rows that its actions print.
//!
//! `specs/` is the product: every crate above is measured by these definitions, and none of them
//! knows partitions, indexes, masks, views, plans or schedules. The program makes no call of this
//! crate. To add a statement, add its line in `value_of_stmt` (specs/Values.antt), in
//! `fault_of_stmt` (specs/StmtFaults.antt), in `value_of_stmt-same`
//! (specs/StatementValueLaws.antt), and in `stmt-without_places` and `fault-without_places`
//! (specs/PlaceLaws.antt); for an action, its line in `answer_of_stmt` (specs/ActionAnswers.antt)
//! and in `answer-without_places`, and for a load in `data_file_by` (specs/DataFiles.antt).
#![tactic(auto)]

pub use gx_types_stmts::{CheckedStmt, TypedStmt};
