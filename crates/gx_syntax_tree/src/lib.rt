//! The syntax tree of scripts: statements, their parts, and expressions.
//!
//! A script is a list of statements, and each statement is a variant of `Stmt` with the parts of
//! its spelling in text order. Parentheses, quotes and escapes are gone, and so are optional parts
//! that only repeat a default. The crate depends on `gx_rows` for texts and kinds, and on the kit's
//! `sqlite_items`, through which a tree may hold trees. It never sees a token: parsers, the printer
//! and the type checker depend on it, and it depends on none of them.
#![tactic(auto)]

mod constant;
mod expr;
mod keyword;
mod laws;
mod parts;
mod script;
mod stmt;
mod words;

pub use constant::{ColumnConst, Const};
pub use expr::{BinaryOp, Expr, UnaryOp};
pub use keyword::{CountTarget, PrintTarget, StmtKeyword};
pub use laws::statements_are_made_of_their_views;
pub use parts::{ColumnDecl, ColumnExpr, ColumnMerge, SendClause, SubgraphFilter};
pub use script::Script;
pub use stmt::Stmt;
pub use words::{ActiveWord, CutWord, MergeWord, NeighbourWord, SideWord};
