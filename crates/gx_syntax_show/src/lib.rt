//! The canonical text of a script, as it is printed: `parse(show(s)) == s` for every script `s`
//! that some text spells, and no text that spells `s` has fewer tokens.
//!
//! specs/ gives the pieces of each tree, which are its tokens and how they are spaced:
//! `expr_pieces`, `stmt_pieces`, `lines_of_script`. `show` writes them with `Writer` of
//! `gx_syntax_tokens`, and the two laws compare them with any tokens that spell the same tree by
//! the grammars of `gx_syntax_exprs` and `gx_syntax_stmts`. Nothing here reads a text;
//! `gx_syntax` proves the way back.
//!
//! A statement's form is defined once, in `gx_syntax_tree`. So a new statement needs its keyword's
//! word in specs/Words.antt, an arm in `put_statement`, and the arm's line in the answers beside it.
#![tactic(auto)]

mod actions;
mod clauses;
mod expression;
mod graphs;
mod items;
mod joins;
mod laws;
mod loads;
mod maps;
mod messages;
mod script;
mod statement;
mod tables;
mod words;

pub use laws::{shown_expressions_are_canonical, shown_scripts_are_canonical};
pub use script::show;
