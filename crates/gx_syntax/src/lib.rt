//! The script language: texts to scripts, and scripts to their canonical texts.
//!
//! `parse` returns the script that a text spells, or where and why the text is refused;
//! `specs/Texts.antt` says what a text means, and `specs/Meanings.antt` computes it. `show` returns
//! a script's canonical text, which `parse` takes back to that script. The crate depends on the
//! lexer, the parser of statements and the printer, and names their public types again, so that the
//! crates above need no other crate of the language. It never sees a byte of a token, nor a
//! production of the grammar.
#![tactic(auto)]

mod laws;
mod parser;
mod round_trip;
mod syntax_stop;

pub use gx_syntax_show::show;
pub use gx_syntax_tokens::{SyntaxKind, Token, TokenKind, Tokens};
pub use gx_syntax_tree::{
    ActiveWord, BinaryOp, ColumnConst, ColumnDecl, ColumnExpr, ColumnMerge, Const, CutWord, Expr,
    MergeWord, NeighbourWord, Script, SendClause, SideWord, Stmt, UnaryOp,
};
pub use laws::{parsed_scripts_are_bounded, texts_have_one_meaning};
pub use parser::parse;
pub use round_trip::show_round_trips;
pub use syntax_stop::SyntaxStop;
