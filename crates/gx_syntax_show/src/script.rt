//! Writes scripts, each statement on a line of its own.

ghost use Rattle.std.specs.Prelude.{◌≡◌, IfOk, OnOk};
ghost use Rattle.gx_syntax_tokens.specs.Writing.{with_line_end, with_pieces};
ghost use Rattle.gx_syntax_show.specs.ScriptLines.{line_of_stmt, text_of_script};

use crate::statement::put_statement;
use gx_rows::{NoMemory, Text};
use gx_syntax_tokens::{Symbol, Writer, written_tokens_are_spaced};
use gx_syntax_tree::{Script, Stmt};
use std::alloc::Global;

// Writes the line of a statement.
#[tactic(auto, using(crate::proofs::PiecesLemmas::pieces_append))]
fn put_line(out: &mut Writer, statement: &Stmt) -> Result<(), NoMemory>
    ensures { OnOk result (out.new ≡ with_line_end (with_pieces out.old (line_of_stmt statement.now))) }
{
    put_statement(out, statement)?;
    out.symbol(Symbol::Semicolon)?;
    out.end_line()
}

/// The canonical text of a script: each statement on a line of its own.
///
/// # Errors
///
/// `NoMemory` if memory for the text runs out.
pub fn show(alloc: Global, script: &Script) -> Result<Text, NoMemory>
    ensures text { IfOk result (λ text. text ≡ text_of_script script.now.statements) }
{
    written_tokens_are_spaced();
    let mut out = Writer::new(alloc);
    'statements: for statement in script.statements.as_slice() {
        put_line(&mut out, statement)?;
    }
    out.into_text()
}
