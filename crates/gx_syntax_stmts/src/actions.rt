//! Statements that write output: `print`, `count`.

ghost use Rattle.std.specs.Prelude.{◌≡◌};
ghost use Rattle.gx_syntax_exprs.specs.Parses.{Parses};
ghost use Rattle.gx_syntax_tree.specs.declared.keyword.StmtKeyword.TheVariants as keywords;
ghost use Rattle.gx_syntax_tree.specs.Forms as tree;
ghost use Rattle.gx_syntax_stmts.specs.Forms.{body};

use crate::keywords::keyword_value;
use gx_rows::Text;
use gx_syntax_exprs::{Cursor, ParseStop};
use gx_syntax_tree::{CountTarget, PrintTarget, Stmt};
use std::alloc::Global;

fn print_of(target: PrintTarget, name: Text) -> Stmt
    ensures { result ≡ tree.print_of target name }
{
    match target {
        PrintTarget::Vertices => Stmt::PrintVertices { graph: name },
        PrintTarget::Edges => Stmt::PrintEdges { graph: name },
        PrintTarget::Triplets => Stmt::PrintTriplets { graph: name },
        PrintTarget::Table => Stmt::PrintTable { table: name },
    }
}

/// Parses `print` after its keyword.
#[tactic(auto, unfolding(crate::specs::Forms::body))]
pub(crate) fn print(cursor: &mut Cursor<'_>, alloc: Global) -> Result<Stmt, ParseStop>
    ensures { Parses result cursor.new (body keywords.Print cursor.old) }
{
    let target = keyword_value(cursor)?;
    let name = cursor.name(alloc)?;
    Ok(print_of(target, name))
}

fn count_of(target: CountTarget, name: Text) -> Stmt
    ensures { result ≡ tree.count_of target name }
{
    match target {
        CountTarget::Vertices => Stmt::CountVertices { graph: name },
        CountTarget::Edges => Stmt::CountEdges { graph: name },
        CountTarget::Table => Stmt::CountTable { table: name },
    }
}

/// Parses `count` after its keyword.
#[tactic(auto, unfolding(crate::specs::Forms::body))]
pub(crate) fn count(cursor: &mut Cursor<'_>, alloc: Global) -> Result<Stmt, ParseStop>
    ensures { Parses result cursor.new (body keywords.Count cursor.old) }
{
    let target = keyword_value(cursor)?;
    let name = cursor.name(alloc)?;
    Ok(count_of(target, name))
}
