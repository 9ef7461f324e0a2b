//! The check of one statement, and what is known after it.

ghost use Rattle.std.specs.Prelude.{◌≡◌, ◌++◌, All, IfOk};
ghost use Rattle.gx_types_stmts.specs.StmtBounds.{IsTypable};
ghost use Rattle.gx_types_clauses.specs.StmtStops.{StmtReturns};
ghost use Rattle.gx_types_stmts.specs.KnownNames.{IsEarlier};
ghost use Rattle.gx_types_stmts.specs.Makes.{operand_types};
ghost use Rattle.gx_types_stmts.specs.StmtNumbers.{named_numbers};
ghost use Rattle.gx_types_stmts.specs.StmtTyping.{typed_stmt, used_number};

use crate::body::type_body;
use crate::operand::Operand;
use crate::{CheckedStmt, Known, StmtStop};
use gx_rows::NoMemory;
use gx_syntax_tree::Stmt;
use gx_types_clauses::{check_lists, parts_of};
use sqlite_items::Items;
use std::alloc::Global;

/// Checks a statement over what the statements before it made.
///
/// # Errors
///
/// The first check that fails, in the order of docs/language.md; `NoMemory` if memory runs out.
pub fn type_stmt(alloc: Global, known: &Known, stmt: &Stmt) -> Result<CheckedStmt, StmtStop>
    requires { IsTypable stmt.now }
    ensures checked { StmtReturns result (typed_stmt known.now stmt.now) }
    ensures earlier { IfOk result (λ t. All (IsEarlier known.now.count) t.uses) }
    ensures named { IfOk result (λ t. t.uses ≡ named_numbers t.stmt) }
{
    let parts = parts_of(stmt);
    known.check_new(parts.name)?;
    let first = known.operand(&parts.first)?;
    let second = known.operand(&parts.second)?;
    check_lists(&parts, known.rounds())?;
    let uses = used_numbers(alloc, &first, &second)?;
    let body = type_body(alloc, stmt, &first, &second)?;
    Ok(CheckedStmt {
        stmt: body.stmt,
        made: body.made,
        uses,
    })
}

// The numbers of the statements that are used.
fn used_numbers(
    alloc: Global,
    first: &Operand<'_>,
    second: &Operand<'_>,
) -> Result<Items<u32>, NoMemory>
    ensures { IfOk result (λ uses. uses
        ≡ used_number (operand_types first.now) ++ used_number (operand_types second.now)) }
{
    let mut uses = Items::new(alloc);
    if first.number != 0 {
        uses.push(first.number)?;
    }
    if second.number != 0 {
        uses.push(second.number)?;
    }
    Ok(uses)
}
