//! The check of a script.

ghost use Rattle.std.specs.Prelude.{◌≡◌, ◌<◌, ◌≤◌, [], ◌∷◌, ◌++◌, All, IfErr, IfOk, OnOk, length};
ghost use Rattle.gx_types.specs.Needs.{NamesAreUsed};
ghost use Rattle.gx_types.specs.ScriptTyping as typing;
ghost use Rattle.gx_types.specs.TypeStops.{TypeReturns};
ghost use Rattle.gx_types.specs.declared.type_stop.TypeStop.TheVariants as stop;
ghost use Rattle.gx_types_stmts.specs.KnownNames.{IsEarlier};
ghost use Rattle.gx_types_stmts.specs.StmtBounds.{IsTypable};
ghost use Rattle.gx_types_stmts.specs.StmtTyping.{context_with, typed_stmt};

use crate::built::check_built;
use crate::{TypeStop, Typed};
use gx_rows::LimitKind;
use gx_syntax_tree::{Script, Stmt};
use gx_types_stmts::{CheckedStmt, Known, type_stmt};
use sqlite_items::Items;
use std::alloc::Global;

/// Checks a script. It is well typed if it has at most 1,000 statements, and each statement passes
/// all checks over those before it.
///
/// # Errors
///
/// The first check that fails, in the order of docs/language.md; after all checks `NotBuilt` at the
/// first statement that cannot be run yet; `NoMemory` if memory runs out.
pub fn check(alloc: Global, script: &Script) -> Result<Typed, TypeStop>
    requires { All IsTypable script.now.statements }
    ensures { TypeReturns result (typing.typing_of script.now.statements) }
{
    let statements = &script.statements;
    if statements.len() as u64 > LimitKind::Statements.most() {
        return Err(TypeStop::Limit(LimitKind::Statements));
    }
    type_statements(alloc, statements)
}

// Checks statements in order, and then whether all are run.
fn type_statements(alloc: Global, statements: &Items<Stmt>) -> Result<Typed, TypeStop>
    requires few { length statements.now ≤ 1000 }
    requires typable { All IsTypable statements.now }
    ensures { TypeReturns result (typing.checked_statements statements.now) }
{
    let mut known = Known::new(alloc)?;
    let mut typed = Vec::new(alloc);
    'statements: for stmt in statements.as_slice() {
        let next = type_next(alloc, &mut known, stmt)?;
        append(&mut typed, next)?;
    }
    check_built(statements)?;
    Ok(Typed::of(typed))
}

// Adds a statement to those that are checked.
fn append(typed: &mut Vec<CheckedStmt>, next: CheckedStmt) -> Result<(), TypeStop>
    ensures appended { OnOk result (typed.new.items ≡ typed.old.items ++ next ∷ []) }
    ensures only_memory { IfErr result (λ e. e ≡ stop.NoMemory) }
{
    match typed.push(next) {
        Ok(()) => Ok(()),
        Err(_) => Err(TypeStop::NoMemory),
    }
}

// Checks the next statement, and adds it to what is known.
fn type_next(alloc: Global, known: &mut Known, stmt: &Stmt) -> Result<CheckedStmt, TypeStop>
    requires few { known.old.count < 1000 }
    requires typable { IsTypable stmt.now }
    ensures typed { TypeReturns result (typing.numbered_stmt known.old stmt.now) }
    ensures earlier { IfOk result (λ t. All (IsEarlier known.old.count) t.uses) }
    ensures named { IfOk result NamesAreUsed }
    ensures added { IfOk result (λ t. known.new ≡ context_with known.old stmt.now t.made) }
{
    match type_stmt(alloc, known, stmt) {
        Ok(typed) => {
            known.add(alloc, stmt, &typed)?;
            Ok(typed)
        }
        Err(stop) => Err(TypeStop::at(known.len() + 1, stop)),
    }
}
