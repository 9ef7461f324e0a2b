//! Statements that are not run yet. To have one run, delete it from the list here and from
//! `is_built` of specs/Built.antt, and turn its line in `is_run` there.

ghost use Rattle.std.specs.Prelude.{◌≡◌, ◌≤◌, length};
ghost use Rattle.gx_types.specs.Built as built;
ghost use Rattle.gx_types.specs.TypeStops.{TypeReturns};

use crate::TypeStop;
use gx_syntax_tree::Stmt;
use gx_types_stmts::TypeKind;
use sqlite_items::Items;

/// Checks that each statement can be run.
///
/// # Errors
///
/// `NotBuilt` at the first that cannot.
pub(crate) fn check_built(statements: &Items<Stmt>) -> Result<(), TypeStop>
    requires { length statements.now ≤ 1000 }
    ensures { TypeReturns result (built.built_statements 1 statements.now) }
{
    let mut number = 1;
    'statements: for stmt in statements.as_slice() {
        if !is_built(stmt) {
            return Err(TypeStop::At {
                statement: number,
                expr: None,
                kind: TypeKind::NotBuilt,
            });
        }
        number += 1;
    }
    Ok(())
}

// Whether a statement can be run.
fn is_built(stmt: &Stmt) -> bool
    ensures { result ≡ built.is_built stmt.now }
{
    match stmt {
        Stmt::Reverse { .. } | Stmt::Mask { .. } | Stmt::Subgraph { .. } => false,
        Stmt::GroupEdges { .. } => false,
        Stmt::MapEdges { .. } | Stmt::MapTriplets { .. } => false,
        Stmt::JoinVertices { .. } | Stmt::OuterJoin { .. } => false,
        Stmt::Aggregate { .. } | Stmt::InDegrees { .. } | Stmt::OutDegrees { .. } => false,
        Stmt::Degrees { .. } | Stmt::Neighbours { .. } | Stmt::Pregel { .. } => false,
        Stmt::PrintTriplets { .. } => false,
        _ => true,
    }
}
