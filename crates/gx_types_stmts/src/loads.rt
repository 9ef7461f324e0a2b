//! Statements that load files: `vertices`, `edges`, `edgelist`.

ghost use Rattle.std.specs.Prelude.{Ok, map};
ghost use Rattle.gx_types_clauses.specs.ClauseBounds.{IsColumnList};
ghost use Rattle.gx_types_clauses.specs.StmtStops.{StmtReturns};
ghost use Rattle.gx_types_stmts.specs.StmtRules as rules;

use crate::typed_body::TypedBody;
use crate::{StmtStop, TypedStmt};
use gx_rows::{Text, ValueKind};
use gx_syntax_tree::ColumnDecl;
use gx_types_clauses::{declared_type, lone_type};
use sqlite_items::Items;
use std::alloc::Global;

/// `vertices`
///
/// # Errors
///
/// `NoMemory` if memory runs out.
pub(crate) fn type_vertices(
    alloc: Global,
    file: &Text,
    columns: &Items<ColumnDecl>,
) -> Result<TypedBody, StmtStop>
    requires { IsColumnList (map (λ c. c.name) columns.now) }
    ensures { StmtReturns result (Ok (rules.loaded_vertices file.now columns.now)) }
{
    let rows = declared_type(alloc, columns)?;
    let file = file.copy()?;
    let stmt = TypedStmt::Vertices { file };
    Ok(TypedBody::table(stmt, rows))
}

/// `edges`
///
/// # Errors
///
/// `NoMemory` if memory runs out.
pub(crate) fn type_edges(
    alloc: Global,
    file: &Text,
    columns: &Items<ColumnDecl>,
) -> Result<TypedBody, StmtStop>
    requires { IsColumnList (map (λ c. c.name) columns.now) }
    ensures { StmtReturns result (Ok (rules.loaded_edges file.now columns.now)) }
{
    let edges = declared_type(alloc, columns)?;
    let file = file.copy()?;
    let stmt = TypedStmt::Edges { file };
    Ok(TypedBody::edges(stmt, edges))
}

/// `edgelist`
///
/// # Errors
///
/// `NoMemory` if memory runs out.
pub(crate) fn type_edge_list(
    alloc: Global,
    file: &Text,
    oriented: bool,
) -> Result<TypedBody, StmtStop>
    ensures { StmtReturns result (Ok (rules.loaded_edge_list file.now oriented)) }
{
    let edges = lone_type(alloc, "value", ValueKind::Int)?;
    let file = file.copy()?;
    let stmt = TypedStmt::EdgeList { file, oriented };
    Ok(TypedBody::edges(stmt, edges))
}
