//! Row types of columns that are declared: those of a file, and a lone column.

ghost use Rattle.std.specs.Prelude.{◌≡◌, IfOk, map};
ghost use Rattle.gx_types_clauses.specs.DeclaredColumns as decls;
ghost use Rattle.gx_types_clauses.specs.ClauseBounds.{IsColumnList};

use crate::SharedType;
use gx_rows::{NoMemory, Text, ValueKind};
use gx_syntax_tree::ColumnDecl;
use sqlite_items::Items;
use std::alloc::Global;

/// The row type of declared columns.
///
/// # Errors
///
/// `NoMemory` if memory runs out.
pub fn declared_type(alloc: Global, columns: &Items<ColumnDecl>) -> Result<SharedType, NoMemory>
    requires { IsColumnList (map (λ c. c.name) columns.now) }
    ensures { IfOk result (λ t. t ≡ decls.declared_columns columns.now) }
{
    SharedType::of(alloc, declared_columns(alloc, columns)?)
}

/// The row type of one column.
///
/// # Errors
///
/// `NoMemory` if memory runs out.
pub fn lone_type(alloc: Global, name: &str, kind: ValueKind) -> Result<SharedType, NoMemory>
    ensures { IfOk result (λ t. t ≡ decls.lone_column name.now kind) }
{
    let mut columns = Vec::new(alloc);
    columns.push((Text::of(alloc, name)?, kind))?;
    SharedType::of(alloc, columns)
}

// The columns that are declared.
fn declared_columns(
    alloc: Global,
    declared: &Items<ColumnDecl>,
) -> Result<Vec<(Text, ValueKind)>, NoMemory>
    ensures { IfOk result (λ columns. columns.items ≡ decls.declared_columns declared.now) }
{
    let mut columns = Vec::new(alloc);
    'columns: for column in declared.as_slice() {
        columns.push((column.name.copy()?, column.kind))?;
    }
    Ok(columns)
}
