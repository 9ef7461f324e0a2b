//! Lists of columns: declared, computed, constant or merged.

ghost use Rattle.std.specs.Prelude.{◌≡◌, ◌<◌, Some, length, slice_get};
ghost use Rattle.gx_types_clauses.specs.NamedParts.{list_names};

use gx_syntax_tree::{ColumnConst, ColumnDecl, ColumnExpr, ColumnMerge};
use sqlite_items::Items;

/// A list of columns of a statement.
#[derive(Clone, Copy)]
pub enum ColumnList<'a> {
    /// No list.
    None,
    /// The columns of a file.
    Declared(&'a Items<ColumnDecl>),
    /// Columns with an expression each.
    Computed(&'a Items<ColumnExpr>),
    /// Columns with a constant each.
    Constant(&'a Items<ColumnConst>),
    /// Columns with a merge each.
    Merged(&'a Items<ColumnMerge>),
}

impl<'a> ColumnList<'a> {
    /// The number of columns.
    pub(crate) fn len(&self) -> usize
        ensures { result ≡ length (list_names self.now) }
    {
        match self {
            ColumnList::None => 0,
            ColumnList::Declared(columns) => columns.len(),
            ColumnList::Computed(columns) => columns.len(),
            ColumnList::Constant(columns) => columns.len(),
            ColumnList::Merged(columns) => columns.len(),
        }
    }

    /// The name of the column at position `i`.
    pub(crate) fn name(&self, i: usize) -> &'a str
        requires { i < length (list_names self.now) }
        ensures { slice_get (list_names self.now) i ≡ Some result.now }
    {
        match self {
            ColumnList::None => "",
            ColumnList::Declared(columns) => columns.as_slice()[i].name.as_str(),
            ColumnList::Computed(columns) => columns.as_slice()[i].name.as_str(),
            ColumnList::Constant(columns) => columns.as_slice()[i].name.as_str(),
            ColumnList::Merged(columns) => columns.as_slice()[i].name.as_str(),
        }
    }
}
