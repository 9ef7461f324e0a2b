//! Row types: the names and kinds of columns.

ghost use Rattle.std.specs.Prelude.{◌≡◌, ◌<◌, ◌^◌, length, vec_len, slice_get, Some, option_map};
ghost use Rattle.gx_rows.specs.Columns.{HasDistinctNames, names_of, position_of};

use crate::{Text, ValueKind};
use std::marker::Model;

/// The columns of a table. Contracts see it as its list of names with kinds, which has fewer than
/// 2^32 entries and no name twice.
#[derive(Debug, Drop)]
pub struct RowType {
    columns: Vec<(Text, ValueKind)>,
}

impl Model for RowType {
    ghost use Rattle.std.specs.Prelude.{List, ℕ, ◌<◌, ◌^◌, vec_len};
    ghost use Rattle.gx_rows.specs.Columns.{Column, HasDistinctNames};

    ghost Value = { List Column };

    ghost view = { λ t. t.columns.items };

    ghost invariant = { λ t. (vec_len t.columns < 2 ^ 32) × HasDistinctNames t.columns.items };
}

impl RowType {
    /// The row type of these columns, in order. It takes no memory.
    pub fn of(columns: Vec<(Text, ValueKind)>) -> RowType
        requires few { vec_len columns < 2 ^ 32 }
        requires distinct { HasDistinctNames columns.items }
        ensures { result ≡ columns.items }
    {
        RowType { columns }
    }

    /// The number of columns.
    pub fn len(&self) -> u32
        ensures count { result ≡ length self.now }
        ensures few { length self.now < 2 ^ 32 }
        ensures distinct { HasDistinctNames self.now }
    {
        self.columns.len() as u32
    }

    /// The name of the column at position `i`, counted from 0.
    pub fn name(&self, i: u32) -> &str
        requires { i < length self.now }
        ensures { slice_get (names_of self.now) i ≡ Some result.now }
    {
        self.columns[i as usize].0.as_str()
    }

    /// The kind of the column at position `i`, counted from 0.
    pub fn kind(&self, i: u32) -> ValueKind
        requires { i < length self.now }
        ensures { option_map (λ c. c.1) (slice_get self.now i) ≡ Some result }
    {
        self.columns[i as usize].1
    }

    /// The position of the column of this name, counted from 0; `None` exactly if there is none.
    pub fn find(&self, name: &str) -> Option<u32>
        ensures { result ≡ position_of name.now (names_of self.now) }
    {
        for (i, column) in self.columns.iter().enumerate() {
            if column.0.as_str() == name {
                return Some(i as u32);
            }
        }
        None
    }
}
