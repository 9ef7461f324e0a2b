//! Row types that statements share.

ghost use Rattle.std.specs.Prelude.{◌≡◌, ◌<◌, ◌^◌, IfOk, vec_len};
ghost use Rattle.gx_rows.specs.Columns.{HasDistinctNames};

use gx_rows::{NoMemory, RowType, Text, ValueKind};
use std::alloc::Global;
use std::marker::Model;
use std::rc::Rc;

/// A row type that several statements share. Contracts see it as its list of columns.
#[derive(Drop)]
pub struct SharedType {
    row_type: Rc<RowType>,
}

impl Model for SharedType {
    ghost use Rattle.std.specs.Prelude.{List};
    ghost use Rattle.gx_rows.specs.Columns.{Column};

    ghost Value = { List Column };

    ghost view = { λ t. t.row_type.value };
}

impl SharedType {
    /// The row type of these columns, in order.
    ///
    /// # Errors
    ///
    /// `NoMemory` if memory for the count of copies runs out.
    pub fn of(alloc: Global, columns: Vec<(Text, ValueKind)>) -> Result<SharedType, NoMemory>
        requires few { vec_len columns < 2 ^ 32 }
        requires distinct { HasDistinctNames columns.items }
        ensures { IfOk result (λ t. t ≡ columns.items) }
    {
        let row_type = Rc::new(alloc, RowType::of(columns))?;
        Ok(SharedType { row_type })
    }

    /// The same row type. It takes no memory.
    ///
    /// # Errors
    ///
    /// `NoMemory` if no further copy can be counted.
    pub fn copy(&self) -> Result<SharedType, NoMemory>
        ensures { IfOk result (λ t. t ≡ self.now) }
    {
        Ok(SharedType {
            row_type: self.row_type.clone()?,
        })
    }

    /// The row type, borrowed.
    pub fn get(&self) -> &RowType
        ensures { result.now ≡ self.now }
    {
        &self.row_type
    }
}
