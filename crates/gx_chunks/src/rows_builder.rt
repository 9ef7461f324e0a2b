//! Rows that are collected one after another.

ghost use Rattle.std.specs.Prelude.{◌≡◌, ◌∷◌, ◌++◌, IfOk, OnOk, []};

use crate::rows::Rows;
use gx_rows::{NoMemory, Row};
use std::alloc::Global;
use std::marker::Model;
use std::mem;
use std::rc::Rc;

/// Rows by slot that are not complete yet. Contracts see the list of those so far.
#[derive(Drop)]
pub struct RowsBuilder {
    full: Vec<Rc<Vec<Row>>>,
    // At most 32 rows.
    last: Vec<Row>,
    alloc: Global,
}

impl Model for RowsBuilder {
    ghost use Rattle.std.specs.Prelude.{List, ◌++◌};
    ghost use Rattle.gx_rows.specs.declared.value.Value.{Value as Cell};
    ghost use Rattle.gx_chunks.specs.Chunks.{HasFullChunks, items_of_chunks, shared_chunks};

    ghost Value = { List (List Cell) };

    ghost view = { λ b. items_of_chunks (shared_chunks b.full.items) ++ b.last.items };

    ghost invariant = { λ b. HasFullChunks 32 (shared_chunks b.full.items) b.last.items };
}

impl RowsBuilder {
    /// No row yet, with room for the list of the chunks of `rows` rows.
    pub fn with_capacity(alloc: Global, rows: usize) -> Result<RowsBuilder, NoMemory>
        ensures { IfOk result (λ builder. builder ≡ []) }
    {
        let full = Vec::with_capacity(alloc, rows / 32 + 1)?;
        let last = Vec::with_capacity(alloc, rows.min(32))?;
        Ok(RowsBuilder { full, last, alloc })
    }

    /// One more row, after the others. If memory runs out, rows may be lost.
    pub fn push(&mut self, row: Row) -> Result<(), NoMemory>
        ensures { OnOk result (self.new ≡ self.old ++ row ∷ []) }
    {
        if self.last.len() < 32 {
            self.last.push(row)?;
            return Ok(());
        }
        let empty = Vec::with_capacity(self.alloc, 32)?;
        let chunk = mem::replace(&mut self.last, empty);
        self.full.push(Rc::new(self.alloc, chunk)?)?;
        self.last.push(row)?;
        Ok(())
    }

    /// The rows so far.
    pub fn finish(self) -> Result<Rows, NoMemory>
        ensures { IfOk result (λ rows. rows ≡ self) }
    {
        let RowsBuilder {
            mut full,
            last,
            alloc,
        } = self;
        full.push(Rc::new(alloc, last)?)?;
        Ok(Rows::of_chunks(full))
    }
}
