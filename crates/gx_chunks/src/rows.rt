//! Rows by slot, in chunks of 32 that are shared.

ghost use Rattle.std.specs.Prelude.{
  ◌≡◌,
  ◌<◌,
  IfOk,
  drop,
  length,
  slice_get,
};
ghost use Rattle.std.specs.Option.{option_copied};
ghost use Rattle.std.specs.Map.{keys_of};
ghost use Rattle.gx_chunks.specs.Chunks.{HasChunksOf, IsPieceAt, items_of_chunks, shared_chunks};
ghost use Rattle.gx_chunks.specs.Editing.{AreSlotsWithin, with_items};

use crate::rows_editor::RowsEditor;
use gx_rows::{NoMemory, Row};
use std::alloc::Global;
use std::marker::Model;
use std::rc::Rc;

/// Rows by slot. Contracts see their list.
#[derive(Drop)]
pub struct Rows {
    chunks: Vec<Rc<Vec<Row>>>,
}

impl Model for Rows {
    ghost use Rattle.std.specs.Prelude.{List};
    ghost use Rattle.gx_rows.specs.declared.value.Value.{Value as Cell};
    ghost use Rattle.gx_chunks.specs.Chunks.{HasChunksOf, items_of_chunks, shared_chunks};

    ghost Value = { List (List Cell) };

    ghost view = { λ r. items_of_chunks (shared_chunks r.chunks.items) };

    ghost invariant = { λ r. HasChunksOf 32 (shared_chunks r.chunks.items) };
}

impl Rows {
    /// The rows of these chunks, of which each but the last has 32.
    pub fn of_chunks(chunks: Vec<Rc<Vec<Row>>>) -> Rows
        requires { HasChunksOf 32 (shared_chunks chunks.items) }
        ensures { result ≡ items_of_chunks (shared_chunks chunks.items) }
    {
        Rows { chunks }
    }

    /// The row of a slot; `None` exactly if there is no such slot.
    pub fn get(&self, slot: u32) -> Option<&Row>
        ensures { option_copied result ≡ slice_get self.now slot }
    {
        match item(self.chunks.as_slice(), slot / 32) {
            Some(chunk) => item(chunk.as_slice(), slot % 32),
            None => None,
        }
    }

    /// The same rows, of which some can be replaced at ascending slots, one after another.
    ///
    /// # Errors
    ///
    /// `NoMemory` if memory for the list of the chunks runs out.
    pub fn editor(&self, alloc: Global) -> Result<RowsEditor<'_>, NoMemory>
        ensures { IfOk result (λ e. e ≡ record { rows = self.now; next = 0 }) }
    {
        RowsEditor::of_chunks(alloc, self.chunks.as_slice())
    }

    /// The rows with each of these at its slot, in place of its own. Chunks without a new row are
    /// shared.
    ///
    /// # Errors
    ///
    /// `NoMemory` if memory for the rows of a chunk runs out, or if no further copy of a chunk can
    /// be counted.
    pub fn replaced(&self, alloc: Global, rows: Vec<(u32, Row)>) -> Result<Rows, NoMemory>
        requires { AreSlotsWithin 0 (length self.now) (keys_of rows.items) }
        ensures { IfOk result (λ new. new ≡ with_items self.now rows.items) }
    {
        let mut editor = self.editor(alloc)?;
        'rows: for (slot, row) in rows {
            editor.put(slot, row)?;
        }
        editor.finish()
    }

    /// The rows from a slot on up to the end of its chunk; none exactly if there is no such slot.
    pub fn chunk_from(&self, slot: u32) -> &[Row]
        ensures piece { IsPieceAt slot result.now self.now }
        ensures nonempty { slot < length self.now → 0 < length result.now }
    {
        match item(self.chunks.as_slice(), slot / 32) {
            Some(chunk) => rest_from(chunk.as_slice(), slot % 32),
            None => &[],
        }
    }
}

fn rest_from<T>(items: &[T], i: u32) -> &[T]
    ensures { result.now ≡ drop i items.now }
{
    let i = i as usize;
    if i <= items.len() { &items[i..] } else { &[] }
}

fn item<T>(items: &[T], i: u32) -> Option<&T>
    ensures { option_copied result ≡ slice_get items.now i }
{
    items.get(i as usize)
}
