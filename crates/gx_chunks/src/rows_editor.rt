//! Rows of which some are replaced, at ascending slots.
//!
//! The old chunks are walked once. A chunk is copied from its start up to each slot that is given a
//! row, and then to its end; a chunk that keeps all its rows is shared. So what is done and the
//! first rows of the next chunk are all that is kept (`specs/Editing.antt`), and no row is written
//! twice. After an error the chunks that are done are still as long as the old ones.

ghost use Rattle.std.specs.Prelude.{
  ◌≡◌,
  ◌+◌,
  ◌*◌,
  ◌++◌,
  ◌<◌,
  ◌≤◌,
  IfOk,
  OnOk,
  [],
  drop,
  length,
  set,
};
ghost use Rattle.gx_chunks.specs.Chunks.{HasChunksOf, items_of_chunks, shared_chunks};
ghost use Rattle.gx_chunks.specs.Editing.{IsEdit, edited_items};

use crate::rows::Rows;
use gx_rows::{NoMemory, Row};
use std::alloc::Global;
use std::marker::Model;
use std::mem;
use std::rc::Rc;

/// Rows of which some are replaced, one after another. Contracts see the list with the rows that
/// are replaced so far, and the first slot that may be given a row yet.
#[derive(Drop)]
pub struct RowsEditor<'a> {
    chunks: &'a [Rc<Vec<Row>>],
    // As long as the old chunks in their places.
    done: Vec<Rc<Vec<Row>>>,
    // Rows of the next chunk, from its start on.
    first: Vec<Row>,
    alloc: Global,
}

impl<'a> Model for RowsEditor<'a> {
    ghost use Rattle.std.specs.Prelude.{◌+◌, ◌*◌, length};
    ghost use Rattle.gx_chunks.specs.Chunks.{shared_chunks};
    ghost use Rattle.gx_chunks.specs.Editing.{Edited, IsEdit, edited_items};

    ghost Value = { Edited };

    ghost view = { λ e. record {
      rows = edited_items (shared_chunks e.done.items) e.first.items (shared_chunks e.chunks.now);
      next = 32 * length e.done.items + length e.first.items;
    } };

    ghost invariant = { λ e.
        IsEdit 32 (shared_chunks e.done.items) e.first.items (shared_chunks e.chunks.now) };
}

impl<'a> RowsEditor<'a> {
    /// The rows of these chunks, of which each but the last has 32, before any is replaced.
    pub(crate) fn of_chunks(
        alloc: Global,
        chunks: &'a [Rc<Vec<Row>>],
    ) -> Result<RowsEditor<'a>, NoMemory>
        requires { HasChunksOf 32 (shared_chunks chunks.now) }
        ensures { IfOk result (λ e. e ≡ record {
          rows = items_of_chunks (shared_chunks chunks.now);
          next = 0;
        }) }
    {
        let done = Vec::with_capacity(alloc, chunks.len())?;
        Ok(RowsEditor {
            chunks,
            done,
            first: Vec::new(alloc),
            alloc,
        })
    }

    /// Gives a slot another row. If memory runs out, rows may be lost.
    ///
    /// # Errors
    ///
    /// `NoMemory` if memory for the rows of its chunk runs out, or if no further copy of a chunk
    /// before it can be counted.
    pub fn put(&mut self, slot: u32, row: Row) -> Result<(), NoMemory>
        requires ascending { self.old.next ≤ slot }
        requires in_range { slot < length self.old.rows }
        ensures rows { OnOk result (self.new.rows ≡ set self.old.rows slot row) }
        ensures next { OnOk result (self.new.next ≡ slot + 1) }
    {
        let i = (slot / 32) as usize;
        pass_chunks(self.alloc, self.chunks, &mut self.done, &mut self.first, i)?;
        let chunk = self.chunks[i].as_slice();
        put_in_chunk(&mut self.first, chunk, (slot % 32) as usize, row)
    }

    /// The rows, with those that were replaced.
    ///
    /// # Errors
    ///
    /// `NoMemory` as for `put`.
    pub fn finish(self) -> Result<Rows, NoMemory>
        ensures { IfOk result (λ rows. rows ≡ self.entry.rows) }
    {
        let RowsEditor {
            chunks,
            mut done,
            mut first,
            alloc,
        } = self;
        pass_chunks(alloc, chunks, &mut done, &mut first, chunks.len())?;
        Ok(Rows::of_chunks(done))
    }
}

// Ends the next chunk and those after it up to chunk `end`, with their old rows.
fn pass_chunks(
    alloc: Global,
    chunks: &[Rc<Vec<Row>>],
    done: &mut Vec<Rc<Vec<Row>>>,
    first: &mut Vec<Row>,
    end: usize,
) -> Result<(), NoMemory>
    requires before { IsEdit 32 (shared_chunks done.old.items) first.old.items (shared_chunks chunks.now) }
    requires from { length done.old.items ≤ end }
    requires within { end ≤ length chunks.now }
    ensures edit { IsEdit 32 (shared_chunks done.new.items) first.new.items (shared_chunks chunks.now) }
    ensures same { OnOk result (
        edited_items (shared_chunks done.new.items) first.new.items (shared_chunks chunks.now)
        ≡ edited_items (shared_chunks done.old.items) first.old.items (shared_chunks chunks.now)) }
    ensures passed { OnOk result (length done.new.items ≡ end) }
    ensures fewer { OnOk result (length first.new.items ≤ length first.old.items) }
    ensures none { length done.old.items < end → OnOk result (first.new.items ≡ []) }
{
    'chunks: while done.len() < end {
        let chunk = rest_of_chunk(alloc, first, &chunks[done.len()])?;
        done.push(chunk)?;
    }
    Ok(())
}

// The chunk with these rows in place of its first ones.
fn rest_of_chunk(
    alloc: Global,
    first: &mut Vec<Row>,
    chunk: &Rc<Vec<Row>>,
) -> Result<Rc<Vec<Row>>, NoMemory>
    requires { length first.old.items ≤ length chunk.now.value.items }
    ensures rows { IfOk result (λ c. c.value.items
        ≡ first.old.items ++ drop (length first.old.items) chunk.now.value.items) }
    ensures none { OnOk result (first.new.items ≡ []) }
    ensures not_over { length first.new.items ≤ length chunk.now.value.items }
{
    if first.is_empty() {
        return Ok(chunk.clone()?);
    }
    let rest = &chunk.as_slice()[first.len()..];
    append_copies(first, rest)?;
    let rows = mem::replace(first, Vec::new(alloc));
    Ok(Rc::new(alloc, rows)?)
}

// The rows of the chunk up to a slot of it, and then this one.
fn put_in_chunk(first: &mut Vec<Row>, chunk: &[Row], slot: usize, row: Row) -> Result<(), NoMemory>
    requires from { length first.old.items ≤ slot }
    requires within { slot < length chunk.now }
    ensures rows { OnOk result (first.new.items ++ drop (length first.new.items) chunk.now
        ≡ set (first.old.items ++ drop (length first.old.items) chunk.now) slot row) }
    ensures next { OnOk result (length first.new.items ≡ slot + 1) }
    ensures not_over { length first.new.items ≤ slot + 1 }
{
    make_room(first)?;
    append_copies(first, &chunk[first.len()..slot])?;
    first.push(row)?;
    Ok(())
}

// Room for the rows of a chunk.
fn make_room(first: &mut Vec<Row>) -> Result<(), NoMemory>
    ensures { first.new.items ≡ first.old.items }
{
    if first.is_empty() {
        first.reserve(32)?;
    }
    Ok(())
}

// Copies of these rows, after the others.
fn append_copies(rows: &mut Vec<Row>, more: &[Row]) -> Result<(), NoMemory>
    ensures exact { OnOk result (rows.new.items ≡ rows.old.items ++ more.now) }
    ensures not_over { length rows.new.items ≤ length rows.old.items + length more.now }
{
    for row in more {
        rows.push(row.copy()?)?;
    }
    Ok(())
}
