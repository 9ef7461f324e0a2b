//! The rows of a partition, one after another.

ghost use Rattle.std.specs.Prelude.{◌≡◌, ◌∷◌, ◌<◌, ◌≤◌, ◌^◌, MatchOption, length};
ghost use Rattle.std.specs.Iterator.{YieldsFirstBy, item_count};
ghost use Rattle.gx_mask.specs.Operations.{next_true};
ghost use Rattle.gx_chunks.specs.Chunks.{IsPieceAt};
ghost use Rattle.gx_vpart.specs.Slots.{HasSlots, masked_rows};

use gx_chunks::Rows;
use gx_mask::Mask;
use gx_rows::{Row, Vid};
use std::marker::Model;

/// The vertices of a partition with their rows, borrowed, by ascending identifier. Contracts see the
/// list of those that are left. It takes no memory.
#[derive(Drop)]
pub struct VRows<'a> {
    mask: &'a Mask,
    ids: &'a [Vid],
    rows: &'a Rows,
    // Where the next row is looked for.
    slot: u32,
    // Rows from that slot on, up to the end of a chunk; or none.
    chunk: &'a [Row],
}

impl<'a> Model for VRows<'a> {
    ghost use Rattle.std.specs.Prelude.{List, drop};
    ghost use Rattle.gx_chunks.specs.Chunks.{IsPieceAt};
    ghost use Rattle.gx_vpart.specs.Operators.{VertexRow};
    ghost use Rattle.gx_vpart.specs.Slots.{HasSlots, masked_rows};

    ghost Value = { List VertexRow };

    ghost view = { λ r. masked_rows (drop r.slot r.mask.now) (drop r.slot r.ids.now) (drop r.slot r.rows.now) };

    ghost invariant = { λ r. HasSlots r.mask.now r.ids.now r.rows.now × IsPieceAt r.slot r.chunk.now r.rows.now };
}

impl<'a> VRows<'a> {
    /// The rows of the slots that the mask chooses, from the first slot on.
    pub fn of(mask: &'a Mask, ids: &'a [Vid], rows: &'a Rows) -> VRows<'a>
        requires { HasSlots mask.now ids.now rows.now }
        ensures { result ≡ masked_rows mask.now ids.now rows.now }
    {
        VRows {
            mask,
            ids,
            rows,
            slot: 0,
            chunk: &[],
        }
    }
}

impl<'a> Iterator for VRows<'a> {
    type Item = (Vid, &'a Row);

    ghost next_gives = { YieldsFirstBy (λ item. (item.0, item.1.now)) (λ rest. rest) };

    ghost remaining = { item_count (λ rest. rest) };

    fn next(&mut self) -> Option<(Vid, &'a Row)> {
        let Some(slot) = next_slot(self.mask, self.slot) else {
            return None;
        };
        let rows = self.rows;
        let Some((row, chunk)) = row_and_rest(rows, slot, self.chunk, self.slot) else {
            return None;
        };
        self.slot = slot + 1;
        self.chunk = chunk;
        Some((self.ids[slot as usize], row))
    }
}

// The first slot from `from` on that the mask has; in most partitions `from` itself.
fn next_slot(mask: &Mask, from: u32) -> Option<u32>
    ensures { result ≡ next_true from mask.now }
{
    if from < mask.len() && mask.test(from) {
        return Some(from);
    }
    mask.next_set(from)
}

// The row of a slot, and rows after it up to the end of its chunk. `chunk` is rows from the slot
// `from` on, so that a walk which leaves out no slot looks up no chunk but its first row.
fn row_and_rest<'a>(
    rows: &'a Rows,
    slot: u32,
    chunk: &'a [Row],
    from: u32,
) -> Option<(&'a Row, &'a [Row])>
    requires { IsPieceAt from chunk.now rows.now }
    ensures { MatchOption result (length rows.now ≤ slot)
        (λ r. IsPieceAt slot (r.0.now ∷ r.1.now) rows.now) }
{
    if from == slot {
        if let Some(found) = chunk.split_first() {
            return Some(found);
        }
    }
    rows.chunk_from(slot).split_first()
}
