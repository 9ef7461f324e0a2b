//! The identifiers of a set, one after another.

ghost use Rattle.std.specs.Prelude.{◌≡◌, length};
ghost use Rattle.std.specs.Iterator.{YieldsFirstBy, item_count};
ghost use Rattle.gx_index.specs.Sets.{IsMasked, masked_ids};

use gx_mask::Mask;
use gx_rows::Vid;
use std::marker::Model;

/// The identifiers of a set in ascending order. Contracts see the list of those that are left. It
/// takes no memory.
#[derive(Drop)]
pub struct IdsOfSet<'a> {
    mask: &'a Mask,
    ids: &'a [Vid],
    // Where the next identifier is looked for.
    slot: u32,
}

impl<'a> Model for IdsOfSet<'a> {
    ghost use Rattle.std.specs.Prelude.{List, drop};
    ghost use Rattle.gx_rows.specs.declared.vid.Vid.{Vid};
    ghost use Rattle.gx_index.specs.Sets.{IsMasked, masked_ids};

    ghost Value = { List Vid };

    ghost view = { λ r. masked_ids (drop r.slot r.mask.now) (drop r.slot r.ids.now) };

    ghost invariant = { λ r. IsMasked r.mask.now r.ids.now };
}

impl<'a> IdsOfSet<'a> {
    pub(crate) fn of(mask: &'a Mask, ids: &'a [Vid]) -> IdsOfSet<'a>
        requires { IsMasked mask.now ids.now }
        ensures { result ≡ masked_ids mask.now ids.now }
    {
        IdsOfSet { mask, ids, slot: 0 }
    }
}

impl<'a> Iterator for IdsOfSet<'a> {
    type Item = Vid;

    ghost next_gives = { YieldsFirstBy (λ item. item) (λ rest. rest) };

    ghost remaining = { item_count (λ rest. rest) };

    fn next(&mut self) -> Option<Vid> {
        let Some(slot) = self.mask.next_set(self.slot) else {
            return None;
        };
        self.slot = slot + 1;
        Some(self.ids[slot as usize])
    }
}
