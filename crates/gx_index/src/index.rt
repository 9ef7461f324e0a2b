//! From identifiers to slots.
//!
//! Most callers give ascending identifiers, and then these are searched by halving. Otherwise a
//! second list has each identifier with its slot, in ascending order of the identifiers.

ghost use Rattle.std.specs.Prelude.{◌≡◌, ◌<◌, ◌^◌, IfOk, IsPermutation, IsSortedByKey, Some, length, slice_get, vec_len};
ghost use Rattle.gx_index.specs.Ids.{HasDistinctIds, id_cmp, slot_of};
ghost use Rattle.gx_index.specs.Slots.{slots_of};

use crate::search::find_under;
use gx_rows::{NoMemory, Vid};
use std::alloc::Global;
use std::marker::Model;

/// Distinct identifiers, fewer than 2^32, each with a slot. Contracts see the list of identifiers
/// by slot.
#[derive(Debug, Drop)]
pub struct Index {
    ids: Vec<Vid>,
    // `None` if `ids` ascends.
    slots: Option<Vec<(Vid, u32)>>,
}

impl Model for Index {
    ghost use Rattle.std.specs.Prelude.{List};
    ghost use Rattle.gx_rows.specs.declared.vid.Vid.{Vid};
    ghost use Rattle.gx_index.specs.Slots.{IsIndex};

    ghost Value = { List Vid };

    ghost view = { λ i. i.ids.items };

    ghost invariant = { λ i. IsIndex i.ids.items i.slots };
}

impl Index {
    /// The index of these identifiers; slot `i` is that of `ids[i]`.
    ///
    /// # Errors
    ///
    /// `NoMemory` if memory for the index runs out.
    pub fn of(alloc: Global, ids: &[Vid]) -> Result<Index, NoMemory>
        requires few { length ids.now < 2 ^ 32 }
        requires distinct { HasDistinctIds ids.now }
        ensures { IfOk result (λ index. index ≡ ids.now) }
    {
        Index::from_vec(alloc, Vec::from_slice(alloc, ids)?)
    }

    /// The same for a vector of identifiers, which it takes over without a copy.
    ///
    /// # Errors
    ///
    /// `NoMemory` if memory for the index runs out. It takes none if `ids` ascends.
    pub fn from_vec(alloc: Global, ids: Vec<Vid>) -> Result<Index, NoMemory>
        requires few { vec_len ids < 2 ^ 32 }
        requires distinct { HasDistinctIds ids.items }
        ensures { IfOk result (λ index. index ≡ ids.items) }
    {
        if ids.as_slice().is_sorted() {
            return Ok(Index { ids, slots: None });
        }
        let slots = Some(sorted_slots(alloc, ids.as_slice())?);
        Ok(Index { ids, slots })
    }

    /// The number of slots.
    pub fn len(&self) -> u32
        ensures count { result ≡ length self.now }
        ensures fits_u32 { length self.now < 2 ^ 32 }
        ensures distinct { HasDistinctIds self.now }
    {
        self.ids.len() as u32
    }

    /// The identifiers by slot, borrowed.
    pub fn ids(&self) -> &[Vid]
        ensures exact { result.now ≡ self.now }
        ensures fits_u32 { length self.now < 2 ^ 32 }
        ensures distinct { HasDistinctIds self.now }
    {
        self.ids.as_slice()
    }

    /// The identifier of a slot.
    pub fn id_at(&self, slot: u32) -> Vid
        requires { slot < length self.now }
        ensures { slice_get self.now slot ≡ Some result }
    {
        self.ids[slot as usize]
    }

    /// The slot of `v`; `None` exactly if `v` is not in the index. It takes no memory.
    pub fn find(&self, v: Vid) -> Option<u32>
        ensures { result ≡ slot_of v self.now }
    {
        match &self.slots {
            None => match self.ids.as_slice().binary_search(&v) {
                Ok(slot) => Some(slot as u32),
                Err(_) => None,
            },
            Some(slots) => find_under(slots.as_slice(), v),
        }
    }
}

// Each identifier with its slot, in ascending order of the identifiers.
fn sorted_slots(alloc: Global, ids: &[Vid]) -> Result<Vec<(Vid, u32)>, NoMemory>
    requires { length ids.now < 2 ^ 32 }
    ensures sorted { IfOk result (λ slots. IsSortedByKey (λ s. s.0) id_cmp slots.items) }
    ensures same { IfOk result (λ slots. IsPermutation (slots_of ids.now) slots.items) }
{
    let mut slots = Vec::with_capacity(alloc, ids.len())?;
    let mut slot = 0u32;
    let mut rest = ids;
    while let [id, after @ ..] = rest {
        slots.push((*id, slot))?;
        slot += 1;
        rest = after;
    }
    slots.sort_unstable_by_key(|s| s.0);
    Ok(slots)
}
