//! The ends of edges.
//!
//! They are kept as an index and, by slot, the sides, so that a partition whose edges are numbered
//! shares its index with them, and a copy takes two counts. `of` is for callers that have only
//! identifiers: it sorts them first.

ghost use Rattle.std.specs.Prelude.{◌≡◌, ◌<◌, ◌^◌, ◌∷◌, ◌++◌, All, IfOk, IsPermutation, IsSortedByKey, Some, length, slice_get, vec_len};
ghost use Rattle.std.specs.List.{zip};
ghost use Rattle.std.specs.Map.{keys_of, values_of};
ghost use Rattle.gx_index.specs.Ends.{AreSidesBySlot, HasSides, IsEndsOf, IsSetOf, edges_of_slots, ids_of_slots, sides_of_end};
ghost use Rattle.gx_index.specs.Ids.{IsAscending, id_cmp};
ghost use Rattle.gx_index.specs.Merging.{either_sides, end_entries, merged};

use crate::Index;
use crate::marks::sides_of_slots;
use gx_rows::{NoMemory, Sides, Vid};
use std::alloc::Global;
use std::marker::Model;
use std::rc::Rc;

/// The ends of edges in ascending order, each once, with the sides on which it is an end. Contracts
/// see it as that list. Each end has a slot, which is its position.
#[derive(Drop)]
pub struct Ends {
    index: Rc<Index>,
    // By slot.
    sides: Rc<Vec<Sides>>,
}

impl Model for Ends {
    ghost use Rattle.std.specs.Prelude.{List};
    ghost use Rattle.std.specs.List.{zip};
    ghost use Rattle.gx_index.specs.Ends.{End, HasSides};

    ghost Value = { List End };

    ghost view = { λ e. zip e.index.value e.sides.value.items };

    ghost invariant = { λ e. HasSides e.index.value e.sides.value.items };
}

impl Ends {
    /// The ends of these edges, which are given by source and destination.
    ///
    /// # Errors
    ///
    /// `NoMemory` if memory for the ends runs out, or if there are 2^32 of them or more.
    pub fn of(alloc: Global, edges: &[(Vid, Vid)]) -> Result<Ends, NoMemory>
        ensures { IfOk result (IsEndsOf edges.now) }
    {
        let entries = sorted_entries(alloc, edges)?;
        let list = merge(alloc, entries.as_slice())?;
        Ends::of_list(alloc, list.as_slice())
    }

    /// The ends of edges whose sources and destinations are given as slots of an index, that has
    /// these ends in ascending order and no other identifier. The index is shared. Each slot is
    /// looked at once; nothing is sorted.
    ///
    /// # Errors
    ///
    /// `NoMemory` if memory for the sides runs out.
    pub fn of_slots(
        alloc: Global,
        index: Rc<Index>,
        srcs: &[u32],
        dsts: &[u32],
    ) -> Result<Ends, NoMemory>
        requires edges { length srcs.now ≡ length dsts.now }
        requires sources { All (λ n. n < length index.value) srcs.now }
        requires destinations { All (λ n. n < length index.value) dsts.now }
        requires exact { IsSetOf
            (ids_of_slots index.value srcs.now ++ ids_of_slots index.value dsts.now) index.value }
        ensures ends { IfOk result (IsEndsOf (edges_of_slots index.value srcs.now dsts.now)) }
        ensures ids { IfOk result (λ ends. keys_of ends ≡ index.value) }
    {
        let sides = sides_of_slots(alloc, index.len(), srcs, dsts)?;
        Ok(Ends {
            index,
            sides: Rc::new(alloc, sides)?,
        })
    }

    /// The same ends. Nothing is copied.
    ///
    /// # Errors
    ///
    /// `NoMemory` if no further share can be counted.
    pub fn share(&self) -> Result<Ends, NoMemory>
        ensures { IfOk result (λ ends. ends ≡ self.now) }
    {
        let index = self.index.clone()?;
        let sides = self.sides.clone()?;
        Ok(Ends { index, sides })
    }

    /// The number of ends.
    pub fn len(&self) -> u32
        ensures count { result ≡ length self.now }
        ensures fits_u32 { length self.now < 2 ^ 32 }
        ensures ascending { IsAscending (keys_of self.now) }
    {
        self.index.len()
    }

    /// The sides on which `v` is an end; `None` exactly if it is none. It takes no memory.
    pub fn side(&self, v: Vid) -> Option<Sides>
        ensures { result ≡ sides_of_end v self.now }
    {
        match self.index.find(v) {
            Some(slot) => Some(self.sides[slot as usize]),
            None => None,
        }
    }

    /// The end of a slot, with its sides.
    pub fn end(&self, slot: u32) -> (Vid, Sides)
        requires { slot < length self.now }
        ensures { slice_get self.now slot ≡ Some result }
    {
        (self.index.id_at(slot), self.sides[slot as usize])
    }

    /// The identifiers of the ends, borrowed.
    pub fn ids(&self) -> &[Vid]
        ensures exact { result.now ≡ keys_of self.now }
        ensures ascending { IsAscending (keys_of self.now) }
    {
        self.index.ids()
    }

    /// The index of the ends, borrowed.
    pub fn index(&self) -> &Rc<Index>
        ensures exact { result.now.value ≡ keys_of self.now }
        ensures ascending { IsAscending (keys_of self.now) }
    {
        &self.index
    }

    // The ends of an ascending list.
    fn of_list(alloc: Global, list: &[(Vid, Sides)]) -> Result<Ends, NoMemory>
        requires { IsAscending (keys_of list.now) }
        ensures { IfOk result (λ ends. ends ≡ list.now) }
    {
        if list.len() > u32::MAX as usize {
            return Err(NoMemory);
        }
        let ids = ids_of(alloc, list)?;
        let sides = Rc::new(alloc, sides_of(alloc, list)?)?;
        let index = Rc::new(alloc, Index::from_vec(alloc, ids)?)?;
        Ok(Ends { index, sides })
    }
}

fn ids_of(alloc: Global, list: &[(Vid, Sides)]) -> Result<Vec<Vid>, NoMemory>
    ensures { IfOk result (λ ids. ids.items ≡ keys_of list.now) }
{
    Ok(list.iter().map(|end| end.0).collect(alloc)?)
}

fn sides_of(alloc: Global, list: &[(Vid, Sides)]) -> Result<Vec<Sides>, NoMemory>
    ensures { IfOk result (λ sides. sides.items ≡ values_of list.now) }
{
    Ok(list.iter().map(|end| end.1).collect(alloc)?)
}

// Each source and each destination with its one side, in ascending order of the identifiers.
fn sorted_entries(alloc: Global, edges: &[(Vid, Vid)]) -> Result<Vec<(Vid, Sides)>, NoMemory>
    ensures sorted { IfOk result (λ entries. IsSortedByKey (λ e. e.0) id_cmp entries.items) }
    ensures same { IfOk result (λ entries. IsPermutation (end_entries edges.now) entries.items) }
{
    let src = Sides {
        src: true,
        dst: false,
    };
    let dst = Sides {
        src: false,
        dst: true,
    };
    let mut entries = Vec::new(alloc);
    let mut rest = edges;
    while let [edge, after @ ..] = rest {
        entries.push((edge.0, src))?;
        entries.push((edge.1, dst))?;
        rest = after;
    }
    entries.sort_unstable_by_key(|e| e.0);
    Ok(entries)
}

// One entry for each run of equal identifiers, with the sides of all of them.
fn merge(alloc: Global, entries: &[(Vid, Sides)]) -> Result<Vec<(Vid, Sides)>, NoMemory>
    ensures { IfOk result (λ list. list.items ≡ merged entries.now) }
{
    let mut list = Vec::new(alloc);
    let [first, after @ ..] = entries else {
        return Ok(list);
    };
    let mut last = *first;
    let mut rest = after;
    while let [entry, after @ ..] = rest {
        if entry.0 == last.0 {
            last = (last.0, either(last.1, entry.1));
        } else {
            list.push(last)?;
            last = *entry;
        }
        rest = after;
    }
    list.push(last)?;
    Ok(list)
}

fn either(a: Sides, b: Sides) -> Sides
    ensures { result ≡ either_sides a b }
{
    Sides {
        src: a.src || b.src,
        dst: a.dst || b.dst,
    }
}
