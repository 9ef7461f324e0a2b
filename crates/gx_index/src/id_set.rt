//! Sets of identifiers.

ghost use Rattle.std.specs.Prelude.{◌≡◌, IfOk, length};
ghost use Rattle.gx_index.specs.Ends.{IsSetOf};
ghost use Rattle.gx_index.specs.Ids.{IsAscending, has_id};
ghost use Rattle.gx_index.specs.Sets.{masked_ids};

use crate::Index;
use crate::distinct::distinct_ids;
use crate::ids_of_set::IdsOfSet;
use gx_mask::Mask;
use gx_rows::{NoMemory, Vid};
use std::alloc::Global;
use std::marker::Model;
use std::rc::Rc;

/// A set of identifiers: those of an index whose bit is true. Contracts see it as their ascending
/// list.
#[derive(Drop)]
pub struct IdSet {
    index: Rc<Index>,
    mask: Mask,
}

impl Model for IdSet {
    ghost use Rattle.std.specs.Prelude.{List};
    ghost use Rattle.gx_rows.specs.declared.vid.Vid.{Vid};
    ghost use Rattle.gx_index.specs.Sets.{IsMasked, masked_ids};

    ghost Value = { List Vid };

    ghost view = { λ s. masked_ids s.mask s.index.value };

    ghost invariant = { λ s. IsMasked s.mask s.index.value };
}

impl IdSet {
    /// The set of these identifiers, which may repeat.
    ///
    /// # Errors
    ///
    /// `NoMemory` if memory for the set runs out, or if it has 2^32 identifiers or more.
    pub fn of(alloc: Global, ids: &[Vid]) -> Result<IdSet, NoMemory>
        ensures { IfOk result (IsSetOf ids.now) }
    {
        let ids = distinct_ids(alloc, ids)?;
        if ids.len() > u32::MAX as usize {
            return Err(NoMemory);
        }
        let mask = Mask::full(alloc, ids.len() as u32)?;
        let index = Rc::new(alloc, Index::from_vec(alloc, ids)?)?;
        Ok(IdSet::of_mask(index, mask))
    }

    /// The identifiers of an index, which ascend, whose slots the mask has. The index is shared.
    pub fn of_mask(index: Rc<Index>, mask: Mask) -> IdSet
        requires ascending { IsAscending index.value }
        requires one_bool_each { length mask ≡ length index.value }
        ensures { result ≡ masked_ids mask index.value }
    {
        // The call takes no time; its clause says that the slots are fewer than 2^32.
        let _len = mask.len();
        IdSet { index, mask }
    }

    /// The number of identifiers.
    pub fn len(&self) -> u32
        ensures { result ≡ length self.now }
    {
        self.mask.count()
    }

    /// Whether `v` is in the set. It takes no memory.
    pub fn holds(&self, v: Vid) -> bool
        ensures { result ≡ has_id v self.now }
    {
        match self.index.find(v) {
            Some(slot) => self.mask.test(slot),
            None => false,
        }
    }

    /// The identifiers in ascending order. Neither this call nor the items take memory.
    pub fn ids(&self) -> IdsOfSet<'_>
        ensures exact { result ≡ self.now }
        ensures ascending { IsAscending self.now }
    {
        IdsOfSet::of(&self.mask, self.index.ids())
    }
}
