//! Lists of identifiers, ascending and with repeats.

ghost use Rattle.std.specs.Prelude.{◌≡◌, IfOk, IsSorted, IsPermutation, refl};
ghost use Rattle.std.proofs.Common.{rules};
ghost use Rattle.std.specs.Cmp.{partial_order_from_own_ties};
ghost use Rattle.std.specs.Cmp.Lexicographic.{pointwise, slice_cmp, lists_ties};
ghost use Rattle.std.specs.Cmp.Rules.{comparing};
ghost use Rattle.std.specs.Ordering.{as_partial_cmp, int_cmp, int_eq};

use crate::NoMemory;
use std::alloc::Global;
use std::cmp::Ordering;
use std::marker::Model;
use std::rc::Rc;

/// An ascending list of identifiers, each of which may repeat. Contracts see it as that list.
/// Copies share one memory.
#[derive(Debug, Drop)]
pub struct IdList {
    ids: Rc<Vec<i64>>,
}

impl Model for IdList {
    ghost use Rattle.std.specs.Prelude.{List, ℤ, IsSorted};
    ghost use Rattle.std.specs.Ordering.{int_cmp};

    ghost Value = { List ℤ };

    ghost view = { λ l. l.ids.value.items };

    ghost invariant = { λ l. IsSorted int_cmp l.ids.value.items };
}

impl IdList {
    /// The list of these identifiers in ascending order.
    ///
    /// # Errors
    ///
    /// `NoMemory` if memory for the list runs out.
    pub fn of(alloc: Global, ids: &[i64]) -> Result<IdList, NoMemory>
        ensures sorted { IfOk result (λ l. IsSorted int_cmp l) }
        ensures same { IfOk result (λ l. IsPermutation ids.now l) }
    {
        let mut ids = Vec::from_slice(alloc, ids)?;
        ids.sort_unstable();
        let ids = Rc::new(alloc, ids)?;
        Ok(IdList { ids })
    }

    /// The identifiers in ascending order, borrowed.
    pub fn as_slice(&self) -> &[i64]
        ensures items { result.now ≡ self.now }
        ensures sorted { IsSorted int_cmp self.now }
    {
        self.ids.as_slice()
    }

    /// An equal list. It shares the identifiers and takes no memory.
    ///
    /// # Errors
    ///
    /// `NoMemory` if no further copy can be counted.
    pub fn copy(&self) -> Result<IdList, NoMemory>
        ensures { IfOk result (λ l. l ≡ self.now) }
    {
        Ok(IdList {
            ids: self.ids.clone()?,
        })
    }
}

impl PartialEq for IdList {
    ghost eq = { pointwise int_eq };

    ghost laws = { Prim.search (comparing, rules) };

    fn eq(&self, other: &IdList) -> bool {
        self.as_slice() == other.as_slice()
    }
}

impl Eq for IdList {
    ghost laws = { Prim.search (comparing, rules) };
}

impl PartialOrd for IdList {
    ghost partial_cmp = { as_partial_cmp (slice_cmp int_cmp) };

    ghost laws = { partial_order_from_own_ties (Prim.search (comparing, rules))
        (lists_ties int_cmp (λ x y. refl)) };

    fn partial_cmp(&self, other: &IdList) -> Option<Ordering> {
        Some(self.cmp(other))
    }
}

impl Ord for IdList {
    ghost cmp = { slice_cmp int_cmp };

    ghost total = { Prim.search (comparing, rules) };

    ghost matches_partial_cmp = { λ x y. refl };

    ghost matches_eq = { lists_ties int_cmp (λ x y. refl) };

    fn cmp(&self, other: &IdList) -> Ordering {
        self.as_slice().cmp(&other.as_slice())
    }
}
