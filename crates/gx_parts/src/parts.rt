//! Numbered parts, and the calls that compute new ones from them.

ghost use Rattle.std.specs.Prelude.{◌≡◌, ◌<◌, ◌^◌, IfOk, Some, length, slice_get, vec_len, zip};
ghost use Rattle.gx_parts.specs.Calls.{FoldStep, FoldedBy, MapStep, MappedBy, MayFold, MayMap, MayZip, ZipStep};
ghost use Rattle.gx_parts.specs.Shared.{shared_values};

use gx_rows::NoMemory;
use std::alloc::Global;
use std::marker::Model;
use std::rc::Rc;

/// Parts that are shared and never change. Contracts see them as their list, which has fewer than
/// 2^32 items; the parts are numbered from 0.
#[derive(Drop)]
pub struct Parts<T> {
    items: Vec<Rc<T>>,
}

impl<T> Model for Parts<T> {
    ghost use Rattle.std.specs.Prelude.{List, ◌<◌, ◌^◌, vec_len};
    ghost use Rattle.std.specs.Coded.{coded_list};
    ghost use Rattle.gx_parts.specs.Shared.{shared_values};

    ghost Value = { List T };

    ghost coded = { coded_list T.code };

    ghost view = { λ p. shared_values p.items.items };

    ghost invariant = { λ p. vec_len p.items < 2 ^ 32 };
}

impl<T> Parts<T> {
    /// These parts, in order. It takes no memory.
    pub fn of(items: Vec<Rc<T>>) -> Parts<T>
        requires { vec_len items < 2 ^ 32 }
        ensures { result ≡ shared_values items.items }
    {
        Parts { items }
    }

    /// The number of parts.
    pub fn len(&self) -> u32
        ensures count { result ≡ length self.now }
        ensures fits_u32 { length self.now < 2 ^ 32 }
    {
        self.items.len() as u32
    }

    /// Part `i`, borrowed.
    pub fn part(&self, i: u32) -> &T
        requires { i < length self.now }
        ensures { slice_get self.now i ≡ Some result.now }
    {
        &self.items[i as usize]
    }

    /// New parts: part `i` is what `f` returns for `i` and part `i`.
    ///
    /// # Errors
    ///
    /// `NoMemory` if `f` returns it, or if memory for the new parts runs out.
    pub fn map_parts<U: Drop, F: Fn(u32, &T) -> Result<U, NoMemory>>(
        &self,
        alloc: Global,
        f: F,
    ) -> Result<Parts<U>, NoMemory>
        requires { MayMap (F.pre f) self.now }
        ensures mapped { IfOk result (λ new. MappedBy (MapStep (F.post f)) self.now new) }
        ensures len_kept { IfOk result (λ new. length new ≡ length self.now) }
    {
        let mut items = Vec::with_capacity(alloc, self.len() as usize)?;
        for i in 0..self.len() {
            let mapped = f(i, self.part(i))?;
            items.push(Rc::new(alloc, mapped)?)?;
        }
        Ok(Parts::of(items))
    }

    /// New parts: part `i` is what `f` returns for `i`, part `i` of `self` and part `i` of `other`.
    ///
    /// # Errors
    ///
    /// `NoMemory` if `f` returns it, or if memory for the new parts runs out.
    pub fn zip_parts<S, U: Drop, F: Fn(u32, &T, &S) -> Result<U, NoMemory>>(
        &self,
        alloc: Global,
        other: &Parts<S>,
        f: F,
    ) -> Result<Parts<U>, NoMemory>
        requires same_len { length other.now ≡ length self.now }
        requires callable { MayZip (F.pre f) self.now other.now }
        ensures mapped { IfOk result
            (λ new. MappedBy (ZipStep (F.post f)) (zip self.now other.now) new) }
        ensures len_kept { IfOk result (λ new. length new ≡ length self.now) }
    {
        let mut items = Vec::with_capacity(alloc, self.len() as usize)?;
        for i in 0..self.len() {
            let mapped = f(i, self.part(i), other.part(i))?;
            items.push(Rc::new(alloc, mapped)?)?;
        }
        Ok(Parts::of(items))
    }

    /// Folds `f` over the parts, from part 0 on: the first call is given `start`, and each other
    /// call what the call before it returned.
    ///
    /// # Errors
    ///
    /// `NoMemory` if `f` returns it. Then `start` is not given back.
    pub fn fold_parts<B, F: Fn(B, u32, &T) -> Result<B, NoMemory>>(
        &self,
        start: B,
        f: F,
    ) -> Result<B, NoMemory>
        requires { MayFold (F.pre f) (F.post f) start self.now }
        ensures { IfOk result (λ last. FoldedBy (FoldStep (F.post f)) start self.now last) }
    {
        let mut acc = start;
        for i in 0..self.len() {
            acc = f(acc, i, self.part(i))?;
        }
        Ok(acc)
    }
}
