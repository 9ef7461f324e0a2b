//! Values that are shared.

ghost use Rattle.std.specs.Prelude.{◌≡◌, IfOk};

use gx_rows::NoMemory;
use std::marker::Model;
use std::rc::Rc;

/// A value that is shared and never changes. Contracts see it as the value.
#[derive(Drop)]
pub struct Shared<T> {
    inner: Rc<T>,
}

impl<T> Model for Shared<T> {
    ghost Value = { T };

    ghost coded = { T.code };

    ghost view = { λ s. s.inner.value };
}

impl<T> Shared<T> {
    /// This value. It takes no memory.
    pub fn of(inner: Rc<T>) -> Shared<T>
        ensures { result ≡ inner.value }
    {
        Shared { inner }
    }

    /// The counted pointer to the value, borrowed.
    pub fn rc(&self) -> &Rc<T>
        ensures { result.now.value ≡ self.now }
    {
        &self.inner
    }
}

impl<T: Drop> Shared<T> {
    /// One more pointer to the value.
    ///
    /// # Errors
    ///
    /// `NoMemory` if no more pointers can be counted.
    pub fn share(&self) -> Result<Rc<T>, NoMemory>
        ensures { IfOk result (λ r. r.value ≡ self.now) }
    {
        Ok(self.inner.clone()?)
    }
}
