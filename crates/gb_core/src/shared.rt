ghost use Rattle.std.specs.Prelude.{◌≡◌, IfOk};

use std::alloc::{AllocError, Global};
use std::marker::Model;
use std::rc::Rc;

/// A value with several owners. Contracts see the value alone.
pub struct Shared<T> {
    inner: Rc<T>,
}

impl<T: Drop> Drop for Shared<T> {
    fn drop(self) {
        let Shared { inner } = self;
        drop(inner);
    }
}

impl<T> Model for Shared<T> {
    ghost Value = { T };

    ghost coded = { T.code };

    ghost view = { λ s. s.inner.value };
}

impl<T> Shared<T> {
    pub fn get(&self) -> &T
        ensures { result.now ≡ self.now }
    {
        &self.inner
    }
}

impl<T: Drop> Shared<T> {
    pub fn new(alloc: Global, value: T) -> Result<Shared<T>, AllocError>
        ensures { IfOk result (λ s. s ≡ value) }
    {
        let inner = Rc::new(alloc, value)?;
        Ok(Shared { inner })
    }

    /// One more owner of the same value. It takes no memory, and fails only where the count of owners is full.
    pub fn share(&self) -> Result<Shared<T>, AllocError>
        ensures { IfOk result (λ s. s ≡ self.now) }
    {
        let inner = self.inner.clone()?;
        Ok(Shared { inner })
    }
}
