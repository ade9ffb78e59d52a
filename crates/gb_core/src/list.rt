ghost use Rattle.std.specs.Prelude.{◌≡◌, ◌↔◌, [], IsTrue, length, IfOk};

use crate::shared::Shared;
use sqlite_items::Items;
use std::alloc::{AllocError, Global};
use std::marker::Model;

/// A list with several owners. Contracts see the list of its elements.
pub struct SharedItems<T> {
    inner: Shared<Items<T>>,
}

impl<T: Drop> Drop for SharedItems<T> {
    fn drop(self) {
        let SharedItems { inner } = self;
        drop(inner);
    }
}

impl<T> Model for SharedItems<T> {
    ghost use Rattle.std.specs.Prelude.{List};
    ghost use Rattle.std.specs.Coded.{coded_list};

    ghost Value = { List T };

    ghost coded = { coded_list T.code };

    ghost view = { λ it. it.inner };
}

impl<T> SharedItems<T> {
    pub fn as_slice(&self) -> &[T]
        ensures { result.now ≡ self.now }
    {
        self.inner.get().as_slice()
    }

    pub fn len(&self) -> usize
        ensures { result ≡ length self.now }
    {
        self.inner.get().len()
    }

    pub fn is_empty(&self) -> bool
        ensures { IsTrue result ↔ (self.now ≡ []) }
    {
        self.inner.get().is_empty()
    }
}

impl<T: Drop> SharedItems<T> {
    pub fn new(alloc: Global, items: Items<T>) -> Result<SharedItems<T>, AllocError>
        ensures { IfOk result (λ s. s ≡ items) }
    {
        let inner = Shared::new(alloc, items)?;
        Ok(SharedItems { inner })
    }

    /// The empty list.
    pub fn empty(alloc: Global) -> Result<SharedItems<T>, AllocError>
        ensures { IfOk result (λ s. s ≡ []) }
    {
        SharedItems::new(alloc, Items::new(alloc))
    }

    /// One more owner of the same list. It takes no memory, and fails only where the count of owners is full.
    pub fn share(&self) -> Result<SharedItems<T>, AllocError>
        ensures { IfOk result (λ s. s ≡ self.now) }
    {
        let inner = self.inner.share()?;
        Ok(SharedItems { inner })
    }
}
