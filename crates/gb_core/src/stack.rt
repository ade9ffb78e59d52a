// Stacks, seen from the top down.

ghost use Rattle.std.specs.Prelude.{◌≡◌, [], ◌∷◌, length, IfOk, OnOk, OnErr, MatchOption};
ghost use Rattle.std.specs.List.{slice_get};
ghost use Rattle.std.specs.Option.{option_copied};

use sqlite_items::Items;
use std::alloc::{AllocError, Global};
use std::marker::Model;

/// A stack; contracts see its elements from the top down.
pub struct Stack<T> {
    bottom_up: Vec<T>,
}

impl<T: Drop> Drop for Stack<T> {
    fn drop(self) {
        let Stack { bottom_up: _ } = self;
    }
}

impl<T> Model for Stack<T> {
    ghost use Rattle.std.specs.Prelude.{List, reverse};
    ghost use Rattle.std.specs.Coded.{coded_list};

    ghost Value = { List T };

    ghost coded = { coded_list T.code };

    ghost view = { λ s. reverse s.bottom_up.items };
}

impl<T> Stack<T> {
    /// An empty stack.
    pub fn new(alloc: Global) -> Stack<T>
        ensures { result ≡ [] }
    {
        Stack {
            bottom_up: Vec::new(alloc),
        }
    }

    /// Takes the top element off, if there is one.
    pub fn pop(&mut self) -> Option<T>
        ensures { MatchOption result ((self.old ≡ []) × (self.new ≡ [])) (λ top. self.old ≡ top ∷ self.new) }
    {
        self.bottom_up.pop()
    }

    /// The element this far below the top.
    pub fn get(&self, below: usize) -> Option<&T>
        ensures { option_copied result ≡ slice_get self.now below }
    {
        let count = self.bottom_up.len();
        if below < count {
            self.bottom_up.get(count - 1 - below)
        } else {
            None
        }
    }

    /// How many elements it has.
    pub fn len(&self) -> usize
        ensures { result ≡ length self.now }
    {
        self.bottom_up.len()
    }

    /// Its elements, the top one first.
    pub fn into_items(self) -> Items<T>
        ensures { result ≡ self }
    {
        let Stack { mut bottom_up } = self;
        bottom_up.reverse();
        Items::from_vec(bottom_up)
    }
}

impl<T: Drop> Stack<T> {
    /// A stack of these elements, the first one on top.
    pub fn from_items(alloc: Global, items: Items<T>) -> Result<Stack<T>, AllocError>
        ensures { IfOk result (λ s. s ≡ items) }
    {
        let mut rest = items;
        let mut stack = Stack::new(alloc);
        while let Some(item) = rest.pop() {
            stack.push(item)?;
        }
        Ok(stack)
    }

    /// Puts an element on top.
    pub fn push(&mut self, item: T) -> Result<(), AllocError>
        ensures ok { OnOk result (self.new ≡ item ∷ self.old) }
        ensures err { OnErr result (self.new ≡ self.old) }
    {
        self.bottom_up.push(item)?;
        Ok(())
    }
}
