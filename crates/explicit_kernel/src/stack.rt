//! Stacks, seen from their top.
ghost use Rattle.std.specs.Prelude.{◌≡◌, ◌↔◌, ◌<◌, ◌≤◌, [], ◌∷◌, List, length, OnOk, OnErr, IfSome, IfNone, IsTrue};
ghost use Rattle.explicit_kernel.specs.Stack.{StandsAt, IsLowest, IsBefore};

use fpc_base::outside::OutOfMemory;
use std::alloc::Global;
use std::marker::Model;

/// A stack. Contracts see the list of its items, the topmost first.
#[derive(Drop)]
pub(crate) struct Stack<T> {
    items: Vec<T>,
}

impl<T> Model for Stack<T> {
    ghost use Rattle.std.specs.Prelude.{List, reverse};

    ghost Value = { List T };

    ghost view = { λ s. reverse s.items.items };
}

impl<T: Drop> Stack<T> {
    pub(crate) fn new(alloc: Global) -> Stack<T>
        ensures { result ≡ [] }
    {
        Stack {
            items: Vec::new(alloc),
        }
    }

    pub(crate) fn push(&mut self, item: T) -> Result<(), OutOfMemory>
        ensures ok { OnOk result (self.new ≡ item ∷ self.old) }
        ensures err { OnErr result (self.new ≡ self.old) }
    {
        self.items.push(item)?;
        Ok(())
    }

    pub(crate) fn pop(&mut self) -> Option<T>
        ensures some { IfSome result (λ item. self.old ≡ item ∷ self.new) }
        ensures none { IfNone result (self.old ≡ []) }
        ensures kept { IfNone result (self.new ≡ self.old) }
    {
        self.items.pop()
    }

    /// How many items there are.
    pub(crate) fn len(&self) -> usize
        ensures { result ≡ length self.now }
    {
        self.items.len()
    }

    /// The item that has so many below it.
    pub(crate) fn at(&self, below: usize) -> &T
        requires { below < length self.now }
        ensures { StandsAt self.now below result.now }
    {
        &self.items[below]
    }

    /// Takes away the item that has so many below it, and what stands above it.
    pub(crate) fn take(&mut self, below: usize) -> T
        requires { below < length self.old }
        ensures { IsBefore self.old below result self.new }
    {
        self.items.truncate(below + 1);
        match self.items.pop() {
            Some(item) => item,
            None => unreachable!(),
        }
    }

    /// Takes away what stands above the lowest items, as many as said.
    pub(crate) fn keep(&mut self, lowest: usize)
        requires { lowest ≤ length self.old }
        ensures { IsLowest self.old lowest self.new }
    {
        self.items.truncate(lowest);
    }

    /// The topmost item.
    pub(crate) fn top(&self) -> Option<&T>
        ensures some { IfSome result (λ item. (rest : List T) × (self.now ≡ item.now ∷ rest)) }
        ensures none { IfNone result (self.now ≡ []) }
    {
        self.items.last()
    }
}
