//! A list of the parts of a compiled module.
#![tactic(auto)]

ghost use Rattle.std.specs.Prelude.{◌≡◌, List, [], ◌∷◌, ◌++◌, OnOk, OnErr};

use std::alloc::{AllocError, Global};
use std::marker::Model;

/// A list in the order of its pushes, which a contract sees as a list.
#[derive(Drop)]
pub struct CodeList<T: Drop> {
    items: Vec<T>,
}

impl<T: Drop> Model for CodeList<T> {
    ghost Value = { List T };

    ghost view = { λ l. l.items.items };
}

impl<T: Drop> CodeList<T> {
    /// An empty list, which keeps the allocator and takes no memory.
    pub fn new(alloc: Global) -> Self
        ensures { result ≡ [] }
    {
        CodeList {
            items: Vec::new(alloc),
        }
    }

    /// Puts an item at the end. The one error is want of memory: it leaves the list as it was, and
    /// drops the item.
    pub fn push(&mut self, item: T) -> Result<(), AllocError>
        ensures ok { OnOk result (self.new ≡ self.old ++ item ∷ []) }
        ensures err { OnErr result (self.new ≡ self.old) }
    {
        self.items.push(item)?;
        Ok(())
    }

    /// The items in order.
    pub fn as_slice(&self) -> &[T]
        ensures { result.now ≡ self.now }
    {
        self.items.as_slice()
    }
}
