ghost use Rattle.std.specs.Prelude.{◌≡◌, [], ◌∷◌, ◌++◌};
ghost use Rattle.std.specs.Result.{OnOk, OnErr};

use std::alloc::{AllocError, Global};
use std::marker::Model;

/// A list within a tree, in the order of its pushes. Contracts see it as a list.
///
/// It keeps its allocator, and takes the memory of its items, and of up to as many again for growth.
#[derive(Drop)]
pub struct TreeList<T> {
    items: Vec<T>,
}

impl<T> Model for TreeList<T> {
    ghost use Rattle.std.specs.Prelude.{List};
    ghost use Rattle.std.specs.Coded.{coded_list};

    ghost Value = { List T };

    ghost coded = { coded_list T.code };

    ghost view = { λ l. l.items.items };
}

impl<T> TreeList<T> {
    /// The empty list. It takes no memory.
    pub fn new(alloc: Global) -> TreeList<T>
        ensures { result ≡ [] }
    {
        TreeList {
            items: Vec::new(alloc),
        }
    }

    /// The items in order.
    pub fn as_slice(&self) -> &[T]
        ensures { result.now ≡ self.now }
    {
        self.items.as_slice()
    }
}

impl<T: Drop> TreeList<T> {
    /// Adds an item at the end. The one error is want of memory: it leaves the list as it was, and the
    /// item is dropped.
    pub fn push(&mut self, item: T) -> Result<(), AllocError>
        ensures ok { OnOk result (self.new ≡ self.old ++ item ∷ []) }
        ensures err { OnErr result (self.new ≡ self.old) }
    {
        self.items.push(item)?;
        Ok(())
    }
}
