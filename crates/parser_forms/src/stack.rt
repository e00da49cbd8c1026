//! The stacks of the parser: the open forms, and what was read.

ghost use Rattle.std.specs.Prelude.{◌≡◌, List, [], ◌∷◌, MatchOption};
ghost use Rattle.std.specs.Result.{OnOk, OnErr};

use std::alloc::{AllocError, Global};
use std::marker::Model;

/// A stack. Contracts see a list whose first element is the one on top.
///
/// It keeps its allocator, and takes the memory of its items, and of up to as many again for growth.
#[derive(Drop)]
pub struct Stack<T> {
    alloc: Global,
    items: Vec<T>,
}

impl<T> Model for Stack<T> {
    ghost use Rattle.std.specs.Prelude.{List, reverse};
    ghost use Rattle.std.specs.Coded.{coded_list};

    ghost Value = { List T };

    ghost coded = { coded_list T.code };

    ghost view = { λ s. reverse s.items.items };
}

impl<T> Stack<T> {
    /// The empty stack. It takes no memory.
    pub fn new(alloc: Global) -> Stack<T>
        ensures { result ≡ [] }
    {
        Stack {
            alloc,
            items: Vec::new(alloc),
        }
    }

    /// Its allocator.
    pub fn alloc(&self) -> Global {
        self.alloc
    }

    /// The one on top; None where there is none.
    pub fn top(&self) -> Option<&T>
        ensures { MatchOption result (self.now ≡ []) (λ top. (rest : List T) × (self.now ≡ top.now ∷ rest)) }
    {
        self.items.as_slice().last()
    }

    /// Takes the one on top; None where there is none.
    pub fn pop(&mut self) -> Option<T>
        ensures { MatchOption result ((self.old ≡ []) × (self.new ≡ [])) (λ top. self.old ≡ top ∷ self.new) }
    {
        self.items.pop()
    }
}

impl<T: Drop> Stack<T> {
    /// Puts one on top. The one error is want of memory: it leaves the stack as it was, and the item is
    /// dropped.
    pub fn push(&mut self, item: T) -> Result<(), AllocError>
        ensures ok { OnOk result (self.new ≡ item ∷ self.old) }
        ensures err { OnErr result (self.new ≡ self.old) }
    {
        self.items.push(item)?;
        Ok(())
    }
}
