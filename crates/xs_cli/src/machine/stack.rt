ghost use Rattle.std.specs.Prelude.{◌≡◌, ◌<◌, ◌≤◌, ◌∷◌, [], length, MatchOption, IfOk, IsTrue, ◌↔◌};

use std::alloc::{AllocError, Global};
use std::marker::Model;

/// What a thin module's code handles.
#[derive(Clone, Copy, Debug, PartialEq, Eq)]
pub enum Value {
    Undefined,
    /// The function `print`.
    Print,
    /// A name by its number.
    Text(u16),
}

const MOST: usize = 3;

/// The operand stack. Contracts see its values, the top first.
#[derive(Drop)]
pub struct Stack {
    values: Vec<Value>,
}

impl Model for Stack {
    ghost use Rattle.std.specs.Prelude.{List, ◌≤◌, ◌∷◌, vec_capacity, vec_len};
    ghost use mathlib.Core.List.{reverse};
    ghost use Rattle.xs_cli.specs.declared.machine.stack.Value.{Value as StackValue};

    ghost Value = { List StackValue };

    ghost view = { λ stack. reverse stack.values.items };

    ghost invariant = { λ stack. 3 ≤ vec_capacity stack.values };
}

impl Stack {
    /// The empty stack, with all the room that it ever has.
    pub fn new(alloc: Global) -> Result<Stack, AllocError>
        ensures { IfOk result (λ stack. stack ≡ []) }
    {
        Ok(Stack {
            values: Vec::with_capacity(alloc, MOST)?,
        })
    }

    /// Whether it holds three values, the most that it has room for.
    pub fn is_full(&self) -> bool
        ensures { IsTrue result ↔ (3 ≤ length self.now) }
    {
        self.values.len() >= MOST
    }

    /// Puts a value on top. Takes no memory.
    pub fn push(&mut self, value: Value)
        requires { length self.old < 3 }
        ensures { self.new ≡ value ∷ self.old }
    {
        self.values.push_reserved(value);
    }

    /// Takes the value on top; None where there is none.
    pub fn pop(&mut self) -> Option<Value>
        ensures { MatchOption result ((self.old ≡ []) × (self.new ≡ [])) (λ value. self.old ≡ value ∷ self.new) }
    {
        self.values.pop()
    }
}
