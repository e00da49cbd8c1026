//! The bytes of a code, as they grow.
#![tactic(auto)]

ghost use Rattle.std.specs.Prelude.{◌≡◌, ℕ, List, [], ◌∷◌, ◌++◌, length, OnOk, OnErr};

use std::alloc::{AllocError, Global};
use std::marker::Model;

/// A list of bytes, which a contract sees as a list of numbers.
#[derive(Drop)]
pub struct CodeBytes {
    bytes: Vec<u8>,
}

impl Model for CodeBytes {
    ghost Value = { List ℕ };

    ghost view = { λ c. c.bytes.items };
}

impl CodeBytes {
    /// An empty list, which keeps the allocator and takes no memory.
    pub fn new(alloc: Global) -> Self
        ensures { result ≡ [] }
    {
        CodeBytes {
            bytes: Vec::new(alloc),
        }
    }

    /// Puts a byte at the end. The one error is want of memory, and leaves the list as it was.
    pub fn push(&mut self, byte: u8) -> Result<(), AllocError>
        ensures ok { OnOk result (self.new ≡ self.old ++ byte ∷ []) }
        ensures err { OnErr result (self.new ≡ self.old) }
    {
        self.bytes.push(byte)?;
        Ok(())
    }

    /// Puts bytes at the end, all of them or, on want of memory, none.
    pub(crate) fn extend(&mut self, bytes: &[u8]) -> Result<(), AllocError>
        ensures ok { OnOk result (self.new ≡ self.old ++ bytes.now) }
        ensures err { OnErr result (self.new ≡ self.old) }
    {
        self.bytes.extend_from_slice(bytes)
    }

    /// The bytes.
    pub fn as_slice(&self) -> &[u8]
        ensures { result.now ≡ self.now }
    {
        self.bytes.as_slice()
    }
}
