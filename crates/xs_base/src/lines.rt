ghost use Rattle.std.specs.Prelude.{◌≡◌, ◌≢◌, ◌==◌, ◌≤◌, ◌<◌, ◌++◌, ◌∷◌, [], ℕ, List, length, true, Option, Ok, IfOk, vec_len, vec_capacity};
ghost use Rattle.xs_base.specs.Outside.{HasCause};
ghost use Rattle.xs_base.specs.Line.{GivesLine, IsLine};

use std::alloc::{AllocError, Global};
use std::marker::Model;

/// How many bytes a line has at most.
const MOST: usize = 65535;

/// A read failed. (Own rule.)
#[derive(Clone, Copy, Debug, PartialEq, Eq)]
pub struct ReadFault;

/// Room for one line, of at most 65,535 bytes. Contracts see the bytes.
#[derive(Drop)]
pub struct LineBuffer {
    bytes: Vec<u8>,
}

impl Model for LineBuffer {
    ghost Value = { List ℕ };

    ghost view = { λ a. a.bytes.items };

    ghost invariant = { λ a. (65535 ≤ vec_capacity a.bytes) × (vec_len a.bytes ≤ 65535) };
}

impl LineBuffer {
    /// An empty buffer. Reserves 65,535 bytes, so that no later call takes memory.
    pub fn new(alloc: Global) -> Result<LineBuffer, AllocError>
        ensures { IfOk result (λ buffer. buffer ≡ []) }
    {
        Ok(LineBuffer {
            bytes: Vec::with_capacity(alloc, MOST)?,
        })
    }

    /// The line's bytes, without its line feed. Takes no memory.
    pub fn bytes(&self) -> &[u8]
        ensures bytes { result.now ≡ self.now }
        ensures short { length result.now ≤ 65535 }
    {
        &self.bytes
    }

    pub(crate) fn is_full(&self) -> bool
        ensures { result ≡ (length self.now == 65535) }
    {
        self.bytes.len() == MOST
    }

    pub(crate) fn clear(&mut self)
        ensures { self.new ≡ [] }
    {
        self.bytes.clear();
    }

    pub(crate) fn push(&mut self, byte: u8)
        requires { length self.old < 65535 }
        ensures { self.new ≡ self.old ++ byte ∷ [] }
    {
        let _ = self.bytes.push(byte);
    }

    pub(crate) fn set(&mut self, line: &[u8])
        requires { length line.now ≤ 65535 }
        ensures { self.new ≡ line.now }
    {
        self.bytes.clear();
        let _ = self.bytes.extend_from_slice(line);
    }
}

/// An input that is read by lines. (Own rule.)
///
/// A line ends before the first line feed among the next 65,535 bytes, which is taken with it. Where
/// none is among them, the line is these 65,535 bytes, or all that are left where they are fewer.
pub trait Lines {
    /// The bytes that are left, where the input tells them.
    ghost left: { Self → Option (List ℕ) };

    /// How often a call has failed. It never falls.
    ghost faults: { Self → ℕ };

    /// Takes exactly one line, leaves its bytes in `into` and answers true; or takes nothing and answers
    /// false at the end. `ReadFault` comes only where `faults` rose, and nothing is taken then. Where no
    /// line is given, `into` stays as it was. Takes no memory.
    fn line(&mut self, into: &mut LineBuffer) -> Result<bool, ReadFault>
        ensures line { GivesLine (left self.old) (left self.new) result into.new }
        ensures shape { result ≡ Ok true → IsLine into.new }
        ensures buffer { result ≢ Ok true → into.new ≡ into.old }
        ensures cause { HasCause (faults self.old) (faults self.new) result };
}
