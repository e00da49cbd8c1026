//! What is lent to a heap.

ghost use Rattle.std.specs.Prelude.{◌≡◌, length};
ghost use Rattle.slot_heap.specs.Held.{Lent, no_rom};

use std::marker::Model;

/// A read-only image that a heap stands over. So far there is only the one without a thing.
#[derive(Drop)]
pub struct Rom<'a> {
    bytes: &'a [u8],
}

impl<'a> Model for Rom<'a> {
    ghost use Rattle.slot_heap.specs.Held.{Lent, no_rom};

    ghost Value = { Lent };

    ghost view = { λ r. no_rom };
}

impl Rom<'static> {
    /// No thing, no name.
    pub fn none() -> Rom<'static>
        ensures { result ≡ no_rom }
    {
        Rom { bytes: &[] }
    }
}

impl<'a> Rom<'a> {
    /// How many aliases it has.
    pub fn aliases(&self) -> u32
        ensures { result ≡ self.now.aliases }
    {
        let _bytes = self.bytes;
        0
    }

    /// How many names it has.
    pub fn names(&self) -> u32
        ensures { result ≡ length self.now.names }
    {
        let _bytes = self.bytes;
        0
    }

    /// How many slots it has.
    pub fn slots(&self) -> u32
        ensures { result ≡ length self.now.slots }
    {
        let _bytes = self.bytes;
        0
    }
}
