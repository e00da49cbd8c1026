//! Texts: lists of 16-bit units (ECMA-262, 6.1.4), read from UTF-8 and written as UTF-8.

#[cfg(test)]
mod tests;
mod utf16;
mod utf8;

ghost use Rattle.std.specs.Prelude.{◌≡◌, ℕ, ◌+◌, ◌<◌, ◌≤◌, List, [], ◌∷◌, ◌++◌, length, drop, OnOk, OnErr, IfOk};
ghost use Rattle.js_value.specs.Text.{units, utf16, scalar_value, sequence_length};

use std::alloc::{AllocError, Global};
use std::marker::Model;
pub use utf8::{scalar_value, sequence_length};
pub use utf16::utf8_piece;

/// A text: a list of 16-bit units, which may hold lone surrogates.
///
/// Two bytes of memory for each unit, and up to as many again for growth.
#[derive(Drop)]
pub struct Units {
    items: Vec<u16>,
}

impl Model for Units {
    ghost Value = { List ℕ };

    ghost view = { λ u. u.items.items };
}

impl Units {
    /// The empty text. It takes no memory.
    pub fn new(alloc: Global) -> Units
        ensures { result ≡ [] }
    {
        Units {
            items: Vec::new(alloc),
        }
    }

    /// Adds a unit at the end. Where memory runs out the text is as before.
    pub fn push(&mut self, unit: u16) -> Result<(), AllocError>
        ensures ok { OnOk result (self.new ≡ self.old ++ unit ∷ []) }
        ensures err { OnErr result (self.new ≡ self.old) }
    {
        self.items.push(unit)?;
        Ok(())
    }

    /// Adds the units of a code point at the end (ECMA-262, 11.1.1): one, or a surrogate pair from 0x10000 on.
    /// Where memory runs out the text is as before, and no half of a pair stands.
    pub fn push_code_point(&mut self, code_point: u32) -> Result<(), AllocError>
        requires { code_point < 0x200000 }
        ensures ok { OnOk result (self.new ≡ self.old ++ utf16 code_point) }
        ensures err { OnErr result (self.new ≡ self.old) }
    {
        if code_point < 0x10000 {
            return self.push(code_point as u16);
        }
        let above = code_point - 0x10000;
        let pair = [
            (0xD800 + above / 0x400) as u16,
            (0xDC00 + above % 0x400) as u16,
        ];
        self.items.extend_from_slice(&pair)?;
        Ok(())
    }

    /// The units, from the first on.
    pub fn as_slice(&self) -> &[u16]
        ensures { result.now ≡ self.now }
    {
        self.items.as_slice()
    }

    /// A text of these units. It takes two bytes of memory for each.
    pub fn from_units(alloc: Global, units: &[u16]) -> Result<Units, AllocError>
        ensures { IfOk result (λ text. text ≡ units.now) }
    {
        let mut items = Vec::new(alloc);
        items.extend_from_slice(units)?;
        Ok(Units { items })
    }

    /// Reads UTF-8 (Unicode 15, table 3-7). Each byte that belongs to no well-formed sequence is read as
    /// one U+FFFD (own rule; ECMA-262 reads no bytes).
    pub fn from_utf8(alloc: Global, bytes: &[u8]) -> Result<Units, AllocError>
        ensures { IfOk result (λ text. text ≡ units bytes.now) }
    {
        let mut text = Units::new(alloc);
        let mut rest = bytes;
        while !rest.is_empty() {
            let (sequence, after) = rest.split_at(sequence_length(rest));
            text.push_code_point(scalar_value(sequence))?;
            rest = after;
        }
        Ok(text)
    }
}
