//! Texts in one list of units that only grows, and names, which are some of them.

ghost use Rattle.std.specs.Prelude.{◌≡◌, ℕ, ◌+◌, ◌-◌, ◌<◌, ◌≤◌, ◌^◌, ◌++◌, ◌∷◌, [], length, take, drop, get_or, slice_get, Some, true, false, IfOk, MatchOption};
ghost use Rattle.std.specs.Bool.{Decides};
ghost use Rattle.std.specs.List.{All};
ghost use Rattle.slot_heap.specs.Texts.{IsText, NoName, opened, span_of, text_of, Within, word_of, Words};

use super::slot::Value;
use std::alloc::{AllocError, Global};
use std::marker::Model;

/// The units of all texts, the names, and the text that is being made, in room that is reserved
/// once. A text and a name are the place of their first unit, from 0, and their length.
#[derive(Drop)]
pub struct Texts {
    units: Vec<u16>,
    names: Vec<(u32, u32)>,
    is_open: bool,
    start: u32,
    end: u32,
    reserved_units: u32,
    reserved_names: u32,
}

impl Model for Texts {
    ghost use Rattle.std.specs.Prelude.{vec_capacity};
    ghost use Rattle.slot_heap.specs.Texts.{TextsKept, Words, words};

    ghost Value = { Words };

    ghost view = { λ t. words t.units.items t.names.items t.is_open t.start t.end t.reserved_units t.reserved_names };

    ghost invariant = { λ t. TextsKept (words t.units.items t.names.items t.is_open t.start t.end t.reserved_units t.reserved_names) (vec_capacity t.units) (vec_capacity t.names) };
}

impl Texts {
    /// Room for so many units and names. Its one refusal is want of memory.
    pub fn reserve(alloc: Global, units: u32, names: u32) -> Result<Texts, AllocError>
        ensures { IfOk result (λ t. t ≡ record { units = []; names = []; is_open = false; start = 0; end = 0; reserved_units = units; reserved_names = names }) }
    {
        Ok(Texts {
            units: Vec::with_capacity(alloc, units as usize)?,
            names: Vec::with_capacity(alloc, names as usize)?,
            is_open: false,
            start: 0,
            end: 0,
            reserved_units: units,
            reserved_names: names,
        })
    }

    /// How many names stand.
    pub fn names(&self) -> u32
        ensures count { result ≡ length self.now.names }
        ensures room { length self.now.names ≤ self.now.reserved_names }
        ensures named { All (Within self.now.units) self.now.names }
        ensures apart { (n m : ℕ) → n < length self.now.names → m < length self.now.names → word_of self.now n ≡ word_of self.now m → n ≡ m }
        ensures closed { self.now.is_open ≡ false → length self.now.units ≡ self.now.end }
    {
        self.names.len() as u32
    }

    /// For how many more units there is room.
    pub fn spare_units(&self) -> u32
        ensures { result ≡ self.now.reserved_units - self.now.end }
    {
        self.reserved_units - self.end
    }

    /// For how many more names there is room.
    pub fn spare_names(&self) -> u32
        ensures { result ≡ self.now.reserved_names - length self.now.names }
    {
        self.reserved_names - self.names.len() as u32
    }

    /// Where a string stands.
    pub fn span(&self, text: Value) -> (u32, u32)
        requires { IsText self.now text }
        ensures span { result ≡ span_of self.now text }
        ensures within { Within self.now.units result }
    {
        match text {
            Value::Name(name) => self.names[name as usize],
            Value::Text(at, length) => (at, length),
            _ => (0, 0),
        }
    }

    /// The unit of a text at a place, from 0.
    pub fn unit(&self, span: (u32, u32), at: u32) -> u16
        requires stands { Within self.now.units span }
        requires below { at < span.1 }
        ensures { slice_get (text_of self.now.units span) at ≡ Some result }
    {
        self.units[span.0 as usize + at as usize]
    }

    /// Begins a text of so many units. None is open, and there is room.
    pub fn open(&mut self, count: u32)
        requires closed { self.old.is_open ≡ false }
        requires room { self.old.end + count ≤ self.old.reserved_units }
        ensures { self.new ≡ record self.old { is_open = true; start = self.old.end; end = self.old.end + count } }
    {
        self.is_open = true;
        self.start = self.end;
        self.end += count;
    }

    /// Adds a unit to the open text.
    pub fn push(&mut self, unit: u16)
        requires open { self.old.is_open ≡ true }
        requires room { length self.old.units < self.old.end }
        ensures { self.new ≡ record self.old { units = self.old.units ++ unit ∷ [] } }
    {
        self.units.push_reserved(unit);
    }

    /// Adds the units of a text from one place to another to the open text.
    pub fn push_text(&mut self, span: (u32, u32), from: u32, to: u32)
        requires open { self.old.is_open ≡ true }
        requires stands { Within self.old.units span }
        requires order { from ≤ to }
        requires within { to ≤ span.1 }
        requires room { length self.old.units + (to - from) ≤ self.old.end }
        ensures { self.new ≡ record self.old { units = self.old.units ++ take (to - from) (drop from (text_of self.old.units span)) } }
    {
        for at in from..to {
            let unit = self.unit(span, at);
            self.push(unit);
        }
    }

    /// Ends the open text, which has all its units.
    pub fn close(&mut self) -> (u32, u32)
        requires open { self.old.is_open ≡ true }
        requires full { length self.old.units ≡ self.old.end }
        ensures same { self.new ≡ record self.old { is_open = false } }
        ensures made { text_of self.new.units result ≡ opened self.old }
        ensures stands { Within self.new.units result }
    {
        self.is_open = false;
        (self.start, self.end - self.start)
    }

    /// The name that is a text.
    pub fn find(&self, span: (u32, u32)) -> Option<u16>
        requires { Within self.now.units span }
        ensures { MatchOption result (NoName self.now (text_of self.now.units span)) (λ n. (n < length self.now.names) × (word_of self.now n ≡ text_of self.now.units span)) }
    {
        let mut at = 0usize;
        while at < self.names.len() {
            if same(&self.units, self.names[at], span) {
                return Some(at as u16);
            }
            at += 1;
        }
        None
    }

    /// Makes a text a name. No name is that text, and there is room.
    pub fn add_name(&mut self, span: (u32, u32)) -> u16
        requires stands { Within self.old.units span }
        requires new { NoName self.old (text_of self.old.units span) }
        requires room { length self.old.names < self.old.reserved_names }
        requires few { length self.old.names < 65535 }
        ensures number { result ≡ length self.old.names }
        ensures names { self.new ≡ record self.old { names = self.old.names ++ span ∷ [] } }
    {
        let number = self.names.len() as u16;
        self.names.push_reserved(span);
        number
    }
}

// Whether two texts have the same units.
fn same(units: &[u16], a: (u32, u32), b: (u32, u32)) -> bool
    requires first { Within units.now a }
    requires second { Within units.now b }
    ensures { Decides result (text_of units.now a ≡ text_of units.now b) }
{
    let left = &units[a.0 as usize..a.0 as usize + a.1 as usize];
    let right = &units[b.0 as usize..b.0 as usize + b.1 as usize];
    left == right
}
