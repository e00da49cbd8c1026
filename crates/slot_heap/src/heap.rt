//! The heap: what is lent, slots, texts with names, and jobs, with what is used of each.

ghost use Rattle.std.specs.Prelude.{◌≡◌, ◌⊎◌, ℕ, ◌+◌, ◌-◌, ◌*◌, ◌/◌, ◌<◌, ◌≤◌, ◌^◌, ◌↔◌, ◌++◌, ◌∷◌, [], length, take, drop, get_or, slice_get, slice_index_or, IsTrue, IsErr, IfOk, IfErr, IfSome, OnOk, OnErr, MatchResult, MatchOption, Some, None, true, false, option_map};
ghost use Rattle.std.specs.List.{All};
ghost use Prim.Native.Nat.{suc};
ghost use Rattle.slot_heap.specs.Slot.{blank};
ghost use Rattle.slot_heap.specs.Chains.{address, cell, Chained};
ghost use Rattle.slot_heap.specs.Shown.{all, cells, copy_cost, home, is_thing, left, next_address, Owned, places, Stands, thing};
ghost use Rattle.slot_heap.specs.Steps.{Added, Made, new_cells, Removed, Replaced};
ghost use Rattle.slot_heap.specs.Texts.{IsText, NoName, opened, span_of, text_in, Within, word_of};
ghost use Rattle.slot_heap.specs.Held.{Counted, full_of, Held, Holds, NamedAs, names_more, no_room, realm_of, slots_more, spare, started, units_more};
ghost use Rattle.slot_heap.specs.Standing.{ValueStands};
ghost use Rattle.slot_heap.specs.Sound.{IsJob, Sound};

use super::jobs::Jobs;
use super::reserve::Reserve;
use super::rom::Rom;
use super::slot::{Job, Kind, Ref, Slot, SlotAt, Value};
use super::slots::Slots;
use super::texts::Texts;
use js_value::{Full, Room};
use std::marker::Model;

/// The store of a machine. After its start it takes no memory.
#[derive(Drop)]
pub struct Heap<'a> {
    rom: Rom<'a>,
    slots: Slots,
    texts: Texts,
    jobs: Jobs,
    used: Room,
    limit: Room,
}

impl<'a> Model for Heap<'a> {
    ghost use Rattle.slot_heap.specs.Held.{Counted, Held, held};

    ghost Value = { Held };

    ghost view = { λ h. held h.rom h.slots h.texts h.jobs h.used h.limit };

    ghost invariant = { λ h. Counted (held h.rom h.slots h.texts h.jobs h.used h.limit) };
}

impl<'a> Heap<'a> {
    /// A heap over a ROM. Its limits are the reserve's room, and nothing of it is used.
    pub fn start(rom: Rom<'a>, reserve: Reserve) -> Heap<'a>
        requires aliases { rom.aliases ≤ reserve.aliases }
        requires searched { length rom.names ≤ reserve.names }
        requires names { length rom.names + reserve.room.names < 2 ^ 16 }
        requires slots { length rom.slots + reserve.room.slots < 2 ^ 32 }
        requires units { length rom.units + reserve.room.units < 2 ^ 32 }
        ensures started { result ≡ started rom.entry reserve.room }
        ensures sound { Sound result }
    {
        let (slots, texts, jobs, room) = reserve.parts();
        Heap {
            rom,
            slots,
            texts,
            jobs,
            used: NO_ROOM,
            limit: room,
        }
    }

    /// What stands at an address.
    pub fn slot(&self, at: SlotAt) -> Slot
        requires above { 0 < at.0 }
        requires within { at.0 ≤ length (all self.now.slots) }
        ensures slot { result ≡ get_or (all self.now.slots) (at.0 - 1) blank }
        ensures cell { (r k : ℕ) → Stands self.now.slots r k at.0 → slice_get (cells self.now.slots r) k ≡ Some (cell result) }
    {
        self.slots.slot(at)
    }

    /// Where a thing's chain begins.
    pub fn first(&self, r: Ref) -> SlotAt
        requires thing { IsTrue (is_thing self.now.slots r.0) }
        ensures stands { Stands self.now.slots r.0 0 result.0 }
        ensures chained { Chained (thing self.now.slots) (home self.now.slots) (all self.now.slots) }
        ensures within { (0 < result.0) × (result.0 ≤ length (all self.now.slots)) }
    {
        self.slots.first(r)
    }

    /// The slot that follows the one at an address; None where none does.
    pub fn next(&self, at: SlotAt) -> Option<SlotAt>
        requires above { 0 < at.0 }
        requires within { at.0 ≤ length (all self.now.slots) }
        ensures next { option_map (λ n. n.0) result ≡ address (get_or (all self.now.slots) (at.0 - 1) blank).next }
        ensures along { (r k : ℕ) → Stands self.now.slots r k at.0 → option_map (λ n. n.0) result ≡ slice_get (places self.now.slots r) (suc k) }
        ensures within { IfSome result (λ n. (0 < n.0) × (n.0 ≤ length (all self.now.slots))) }
        ensures nearer { (r k : ℕ) → Stands self.now.slots r k at.0 → IfSome result (λ n. left self.now.slots n.0 < left self.now.slots at.0) }
    {
        self.slots.next(at)
    }

    /// The length of a string, in units.
    pub fn length(&self, text: Value) -> u32
        requires { IsText self.now.words text }
        ensures { result ≡ length (text_in self.now.words text) }
    {
        self.texts.span(text).1
    }

    /// The unit of a string at a place, from 0.
    pub fn unit(&self, text: Value, at: u32) -> u16
        requires stands { IsText self.now.words text }
        requires below { at < length (text_in self.now.words text) }
        ensures { slice_get (text_in self.now.words text) at ≡ Some result }
    {
        self.texts.unit(self.texts.span(text), at)
    }

    /// The name that is a string.
    pub fn find_name(&self, text: Value) -> Option<u16>
        requires { IsText self.now.words text }
        ensures { MatchOption result (NoName self.now.words (text_in self.now.words text)) (λ n. (n < length self.now.words.names) × (word_of self.now.words n ≡ text_in self.now.words text)) }
    {
        self.texts.find(self.texts.span(text))
    }

    /// How many names stand. No two are the same text.
    pub fn names(&self) -> u32
        ensures count { result ≡ length self.now.words.names }
        ensures named { All (Within self.now.words.units) self.now.words.names }
        ensures apart { (n m : ℕ) → n < length self.now.words.names → m < length self.now.words.names → word_of self.now.words n ≡ word_of self.now.words m → n ≡ m }
        ensures closed { self.now.words.is_open ≡ false → length self.now.words.units ≡ self.now.words.end }
    {
        self.texts.names()
    }

    /// What was used since the start or the last restart.
    pub fn used(&self) -> Room
        ensures used { result ≡ self.now.used }
        ensures counted { Counted self.now }
    {
        self.used
    }

    /// How many slots the ROM has. They have the addresses from 1 on.
    pub fn rom_slots(&self) -> u32
        ensures { result ≡ length self.now.rom.slots }
    {
        self.rom.slots()
    }

    /// What was reserved and holds nothing yet.
    pub fn spare(&self) -> Room
        ensures { result ≡ spare self.now }
    {
        Room {
            slots: self.slots.spare(),
            units: self.texts.spare_units(),
            names: self.texts.spare_names(),
        }
    }

    /// Begins to count anew, with other limits. All that the heap holds stays.
    pub fn restart(&mut self, room: Room)
        requires room { Holds (spare self.old) room }
        requires idle { self.old.jobs.waiting ≡ [] }
        ensures restarted { self.new ≡ record self.old { used = no_room; limit = room } }
        ensures sound { Sound self.old → Sound self.new }
    {
        self.used = NO_ROOM;
        self.limit = room;
    }

    /// Whether so much more stays within the limits, tested in the order units, names, slots.
    pub fn fits(&self, asked: Room) -> Result<(), Full>
        ensures { MatchResult result (λ _. full_of self.now.used self.now.limit asked ≡ None) (λ e. full_of self.now.used self.now.limit asked ≡ Some e) }
    {
        if self.limit.units - self.used.units < asked.units {
            return Err(Full::Units);
        }
        if self.limit.names - self.used.names < asked.names {
            return Err(Full::Names);
        }
        if self.limit.slots - self.used.slots < asked.slots {
            return Err(Full::Slots);
        }
        Ok(())
    }

    /// The slots that a copy of a thing would take now.
    pub fn copy_cost(&self, r: Ref) -> u32
        requires thing { IsTrue (is_thing self.now.slots r.0) }
        ensures { result ≡ copy_cost self.now.slots r.0 }
    {
        let _slots = &self.slots;
        0
    }

    /// Puts a slot behind one of a thing's slots. It costs a slot.
    pub fn add(&mut self, r: Ref, after: SlotAt, slot: Slot) -> Result<SlotAt, Full>
        requires owned { Owned self.old.slots r.0 }
        requires of_it { (k : ℕ) × Stands self.old.slots r.0 k after.0 }
        ensures full { MatchResult result (λ _. self.old.used.slots + 1 ≤ self.old.limit.slots) (λ e. (e ≡ Full.Slots) × (self.old.limit.slots < self.old.used.slots + 1)) }
        ensures unchanged { OnErr result (self.new ≡ self.old) }
        ensures at { IfOk result (λ at. at.0 ≡ next_address self.old.slots) }
        ensures added { OnOk result ((k : ℕ) → Stands self.old.slots r.0 k after.0 → Added self.old.slots r.0 k slot self.new.slots) }
        ensures rest { OnOk result (self.new ≡ record self.old { slots = self.new.slots; used = slots_more self.old.used 1 }) }
        ensures reserved { self.new.slots.reserved ≡ self.old.slots.reserved }
    {
        if self.limit.slots == self.used.slots {
            return Err(Full::Slots);
        }
        self.used.slots += 1;
        Ok(self.slots.link(r, after, slot))
    }

    /// Puts a slot in the place of one of a thing's slots: key, kind, flags, value and last are the
    /// new slot's. Its place in the chain stays, and of a thing's first slot also the alias number
    /// and, where it is an object's head, the size. It costs nothing.
    pub fn put(&mut self, at: SlotAt, slot: Slot)
        requires of_it { (r k : ℕ) × Owned self.old.slots r × Stands self.old.slots r k at.0 }
        ensures replaced { (r k : ℕ) → Stands self.old.slots r k at.0 → Replaced self.old.slots r k slot self.new.slots }
        ensures rest { self.new ≡ record self.old { slots = self.new.slots } }
        ensures reserved { self.new.slots.reserved ≡ self.old.slots.reserved }
    {
        self.slots.put(at, slot);
    }

    /// Leaves out the slot after one of a thing's slots, which isn't the last.
    pub fn cut(&mut self, r: Ref, after: SlotAt)
        requires owned { Owned self.old.slots r.0 }
        requires of_it { (k : ℕ) × Stands self.old.slots r.0 k after.0 × (suc k < length (places self.old.slots r.0)) }
        ensures removed { (k : ℕ) → Stands self.old.slots r.0 k after.0 → Removed self.old.slots r.0 k self.new.slots }
        ensures rest { self.new ≡ record self.old { slots = self.new.slots } }
        ensures reserved { self.new.slots.reserved ≡ self.old.slots.reserved }
    {
        self.slots.cut(r, after);
    }

    /// Makes a thing with blank internals. It costs 1 + `internals` slots.
    pub fn instance(&mut self, kind: Kind, prototype: Ref, internals: u32) -> Result<Ref, Full>
        ensures full { MatchResult result (λ _. self.old.used.slots + (1 + internals) ≤ self.old.limit.slots) (λ e. (e ≡ Full.Slots) × (self.old.limit.slots < self.old.used.slots + (1 + internals))) }
        ensures unchanged { OnErr result (self.new ≡ self.old) }
        ensures made { IfOk result (λ r. Made self.old.slots r.0 (new_cells kind prototype.0 internals) self.new.slots) }
        ensures rest { OnOk result (self.new ≡ record self.old { slots = self.new.slots; used = slots_more self.old.used (1 + internals) }) }
        ensures reserved { self.new.slots.reserved ≡ self.old.slots.reserved }
    {
        if self.limit.slots - self.used.slots <= internals {
            return Err(Full::Slots);
        }
        self.used.slots += 1 + internals;
        Ok(self.slots.make(kind, prototype, internals))
    }

    /// Begins a text of so many units, where none is open. It costs them.
    pub fn open_text(&mut self, count: u32) -> Result<(), Full>
        requires closed { self.old.words.is_open ≡ false }
        ensures full { MatchResult result (λ _. self.old.used.units + count ≤ self.old.limit.units) (λ e. (e ≡ Full.Units) × (self.old.limit.units < self.old.used.units + count)) }
        ensures unchanged { OnErr result (self.new ≡ self.old) }
        ensures opened { OnOk result (self.new ≡ record self.old { words = record self.old.words { is_open = true; start = self.old.words.end; end = self.old.words.end + count }; used = units_more self.old.used count }) }
    {
        if self.limit.units - self.used.units < count {
            return Err(Full::Units);
        }
        self.used.units += count;
        self.texts.open(count);
        Ok(())
    }

    /// Adds a unit to the open text.
    pub fn push_unit(&mut self, unit: u16)
        requires open { self.old.words.is_open ≡ true }
        requires room { length self.old.words.units < self.old.words.end }
        ensures { self.new ≡ record self.old { words = record self.old.words { units = self.old.words.units ++ unit ∷ [] } } }
    {
        self.texts.push(unit);
    }

    /// Adds the units of a string from one place to another to the open text.
    pub fn push_text(&mut self, text: Value, from: u32, to: u32)
        requires open { self.old.words.is_open ≡ true }
        requires stands { IsText self.old.words text }
        requires order { from ≤ to }
        requires within { to ≤ length (text_in self.old.words text) }
        requires room { length self.old.words.units + (to - from) ≤ self.old.words.end }
        ensures { self.new ≡ record self.old { words = record self.old.words { units = self.old.words.units ++ take (to - from) (drop from (text_in self.old.words text)) } } }
    {
        self.texts.push_text(self.texts.span(text), from, to);
    }

    /// Ends the open text, which has all its units.
    pub fn close_text(&mut self) -> Value
        requires open { self.old.words.is_open ≡ true }
        requires full { length self.old.words.units ≡ self.old.words.end }
        ensures same { self.new ≡ record self.old { words = record self.old.words { is_open = false } } }
        ensures text { text_in self.new.words result ≡ opened self.old.words }
        ensures stands { IsText self.new.words result }
    {
        let (at, length) = self.texts.close();
        Value::Text(at, length)
    }

    /// The number of the name that a string is. It becomes one if it is none, which costs a name.
    pub fn name(&mut self, text: Value) -> Result<u16, Full>
        requires { IsText self.old.words text }
        ensures full { IsErr result ↔ (NoName self.old.words (text_in self.old.words text) × (self.old.limit.names < self.old.used.names + 1)) }
        ensures limit { IfErr result (λ e. e ≡ Full.Names) }
        ensures unchanged { OnErr result (self.new ≡ self.old) }
        ensures named { IfOk result (λ n. NamedAs self.old (span_of self.old.words text) (text_in self.old.words text) n self.new) }
        ensures sound { Sound self.old → Sound self.new }
    {
        if let Some(number) = self.find_name(text) {
            return Ok(number);
        }
        if self.limit.names == self.used.names {
            return Err(Full::Names);
        }
        self.used.names += 1;
        let span = self.texts.span(text);
        Ok(self.texts.add_name(span))
    }

    /// Adds the youngest job. It costs 4 slots.
    pub fn queue(&mut self, job: Job) -> Result<(), Full>
        ensures full { MatchResult result (λ _. self.old.used.slots + 4 ≤ self.old.limit.slots) (λ e. (e ≡ Full.Slots) × (self.old.limit.slots < self.old.used.slots + 4)) }
        ensures unchanged { OnErr result (self.new ≡ self.old) }
        ensures queued { OnOk result (self.new ≡ record self.old { jobs = record self.old.jobs { waiting = self.old.jobs.waiting ++ job ∷ [] }; used = slots_more self.old.used 4 }) }
        ensures sound { Sound self.old → IsJob self.old.slots job → All (ValueStands self.old) job.values → Sound self.new }
    {
        if self.limit.slots - self.used.slots < 4 {
            return Err(Full::Slots);
        }
        self.used.slots += 4;
        self.jobs.push(job);
        Ok(())
    }

    /// Takes the oldest job; None exactly where none waits.
    pub fn next_job(&mut self) -> Option<Job>
        ensures taken { MatchOption result (self.old.jobs.waiting ≡ []) (λ job. self.old.jobs.waiting ≡ job ∷ self.new.jobs.waiting) }
        ensures none { result ≡ None → self.new ≡ self.old }
        ensures rest { self.new ≡ record self.old { jobs = record self.old.jobs { waiting = self.new.jobs.waiting } } }
        ensures sound { Sound self.old → Sound self.new }
    {
        self.jobs.pop()
    }

    /// The job at a place, from 0, the oldest first.
    pub fn job(&self, at: u32) -> Job
        requires { at < length self.now.jobs.waiting }
        ensures { slice_get self.now.jobs.waiting at ≡ Some result }
    {
        self.jobs.get(at)
    }

    /// How many jobs wait.
    pub fn jobs(&self) -> u32
        ensures { result ≡ length self.now.jobs.waiting }
    {
        self.jobs.count()
    }

    /// The address of the realm's thing at a place, from 0, in a heap whose first things are the
    /// realm's, in order.
    pub fn realm(&self, at: u32) -> Ref
        requires { at < 104 }
        ensures { result.0 ≡ realm_of self.now at }
    {
        let _rom = &self.rom;
        Ref(match at {
            0..=1 => at + 1,
            2..=12 => at + 2,
            13..=101 => 2 * at - 10,
            _ => at + 92,
        })
    }
}

const NO_ROOM: Room = Room {
    slots: 0,
    units: 0,
    names: 0,
};
