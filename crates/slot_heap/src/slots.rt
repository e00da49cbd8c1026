//! The slots: things in chains, in room that is reserved once.

ghost use Rattle.std.specs.Prelude.{◌≡◌, ℕ, ◌+◌, ◌-◌, ◌<◌, ◌≤◌, ◌^◌, [], length, get_or, slice_get, IsTrue, IfOk, IfSome, option_map, Some, vec_capacity, vec_len, Bool};
ghost use Prim.Native.Nat.{suc};
ghost use Rattle.slot_heap.specs.Slot.{blank, head_slot, is_object_kind, stored};
ghost use Rattle.slot_heap.specs.Chains.{address, cell, Chained};
ghost use Rattle.slot_heap.specs.Shown.{all, cells, home, is_thing, left, next_address, Owned, places, Stands, thing};
ghost use Rattle.slot_heap.specs.Steps.{Added, Made, new_cells, Removed, Replaced};
ghost use Rattle.slot_heap.specs.Writes.{put_behind, put_over, put_past};

use super::slot::{Kind, Ref, Slot, SlotAt};
use std::alloc::{AllocError, Global};
use std::marker::Model;

/// Slots in RAM, each in the chain of a thing, and of each whether a thing begins there.
#[derive(Drop)]
pub struct Slots {
    ram: Vec<Slot>,
    begins: Vec<bool>,
    reserved: u32,
}

impl Model for Slots {
    ghost use Rattle.std.specs.Prelude.{vec_capacity, vec_len};
    ghost use Rattle.slot_heap.specs.Shown.{Low, low, Kept};

    ghost Value = { Low };

    ghost view = { λ s. low s.ram.items s.begins.items s.reserved };

    ghost invariant = { λ s. Kept (low s.ram.items s.begins.items s.reserved) (vec_len s.ram) (vec_capacity s.ram) (vec_len s.begins) (vec_capacity s.begins) };
}

/// A slot with nothing in it.
pub const BLANK: Slot = Slot {
    next: 0,
    key: 0,
    kind: 0,
    flags: 0,
    value: 0,
    last: 0,
};

impl Slots {
    /// Room for so many slots. Its one refusal is want of memory.
    pub fn reserve(alloc: Global, reserved: u32) -> Result<Slots, AllocError>
        ensures { IfOk result (λ s. s ≡ record { ram = []; begins = []; reserved = reserved }) }
    {
        let ram = Vec::with_capacity(alloc, reserved as usize)?;
        let begins = Vec::with_capacity(alloc, reserved as usize)?;
        Ok(Slots {
            ram,
            begins,
            reserved,
        })
    }

    /// Gives what all slots keep to a caller's proof. Runs nothing.
    pub fn chained(&self)
        ensures chained { Chained (thing self.now) (home self.now) (all self.now) }
        ensures marked { length self.now.begins ≡ length self.now.ram }
        ensures within { length self.now.ram ≤ self.now.reserved }
        ensures word { self.now.reserved < 2 ^ 32 }
    {
        let _ram = &self.ram;
    }

    /// How many slots there are.
    pub fn count(&self) -> u32
        ensures { result ≡ length self.now.ram }
    {
        self.ram.len() as u32
    }

    /// For how many more there is room.
    pub fn spare(&self) -> u32
        ensures { result ≡ self.now.reserved - length self.now.ram }
    {
        self.reserved - self.ram.len() as u32
    }

    /// What stands at an address.
    pub fn slot(&self, at: SlotAt) -> Slot
        requires above { 0 < at.0 }
        requires within { at.0 ≤ length (all self.now) }
        ensures slot { result ≡ get_or (all self.now) (at.0 - 1) blank }
        ensures cell { (r k : ℕ) → Stands self.now r k at.0 → slice_get (cells self.now r) k ≡ Some (cell result) }
    {
        self.chained();
        self.ram[at.0 as usize - 1]
    }

    /// Where a thing's chain begins.
    pub fn first(&self, r: Ref) -> SlotAt
        requires thing { IsTrue (is_thing self.now r.0) }
        ensures stands { Stands self.now r.0 0 result.0 }
        ensures chained { Chained (thing self.now) (home self.now) (all self.now) }
        ensures within { (0 < result.0) × (result.0 ≤ length (all self.now)) }
    {
        self.chained();
        SlotAt(r.0)
    }

    /// The slot that follows the one at an address.
    pub fn next(&self, at: SlotAt) -> Option<SlotAt>
        requires above { 0 < at.0 }
        requires within { at.0 ≤ length (all self.now) }
        ensures next { option_map (λ n. n.0) result ≡ address (get_or (all self.now) (at.0 - 1) blank).next }
        ensures along { (r k : ℕ) → Stands self.now r k at.0 → option_map (λ n. n.0) result ≡ slice_get (places self.now r) (suc k) }
        ensures within { IfSome result (λ n. (0 < n.0) × (n.0 ≤ length (all self.now))) }
        ensures nearer { (r k : ℕ) → Stands self.now r k at.0 → IfSome result (λ n. left self.now n.0 < left self.now at.0) }
    {
        self.chained();
        let next = self.slot(at).next;
        if next == 0 { None } else { Some(SlotAt(next)) }
    }

    /// Makes a thing with blank internals. There is room.
    pub fn make(&mut self, kind: Kind, prototype: Ref, internals: u32) -> Ref
        requires room { length self.old.ram + (1 + internals) ≤ self.old.reserved }
        ensures reserved { self.new.reserved ≡ self.old.reserved }
        ensures made { Made self.old result.0 (new_cells kind prototype.0 internals) self.new }
    {
        self.chained();
        let r = self.begin(kind, prototype);
        let mut last = SlotAt(r.0);
        for _i in 0..internals {
            last = self.link(r, last, BLANK);
        }
        r
    }

    // A thing of one slot. There is room.
    fn begin(&mut self, kind: Kind, prototype: Ref) -> Ref
        requires room { length self.old.ram < self.old.reserved }
        ensures reserved { self.new.reserved ≡ self.old.reserved }
        ensures made { Made self.old result.0 (new_cells kind prototype.0 0) self.new }
        ensures stands { Stands self.new result.0 0 result.0 }
        ensures alone { length (places self.new result.0) ≡ 1 }
    {
        self.chained();
        let at = self.ram.len() as u32 + 1;
        self.ram.push_reserved(head(kind, prototype));
        self.begins.push_reserved(true);
        Ref(at)
    }

    /// Puts a slot behind one of r's slots. There is room.
    pub fn link(&mut self, r: Ref, after: SlotAt, slot: Slot) -> SlotAt
        requires room { length self.old.ram < self.old.reserved }
        requires owned { Owned self.old r.0 }
        requires of_it { (k : ℕ) × Stands self.old r.0 k after.0 }
        ensures at { result.0 ≡ next_address self.old }
        ensures reserved { self.new.reserved ≡ self.old.reserved }
        ensures added { (k : ℕ) → Stands self.old r.0 k after.0 → Added self.old r.0 k slot self.new }
    {
        self.chained();
        let at = self.ram.len() as u32 + 1;
        link_slots(&mut self.ram, after.0 - 1, slot, at);
        self.begins.push_reserved(false);
        SlotAt(at)
    }

    /// Puts a slot in the place of one of a thing's slots.
    pub fn put(&mut self, at: SlotAt, slot: Slot)
        requires of_it { (r k : ℕ) × Owned self.old r × Stands self.old r k at.0 }
        ensures reserved { self.new.reserved ≡ self.old.reserved }
        ensures replaced { (r k : ℕ) → Stands self.old r k at.0 → Replaced self.old r k slot self.new }
    {
        self.chained();
        let place = at.0 - 1;
        let is_head = self.begins[place as usize];
        put_slot(&mut self.ram, place, is_head, slot);
    }

    /// Leaves out the slot after one of r's slots, which isn't the last.
    pub fn cut(&mut self, r: Ref, after: SlotAt)
        requires owned { Owned self.old r.0 }
        requires of_it { (k : ℕ) × Stands self.old r.0 k after.0 × (suc k < length (places self.old r.0)) }
        ensures reserved { self.new.reserved ≡ self.old.reserved }
        ensures removed { (k : ℕ) → Stands self.old r.0 k after.0 → Removed self.old r.0 k self.new }
    {
        self.chained();
        cut_slot(&mut self.ram, after.0 - 1);
    }
}

fn head(kind: Kind, prototype: Ref) -> Slot
    ensures { result ≡ head_slot kind prototype.0 }
{
    let byte = kind.byte();
    Slot {
        kind: byte,
        flags: if byte <= 6 { 1 } else { 0 },
        value: prototype.0 as u64 * 0x1_0000_0000,
        ..BLANK
    }
}

fn is_object(kind: u8) -> bool
    ensures { result ≡ is_object_kind kind }
{
    kind >= 1 && kind <= 6
}

// What stands where a slot is put in the place of an old one.
fn keep(old: Slot, is_head: bool, slot: Slot) -> Slot
    ensures { result ≡ record (stored is_head old slot) { next = old.next } }
{
    let mut kept = Slot {
        next: old.next,
        ..slot
    };
    if is_head {
        kept.last = old.last;
    }
    if is_head && is_object(old.kind) {
        kept.value = slot.value / 0x1_0000_0000 * 0x1_0000_0000 + old.value % 0x1_0000_0000;
    }
    kept
}

// Puts a slot behind the one at a place, where its address is known.
fn link_slots(ram: &mut Vec<Slot>, place: u32, slot: Slot, at: u32)
    requires room { vec_len ram.old < vec_capacity ram.old }
    requires within { place < vec_len ram.old }
    ensures items { ram.new.items ≡ put_behind ram.old.items place slot at }
    ensures len { vec_len ram.new ≡ vec_len ram.old + 1 }
    ensures capacity { vec_capacity ram.new ≡ vec_capacity ram.old }
{
    let next = ram[place as usize].next;
    ram.push_reserved(Slot { next, ..slot });
    ram[place as usize].next = at;
}

fn put_slot(ram: &mut Vec<Slot>, place: u32, is_head: bool, slot: Slot)
    requires within { place < vec_len ram.old }
    ensures items { ram.new.items ≡ put_over ram.old.items place is_head slot }
    ensures len { vec_len ram.new ≡ vec_len ram.old }
    ensures capacity { vec_capacity ram.new ≡ vec_capacity ram.old }
{
    let old = ram[place as usize];
    ram[place as usize] = keep(old, is_head, slot);
}

fn cut_slot(ram: &mut Vec<Slot>, place: u32)
    requires within { place < vec_len ram.old }
    requires some { 0 < (get_or ram.old.items place blank).next }
    requires next { (get_or ram.old.items place blank).next ≤ vec_len ram.old }
    ensures items { ram.new.items ≡ put_past ram.old.items place }
    ensures len { vec_len ram.new ≡ vec_len ram.old }
    ensures capacity { vec_capacity ram.new ≡ vec_capacity ram.old }
{
    let next = ram[place as usize].next;
    let over = ram[next as usize - 1].next;
    ram[place as usize].next = over;
}
