//! Room for a heap, reserved before it starts.

ghost use Rattle.std.specs.Prelude.{◌≡◌, ◌/◌, [], false, IfOk};
ghost use Rattle.slot_heap.specs.Held.{Reserved};
ghost use Rattle.slot_heap.specs.Shown.{low};
ghost use Rattle.slot_heap.specs.Texts.{words};

use super::jobs::Jobs;
use super::slots::Slots;
use super::texts::Texts;
use js_value::Room;
use std::alloc::{AllocError, Global};
use std::marker::Model;

/// Room that nothing uses yet.
#[derive(Drop)]
pub struct Reserve {
    slots: Slots,
    texts: Texts,
    jobs: Jobs,
    copies: Vec<u32>,
    room: Room,
    aliases: u32,
    names: u32,
}

impl Model for Reserve {
    ghost use Rattle.std.specs.Prelude.{◌≡◌, ◌/◌, [], false};
    ghost use Rattle.slot_heap.specs.Held.{Reserved};
    ghost use Rattle.slot_heap.specs.Shown.{low};
    ghost use Rattle.slot_heap.specs.Texts.{words};

    ghost Value = { Reserved };

    ghost view = { λ r. record { room = r.room; aliases = r.aliases; names = r.names } };

    ghost invariant = { λ r. (r.slots ≡ low [] [] r.room.slots) × (r.texts ≡ words [] [] false 0 0 r.room.units r.room.names) × (r.jobs ≡ record { waiting = []; reserved = r.room.slots / 4 }) };
}

impl Reserve {
    /// Reserves the slots, units and names of `room`, a job for every 4 of its slots, and so many
    /// entries of an alias table. Looking for a name takes no room, however many there are. A slot
    /// takes 24 bytes and a mark of one, a unit 2, a name 8, an entry 4.
    ///
    /// Its one refusal is want of memory.
    pub fn of(alloc: Global, room: Room, aliases: u32, names: u32) -> Result<Reserve, AllocError>
        ensures { IfOk result (λ r. r ≡ record { room = room; aliases = aliases; names = names }) }
    {
        Ok(Reserve {
            slots: Slots::reserve(alloc, room.slots)?,
            texts: Texts::reserve(alloc, room.units, room.names)?,
            jobs: Jobs::reserve(alloc, room.slots / 4)?,
            copies: Vec::with_capacity(alloc, aliases as usize)?,
            room,
            aliases,
            names,
        })
    }

    // What was reserved.
    pub(crate) fn parts(self) -> (Slots, Texts, Jobs, Room)
        ensures slots { result.0 ≡ low [] [] self.room.slots }
        ensures texts { result.1 ≡ words [] [] false 0 0 self.room.units self.room.names }
        ensures jobs { result.2 ≡ record { waiting = []; reserved = self.room.slots / 4 } }
        ensures room { result.3 ≡ self.room }
    {
        (self.slots, self.texts, self.jobs, self.room)
    }
}
