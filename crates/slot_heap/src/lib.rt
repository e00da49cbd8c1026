//! The store of the machine: slots in chains, texts, names and jobs in room that is reserved once.
#![tactic(auto)]

mod heap;
mod jobs;
mod reserve;
mod rom;
mod slot;
mod slots;
mod texts;

pub use heap::Heap;
pub use js_value::{Full, Room};
pub use reserve::Reserve;
pub use rom::Rom;
pub use slot::{Job, Key, Kind, Ref, Slot, SlotAt, Value};

#[cfg(test)]
mod tests;
