ghost use Rattle.std.specs.Prelude.{◌≡◌, ◌≤◌, ◌++◌, [], length, drop, Some, IfOk};
ghost use Rattle.std.specs.Result.{is_err};
ghost use Rattle.xs_base.specs.Outside.{HasCause, Receives};
ghost use Rattle.xs_base.specs.MemSink.{after_write, is_refused, standing};

use crate::{Fail, Fails, Sink, WriteFault};
use std::alloc::{AllocError, Global};
use std::marker::Model;

/// A sink in memory, whose listed calls fail. (Own rule.)
///
/// Contracts see what is written, the room, the listed calls, and the counts of calls and of faults.
/// All of the room is reserved by `new`, and no later call takes memory.
#[derive(Drop)]
pub struct MemSink {
    bytes: Vec<u8>,
    room: usize,
    fails: Fails,
    calls: u64,
    faults: u64,
}

impl Model for MemSink {
    ghost use Rattle.std.specs.Prelude.{◌≤◌, vec_len, vec_capacity};
    ghost use Rattle.xs_base.specs.MemSink.{SinkInMemory};

    ghost Value = { SinkInMemory };

    ghost view = { λ a. record { written = a.bytes.items; room = a.room; fails = a.fails; calls = a.calls; faults = a.faults } };

    ghost invariant = { λ a. (vec_len a.bytes ≤ a.room) × (a.room ≤ vec_capacity a.bytes) };
}

impl MemSink {
    /// An empty sink with room for so many bytes, of which it reserves all.
    pub fn new(alloc: Global, room: u32, fails: Fails) -> Result<MemSink, AllocError>
        ensures { IfOk result (λ sink. sink ≡ record { written = []; room = room; fails = fails; calls = 0; faults = 0 }) }
    {
        let room = room as usize;
        Ok(MemSink {
            bytes: Vec::with_capacity(alloc, room)?,
            room,
            fails,
            calls: 0,
            faults: 0,
        })
    }

    /// All bytes received so far. Takes no memory.
    pub fn written(&self) -> &[u8]
        ensures bytes { result.now ≡ self.now.written }
        ensures within { length result.now ≤ self.now.room }
    {
        &self.bytes
    }
}

// What stands of a write within the room.
fn standing_part(fail: Option<Fail>, bytes: &[u8]) -> &[u8]
    ensures part { result.now ≡ standing fail bytes.now }
    ensures within { length result.now ≤ length bytes.now }
    ensures front { bytes.now ≡ result.now ++ drop (length result.now) bytes.now }
{
    let count = match fail {
        None => bytes.len(),
        Some(fail) => match fail.stands {
            None => 0,
            Some(count) => bytes.len().min(count as usize),
        },
    };
    let (front, _) = bytes.split_at(count);
    front
}

impl Sink for MemSink {
    ghost written = { λ sink. Some sink.written };

    ghost faults = { λ sink. sink.faults };

    /// Fails exactly where the call is listed or the write would pass the room. In the latter case nothing
    /// is written, also where the call is listed. Takes no memory.
    fn write(&mut self, bytes: &[u8]) -> Result<(), WriteFault>
        ensures bytes { Receives (Some self.old.written) (Some self.new.written) result bytes.now }
        ensures cause { HasCause self.old.faults self.new.faults result }
        ensures fault { is_err result ≡ is_refused self.old bytes.now }
        ensures after { self.new ≡ after_write self.old bytes.now }
    {
        self.calls = self.calls.saturating_add(1);
        if self.room - self.bytes.len() < bytes.len() {
            self.faults = self.faults.saturating_add(1);
            return Err(WriteFault);
        }
        let fail = self.fails.at(self.calls);
        let _ = self.bytes.extend_from_slice(standing_part(fail, bytes));
        if fail.is_none() {
            return Ok(());
        }
        self.faults = self.faults.saturating_add(1);
        Err(WriteFault)
    }
}
