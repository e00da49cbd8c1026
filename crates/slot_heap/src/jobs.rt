//! The jobs that wait: first in, first out.

ghost use Rattle.std.specs.Prelude.{◌≡◌, ◌<◌, ◌++◌, ◌∷◌, [], length, IfOk, option_to_list, slice_get, Some, None};
ghost use Rattle.slot_heap.specs.Queue.{Queue};

use super::slot::Job;
use std::alloc::{AllocError, Global};
use std::collections::VecDeque;
use std::marker::Model;

/// A queue of jobs in room that is reserved once.
#[derive(Drop)]
pub struct Jobs {
    waiting: VecDeque<Job>,
    reserved: u32,
}

impl Model for Jobs {
    ghost use Rattle.std.specs.Prelude.{◌≡◌, ◌≤◌, ◌<◌, ◌^◌, length};
    ghost use Rattle.std.specs.VecDeque.{deque_len, deque_capacity};
    ghost use Rattle.slot_heap.specs.Queue.{Queue};

    ghost Value = { Queue };

    ghost view = { λ q. record { waiting = q.waiting.items; reserved = q.reserved } };

    ghost invariant = { λ q. (deque_len q.waiting ≤ q.reserved) × (q.reserved ≤ deque_capacity q.waiting) × (q.reserved < 2 ^ 32) };
}

impl Jobs {
    /// Room for so many jobs. Its one refusal is want of memory.
    pub fn reserve(alloc: Global, reserved: u32) -> Result<Jobs, AllocError>
        ensures { IfOk result (λ q. q ≡ record { waiting = []; reserved = reserved }) }
    {
        let waiting = VecDeque::with_capacity(alloc, reserved as usize)?;
        Ok(Jobs { waiting, reserved })
    }

    /// Adds the youngest.
    pub fn push(&mut self, job: Job)
        requires room { length self.old.waiting < self.old.reserved }
        ensures { self.new ≡ record self.old { waiting = self.old.waiting ++ job ∷ [] } }
    {
        let _ = self.waiting.push_back(job);
    }

    /// Takes the oldest; None where none waits.
    pub fn pop(&mut self) -> Option<Job>
        ensures taken { self.old.waiting ≡ option_to_list result ++ self.new.waiting }
        ensures none { result ≡ None → self.old.waiting ≡ [] }
        ensures rest { self.new.reserved ≡ self.old.reserved }
    {
        self.waiting.pop_front()
    }

    /// How many wait.
    pub fn count(&self) -> u32
        ensures { result ≡ length self.now.waiting }
    {
        self.waiting.len() as u32
    }

    /// The job at a place, from 0, the oldest first.
    pub fn get(&self, at: u32) -> Job
        requires { at < length self.now.waiting }
        ensures { slice_get self.now.waiting at ≡ Some result }
    {
        self.waiting[at as usize]
    }
}
