ghost use Rattle.std.specs.Prelude.{◌≡◌, ◌≢◌, ◌≤◌, ◌<◌, ◌+◌, length, take, drop, true, Some, IfOk, IfSome};
ghost use Rattle.std.specs.List.{position};
ghost use Rattle.std.specs.Result.{is_err};
ghost use Rattle.xs_base.specs.Outside.{HasCause};
ghost use Rattle.xs_base.specs.Line.{GivesLine, IsLine, next_line, is_line_feed};
ghost use Rattle.xs_base.specs.MemLines.{after_line, is_refused};

use crate::{Fails, LineBuffer, Lines, ReadFault};
use std::alloc::{AllocError, Global};
use std::marker::Model;

/// How many bytes a line has at most.
const MOST: usize = 65535;

/// An input in memory, whose listed calls fail. (Own rule.)
///
/// Contracts see the bytes that are left, the listed calls, and the counts of calls and of faults.
/// No call but `new` takes memory.
#[derive(Drop)]
pub struct MemLines {
    bytes: Vec<u8>,
    at: usize,
    fails: Fails,
    calls: u64,
    faults: u64,
}

impl Model for MemLines {
    ghost use Rattle.std.specs.Prelude.{◌≤◌, drop, vec_len};
    ghost use Rattle.xs_base.specs.MemLines.{LinesInMemory};

    ghost Value = { LinesInMemory };

    ghost view = { λ a. record { left = drop a.at a.bytes.items; fails = a.fails; calls = a.calls; faults = a.faults } };

    ghost invariant = { λ a. a.at ≤ vec_len a.bytes };
}

impl MemLines {
    /// An input with these bytes, which it copies.
    pub fn new(alloc: Global, bytes: &[u8], fails: Fails) -> Result<MemLines, AllocError>
        ensures { IfOk result (λ lines. lines ≡ record { left = bytes.now; fails = fails; calls = 0; faults = 0 }) }
    {
        Ok(MemLines {
            bytes: Vec::from_slice(alloc, bytes)?,
            at: 0,
            fails,
            calls: 0,
            faults: 0,
        })
    }

    /// The bytes that are left. Takes no memory.
    pub fn left(&self) -> &[u8]
        ensures { result.now ≡ self.now.left }
    {
        let (_, left) = self.bytes.split_at(self.at);
        left
    }
}

// How many bytes the next line has, and how many are taken with it.
#[derive(Clone, Copy)]
struct Cut {
    line: usize,
    taken: usize,
}

fn next_cut(left: &[u8]) -> Cut
    requires { 0 < length left.now }
    ensures line { next_line left.now ≡ Some (take result.line left.now, drop result.taken left.now) }
    ensures shape { IsLine (take result.line left.now) }
    ensures order { result.line ≤ result.taken }
    ensures within { result.taken ≤ length left.now }
{
    let (window, _) = left.split_at(MOST.min(left.len()));
    match first_line_feed(window) {
        Some(end) => Cut {
            line: end,
            taken: end + 1,
        },
        None => Cut {
            line: window.len(),
            taken: window.len(),
        },
    }
}

fn first_line_feed(bytes: &[u8]) -> Option<usize>
    ensures place { result ≡ position is_line_feed bytes.now }
    ensures within { IfSome result (λ i. i < length bytes.now) }
{
    bytes.iter().position(|byte| *byte == b'\n')
}

impl Lines for MemLines {
    ghost left = { λ lines. Some lines.left };

    ghost faults = { λ lines. lines.faults };

    /// Fails exactly where the call is listed. The buffer stays where no line is given. Takes no memory.
    fn line(&mut self, into: &mut LineBuffer) -> Result<bool, ReadFault>
        ensures line { GivesLine (Some self.old.left) (Some self.new.left) result into.new }
        ensures shape { result ≡ Ok true → IsLine into.new }
        ensures cause { HasCause self.old.faults self.new.faults result }
        ensures fault { is_err result ≡ is_refused self.old }
        ensures after { self.new ≡ after_line self.old }
        ensures buffer { result ≢ Ok true → into.new ≡ into.old }
    {
        self.calls = self.calls.saturating_add(1);
        if self.fails.at(self.calls).is_some() {
            self.faults = self.faults.saturating_add(1);
            return Err(ReadFault);
        }
        let (_, left) = self.bytes.split_at(self.at);
        if left.is_empty() {
            return Ok(false);
        }
        let cut = next_cut(left);
        let (line, _) = left.split_at(cut.line);
        into.set(line);
        self.at += cut.taken;
        Ok(true)
    }
}
