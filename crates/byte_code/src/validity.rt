//! The test of a function's code.
#![tactic(auto)]

ghost use Rattle.std.specs.Prelude.{◌≡◌, ◌<◌, ◌≤◌, ℕ, ◌+◌, ◌*◌, true, false, List, length, Option, Some, None, IfSome, IfNone, IsTrue, ◌↔◌, MatchOption, slice_index};
ghost use Rattle.std.specs.Bool.{OnTrue, OnFalse};
ghost use Rattle.byte_code.specs.Instructions.{parts, spelling};
ghost use Rattle.byte_code.specs.Effects.{effect};
ghost use Rattle.byte_code.specs.ValidCode.{IsValid, target, goes_on, height_after};
ghost use Rattle.byte_code.specs.Checking.{known, Agrees, entry, Pass, Marks, Refuses, Takes, RefusesAny, HandlerFits, HandlersFit};
ghost use Rattle.byte_code.specs.Frames.{bounds_of};

use crate::effect::{effect, goes_on, jump_target};
use crate::frame::{Frame, HANDLER_BYTES, handler_at, is_handler, is_in_bounds};
use crate::instruction::{Op, decode, operand};

/// The most bytes of a code.
pub const CODE_BYTES: usize = 65_535;

/// The height at an instruction: that of the instruction before, if that goes on, and of the earlier
/// jumps to it; without these 1 at a handler's target and 0 elsewhere. None where they don't fit.
fn entry(handler: bool, before: Option<u16>, pending: Option<u16>) -> Option<u16>
    ensures { result ≡ entry handler before pending }
{
    match (before, pending) {
        (None, None) => Some(u16::from(handler)),
        _ if handler => None,
        (Some(height), Some(jumped)) => (height == jumped).then_some(height),
        (before, pending) => before.or(pending),
    }
}

/// The height after an instruction. None where it doesn't find what it takes, or passes the frame's
/// operands.
fn height_after(op: Op, height: u16, operands: u16) -> Option<u16>
    ensures some { IfSome result (λ g.
        ((effect op).pops ≤ height) × (height ≤ operands) × (g ≤ operands)
        × (g ≡ height_after op height)) }
    ensures none { IfNone result
        ((effect op).pops ≤ height → height ≤ operands → height_after op height ≤ operands → ⊥) }
{
    let change = effect(op);
    if height < change.pops || height > operands {
        return None;
    }
    let kept = height - change.pops;
    if operands < change.pushes || operands - change.pushes < kept {
        return None;
    }
    Some(kept + change.pushes)
}

/// Whether no height is known at the places from `from` to before `to`.
fn are_free(heights: &[Option<u16>], from: usize, to: usize) -> bool
    requires { to ≤ length heights.now }
    ensures { IsTrue result ↔ ((q : ℕ) → from ≤ q → q < to → known heights.now q ≡ None) }
{
    for place in from..to {
        if heights[place].is_some() {
            return false;
        }
    }
    true
}

/// Whether a jump back to `to` with this height is right: it leaves height 0, and a `turn` with
/// height 0 stands there.
fn lands_on_turn(code: &[u8], heights: &[Option<u16>], to: usize, height: u16) -> bool
    requires inside { to < length code.now }
    requires heights { length code.now ≤ length heights.now }
    ensures { IsTrue result ↔ ((height ≡ 0) × (known heights.now to ≡ Some 0) × (slice_index code.now to ≡ 51)) }
{
    height == 0 && heights[to] == Some(0) && code[to] == 0x33
}

/// Whether the height that is known at a place, if any, is this one.
fn agrees(known: Option<u16>, height: u16) -> bool
    ensures { IsTrue result ↔ Agrees known height }
{
    known.is_none_or(|known| known == height)
}

/// Takes a jump from `at` to `to` with this height into account. False where it isn't right.
fn mark(code: &[u8], heights: &mut [Option<u16>], at: usize, to: usize, height: u16) -> bool
    requires inside { at < length code.now }
    requires heights { length code.now ≤ length heights.old }
    ensures marked { OnTrue result (Marks code.now heights.old heights.new at to height) }
    ensures refused { OnFalse result (Refuses code.now heights.old at to height) }
{
    if to <= at {
        return lands_on_turn(code, heights, to, height);
    }
    if to >= code.len() || !agrees(heights[to], height) {
        return false;
    }
    heights[to] = Some(height);
    true
}

/// Takes an instruction's jump into account, if it has one.
fn mark_jump(
    code: &[u8],
    heights: &mut [Option<u16>],
    at: usize,
    jump: Option<u16>,
    height: u16,
) -> bool
    requires inside { at < length code.now }
    requires heights { length code.now ≤ length heights.old }
    ensures marked { OnTrue result (Takes code.now heights.old heights.new at jump height) }
    ensures refused { OnFalse result (RefusesAny code.now heights.old at jump height) }
{
    match jump {
        Some(to) => mark(code, heights, at, to as usize, height),
        None => true,
    }
}

/// Where the pass over a code stands, and the height of the instruction before if that goes on.
#[derive(Clone, Copy)]
struct Front {
    at: usize,
    before: Option<u16>,
}

/// Passes one instruction. None where the code isn't valid.
fn step(code: &[u8], frame: Frame<'_>, front: Front, heights: &mut [Option<u16>]) -> Option<Front>
    requires within { front.at < length code.now }
    requires pass { Pass code.now (bounds_of frame) heights.old front.at front.before }
    ensures some { IfSome result (λ next.
        Pass code.now (bounds_of frame.entry) heights.new next.at next.before
        × (front.at < next.at) × (next.at ≤ length code.now)) }
    ensures none { IfNone result (IsValid code.now (bounds_of frame.entry) → ⊥) }
{
    let (op, count) = decode(code, front.at)?;
    if !is_in_bounds(operand(op), frame) {
        return None;
    }
    let handler = is_handler(frame.handlers, front.at);
    let height = entry(handler, front.before, heights[front.at])?;
    let after = height_after(op, height, frame.operands)?;
    heights[front.at] = Some(height);
    if !mark_jump(code, heights, front.at, jump_target(op), after) {
        return None;
    }
    let at = front.at + count;
    if !are_free(heights, front.at + 1, at) {
        return None;
    }
    let before = if goes_on(op) { Some(after) } else { None };
    Some(Front { at, before })
}

/// Passes all instructions, and leaves the height of each. False where the code isn't valid.
fn pass(code: &[u8], frame: Frame<'_>, heights: &mut [Option<u16>]) -> bool
    requires room { length code.now ≤ length heights.old }
    requires fresh { (q : ℕ) → known heights.old q ≡ None }
    ensures passed { OnTrue result (Pass code.now (bounds_of frame.entry) heights.new (length code.now) None) }
    ensures refused { OnFalse result (IsValid code.now (bounds_of frame.entry) → ⊥) }
{
    let mut front = Front {
        at: 0,
        before: Some(0),
    };
    while front.at < code.len() {
        match step(code, frame, front, heights) {
            Some(next) => front = next,
            None => return false,
        }
    }
    front.before.is_none()
}

/// Whether a handler's target lies after its start and not before its end, and its bounds and its
/// target are instructions.
fn handler_fits(handlers: &[u8], place: usize, size: usize, heights: &[Option<u16>]) -> bool
    requires place { 6 * place + 6 ≤ length handlers.now }
    requires room { size ≤ length heights.now }
    ensures { IsTrue result ↔ HandlerFits heights.now size handlers.now place }
{
    let handler = handler_at(handlers, place);
    let (from, to, target) = (
        handler.from as usize,
        handler.to as usize,
        handler.target as usize,
    );
    if from >= target || to > target || target >= size {
        return false;
    }
    heights[from].is_some() && heights[to].is_some() && heights[target].is_some()
}

/// Whether all handlers fit the instructions.
fn handlers_fit(handlers: &[u8], size: usize, heights: &[Option<u16>]) -> bool
    requires { size ≤ length heights.now }
    ensures { IsTrue result ↔ HandlersFit heights.now size handlers.now }
{
    if handlers.len() % HANDLER_BYTES != 0 {
        return false;
    }
    for place in 0..handlers.len() / HANDLER_BYTES {
        if !handler_fits(handlers, place, size, heights) {
            return false;
        }
    }
    true
}

/// Whether a function's code is valid: a machine that runs it never meets a missing operand, a jump
/// out of the code or an operand outside the frame, and every way that comes back to an instruction
/// passes a `turn` (own rule). The code has at most 65,535 bytes.
///
/// It takes no memory but an array on the stack with an entry for each byte that a code may have, of
/// four bytes each. Its time is proportional to the code's length times one more than the number of
/// handlers.
pub fn valid(code: &[u8], frame: Frame<'_>) -> bool
    requires { length code.now ≤ 65535 }
    ensures { IsTrue result ↔ IsValid code.now (bounds_of frame.entry) }
{
    let mut heights = [None; CODE_BYTES];
    pass(code, frame, &mut heights) && handlers_fit(frame.handlers, code.len(), &heights)
}
