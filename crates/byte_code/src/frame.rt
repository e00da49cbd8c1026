//! What bounds a function's code: its frame and its handlers.
#![tactic(auto)]

ghost use Rattle.std.specs.Prelude.{◌≡◌, ◌<◌, ◌≤◌, ℕ, ◌+◌, ◌*◌, length, IsTrue, ◌↔◌};
ghost use Rattle.byte_code.specs.ValidCode.{Bounds, IsHandler, IsInBounds, range_start, range_end, handler_target};
ghost use Rattle.byte_code.specs.Frames.{bounds_of};

use crate::operand::Operand;
use byteorder::{BigEndian, ByteOrder};

/// The counts that bound a code's operands, and its handlers: for each, innermost first, the start
/// and the end of its range and its target, two bytes each, the highest byte first (own rule).
#[derive(Clone, Copy)]
pub struct Frame<'a> {
    /// All places, the parameters among them.
    pub places: u16,
    /// The greatest height of the operand stack.
    pub operands: u16,
    /// The entries of the outer list.
    pub outers: u16,
    /// The functions of the module, the body among them.
    pub functions: u16,
    /// The names, which are numbered from 1.
    pub names: u16,
    pub handlers: &'a [u8],
}

/// The bytes of a handler.
pub const HANDLER_BYTES: usize = 6;

/// A range of a code, and where a throw in it leads.
#[derive(Clone, Copy)]
pub struct Handler {
    pub from: u16,
    pub to: u16,
    pub target: u16,
}

/// The handler at a place of the list, from 0.
pub fn handler_at(handlers: &[u8], place: usize) -> Handler
    requires { 6 * place + 6 ≤ length handlers.now }
    ensures from { result.from ≡ range_start handlers.now place }
    ensures to { result.to ≡ range_end handlers.now place }
    ensures target { result.target ≡ handler_target handlers.now place }
{
    let at = HANDLER_BYTES * place;
    Handler {
        from: BigEndian::read_u16(handlers.split_at(at).1),
        to: BigEndian::read_u16(handlers.split_at(at + 2).1),
        target: BigEndian::read_u16(handlers.split_at(at + 4).1),
    }
}

/// Whether a place of the code is the target of a handler.
pub fn is_handler(handlers: &[u8], at: usize) -> bool
    ensures { IsTrue result ↔ IsHandler handlers.now at }
{
    for place in 0..handlers.len() / HANDLER_BYTES {
        if handler_at(handlers, place).target as usize == at {
            return true;
        }
    }
    false
}

/// Whether an operand names something that the frame or the tables of rows have.
pub fn is_in_bounds(operand: Operand, frame: Frame<'_>) -> bool
    ensures { IsTrue result ↔ IsInBounds (bounds_of frame.entry) operand }
{
    match operand {
        Operand::Int64(number) => {
            (-9_007_199_254_740_991..=9_007_199_254_740_991).contains(&number)
        }
        Operand::Name(name) => 1 <= name && name <= frame.names,
        Operand::Place(place) => place < frame.places,
        Operand::Outer(outer) => outer < frame.outers,
        Operand::Function(function) => 1 <= function && function < frame.functions,
        Operand::Global(row) => row < 15,
        Operand::BinaryRow(row) => row < 20,
        Operand::UnaryRow(row) => row < 4,
        Operand::Message(message) => 1 <= message && message <= 24,
        Operand::DefineMode(mode) => mode < 6,
        Operand::NameMode(mode) => mode < 3,
        _ => true,
    }
}
