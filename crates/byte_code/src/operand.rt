//! What stands after an instruction's number, and its bytes. The widths of all operands are here.
#![tactic(auto)]

ghost use Rattle.std.specs.Prelude.{◌≡◌, ◌≤◌, ◌<◌, ℕ, ◌+◌, ◌∷◌, ◌++◌, length, take, drop, slice_index};
ghost use Rattle.byteorder.specs.Endian.{big_bytes};
ghost use Rattle.byte_code.specs.Operands.{operand_bytes, name_bytes, IsFollowing};

use byteorder::{BigEndian, ByteOrder};

/// The number of bytes of a name's number.
pub const NAME_BYTES: usize = 2;

/// The number of bytes of a code offset.
pub const JUMP_BYTES: usize = 2;

/// The number of bytes of a place, an outer number and a function's number.
pub const PAIR_BYTES: usize = 2;

/// The most bytes that an operand has.
pub const MOST_BYTES: usize = 8;

/// What stands after an instruction's number: nothing, a signed number, or a number whose meaning
/// the variant names.
#[derive(Clone, Copy)]
pub enum Operand {
    Nothing,
    Int8(i8),
    Int32(i32),
    Int64(i64),
    Name(u16),
    Place(u16),
    Outer(u16),
    Jump(u16),
    Function(u16),
    Count(u8),
    Global(u8),
    BinaryRow(u8),
    UnaryRow(u8),
    Message(u8),
    DefineMode(u8),
    NameMode(u8),
}

impl Operand {
    /// Writes the operand's bytes at the front of `into`, and gives their number.
    pub fn write(self, into: &mut [u8]) -> usize
        requires { 8 ≤ length into.old }
        ensures bytes { into.new ≡ operand_bytes self ++ drop result into.old }
        ensures count { result ≡ length (operand_bytes self) }
    {
        match self {
            Operand::Nothing => 0,
            Operand::Int8(number) => write_byte(into, number.cast_unsigned()),
            Operand::Int32(number) => {
                BigEndian::write_i32(into, number);
                4
            }
            Operand::Int64(number) => {
                BigEndian::write_i64(into, number);
                8
            }
            Operand::Name(number) => {
                BigEndian::write_u16(into, number);
                NAME_BYTES
            }
            Operand::Jump(number) => {
                BigEndian::write_u16(into, number);
                JUMP_BYTES
            }
            Operand::Place(number) => write_pair(into, number),
            Operand::Outer(number) => write_pair(into, number),
            Operand::Function(number) => write_pair(into, number),
            Operand::Count(number) => write_byte(into, number),
            Operand::Global(number) => write_byte(into, number),
            Operand::BinaryRow(number) => write_byte(into, number),
            Operand::UnaryRow(number) => write_byte(into, number),
            Operand::Message(number) => write_byte(into, number),
            Operand::DefineMode(number) => write_byte(into, number),
            Operand::NameMode(number) => write_byte(into, number),
        }
    }
}

fn write_byte(into: &mut [u8], number: u8) -> usize
    requires { 1 ≤ length into.old }
    ensures bytes { into.new ≡ number ∷ drop 1 into.old }
    ensures count { result ≡ 1 }
{
    into[0] = number;
    1
}

fn write_pair(into: &mut [u8], number: u16) -> usize
    requires { 2 ≤ length into.old }
    ensures bytes { into.new ≡ big_bytes 2 number ++ drop 2 into.old }
    ensures count { result ≡ 2 }
{
    BigEndian::write_u16(into, number);
    PAIR_BYTES
}

/// What the bytes after an instruction's number are as an operand of each width. A byte that isn't
/// there counts as 0.
#[derive(Clone, Copy)]
pub struct Following {
    pub byte: u8,
    pub pair: u16,
    pub name: u16,
    pub jump: u16,
    pub int8: i8,
    pub int32: i32,
    pub int64: i64,
}

/// Reads the bytes at each width.
pub fn read_following(bytes: &[u8]) -> Following
    ensures { IsFollowing bytes.now result }
{
    let front = padded(bytes);
    Following {
        byte: front[0],
        pair: BigEndian::read_u16(&front),
        name: BigEndian::read_u16(&front),
        jump: BigEndian::read_u16(&front),
        int8: front[0].cast_signed(),
        int32: BigEndian::read_i32(&front),
        int64: BigEndian::read_i64(&front),
    }
}

/// The first bytes, with zeros where there are fewer.
fn padded(bytes: &[u8]) -> [u8; MOST_BYTES]
    ensures { (i : ℕ) → i < 8 → slice_index result i ≡ slice_index bytes.now i }
{
    let mut front = [0; MOST_BYTES];
    let count = bytes.len().min(MOST_BYTES);
    front[..count].copy_from_slice(&bytes[..count]);
    front
}

/// Writes a name's number over the bytes at a place.
pub fn write_name(bytes: &mut [u8], at: usize, number: u16)
    requires { at + 2 ≤ length bytes.old }
    ensures { bytes.new ≡ take at bytes.old ++ (name_bytes number ++ drop (at + 2) bytes.old) }
{
    let (_, from) = bytes.split_at_mut(at);
    BigEndian::write_u16(from, number);
}
