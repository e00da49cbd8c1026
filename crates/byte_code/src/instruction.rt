//! The table of instructions, and the three functions that it is expanded in.
#![tactic(auto)]

ghost use Rattle.std.specs.Prelude.{◌≡◌, ◌≤◌, ◌<◌, ℕ, ◌+◌, ◌++◌, List, length, drop, Option, Some, None, IfSome, IfNone, OnOk, OnErr, IsTrue, ◌↔◌};
ghost use Rattle.byte_code.specs.Operands.{operand_bytes, IsRead};
ghost use Rattle.byte_code.specs.Instructions.{parts, spelling, IsShortest, IsInstruction, Begins};
ghost use Rattle.byte_code.specs.declared.instruction.Op.{Op};

use crate::bytes::CodeBytes;
use crate::operand::{Following, JUMP_BYTES, NAME_BYTES, Operand, PAIR_BYTES, read_following};
use std::alloc::AllocError;

/// An instruction with its operand (own rule): the number of a name (from 1), of a place, of an
/// outer cell or of a function, an offset in the code, a count, a row of a table or a mode.
#[derive(Clone, Copy, Debug, PartialEq, Eq)]
pub enum Op {
    Undefined,
    Null,
    True,
    False,
    Int(i8),
    Mid(i32),
    Long(i64),
    Text(u16),
    This,
    Pop,
    Dup,
    Dup2,
    Swap,
    Rot3,
    Rot4,
    LocalGet(u16),
    LocalPut(u16),
    LocalCheck(u16),
    LocalClear(u16),
    BoxLet(u16),
    BoxConst(u16),
    BoxGet(u16),
    BoxInit(u16),
    BoxPut(u16),
    BoxCopy(u16),
    OuterGet(u16),
    OuterInit(u16),
    OuterPut(u16),
    Global(u8),
    Get(u16),
    GetKey,
    Set(u16),
    SetKey,
    Delete(u16),
    DeleteKey,
    SuperGet(u16),
    SuperGetKey,
    SuperSet(u16),
    SuperSetKey,
    In,
    InstanceOf,
    Binary(u8),
    Unary(u8),
    Typeof,
    ToText,
    Join(u8),
    ToKey,
    Jump(u16),
    JumpIf(u16),
    JumpUnless(u16),
    JumpValue(u16),
    Turn,
    Call(u8),
    New(u8),
    SuperCall(u8),
    BindThis,
    Return,
    Throw,
    ThrowMessage(u8),
    Function(u16),
    Method(u16),
    Class(u16),
    ClassExtends(u16),
    Object,
    Array,
    Append,
    Define(u8),
    NameIt(u8),
}

// The instructions in the order of their numbers: the number, the variant and, where there is an
// operand, its width (a field of `Following`) and its kind (a variant of `Operand`).
macro_rules! instructions {
    ($row:ident $($context:ident)*) => {
        $row! { $($context)*
            0x00 Undefined;
            0x01 Null;
            0x02 True;
            0x03 False;
            0x04 Int(int8: Int8);
            0x05 Mid(int32: Int32);
            0x06 Long(int64: Int64);
            0x07 Text(name: Name);
            0x08 This;
            0x09 Pop;
            0x0A Dup;
            0x0B Dup2;
            0x0C Swap;
            0x0D Rot3;
            0x0E Rot4;
            0x0F LocalGet(pair: Place);
            0x10 LocalPut(pair: Place);
            0x11 LocalCheck(pair: Place);
            0x12 LocalClear(pair: Place);
            0x13 BoxLet(pair: Place);
            0x14 BoxConst(pair: Place);
            0x15 BoxGet(pair: Place);
            0x16 BoxInit(pair: Place);
            0x17 BoxPut(pair: Place);
            0x18 BoxCopy(pair: Place);
            0x19 OuterGet(pair: Outer);
            0x1A OuterInit(pair: Outer);
            0x1B OuterPut(pair: Outer);
            0x1C Global(byte: Global);
            0x1D Get(name: Name);
            0x1E GetKey;
            0x1F Set(name: Name);
            0x20 SetKey;
            0x21 Delete(name: Name);
            0x22 DeleteKey;
            0x23 SuperGet(name: Name);
            0x24 SuperGetKey;
            0x25 SuperSet(name: Name);
            0x26 SuperSetKey;
            0x27 In;
            0x28 InstanceOf;
            0x29 Binary(byte: BinaryRow);
            0x2A Unary(byte: UnaryRow);
            0x2B Typeof;
            0x2C ToText;
            0x2D Join(byte: Count);
            0x2E ToKey;
            0x2F Jump(jump: Jump);
            0x30 JumpIf(jump: Jump);
            0x31 JumpUnless(jump: Jump);
            0x32 JumpValue(jump: Jump);
            0x33 Turn;
            0x34 Call(byte: Count);
            0x35 New(byte: Count);
            0x36 SuperCall(byte: Count);
            0x37 BindThis;
            0x38 Return;
            0x39 Throw;
            0x3A ThrowMessage(byte: Message);
            0x3B Function(pair: Function);
            0x3C Method(pair: Function);
            0x3D Class(pair: Function);
            0x3E ClassExtends(pair: Function);
            0x3F Object;
            0x40 Array;
            0x41 Append;
            0x42 Define(byte: DefineMode);
            0x43 NameIt(byte: NameMode);
        }
    };
}

macro_rules! parts {
    ($op:ident $($number:literal $name:ident $(($value:ident: $kind:ident))?;)*) => {
        match $op {
            $(Op::$name $(($value))? => ($number, operand!($($kind $value)?)),)*
        }
    };
}

macro_rules! operand {
    () => { Operand::Nothing };
    ($kind:ident $value:ident) => { Operand::$kind($value) };
}

macro_rules! lengths {
    ($op:ident $($number:literal $name:ident $(($width:ident: $kind:ident))?;)*) => {
        match $op {
            $(Op::$name $((any!($width)))? => 1 $(+ bytes!($width))?,)*
        }
    };
}

macro_rules! any {
    ($width:ident) => { _ };
}

macro_rules! read {
    ($number:ident $after:ident $($value:literal $name:ident $(($width:ident: $kind:ident))?;)*) => {
        match $number {
            $($value => Some(Op::$name $(($after.$width))?),)*
            0x44..=0xFF => None,
        }
    };
}

macro_rules! bytes {
    (byte) => { 1 };
    (int8) => { 1 };
    (int32) => { 4 };
    (int64) => { 8 };
    (pair) => { PAIR_BYTES };
    (name) => { NAME_BYTES };
    (jump) => { JUMP_BYTES };
}

/// The number of bytes of an instruction, that of its number included: 1 to 9.
pub fn length(op: Op) -> usize
    ensures { result ≡ length (spelling op) }
{
    instructions!(lengths op)
}

/// The number of an instruction and its operand.
fn number_and_operand(op: Op) -> (u8, Operand)
    ensures number { result.0 ≡ (parts op).0 }
    ensures operand { result.1 ≡ (parts op).1 }
{
    instructions!(parts op)
}

/// The operand of an instruction.
pub fn operand(op: Op) -> Operand
    ensures { result ≡ (parts op).1 }
{
    number_and_operand(op).1
}

/// The instruction of a number, with the operand that follows it. None exactly where no instruction
/// has the number.
fn instruction_of(number: u8, after: Following) -> Option<Op>
    ensures some { IfSome result (λ op. ((parts op).0 ≡ number) × IsRead after (parts op).1) }
    ensures none { IfNone result (68 ≤ number) }
{
    instructions!(read number after)
}

/// Puts an instruction's bytes at the end: its number, then its operand, the highest byte first. Of
/// `Int`, `Mid` and `Long` the caller takes the shortest that holds the number. The one error is
/// want of memory, and leaves the bytes as they were. `into` grows by 1 to 9 bytes (own rule).
pub fn encode(into: &mut CodeBytes, op: Op) -> Result<(), AllocError>
    requires { IsShortest op }
    ensures ok { OnOk result (into.new ≡ into.old ++ spelling op) }
    ensures err { OnErr result (into.new ≡ into.old) }
{
    let (number, operand) = number_and_operand(op);
    let mut bytes = [number, 0, 0, 0, 0, 0, 0, 0, 0];
    let count = operand.write(&mut bytes[1..]);
    into.extend(&bytes[..count + 1])
}

/// The instruction whose spelling begins at a place of the code, from 0, and its number of bytes.
/// None exactly where no instruction's spelling begins there: at and past the end, at a number that
/// no instruction has, at an operand that is cut off, and at a signed number that a shorter
/// instruction holds. Rows, modes and numbers are not looked at otherwise. It takes no memory (own
/// rule).
pub fn decode(code: &[u8], at: usize) -> Option<(Op, usize)>
    ensures found { IfSome result (λ found.
        IsInstruction found.0 × Begins (drop at code.now) found.0
        × (found.1 ≡ length (spelling found.0))) }
    ensures spelled { (op : Op) → IsInstruction op → Begins (drop at code.now) op →
        result ≡ Some (op, length (spelling op)) }
    ensures none { IfNone result
        ((op : Op) → IsInstruction op → Begins (drop at code.now) op → ⊥) }
{
    let number = *code.get(at)?;
    let (_, rest) = code.split_at(at + 1);
    let op = instruction_of(number, read_following(rest))?;
    let count = length(op);
    if count > rest.len() + 1 || !is_shortest(op) {
        return None;
    }
    Some((op, count))
}

/// Whether a number on the way to the stack has the shortest of its spellings.
fn is_shortest(op: Op) -> bool
    ensures { IsTrue result ↔ IsShortest op }
{
    match op {
        Op::Mid(number) => i8::try_from(number).is_err(),
        Op::Long(number) => i32::try_from(number).is_err(),
        _ => true,
    }
}
