//! What each instruction does with the stack, and where it leads.
#![tactic(auto)]

ghost use Rattle.std.specs.Prelude.{◌≡◌};
ghost use Rattle.byte_code.specs.Effects.{effect};
ghost use Rattle.byte_code.specs.ValidCode.{target, goes_on};

use crate::instruction::Op;

/// How many values an instruction takes from the stack, and how many it puts there.
#[derive(Clone, Copy)]
pub struct Change {
    pub pops: u16,
    pub pushes: u16,
}

/// What an instruction takes and puts.
pub fn effect(op: Op) -> Change
    ensures pops { result.pops ≡ (effect op).pops }
    ensures pushes { result.pushes ≡ (effect op).pushes }
{
    match op {
        Op::Undefined
        | Op::Null
        | Op::True
        | Op::False
        | Op::Int(_)
        | Op::Mid(_)
        | Op::Long(_)
        | Op::Text(_)
        | Op::This
        | Op::LocalGet(_)
        | Op::BoxGet(_)
        | Op::OuterGet(_)
        | Op::Global(_)
        | Op::ThrowMessage(_)
        | Op::Function(_)
        | Op::Object
        | Op::Array => Change { pops: 0, pushes: 1 },
        Op::Pop
        | Op::LocalPut(_)
        | Op::BoxInit(_)
        | Op::BoxPut(_)
        | Op::OuterInit(_)
        | Op::OuterPut(_)
        | Op::JumpIf(_)
        | Op::JumpUnless(_)
        | Op::JumpValue(_)
        | Op::Return
        | Op::Throw => Change { pops: 1, pushes: 0 },
        Op::Dup | Op::ClassExtends(_) => Change { pops: 1, pushes: 2 },
        Op::Dup2 => Change { pops: 2, pushes: 4 },
        Op::Swap | Op::ToKey | Op::NameIt(_) => Change { pops: 2, pushes: 2 },
        Op::Rot3 => Change { pops: 3, pushes: 3 },
        Op::Rot4 => Change { pops: 4, pushes: 4 },
        Op::LocalCheck(_)
        | Op::LocalClear(_)
        | Op::BoxLet(_)
        | Op::BoxConst(_)
        | Op::BoxCopy(_)
        | Op::Jump(_)
        | Op::Turn => Change { pops: 0, pushes: 0 },
        Op::Get(_)
        | Op::Delete(_)
        | Op::SuperGet(_)
        | Op::Unary(_)
        | Op::Typeof
        | Op::ToText
        | Op::BindThis => Change { pops: 1, pushes: 1 },
        Op::GetKey
        | Op::Set(_)
        | Op::DeleteKey
        | Op::SuperGetKey
        | Op::SuperSet(_)
        | Op::In
        | Op::InstanceOf
        | Op::Binary(_)
        | Op::Append => Change { pops: 2, pushes: 1 },
        Op::SetKey | Op::SuperSetKey | Op::Define(_) => Change { pops: 3, pushes: 1 },
        Op::Join(count) => Change {
            pops: count as u16,
            pushes: 1,
        },
        Op::SuperCall(count) => Change {
            pops: count as u16,
            pushes: 1,
        },
        Op::Call(count) => Change {
            pops: count as u16 + 2,
            pushes: 1,
        },
        Op::New(count) => Change {
            pops: count as u16 + 1,
            pushes: 1,
        },
        Op::Method(_) => Change { pops: 2, pushes: 3 },
        Op::Class(_) => Change { pops: 0, pushes: 2 },
    }
}

/// Where an instruction jumps to.
pub fn jump_target(op: Op) -> Option<u16>
    ensures { result ≡ target op }
{
    match op {
        Op::Jump(to) | Op::JumpIf(to) | Op::JumpUnless(to) | Op::JumpValue(to) => Some(to),
        _ => None,
    }
}

/// Whether an instruction goes on to the one after it.
pub fn goes_on(op: Op) -> bool
    ensures { result ≡ goes_on op }
{
    !matches!(op, Op::Jump(_) | Op::Return | Op::Throw)
}
