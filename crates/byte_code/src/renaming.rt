//! Another numbering of a code's names.
#![tactic(auto)]

ghost use Rattle.std.specs.Prelude.{◌≡◌, ◌≤◌, ℕ, ◌+◌, ◌++◌, length, take, drop};
ghost use Rattle.byte_code.specs.declared.instruction.Op.{Op};
ghost use Rattle.byte_code.specs.Operands.{name_bytes};
ghost use Rattle.byte_code.specs.ValidCode.{Bounds, At, IsValid};
ghost use Rattle.byte_code.specs.Renaming.{renamed, IsCovered, MapsInto, with_names};

use crate::instruction::{decode, operand};
use crate::operand::{Operand, write_name};

/// Gives each name in a code its new number: the entry of `map` for the name, names being numbered
/// from 1. Nothing else changes, and the code's length stays. The code is valid in some frame, and
/// the map has an entry for each name of that frame. It takes no memory and can't be refused (own
/// rule).
pub fn rename(code: &mut [u8], map: &[u16])
    requires { IsCovered code.old map.now }
    ensures renamed { (p : ℕ) (op : Op) → At code.old p op → At code.new p (renamed map.now op) }
    ensures count { length code.new ≡ length code.old }
    ensures valid { (b : Bounds) (names : ℕ) → IsValid code.old b →
        MapsInto map.now b.names names → IsValid code.new (with_names b names) }
{
    let mut at = 0;
    while at < code.len() {
        let Some((op, count)) = decode(code, at) else {
            unreachable!()
        };
        if let Operand::Name(name) = operand(op) {
            write_name(code, at + 1, map[name as usize - 1]);
        }
        at += count;
    }
}
