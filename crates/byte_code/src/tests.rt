use super::*;
use std::process::Abort;
use std::test::Fail;

// Each instruction with an operand at an edge, and its bytes.
const ROWS: [(Op, &[u8]); 68] = [
    (Op::Undefined, &[0x00]),
    (Op::Null, &[0x01]),
    (Op::True, &[0x02]),
    (Op::False, &[0x03]),
    (Op::Int(-128), &[0x04, 0x80]),
    (Op::Mid(-129), &[0x05, 0xFF, 0xFF, 0xFF, 0x7F]),
    (
        Op::Long(9_007_199_254_740_991),
        &[0x06, 0x00, 0x1F, 0xFF, 0xFF, 0xFF, 0xFF, 0xFF, 0xFF],
    ),
    (Op::Text(0x0102), &[0x07, 0x01, 0x02]),
    (Op::This, &[0x08]),
    (Op::Pop, &[0x09]),
    (Op::Dup, &[0x0A]),
    (Op::Dup2, &[0x0B]),
    (Op::Swap, &[0x0C]),
    (Op::Rot3, &[0x0D]),
    (Op::Rot4, &[0x0E]),
    (Op::LocalGet(0xFFFF), &[0x0F, 0xFF, 0xFF]),
    (Op::LocalPut(0x00FF), &[0x10, 0x00, 0xFF]),
    (Op::LocalCheck(0xFF00), &[0x11, 0xFF, 0x00]),
    (Op::LocalClear(0x0102), &[0x12, 0x01, 0x02]),
    (Op::BoxLet(0xFFFF), &[0x13, 0xFF, 0xFF]),
    (Op::BoxConst(0x00FF), &[0x14, 0x00, 0xFF]),
    (Op::BoxGet(0xFF00), &[0x15, 0xFF, 0x00]),
    (Op::BoxInit(0x0102), &[0x16, 0x01, 0x02]),
    (Op::BoxPut(0xFFFF), &[0x17, 0xFF, 0xFF]),
    (Op::BoxCopy(0x00FF), &[0x18, 0x00, 0xFF]),
    (Op::OuterGet(0xFF00), &[0x19, 0xFF, 0x00]),
    (Op::OuterInit(0x0102), &[0x1A, 0x01, 0x02]),
    (Op::OuterPut(0xFFFF), &[0x1B, 0xFF, 0xFF]),
    (Op::Global(0x80), &[0x1C, 0x80]),
    (Op::Get(0xFF00), &[0x1D, 0xFF, 0x00]),
    (Op::GetKey, &[0x1E]),
    (Op::Set(0x0102), &[0x1F, 0x01, 0x02]),
    (Op::SetKey, &[0x20]),
    (Op::Delete(0xFFFF), &[0x21, 0xFF, 0xFF]),
    (Op::DeleteKey, &[0x22]),
    (Op::SuperGet(0x00FF), &[0x23, 0x00, 0xFF]),
    (Op::SuperGetKey, &[0x24]),
    (Op::SuperSet(0xFF00), &[0x25, 0xFF, 0x00]),
    (Op::SuperSetKey, &[0x26]),
    (Op::In, &[0x27]),
    (Op::InstanceOf, &[0x28]),
    (Op::Binary(0x00), &[0x29, 0x00]),
    (Op::Unary(0x7F), &[0x2A, 0x7F]),
    (Op::Typeof, &[0x2B]),
    (Op::ToText, &[0x2C]),
    (Op::Join(0x80), &[0x2D, 0x80]),
    (Op::ToKey, &[0x2E]),
    (Op::Jump(0xFF00), &[0x2F, 0xFF, 0x00]),
    (Op::JumpIf(0x0102), &[0x30, 0x01, 0x02]),
    (Op::JumpUnless(0xFFFF), &[0x31, 0xFF, 0xFF]),
    (Op::JumpValue(0x00FF), &[0x32, 0x00, 0xFF]),
    (Op::Turn, &[0x33]),
    (Op::Call(0xFF), &[0x34, 0xFF]),
    (Op::New(0x00), &[0x35, 0x00]),
    (Op::SuperCall(0x7F), &[0x36, 0x7F]),
    (Op::BindThis, &[0x37]),
    (Op::Return, &[0x38]),
    (Op::Throw, &[0x39]),
    (Op::ThrowMessage(0x80), &[0x3A, 0x80]),
    (Op::Function(0xFF00), &[0x3B, 0xFF, 0x00]),
    (Op::Method(0x0102), &[0x3C, 0x01, 0x02]),
    (Op::Class(0xFFFF), &[0x3D, 0xFF, 0xFF]),
    (Op::ClassExtends(0x00FF), &[0x3E, 0x00, 0xFF]),
    (Op::Object, &[0x3F]),
    (Op::Array, &[0x40]),
    (Op::Append, &[0x41]),
    (Op::Define(0xFF), &[0x42, 0xFF]),
    (Op::NameIt(0x00), &[0x43, 0x00]),
];

#[test]
fn every_row_is_written_and_read(rt: HostRuntime) -> Result<(), Fail> {
    for (op, bytes) in ROWS {
        let (found, count) = decode(bytes, 0).ok_or("no instruction")?;
        assert!(rt; found == op);
        assert_eq!(rt; count, bytes.len());
        assert_eq!(rt; length(found), bytes.len());
        let mut code = CodeBytes::new(rt.alloc());
        encode(&mut code, found)?;
        assert_eq!(rt; code.as_slice(), bytes);
    }
    Ok(())
}

// The body of `import { print } from "host"; print(1 + 2);`.
const BODY: [u8; 15] = [
    0x00, 0x19, 0x00, 0x00, 0x04, 0x01, 0x04, 0x02, 0x29, 0x00, 0x34, 0x01, 0x09, 0x00, 0x38,
];

#[test]
fn a_body_is_read_instruction_by_instruction(rt: HostRuntime) -> Result<(), Fail> {
    let ops = [
        (0, Op::Undefined),
        (1, Op::OuterGet(0)),
        (4, Op::Int(1)),
        (6, Op::Int(2)),
        (8, Op::Binary(0)),
        (10, Op::Call(1)),
        (12, Op::Pop),
        (13, Op::Undefined),
        (14, Op::Return),
    ];
    for (at, op) in ops {
        assert!(rt; decode(&BODY, at) == Some((op, length(op))));
    }
    assert!(rt; decode(&BODY, 15) == None);
    Ok(())
}

#[test]
fn what_no_instruction_spells_is_refused(rt: HostRuntime) -> Result<(), Fail> {
    let refused: [&[u8]; 8] = [
        &[],
        &[0x44],
        &[0xFF, 0x00, 0x00],
        &[0x2F, 0x00],
        &[0x04],
        &[0x05, 0x00, 0x00, 0x00, 0x7F],
        &[0x06, 0xFF, 0xFF, 0xFF, 0xFF, 0x80, 0x00, 0x00, 0x00],
        &[0x06, 0x00, 0x1F, 0xFF, 0xFF, 0xFF, 0xFF, 0xFF],
    ];
    for bytes in refused {
        assert!(rt; decode(bytes, 0) == None);
    }
    Ok(())
}

// No length is taken for a want of memory.
#[test]
fn codes_and_lists_are_as_long_as_wanted(rt: HostRuntime) -> Result<(), Fail> {
    let mut code = CodeBytes::new(rt.alloc());
    let mut list = CodeList::new(rt.alloc());
    for number in 0..9_000u16 {
        encode(&mut code, Op::Long(9_007_199_254_740_991))?;
        code.push(0x38)?;
        list.push(number)?;
    }
    assert_eq!(rt; code.as_slice().len(), 90_000);
    assert_eq!(rt; list.as_slice().len(), 9_000);
    Ok(())
}
