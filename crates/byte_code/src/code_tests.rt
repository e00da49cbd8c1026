//! Codes, one for each way in which a code may be wrong, and right ones.

use super::*;
use std::alloc::{AllocError, Global};
use std::test::Fail;

const CODES: [(&[u8], &[u8], bool); 61] = [
    // the shortest body
    (&[0x00, 0x38], &[], true),
    // a call of an import
    (
        &[
            0x00, 0x19, 0x00, 0x00, 0x04, 0x01, 0x04, 0x02, 0x29, 0x00, 0x34, 0x01, 0x09, 0x00,
            0x38,
        ],
        &[],
        true,
    ),
    // a loop with its test at the head
    (
        &[
            0x33, 0x04, 0x01, 0x31, 0x00, 0x09, 0x2F, 0x00, 0x00, 0x00, 0x38,
        ],
        &[],
        true,
    ),
    // a loop with its test at the foot
    (&[0x33, 0x04, 0x01, 0x30, 0x00, 0x00, 0x00, 0x38], &[], true),
    // two branches that meet with one value
    (
        &[0x02, 0x31, 0x00, 0x08, 0x00, 0x2F, 0x00, 0x09, 0x01, 0x38],
        &[],
        true,
    ),
    // try and catch
    (
        &[0x00, 0x09, 0x2F, 0x00, 0x06, 0x09, 0x00, 0x38],
        &[0, 0, 0, 2, 0, 5],
        true,
    ),
    // try, catch and finally
    (
        &[
            0x00, 0x09, 0x04, 0x00, 0x10, 0x00, 0x00, 0x2F, 0x00, 0x1B, 0x09, 0x04, 0x00, 0x10,
            0x00, 0x00, 0x2F, 0x00, 0x1B, 0x10, 0x00, 0x01, 0x04, 0x01, 0x10, 0x00, 0x00, 0x0F,
            0x00, 0x00, 0x04, 0x01, 0x29, 0x12, 0x31, 0x00, 0x29, 0x0F, 0x00, 0x01, 0x39, 0x00,
            0x38,
        ],
        &[0, 0, 0, 2, 0, 10, 0, 0, 0, 19, 0, 19],
        true,
    ),
    // handlers that nest
    (
        &[
            0x00, 0x09, 0x2F, 0x00, 0x0D, 0x09, 0x2F, 0x00, 0x0D, 0x09, 0x2F, 0x00, 0x0D, 0x00,
            0x38,
        ],
        &[0, 0, 0, 2, 0, 5, 0, 0, 0, 9, 0, 9],
        true,
    ),
    // a range whose end is before its start
    (
        &[0x00, 0x09, 0x2F, 0x00, 0x06, 0x09, 0x00, 0x38],
        &[0, 2, 0, 0, 0, 5],
        true,
    ),
    // code behind a return has height 0
    (&[0x00, 0x38, 0x00, 0x38], &[], true),
    // a loop that nothing reaches
    (&[0x00, 0x38, 0x33, 0x2F, 0x00, 0x02], &[], true),
    // a target behind a return
    (&[0x00, 0x38, 0x09, 0x00, 0x38], &[0, 0, 0, 2, 0, 2], true),
    // a call without arguments
    (&[0x00, 0x00, 0x34, 0x00, 0x38], &[], true),
    // as many values as the frame has
    (
        &[0x00, 0x00, 0x00, 0x00, 0x00, 0x00, 0x00, 0x00, 0x38],
        &[],
        true,
    ),
    // one value more
    (
        &[0x00, 0x00, 0x00, 0x00, 0x00, 0x00, 0x00, 0x00, 0x00, 0x38],
        &[],
        false,
    ),
    // no instruction
    (&[], &[], false),
    // a number that no instruction has
    (&[0x44, 0x00, 0x38], &[], false),
    // an operand that is cut off
    (&[0x00, 0x2F, 0x00], &[], false),
    // a mid that is an int
    (&[0x05, 0x00, 0x00, 0x00, 0x7F, 0x38], &[], false),
    // the last instruction goes on
    (&[0x00], &[], false),
    // the last instruction is a turn
    (&[0x33], &[], false),
    // the last name
    (&[0x07, 0x00, 0x04, 0x38], &[], true),
    // a name past the last
    (&[0x07, 0x00, 0x05, 0x38], &[], false),
    // the name 0
    (&[0x07, 0x00, 0x00, 0x38], &[], false),
    // the last place
    (&[0x0F, 0x00, 0x03, 0x38], &[], true),
    // a place past the last
    (&[0x0F, 0x00, 0x04, 0x38], &[], false),
    // an outer number past the last
    (&[0x19, 0x00, 0x04, 0x38], &[], false),
    // the last function
    (&[0x3B, 0x00, 0x03, 0x38], &[], true),
    // a function past the last
    (&[0x3B, 0x00, 0x04, 0x38], &[], false),
    // the function 0
    (&[0x3B, 0x00, 0x00, 0x38], &[], false),
    // the last global
    (&[0x1C, 0x0E, 0x38], &[], true),
    // a global past the last
    (&[0x1C, 0x0F, 0x38], &[], false),
    // a binary row past the last
    (&[0x00, 0x00, 0x29, 0x14, 0x38], &[], false),
    // a unary row past the last
    (&[0x00, 0x2A, 0x04, 0x38], &[], false),
    // the last message
    (&[0x3A, 0x18, 0x38], &[], true),
    // a message past the last
    (&[0x3A, 0x19, 0x38], &[], false),
    // the message 0
    (&[0x3A, 0x00, 0x38], &[], false),
    // a mode of define past the last
    (
        &[0x3F, 0x07, 0x00, 0x01, 0x00, 0x42, 0x06, 0x38],
        &[],
        false,
    ),
    // a mode of name-it past the last
    (
        &[0x07, 0x00, 0x01, 0x3B, 0x00, 0x01, 0x43, 0x03, 0x09, 0x38],
        &[],
        false,
    ),
    // the greatest number
    (
        &[0x06, 0x00, 0x1F, 0xFF, 0xFF, 0xFF, 0xFF, 0xFF, 0xFF, 0x38],
        &[],
        true,
    ),
    // a number past the greatest
    (
        &[0x06, 0x00, 0x20, 0x00, 0x00, 0x00, 0x00, 0x00, 0x00, 0x38],
        &[],
        false,
    ),
    // a number below the least
    (
        &[0x06, 0xFF, 0xE0, 0x00, 0x00, 0x00, 0x00, 0x00, 0x00, 0x38],
        &[],
        false,
    ),
    // nothing to pop
    (&[0x09, 0x00, 0x38], &[], false),
    // nothing to pop behind a return
    (&[0x00, 0x38, 0x09, 0x00, 0x38], &[], false),
    // two heights
    (&[0x02, 0x31, 0x00, 0x05, 0x00, 0x00, 0x38], &[], false),
    // a jump into an instruction
    (&[0x2F, 0x00, 0x04, 0x04, 0x01, 0x38], &[], false),
    // a jump past the end
    (&[0x00, 0x38, 0x2F, 0x00, 0x05], &[], false),
    // a jump to itself
    (&[0x2F, 0x00, 0x00], &[], false),
    // a jump back to no turn
    (&[0x00, 0x09, 0x2F, 0x00, 0x00], &[], false),
    // a jump back into an operand like a turn
    (&[0x04, 0x33, 0x09, 0x2F, 0x00, 0x01], &[], false),
    // a jump back that leaves a value
    (&[0x33, 0x00, 0x2F, 0x00, 0x00], &[], false),
    // a conditional jump back that leaves a value
    (
        &[0x33, 0x00, 0x04, 0x01, 0x30, 0x00, 0x00, 0x38],
        &[],
        false,
    ),
    // the instruction before leads to a target
    (&[0x00, 0x09, 0x09, 0x00, 0x38], &[0, 0, 0, 2, 0, 2], false),
    // a jump leads to a target
    (
        &[0x2F, 0x00, 0x03, 0x09, 0x00, 0x38],
        &[0, 0, 0, 3, 0, 3],
        false,
    ),
    // a range starts in an instruction
    (
        &[0x04, 0x01, 0x38, 0x09, 0x00, 0x38],
        &[0, 1, 0, 2, 0, 3],
        false,
    ),
    // a range ends in an instruction
    (
        &[0x04, 0x01, 0x38, 0x09, 0x00, 0x38],
        &[0, 0, 0, 1, 0, 3],
        false,
    ),
    // a target in an instruction
    (&[0x00, 0x38, 0x04, 0x01, 0x38], &[0, 0, 0, 2, 0, 3], false),
    // a target at its range
    (&[0x00, 0x38, 0x09, 0x00, 0x38], &[0, 2, 0, 2, 0, 2], false),
    // a target before the end of its range
    (&[0x00, 0x38, 0x09, 0x00, 0x38], &[0, 0, 0, 3, 0, 2], false),
    // a target past the end
    (&[0x00, 0x38, 0x09, 0x00, 0x38], &[0, 0, 0, 2, 0, 5], false),
    // half a handler
    (&[0x00, 0x38], &[0, 0, 0], false),
];

fn is_valid(code: &[u8], handlers: &[u8]) -> bool {
    let frame = Frame {
        places: 4,
        operands: 8,
        outers: 4,
        functions: 4,
        names: 4,
        handlers,
    };
    code.len() <= 65_535 && valid(code, frame)
}

#[test]
fn codes_are_told_apart(rt: HostRuntime) -> Result<(), Fail> {
    for (place, (code, handlers, expected)) in CODES.iter().enumerate() {
        assert_eq!(rt; is_valid(code, handlers), *expected, "the code at {place}");
    }
    Ok(())
}

// A code of 65,535 bytes: turns, and then its end.
fn long_code(alloc: Global, end: &[u8]) -> Result<CodeBytes, AllocError> {
    let mut code = CodeBytes::new(alloc);
    for _ in end.len()..65_535 {
        code.push(0x33)?;
    }
    for byte in end {
        code.push(*byte)?;
    }
    Ok(code)
}

#[test]
fn a_long_code_is_valid(rt: HostRuntime) -> Result<(), Fail> {
    let code = long_code(rt.alloc(), &[0x00, 0x38])?;
    assert_eq!(rt; code.as_slice().len(), 65_535);
    assert!(rt; is_valid(code.as_slice(), &[]));
    Ok(())
}

#[test]
fn a_long_code_with_a_hundred_handlers_is_valid(rt: HostRuntime) -> Result<(), Fail> {
    let code = long_code(rt.alloc(), &[0x00, 0x38, 0x09, 0x00, 0x38])?;
    let mut handlers = CodeBytes::new(rt.alloc());
    for end in 0..100u8 {
        for byte in [0, 0, 0, end, 0xFF, 0xFC] {
            handlers.push(byte)?;
        }
    }
    assert_eq!(rt; handlers.as_slice().len(), 600);
    assert!(rt; is_valid(code.as_slice(), handlers.as_slice()));
    Ok(())
}

#[test]
fn names_get_their_new_numbers(rt: HostRuntime) -> Result<(), Fail> {
    let mut code = [0x07, 0x00, 0x02, 0x1D, 0x00, 0x01, 0x38];
    let frame = Frame {
        places: 0,
        operands: 1,
        outers: 0,
        functions: 1,
        names: 2,
        handlers: &[],
    };
    assert!(rt; valid(&code, frame));
    rename(&mut code, &[0x0304, 0x0102]);
    assert!(rt; code == [0x07, 0x01, 0x02, 0x1D, 0x03, 0x04, 0x38]);
    Ok(())
}
