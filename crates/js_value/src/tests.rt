//! Each call on Numbers once, with values that ECMA-262 or a plain calculation gives.

use super::*;
use std::process::Abort;
use std::test::Fail;

#[test]
fn sums_and_products(rt: HostRuntime) {
    assert_eq!(rt; add(9007199254740990, 1), Ok(9007199254740991));
    assert_eq!(rt; add(9007199254740991, 1), Err(Range));
    assert_eq!(rt; sub(-9007199254740991, 1), Err(Range));
    assert_eq!(rt; mul(-94906265, 94906265), Ok(-9007199136250225));
    assert_eq!(rt; mul(0, -1), Err(Range));
    assert_eq!(rt; neg(0), Err(Range));
    assert_eq!(rt; neg(5), Ok(-5));
}

#[test]
fn quotients_and_remainders(rt: HostRuntime) {
    assert_eq!(rt; div(-6, 3), Ok(-2));
    assert_eq!(rt; div(7, 2), Err(Range));
    assert_eq!(rt; div(1, 0), Err(Range));
    assert_eq!(rt; div(0, -1), Err(Range));
    assert_eq!(rt; rem(-7, 4), Ok(-3));
    assert_eq!(rt; rem(7, -4), Ok(3));
    assert_eq!(rt; rem(-4, 2), Err(Range));
}

#[test]
fn powers_end_at_once(rt: HostRuntime) {
    assert_eq!(rt; pow(3, 33), Ok(5559060566555523));
    assert_eq!(rt; pow(2, 60), Err(Range));
    assert_eq!(rt; pow(0, 0), Ok(1));
    assert_eq!(rt; pow(1, 9007199254740991), Ok(1));
    assert_eq!(rt; pow(-1, 9007199254740990), Ok(1));
    assert_eq!(rt; pow(-1, -9007199254740991), Ok(-1));
    assert_eq!(rt; pow(2, -9007199254740991), Err(Range));
}

#[test]
fn words(rt: HostRuntime) {
    assert_eq!(rt; to_int32(4294967295), -1);
    assert_eq!(rt; to_uint32(-1), 4294967295);
    assert_eq!(rt; shl(1, 35), 8);
    assert_eq!(rt; sar(-8, 1), -4);
    assert_eq!(rt; shr(-1, 0), 4294967295);
    assert_eq!(rt; imul(0xFFFFFFFF, 5), -5);
    assert_eq!(rt; clz32(1), 31);
    assert_eq!(rt; clz32(0), 32);
}

fn reads(rt: &impl Abort, text: &[u16], number: Result<i64, Range>) {
    assert_eq!(rt; number_of_units(text), number);
}

#[test]
fn numbers_of_texts(rt: HostRuntime) {
    reads(&rt, &[], Ok(0));
    reads(&rt, &[0xFEFF, 0x2D, 0x34, 0x32, 0x0A], Ok(-42));
    reads(&rt, &[0x30, 0x58, 0x66, 0x46], Ok(255));
    reads(&rt, &[0x30, 0x62, 0x31, 0x31], Ok(3));
    reads(&rt, &[0x2D, 0x30], Err(Range));
    reads(&rt, &[0x31, 0x65, 0x33], Err(Range));
    reads(&rt, &[0x2B, 0x30, 0x78, 0x31], Err(Range));
    reads(&rt, &[0x30, 0x78], Err(Range));
    reads(&rt, &[0x31, 0x20, 0x32], Err(Range));
}

#[test]
fn texts_of_numbers(rt: HostRuntime) {
    let mut decimal = [0; 24];
    let length = text_of_number(-305, &mut decimal);
    assert_eq!(rt; length, 4);
    assert_eq!(rt; &decimal[..5], [0x2D, 0x33, 0x30, 0x35, 0].as_slice());
    let mut digits = [0; 56];
    let length = text_of_number_radix(-9007199254740991, 2, &mut digits);
    assert_eq!(rt; length, 54);
    let length = text_of_number_radix(1295, 36, &mut digits);
    assert_eq!(rt; length, 2);
    assert_eq!(rt; &digits[..2], [0x7A, 0x7A].as_slice());
}

#[test]
fn keys(rt: HostRuntime) -> Result<(), Fail> {
    assert_eq!(rt; index_of_key(&[0x30]), Some(0));
    assert_eq!(rt; index_of_key(&[0x30, 0x31]), None);
    assert_eq!(rt; index_of_key(&[]), None);
    let last = [0x34, 0x32, 0x39, 0x34, 0x39, 0x36, 0x37, 0x32, 0x39, 0x34];
    assert_eq!(rt; index_of_key(&last), Some(4294967294));
    let past = [0x34, 0x32, 0x39, 0x34, 0x39, 0x36, 0x37, 0x32, 0x39, 0x35];
    assert_eq!(rt; index_of_key(&past), None);
    Ok(())
}

#[tactic(auto, unfolding(crate::specs::Text::units, crate::specs::Text::sequence_length))]
#[test]
fn rows_of_texts(rt: HostRuntime) {
    let table: Case<3> = Case::new(["do", "double", "in"]);
    let rows = [
        table.find(&[0x64, 0x6F]),
        table.find(&[0x64, 0x6F, 0x75, 0x62, 0x6C, 0x65]),
        table.find(&[0x69, 0x6E]),
        table.find(&[0x64]),
        table.find(&[0x69, 0x6E, 0x74]),
        table.find(&[]),
    ];
    let found = rows == [Some(0), Some(1), Some(2), None, None, None];
    assert_eq!(rt; (found, table.key(2)), (true, "in"));
}
