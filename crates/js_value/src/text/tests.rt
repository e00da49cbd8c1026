//! What no clause says: that with ample memory each call succeeds, and vectors from outside.

use super::*;
use std::process::Abort;
use std::test::Fail;

fn reads(rt: &impl Abort, alloc: Global, bytes: &[u8], units: &[u16]) -> Result<(), Fail> {
    let text = Units::from_utf8(alloc, bytes)?;
    assert_eq!(rt; text.as_slice(), units);
    Ok(())
}

#[test]
fn a_text_grows(rt: HostRuntime) -> Result<(), Fail> {
    let mut text = Units::new(rt.alloc());
    text.push(0x61)?;
    text.push(0xD800)?;
    assert_eq!(rt; text.as_slice(), [0x61, 0xD800].as_slice());
    Ok(())
}

#[test]
fn a_text_grows_by_code_points(rt: HostRuntime) -> Result<(), Fail> {
    let mut text = Units::new(rt.alloc());
    text.push_code_point(0)?;
    text.push_code_point(0xFFFF)?;
    text.push_code_point(0x10000)?;
    text.push_code_point(0x10FFFF)?;
    let units = [0, 0xFFFF, 0xD800, 0xDC00, 0xDBFF, 0xDFFF];
    assert_eq!(rt; text.as_slice(), units.as_slice());
    Ok(())
}

#[test]
fn a_text_of_units(rt: HostRuntime) -> Result<(), Fail> {
    let units = [0x61, 0xD800, 0xFFFF];
    let text = Units::from_units(rt.alloc(), &units)?;
    assert_eq!(rt; text.as_slice(), units.as_slice());
    let long = [0xDFFF; 3000];
    let text = Units::from_units(rt.alloc(), &long)?;
    assert_eq!(rt; text.as_slice(), long.as_slice());
    let none = Units::from_units(rt.alloc(), &[])?;
    assert!(rt; none.as_slice().is_empty());
    Ok(())
}

// No length and no byte is taken for a want of memory.
#[test]
fn reads_texts_of_any_length(rt: HostRuntime) -> Result<(), Fail> {
    reads(&rt, rt.alloc(), &[], &[])?;
    reads(&rt, rt.alloc(), &[0], &[0])?;
    reads(&rt, rt.alloc(), &[0x7A; 3000], &[0x7A; 3000])?;
    reads(&rt, rt.alloc(), &[0xFF; 3000], &[0xFFFD; 3000])
}

// The Unicode standard, 3.9, has the forms of U+004D, U+0430, U+4E8C and U+10302.
#[test]
fn reads_well_formed_text(rt: HostRuntime) -> Result<(), Fail> {
    let bytes = [0x4D, 0xD0, 0xB0, 0xE4, 0xBA, 0x8C, 0xF0, 0x90, 0x8C, 0x82];
    reads(
        &rt,
        rt.alloc(),
        &bytes,
        &[0x4D, 0x0430, 0x4E8C, 0xD800, 0xDF02],
    )
}

// Each byte outside a well-formed sequence is one U+FFFD, the bytes of one that is cut off too.
#[test]
fn reads_ill_formed_text(rt: HostRuntime) -> Result<(), Fail> {
    reads(
        &rt,
        rt.alloc(),
        &[0xC0, 0xAF, 0x61],
        &[0xFFFD, 0xFFFD, 0x61],
    )?;
    reads(
        &rt,
        rt.alloc(),
        &[0xE1, 0x80, 0xE2, 0x61],
        &[0xFFFD, 0xFFFD, 0xFFFD, 0x61],
    )?;
    reads(
        &rt,
        rt.alloc(),
        &[0xED, 0xA0, 0x80],
        &[0xFFFD, 0xFFFD, 0xFFFD],
    )
}

fn piece(rt: &impl Abort, units: &[u16], from: usize, sizes: (usize, usize)) {
    let mut into = [0; 64];
    assert_eq!(rt; utf8_piece(units, from, &mut into), sizes);
}

#[test]
fn pieces_are_as_long_as_fits(rt: HostRuntime) {
    let text = [0x61; 129];
    piece(&rt, &text[..63], 0, (63, 63));
    piece(&rt, &text[..64], 0, (64, 64));
    piece(&rt, &text[..65], 0, (64, 64));
    piece(&rt, &text[..65], 64, (1, 1));
    piece(&rt, &text, 64, (64, 64));
    piece(&rt, &text, 128, (1, 1));
    piece(&rt, &text, 129, (0, 0));
    piece(&rt, &text, 200, (0, 0));
}

#[test]
fn a_character_at_the_edge_is_not_cut(rt: HostRuntime) {
    let mut text = [0x61; 66];
    text[60] = 0xD83D;
    text[61] = 0xDE00;
    piece(&rt, &text, 0, (64, 62));
    piece(&rt, &text, 1, (64, 62));
    let mut into = [0; 64];
    let sizes = utf8_piece(&text[..61], 58, &mut into);
    assert_eq!(rt; sizes, (5, 3));
    assert_eq!(rt; &into[..6], [0x61, 0x61, 0xEF, 0xBF, 0xBD, 0].as_slice());
    text[61] = 0xD83D;
    text[62] = 0xDE00;
    piece(&rt, &text, 0, (63, 61));
}
