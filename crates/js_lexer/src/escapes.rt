//! Escapes of strings and templates (ECMA-262, 12.9.4 and 12.9.6).

ghost use Rattle.std.specs.Prelude.{◌≡◌, ◌<◌, IfSome, option_map};
ghost use Rattle.es_model.specs.Tokens.{named_by};
ghost use Rattle.js_lexer.specs.Reads.{Finds, IsCodePoint, escape, plain, unicode, code_point, hexadecimal, units_of};

use crate::characters::Characters;
use crate::classes::{digit_value, is_digit, is_line_break};
use crate::numbers::digits;

/// What an escape stands for.
#[derive(Clone, Copy)]
pub enum Escape {
    /// A line continuation stands for nothing.
    Continuation,
    CodePoint(u32),
}

/// Takes an escape, after its backslash. None where it is none; some of it may be taken then.
pub fn take_escape(left: &mut Characters) -> Option<Escape>
    ensures value { Finds (escape left.old) (option_map units_of result) left.new }
    ensures bound { IfSome result IsCodePoint }
{
    let c = left.next()?;
    if c == 'x' {
        let value = two_digits(left)?;
        return Some(Escape::CodePoint(value));
    }
    if c == 'u' {
        let value = unicode(left)?;
        return Some(Escape::CodePoint(value));
    }
    match named_by(c) {
        Some(code_point) => Some(Escape::CodePoint(code_point)),
        None => plain(c, left),
    }
}

/// The character that a letter after a backslash names.
fn named_by(c: char) -> Option<u32>
    ensures value { result ≡ named_by c }
    ensures bound { IfSome result (λ named. named < 32) }
{
    match c {
        'b' => Some(8),
        't' => Some(9),
        'n' => Some(10),
        'v' => Some(11),
        'f' => Some(12),
        'r' => Some(13),
        _ => None,
    }
}

/// `\0`, a line continuation, or a character that stands for itself, after its first character.
fn plain(c: char, left: &mut Characters) -> Option<Escape>
    ensures value { Finds (plain c left.old) (option_map units_of result) left.new }
    ensures bound { IfSome result IsCodePoint }
{
    if is_digit(c) {
        if c != '0' || left.is_at_digit() {
            return None;
        }
        return Some(Escape::CodePoint(0));
    }
    if c == '\r' && left.is_at('\n') {
        left.next();
        return Some(Escape::Continuation);
    }
    if is_line_break(c) {
        return Some(Escape::Continuation);
    }
    Some(Escape::CodePoint(c as u32))
}

/// The value of `\uHHHH` or `\u{H..}`, after the letter.
fn unicode(left: &mut Characters) -> Option<u32>
    ensures value { Finds (unicode left.old) result left.new }
    ensures bound { IfSome result (λ value. value < 0x110000) }
{
    if left.is_at('{') {
        left.next();
        return code_point(left);
    }
    let high = two_digits(left)?;
    let low = two_digits(left)?;
    Some(high * 256 + low)
}

/// The value of `\u{H..}`, after the brace.
fn code_point(left: &mut Characters) -> Option<u32>
    ensures value { Finds (code_point left.old) result left.new }
    ensures bound { IfSome result (λ value. value < 0x110000) }
{
    if digit_value(left.first()?) >= 16 {
        return None;
    }
    let value = digits(16, 0, left);
    if value > 0x10_FFFF || !left.is_at('}') {
        return None;
    }
    left.next();
    Some(value as u32)
}

/// The value of two hexadecimal digits.
fn two_digits(left: &mut Characters) -> Option<u32>
    ensures value { Finds (hexadecimal 2 left.old) result left.new }
    ensures bound { IfSome result (λ value. value < 256) }
{
    let high = digit(left)?;
    let low = digit(left)?;
    Some(high * 16 + low)
}

fn digit(left: &mut Characters) -> Option<u32>
    ensures value { Finds (hexadecimal 1 left.old) result left.new }
    ensures bound { IfSome result (λ value. value < 16) }
{
    let value = digit_value(left.next()?);
    if value >= 16 {
        return None;
    }
    Some(value)
}
