//! Number literals (ECMA-262, 12.9.3, without what the language leaves out).

ghost use Rattle.std.specs.Prelude.{◌≡◌, ◌≢◌, ◌≤◌, take_while, Err};
ghost use Rattle.es_model.specs.Tokens.{first_is, goes_on, number_after, number_element, number_literal, is_digit_of};
ghost use Rattle.js_lexer.specs.Left.{skip};
ghost use Rattle.js_lexer.specs.Reads.{Reads, found, behind, capped};

use crate::characters::Characters;
use crate::classes::{base_of, digit_value, goes_on};
use crate::elements::Found;
use es_model::{LexFault, TokenKind};

/// The least whole number that is no Number of the language.
const TOO_LARGE: u64 = 9_007_199_254_740_992;

/// Takes a number, after its first digit, which stands at `at`. It takes no memory.
pub fn take_number(at: u32, first: char, left: &mut Characters) -> Result<Found, LexFault>
    ensures element { Reads (found (number_element at first left.old.text) left.old) result left.new }
    ensures memory { result ≢ Err LexFault.Memory }
{
    let value = literal(first, left);
    if is_followed(left) {
        return Err(LexFault::NumberForm(at));
    }
    if value >= TOO_LARGE {
        return Err(LexFault::NumberTooLarge(at));
    }
    Ok(Found::Token(TokenKind::Number(value as i64)))
}

/// Whether the next character is one that may not stand directly behind a number.
fn is_followed(left: &Characters) -> bool
    ensures { result ≡ first_is goes_on left.now.text }
{
    match left.first() {
        Some(next) => goes_on(next),
        None => false,
    }
}

/// The value of the longest literal that begins with a digit, cut to `TOO_LARGE`.
fn literal(first: char, left: &mut Characters) -> u64
    ensures value { result ≡ capped (number_literal first left.old.text).0 }
    ensures left { left.new ≡ skip (number_literal first left.old.text).1 left.old }
{
    if first != '0' {
        return digits(10, u64::from(digit_value(first)), left);
    }
    let Some(letter) = left.first() else {
        return 0;
    };
    let Some(digit) = left.second() else {
        return 0;
    };
    let base = base_of(letter);
    if digit_value(digit) >= base {
        return 0;
    }
    left.next();
    digits(base, 0, left)
}

/// Takes all digits of a base that come next: the number that they spell after those that spell `before`,
/// cut to `TOO_LARGE`.
pub fn digits(base: u32, before: u64, left: &mut Characters) -> u64
    requires some { 1 ≤ base }
    requires base { base ≤ 36 }
    requires before { before ≤ 9007199254740992 }
    ensures value { result ≡ capped (number_after before base (take_while (is_digit_of base) left.old.text)) }
    ensures left { left.new ≡ behind (is_digit_of base) left.old }
{
    let mut value = before;
    while let Some(c) = left.first() {
        let digit = digit_value(c);
        if digit >= base {
            break;
        }
        value = (value * u64::from(base) + u64::from(digit)).min(TOO_LARGE);
        left.next();
    }
    value
}
