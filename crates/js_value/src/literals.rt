//! Texts as Numbers.

ghost use Rattle.std.specs.Prelude.{◌≡◌, ◌≢◌, ℕ, ℤ, ◌<◌, ◌≤◌, IfOk, IfSome, Ok, Some, length};
ghost use Rattle.std.specs.Char.{digit_value};
ghost use Rattle.js_value.specs.Number.{greatest};
ghost use Rattle.js_value.specs.Numeral.{IsNumberOf, IsIndexOf, is_white_space};
ghost use Rattle.js_value.specs.Literal.{trim_start, trim_end, digits_number, letter_radix, radix_of, positive, negative, unsigned_number, literal_number};

use crate::Range;
use crate::arithmetic::GREATEST;

const PLUS: u16 = 0x2B;

const MINUS: u16 = 0x2D;

const ZERO: u16 = 0x30;

const LAST_INDEX: u64 = 4_294_967_294;

/// The Number that a text spells (ECMA-262, 7.1.4.1): white space is trimmed, the empty text is 0, decimal
/// digits may have one sign, and digits after `0x`, `0o` or `0b` of either case have none. Range for every
/// other text, for a value that is no Number and for `-0` (own rule). It takes no memory.
pub fn number_of_units(units: &[u16]) -> Result<i64, Range>
    ensures number { IfOk result (λ n. IsNumberOf units.now n) }
    ensures each { (n : ℤ) → IsNumberOf units.now n → result ≡ Ok n }
{
    match literal(trim_end(trim_start(units))) {
        Some(number) => Ok(number),
        None => Err(Range),
    }
}

/// The array index that a text is: the decimal text of a number from 0 to 4294967294 (ECMA-262, 6.1.7).
/// None for every other text. It takes no memory.
pub fn index_of_key(units: &[u16]) -> Option<u32>
    ensures index { IfSome result (λ n. IsIndexOf units.now n) }
    ensures each { (n : ℕ) → IsIndexOf units.now n → result ≡ Some n }
{
    if units.len() > 1 && units[0] == ZERO {
        return None;
    }
    match digits_number(units, 10) {
        Some(index) if index <= LAST_INDEX => Some(index as u32),
        _ => None,
    }
}

#[tactic(auto, unfolding(crate::specs::Numeral::is_white_space))]
fn is_white_space(unit: u16) -> bool
    ensures { result ≡ is_white_space unit }
{
    matches!(
        unit,
        0x09..=0x0D
            | 0x20
            | 0xA0
            | 0x1680
            | 0x2000..=0x200A
            | 0x2028..=0x2029
            | 0x202F
            | 0x205F
            | 0x3000
            | 0xFEFF
    )
}

fn trim_start(text: &[u16]) -> &[u16]
    ensures { result.now ≡ trim_start text.now }
{
    let mut start = 0;
    while start < text.len() && is_white_space(text[start]) {
        start += 1;
    }
    &text[start..]
}

fn trim_end(text: &[u16]) -> &[u16]
    ensures { result.now ≡ trim_end text.now }
{
    let mut end = text.len();
    while end > 0 && is_white_space(text[end - 1]) {
        end -= 1;
    }
    &text[..end]
}

// The Number of a text without white space round it.
#[tactic(auto, unfolding(crate::specs::Literal::literal_number))]
fn literal(text: &[u16]) -> Option<i64>
    ensures { result ≡ literal_number text.now }
{
    match text.first() {
        None => Some(0),
        Some(&PLUS) => positive(digits_number(&text[1..], 10)),
        Some(&MINUS) => negative(digits_number(&text[1..], 10)),
        Some(_) => unsigned(text),
    }
}

fn unsigned(text: &[u16]) -> Option<i64>
    ensures { result ≡ unsigned_number text.now }
{
    match radix_of(text) {
        10 => positive(digits_number(text, 10)),
        radix => positive(digits_number(&text[2..], radix)),
    }
}

fn positive(magnitude: Option<u64>) -> Option<i64>
    requires { IfSome magnitude (λ m. m ≤ greatest) }
    ensures { result ≡ positive magnitude }
{
    match magnitude {
        Some(magnitude) => Some(magnitude as i64),
        None => None,
    }
}

fn negative(magnitude: Option<u64>) -> Option<i64>
    requires { IfSome magnitude (λ m. m ≤ greatest) }
    ensures { result ≡ negative magnitude }
{
    match magnitude {
        Some(0) | None => None,
        Some(magnitude) => Some(-(magnitude as i64)),
    }
}

// The radix that a text begins with, or 10.
fn radix_of(text: &[u16]) -> u32
    ensures value { result ≡ radix_of text.now }
    ensures prefix { result ≢ 10 → 2 ≤ length text.now }
    ensures low { 2 ≤ result }
    ensures high { result ≤ 36 }
{
    match text {
        [ZERO, letter, ..] => letter_radix(*letter),
        _ => 10,
    }
}

fn letter_radix(letter: u16) -> u32
    ensures value { result ≡ letter_radix letter }
    ensures low { 2 ≤ result }
    ensures high { result ≤ 36 }
{
    match letter {
        0x78 | 0x58 => 16,
        0x6F | 0x4F => 8,
        0x62 | 0x42 => 2,
        _ => 10,
    }
}

// The magnitude that one digit or more write, where it is at most the greatest Number.
fn digits_number(digits: &[u16], radix: u32) -> Option<u64>
    requires low { 2 ≤ radix }
    requires high { radix ≤ 36 }
    ensures value { result ≡ digits_number radix digits.now }
    ensures bound { IfSome result (λ m. m ≤ greatest) }
{
    if digits.is_empty() {
        return None;
    }
    let base = u64::from(radix);
    let mut value = 0;
    for unit in digits {
        let digit = digit_value(*unit);
        if digit >= base {
            return None;
        }
        value = value * base + digit;
        if value > GREATEST {
            return None;
        }
    }
    Some(value)
}

// From 0 to 35 for a digit or a letter of either case, else 36.
fn digit_value(unit: u16) -> u64
    ensures { result ≡ digit_value unit }
{
    match unit {
        0x30..=0x39 => u64::from(unit) - 0x30,
        0x41..=0x5A => u64::from(unit) - 55,
        0x61..=0x7A => u64::from(unit) - 87,
        _ => 36,
    }
}
