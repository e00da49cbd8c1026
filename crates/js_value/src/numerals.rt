//! Numbers as texts, and texts as Numbers.

ghost use Rattle.std.specs.Prelude.{◌≡◌, ℕ, ◌+◌, ◌^◌, ◌<◌, ◌≤◌, ◌++◌, length, drop, take, map, reverse};
ghost use Rattle.std.specs.Char.{digit_char};
ghost use Rattle.std.specs.Int.Digits.{digits_of};
ghost use Rattle.js_value.specs.Number.{IsNumber, greatest};
ghost use Rattle.js_value.specs.Numeral.{number_text, digit_text};

use itoa::Buffer;

const MINUS: u16 = 0x2D;

const ZERO: u16 = 0x30;

/// Writes the decimal text of a Number: its length in units is the answer, and the units behind stay as they
/// were (ECMA-262, 6.1.6.1.20). It takes no memory.
pub fn text_of_number(n: i64, into: &mut [u16; 24]) -> usize
    requires { IsNumber n }
    ensures length { result ≡ length (number_text 10 n) }
    ensures text { into.new ≡ number_text 10 n ++ drop result into.old }
{
    let mut buffer = Buffer::new();
    let text = buffer.format(n).as_bytes();
    copy(text, into);
    text.len()
}

fn copy(text: &[u8], into: &mut [u16; 24])
    requires { length text.now ≤ 24 }
    ensures { into.new ≡ text.now ++ drop (length text.now) into.old }
{
    for (place, byte) in text.iter().enumerate() {
        into[place] = u16::from(*byte);
    }
}

/// Writes the text of a Number in a radix from 2 to 36, with lower-case digits: its length in units is the
/// answer, and the units behind stay as they were (ECMA-262, 6.1.6.1.20). It takes no memory.
pub fn text_of_number_radix(n: i64, radix: u32, into: &mut [u16; 56]) -> usize
    requires number { IsNumber n }
    requires low { 2 ≤ radix }
    requires high { radix ≤ 36 }
    ensures length { result ≡ length (number_text radix n) }
    ensures text { into.new ≡ number_text radix n ++ drop result into.old }
{
    let length = number_reversed(n, radix, into);
    into[..length].reverse();
    length
}

// The text of a number, the last unit first.
fn number_reversed(n: i64, radix: u32, into: &mut [u16; 56]) -> usize
    requires number { IsNumber n }
    requires low { 2 ≤ radix }
    requires high { radix ≤ 36 }
    ensures text { reverse (take result into.new) ≡ number_text radix n }
    ensures behind { drop result into.new ≡ drop result into.old }
    ensures bound { result ≤ 54 }
{
    let length = digits_reversed(n.unsigned_abs(), u64::from(radix), into);
    if n >= 0 {
        return length;
    }
    into[length] = MINUS;
    length + 1
}

// The digits of a magnitude, the lowest first.
fn digits_reversed(n: u64, radix: u64, into: &mut [u16; 56]) -> usize
    requires number { n ≤ greatest }
    requires low { 2 ≤ radix }
    requires high { radix ≤ 36 }
    ensures digits { reverse (take result into.new) ≡ digit_text radix n }
    ensures behind { drop result into.new ≡ drop result into.old }
    ensures bound { result ≤ 53 }
{
    if n == 0 {
        into[0] = ZERO;
        return 1;
    }
    let mut left = n;
    let mut length = 0;
    while left > 0 {
        into[length] = digit_char(left % radix);
        left /= radix;
        length += 1;
    }
    length
}

// The unit of a digit below 36.
fn digit_char(digit: u64) -> u16
    requires { digit < 36 }
    ensures { result ≡ digit_char digit }
{
    if digit < 10 {
        ZERO + digit as u16
    } else {
        87 + digit as u16
    }
}
