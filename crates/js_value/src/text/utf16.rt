//! Characters of a text, and their form in UTF-8.

ghost use Rattle.std.specs.Prelude.{◌≡◌, ℕ, ◌+◌, ◌-◌, ◌*◌, ◌^◌, ◌<◌, ◌≤◌, ◌++◌, List, length, take, drop};
ghost use Rattle.js_value.specs.Text.{character_length, code_point, encoded, front, characters, piece, utf8, is_leading_surrogate, is_trailing_surrogate};

use std::marker::Model;

/// The UTF-8 form of one code point.
#[derive(Drop)]
struct Encoded {
    bytes: [u8; 4],
    length: usize,
}

impl Model for Encoded {
    ghost Value = { List ℕ };

    ghost view = { λ e. take e.length e.bytes };

    ghost invariant = { λ e. e.length ≤ 4 };
}

impl Encoded {
    // The form of a scalar value.
    #[tactic(auto, unfolding(crate::specs::Text::encoded))]
    fn of(code: u32) -> Encoded
        requires { code < 0x110000 }
        ensures { result ≡ encoded code }
    {
        let low = 0x80 + (code % 64) as u8;
        let middle = 0x80 + (code / 64 % 64) as u8;
        let high = 0x80 + (code / 4096 % 64) as u8;
        if code < 0x80 {
            Encoded {
                bytes: [code as u8, 0, 0, 0],
                length: 1,
            }
        } else if code < 0x800 {
            Encoded {
                bytes: [0xC0 + (code / 64) as u8, low, 0, 0],
                length: 2,
            }
        } else if code < 0x10000 {
            Encoded {
                bytes: [0xE0 + (code / 4096) as u8, middle, low, 0],
                length: 3,
            }
        } else {
            Encoded {
                bytes: [0xF0 + (code / 262144) as u8, high, middle, low],
                length: 4,
            }
        }
    }

    fn as_slice(&self) -> &[u8]
        ensures bytes { result.now ≡ self.now }
        ensures few { length result.now ≤ 4 }
    {
        &self.bytes[..self.length]
    }
}

/// Writes a piece of a text as UTF-8: the units from place `from` (from 0) on, whole characters while they
/// fit into 64 bytes, a lone surrogate as U+FFFD.
///
/// Answers the bytes written and the units taken; the bytes of `into` behind them stay as they were. Past the
/// end of the text it is (0, 0). It takes no memory. The size of a piece is an own rule, the form that of
/// Unicode 15, table 3-6.
pub fn utf8_piece(units: &[u16], from: usize, into: &mut [u8; 64]) -> (usize, usize)
    ensures written { result.0 ≡ length (utf8 (piece (drop from units.now))) }
    ensures taken { result.1 ≡ length (piece (drop from units.now)) }
    ensures bytes { into.new ≡ utf8 (piece (drop from units.now)) ++ drop result.0 into.old }
{
    fill(&units[from.min(units.len())..], into)
}

fn fill(text: &[u16], into: &mut [u8; 64]) -> (usize, usize)
    ensures written { result.0 ≡ length (utf8 (piece text.now)) }
    ensures taken { result.1 ≡ length (piece text.now) }
    ensures bytes { into.new ≡ utf8 (piece text.now) ++ drop result.0 into.old }
{
    let mut written = 0;
    let mut taken = 0;
    let mut rest = text;
    while !rest.is_empty() {
        let (character, after) = rest.split_at(character_length(rest));
        let encoded = Encoded::of(code_point(character));
        let bytes = encoded.as_slice();
        if bytes.len() > 64 - written {
            break;
        }
        append(into, written, bytes);
        written += bytes.len();
        taken += character.len();
        rest = after;
    }
    (written, taken)
}

// Writes bytes behind the first `written`.
fn append(into: &mut [u8; 64], written: usize, bytes: &[u8])
    requires { written + length bytes.now ≤ 64 }
    ensures { into.new ≡ take written into.old ++ bytes.now ++ drop (written + length bytes.now) into.old }
{
    into[written..written + bytes.len()].copy_from_slice(bytes);
}

// The units of the character at the front.
#[tactic(auto, unfolding(crate::specs::Text::character_length))]
fn character_length(text: &[u16]) -> usize
    requires { 0 < length text.now }
    ensures length { result ≡ character_length text.now }
    ensures some { 0 < result }
    ensures within { result ≤ length text.now }
{
    match text {
        [a, b, ..] if is_leading_surrogate(*a) && is_trailing_surrogate(*b) => 2,
        _ => 1,
    }
}

// The code point of a character that was cut off by `character_length`.
fn code_point(character: &[u16]) -> u32
    ensures value { result ≡ code_point character.now }
    ensures bound { result < 0x110000 }
{
    match character {
        [a] if !is_leading_surrogate(*a) && !is_trailing_surrogate(*a) => u32::from(*a),
        [a, b] if is_leading_surrogate(*a) && is_trailing_surrogate(*b) => {
            (u32::from(*a) - 0xD800) * 0x400 + (u32::from(*b) - 0xDC00) + 0x10000
        }
        _ => 0xFFFD,
    }
}

fn is_leading_surrogate(unit: u16) -> bool
    ensures { result ≡ is_leading_surrogate unit }
{
    0xD800 <= unit && unit <= 0xDBFF
}

fn is_trailing_surrogate(unit: u16) -> bool
    ensures { result ≡ is_trailing_surrogate unit }
{
    0xDC00 <= unit && unit <= 0xDFFF
}
