//! One UTF-8 sequence (Unicode 15, table 3-7).

ghost use Rattle.std.specs.Prelude.{◌≡◌, ◌<◌, ◌≤◌, length};
ghost use Rattle.std.specs.Option.{option_copied};
ghost use Rattle.js_value.specs.Text.{following_in, sequences, begins_with, sequence_length, scalar_value};

/// The bytes from `low` to `high`.
#[derive(Clone, Copy)]
pub struct ByteRange {
    pub low: u8,
    pub high: u8,
}

const TAIL: ByteRange = ByteRange {
    low: 0x80,
    high: 0xBF,
};

// The ranges of the bytes that may come after a first byte.
fn following(first: u8) -> Option<&'static [ByteRange]>
    ensures { option_copied result ≡ following_in sequences first }
{
    match first {
        0x00..=0x7F => Some(&[]),
        0xC2..=0xDF => Some(&[TAIL]),
        0xE0 => Some(&[
            ByteRange {
                low: 0xA0,
                high: 0xBF,
            },
            TAIL,
        ]),
        0xED => Some(&[
            ByteRange {
                low: 0x80,
                high: 0x9F,
            },
            TAIL,
        ]),
        0xE1..=0xEF => Some(&[TAIL, TAIL]),
        0xF0 => Some(&[
            ByteRange {
                low: 0x90,
                high: 0xBF,
            },
            TAIL,
            TAIL,
        ]),
        0xF1..=0xF3 => Some(&[TAIL, TAIL, TAIL]),
        0xF4 => Some(&[
            ByteRange {
                low: 0x80,
                high: 0x8F,
            },
            TAIL,
            TAIL,
        ]),
        _ => None,
    }
}

fn begins_with(ranges: &[ByteRange], bytes: &[u8]) -> bool
    ensures { result ≡ begins_with ranges.now bytes.now }
{
    if bytes.len() < ranges.len() {
        return false;
    }
    for (place, range) in ranges.iter().enumerate() {
        let byte = bytes[place];
        if byte < range.low || range.high < byte {
            return false;
        }
    }
    true
}

/// How many bytes at the front of some bytes are read together: those of the well-formed UTF-8 sequence that
/// begins there, from 1 to 4, else one (Unicode 15, table 3-7). It takes no memory.
#[tactic(auto, unfolding(crate::specs::Text::sequence_length))]
pub fn sequence_length(bytes: &[u8]) -> usize
    requires { 0 < length bytes.now }
    ensures length { result ≡ sequence_length bytes.now }
    ensures some { 0 < result }
    ensures within { result ≤ length bytes.now }
{
    match following(bytes[0]) {
        Some(ranges) if begins_with(ranges, &bytes[1..]) => ranges.len() + 1,
        _ => 1,
    }
}

/// The code point of a sequence that was cut off by `sequence_length`. A byte that belongs to no well-formed
/// sequence is read as U+FFFD (own rule). It takes no memory.
pub fn scalar_value(sequence: &[u8]) -> u32
    ensures value { result ≡ scalar_value sequence.now }
    ensures bound { result < 0x200000 }
{
    match sequence {
        [a] if *a < 0x80 => u32::from(*a),
        [a, b] => u32::from(*a % 32) * 64 + u32::from(*b % 64),
        [a, b, c] => (u32::from(*a % 16) * 64 + u32::from(*b % 64)) * 64 + u32::from(*c % 64),
        [a, b, c, d] => {
            ((u32::from(*a % 8) * 64 + u32::from(*b % 64)) * 64 + u32::from(*c % 64)) * 64
                + u32::from(*d % 64)
        }
        _ => 0xFFFD,
    }
}
