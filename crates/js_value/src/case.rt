//! Tables of texts.

ghost use Rattle.std.specs.Prelude.{◌≡◌, ℕ, ◌<◌, ◌↔◌, [], ◌∷◌, ◌++◌, IfErr, IfOk, IsTrue, Some, map, slice_get};
ghost use Rattle.std.specs.Cmp.Lexicographic.{slice_cmp};
ghost use Rattle.std.specs.Ordering.{nat_cmp};
ghost use Rattle.js_value.specs.Case.{IsDecided, are_keys, texts};
ghost use Rattle.js_value.specs.Text.{units, utf16};

use crate::text::{scalar_value, sequence_length};
use std::cmp::Ordering;
use std::convert::AsStr;
use std::marker::Model;

/// A table of `N` texts: each comes before the next one by its units, so that no two are the same (own
/// rule). A text is found in about log2(`N`) comparisons. `K` is `&'static str` in each table of this project;
/// it is a parameter because only arrays of a parameter's elements get a proof at every length.
#[derive(Drop)]
pub struct Case<const N: usize, K: AsStr + Copy = &'static str> {
    keys: [K; N],
}

// Clauses see the keys in UTF-8.
impl<const N: usize, K: AsStr + Copy> Model for Case<N, K> {
    ghost use Rattle.std.specs.Prelude.{ℕ, List, map, IsTrue};
    ghost use Rattle.js_value.specs.Case.{are_keys};

    ghost Value = { List (List ℕ) };

    ghost view = { λ c. map K.text c.keys };

    ghost invariant = { λ c. IsTrue (are_keys (map K.text c.keys)) };
}

impl<const N: usize, K: AsStr + Copy> Case<N, K> {
    /// The table of these keys, in their order. It takes no memory.
    pub fn new(keys: [K; N]) -> Case<N, K>
        requires { IsTrue (are_keys (map K.text keys)) }
        ensures { result ≡ map K.text keys }
    {
        Case { keys }
    }

    /// The row of a text, from 0; None where no key is that text. It takes no memory.
    pub fn find(&self, units: &[u16]) -> Option<usize>
        ensures row { (row : ℕ) → (result ≡ Some row) ↔ (slice_get (texts self.now) row ≡ Some units.now) }
    {
        self.keys
            .binary_search_by(|key| order(key.as_str(), units))
            .ok()
    }

    /// The key of a row, which is below `N`.
    pub fn key(&self, row: usize) -> K
        requires { row < N }
        ensures { slice_get self.now row ≡ Some (K.text result) }
    {
        self.keys[row]
    }
}

// By the first unit in which a key differs from a text, else by their lengths. A byte below 0x80 is a unit.
fn order(key: &str, text: &[u16]) -> Ordering
    ensures { result ≡ slice_cmp nat_cmp (units key.now) text.now }
{
    let mut key_left = key.as_bytes();
    let mut text_left = text;
    while let [byte, behind @ ..] = key_left {
        if *byte < 0x80 {
            match cut_unit(u16::from(*byte), text_left) {
                Ok(rest) => text_left = rest,
                Err(order) => return order,
            }
            key_left = behind;
            continue;
        }
        let (sequence, after) = key_left.split_at(sequence_length(key_left));
        match cut_code_point(scalar_value(sequence), text_left) {
            Ok(rest) => text_left = rest,
            Err(order) => return order,
        }
        key_left = after;
    }
    0.cmp(&text_left.len())
}

// What comes after the units of a code point (ECMA-262, 11.1.1), where a text begins with them. Else how any
// text that begins with the code point stands to this one.
fn cut_code_point(code_point: u32, units: &[u16]) -> Result<&[u16], Ordering>
    requires { code_point < 0x200000 }
    ensures ok { IfOk result (λ rest. units.now ≡ utf16 code_point ++ rest.now) }
    ensures err { IfErr result (λ order. IsDecided (utf16 code_point) units.now order) }
{
    if code_point < 0x10000 {
        return cut_unit(code_point as u16, units);
    }
    let above = code_point - 0x10000;
    match cut_unit((0xD800 + above / 0x400) as u16, units) {
        Ok(rest) => cut_unit((0xDC00 + above % 0x400) as u16, rest),
        Err(order) => Err(order),
    }
}

// The same for a unit.
fn cut_unit(unit: u16, units: &[u16]) -> Result<&[u16], Ordering>
    ensures ok { IfOk result (λ rest. units.now ≡ unit ∷ rest.now) }
    ensures err { IfErr result (λ order. IsDecided (unit ∷ []) units.now order) }
{
    let Some((first, rest)) = units.split_first() else {
        return Err(Ordering::Greater);
    };
    match unit.cmp(first) {
        Ordering::Equal => Ok(rest),
        other => Err(other),
    }
}
