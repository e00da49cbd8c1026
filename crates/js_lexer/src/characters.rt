//! A text in UTF-8, character by character.

ghost use Rattle.std.specs.Prelude.{◌≡◌, ◌==◌, ◌+◌, ◌<◌, ◌^◌, [], ◌∷◌, length, IfSome, MatchOption};
ghost use Rattle.js_value.specs.Text.{parts, sequence_length};
ghost use Rattle.es_model.specs.Tokens.{characters_of, first_bad, first_is, is_digit, width};
ghost use Rattle.js_lexer.specs.Left.{IsUtf8, skip, first_of};

use crate::classes::is_digit;
use js_value::{scalar_value, sequence_length};
use std::marker::Model;

/// The place of the first byte that belongs to no well-formed sequence.
pub fn first_bad(text: &[u8]) -> Option<usize>
    ensures place { result ≡ first_bad 0 (parts sequence_length text.now) }
    ensures within { IfSome result (λ at. at < length text.now) }
{
    let mut at = 0;
    let mut rest = text;
    while let [byte, behind @ ..] = rest {
        if *byte < 0x80 {
            rest = behind;
            at += 1;
            continue;
        }
        let length = sequence_length(rest);
        if length == 1 {
            return Some(at);
        }
        rest = &rest[length..];
        at += length;
    }
    None
}

/// What is left of a text: its characters, and the place of the first of them, in bytes. Contracts see both.
#[derive(Drop)]
pub struct Characters<'a> {
    rest: &'a [u8],
    at: u32,
}

impl<'a> Model for Characters<'a> {
    ghost use Rattle.std.specs.Prelude.{◌+◌, ◌<◌, ◌^◌, length};
    ghost use Rattle.es_model.specs.Tokens.{characters_of};
    ghost use Rattle.js_lexer.specs.Left.{Left, IsUtf8};

    ghost Value = { Left };

    ghost view = { λ c. record { at = c.at; text = characters_of c.rest.now } };

    ghost invariant = { λ c. IsUtf8 c.rest.now × (c.at + length c.rest.now < 2 ^ 32) };
}

impl<'a> Characters<'a> {
    /// All characters of a text.
    pub fn new(text: &'a [u8]) -> Characters<'a>
        requires utf8 { IsUtf8 text.now }
        requires short { length text.now < 2 ^ 32 }
        ensures { result ≡ record { at = 0; text = characters_of text.now } }
    {
        Characters { rest: text, at: 0 }
    }

    /// The place of the next character, or of the end.
    pub fn place(&self) -> u32
        ensures { result ≡ self.now.at }
    {
        self.at
    }

    /// The next character.
    #[inline(always)]
    pub fn first(&self) -> Option<char>
        ensures { result ≡ first_of self.now.text }
    {
        match split_first(self.rest) {
            Some((first, _behind)) => Some(first),
            None => None,
        }
    }

    /// Whether this character is next.
    pub fn is_at(&self, c: char) -> bool
        ensures { result ≡ first_is (λ d. d == c) self.now.text }
    {
        match self.first() {
            Some(first) => first == c,
            None => false,
        }
    }

    /// Whether a decimal digit is next.
    pub fn is_at_digit(&self) -> bool
        ensures { result ≡ first_is is_digit self.now.text }
    {
        match self.first() {
            Some(first) => is_digit(first),
            None => false,
        }
    }

    /// The character after the next one.
    pub fn second(&self) -> Option<char>
        ensures { result ≡ first_of (skip 1 self.now).text }
    {
        match split_first(self.rest) {
            Some((_first, behind)) => match split_first(behind) {
                Some((second, _rest)) => Some(second),
                None => None,
            },
            None => None,
        }
    }

    /// Takes the next character.
    #[inline(always)]
    pub fn next(&mut self) -> Option<char>
        ensures first { result ≡ first_of self.old.text }
        ensures left { self.new ≡ skip 1 self.old }
    {
        match split_first(self.rest) {
            Some((first, behind)) => {
                self.at += (self.rest.len() - behind.len()) as u32;
                self.rest = behind;
                Some(first)
            }
            None => None,
        }
    }
}

/// The first character, and the bytes behind it.
#[inline(always)]
fn split_first(bytes: &[u8]) -> Option<(char, &[u8])>
    requires { IsUtf8 bytes.now }
    ensures { MatchOption result (bytes.now ≡ []) (λ split. (characters_of bytes.now ≡ split.0 ∷ characters_of split.1.now) × IsUtf8 split.1.now × (length bytes.now ≡ width split.0 + length split.1.now)) }
{
    match bytes {
        [] => None,
        [byte, behind @ ..] if *byte < 0x80 => Some((char::from(*byte), behind)),
        _ => Some(split_sequence(bytes)),
    }
}

#[inline(never)]
fn split_sequence(bytes: &[u8]) -> (char, &[u8])
    requires utf8 { IsUtf8 bytes.now }
    requires some { 0 < length bytes.now }
    ensures text { characters_of bytes.now ≡ result.0 ∷ characters_of result.1.now }
    ensures utf8 { IsUtf8 result.1.now }
    ensures width { length bytes.now ≡ width result.0 + length result.1.now }
{
    let (sequence, behind) = bytes.split_at(sequence_length(bytes));
    (char::from_u32(scalar_value(sequence)).unwrap(), behind)
}
