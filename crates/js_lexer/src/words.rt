//! Names, keywords and signs (ECMA-262, 12.7 and 12.8).

ghost use Rattle.std.specs.Prelude.{◌≡◌, ◌≢◌, ◌≤◌, ◌∷◌, ◌++◌, Err, MatchOption, OnOk};
ghost use Rattle.js_value.specs.Text.{utf16};
ghost use Rattle.es_model.specs.Tokens.{name_element, sign_element};
ghost use Rattle.js_lexer.specs.Reads.{Finds, Reads, found, sign, word_of};

use crate::characters::Characters;
use crate::classes::is_name_part;
use crate::elements::Found;
use es_model::{LexFault, TokenKind, Words};
use js_value::Units;
use std::alloc::{AllocError, Global};

/// The length of the longest sign.
const LONGEST: usize = 4;

/// Takes a name or a keyword, after its first character.
pub fn take_name(
    alloc: Global,
    words: &Words,
    first: char,
    left: &mut Characters,
) -> Result<Found, LexFault>
    ensures { Reads (found (name_element first left.old.text) left.old) result left.new }
{
    let mut text = Units::new(alloc);
    push_character(&mut text, first)?;
    while let Some(c) = left.first() {
        if !is_name_part(c) {
            break;
        }
        push_character(&mut text, c)?;
        left.next();
    }
    Ok(Found::Token(word(words, text)))
}

/// The token of a word.
fn word(words: &Words, text: Units) -> TokenKind
    ensures { result ≡ word_of text }
{
    match words.keyword(text.as_slice()) {
        Some(place) => TokenKind::Keyword(place),
        None => TokenKind::Name(text),
    }
}

/// Adds the units of a character (ECMA-262, 11.1.1).
pub fn push_character(text: &mut Units, c: char) -> Result<(), AllocError>
    ensures { OnOk result (text.new ≡ text.old ++ utf16 c) }
{
    text.push_code_point(c as u32)
}

/// Takes a sign, after its first character, which stands at `at`. It takes no memory.
pub fn take_sign(
    words: &Words,
    at: u32,
    first: char,
    left: &mut Characters,
) -> Result<Found, LexFault>
    ensures element { Reads (found (sign_element at (first ∷ left.old.text)) left.old) result left.new }
    ensures memory { result ≢ Err LexFault.Memory }
{
    match longest_sign(words, first, left) {
        Some(place) => Ok(Found::Token(TokenKind::Sign(place))),
        None => Err(LexFault::BadCharacter(at)),
    }
}

/// The place of the longest sign in the list of signs. Each front of a sign is a sign too, so that a longer
/// one is looked for only behind a shorter one.
fn longest_sign(words: &Words, first: char, left: &mut Characters) -> Option<u8>
    ensures { Finds (sign first left.old) result left.new }
{
    let mut units = [ascii(first)?; LONGEST];
    let mut longest = words.sign(&units[..1])?;
    let mut length = 1;
    while length < LONGEST {
        let Some(next) = left.first() else {
            break;
        };
        let Some(unit) = ascii(next) else {
            break;
        };
        units[length] = unit;
        let Some(longer) = words.sign(&units[..length + 1]) else {
            break;
        };
        longest = longer;
        length += 1;
        left.next();
    }
    Some(longest)
}

/// The unit of an ASCII character.
fn ascii(c: char) -> Option<u16>
    ensures { MatchOption result (128 ≤ c) (λ unit. unit ≡ c) }
{
    if c as u32 >= 128 {
        return None;
    }
    Some(c as u16)
}
