//! What stands at a place of a text.

ghost use Rattle.std.specs.Prelude.{◌≡◌, ◌+◌};
ghost use Rattle.es_model.specs.Tokens.{element, word_element, quoted_element, closing_element, read_template, template_from, width};
ghost use Rattle.js_lexer.specs.Reads.{Reads, found};

use crate::braces::Braces;
use crate::characters::Characters;
use crate::classes::{is_blank, is_digit, is_line_break, is_name_start};
use crate::comments::{take_block, take_line};
use crate::numbers::take_number;
use crate::quotes::{take_piece, take_string};
use crate::words::{take_name, take_sign};
use es_model::{LexFault, TokenKind, Words};
use std::alloc::Global;

/// What stands between tokens, with whether it has a line break, or a token.
#[derive(Drop)]
pub enum Found {
    Gap(bool),
    Token(TokenKind),
}

/// Takes what begins with a character, which stands at `at` and is taken already.
pub fn take_element(
    alloc: Global,
    words: &Words,
    braces: &Braces,
    at: u32,
    first: char,
    left: &mut Characters,
) -> Result<Found, LexFault>
    requires { left.old.at ≡ at + width first }
    ensures { Reads (found (element braces.now at first left.old.text) left.old) result left.new }
{
    if is_blank(first) {
        return Ok(Found::Gap(false));
    }
    if is_line_break(first) {
        return Ok(Found::Gap(true));
    }
    if first == '/' && left.is_at('/') {
        left.next();
        take_line(left);
        return Ok(Found::Gap(false));
    }
    if first == '/' && left.is_at('*') {
        left.next();
        return match take_block(left) {
            Some(line) => Ok(Found::Gap(line)),
            None => Err(LexFault::OpenComment(at)),
        };
    }
    take_word(alloc, words, braces, at, first, left)
}

/// Takes a token.
fn take_word(
    alloc: Global,
    words: &Words,
    braces: &Braces,
    at: u32,
    first: char,
    left: &mut Characters,
) -> Result<Found, LexFault>
    requires { left.old.at ≡ at + width first }
    ensures { Reads (found (word_element braces.now at first left.old.text) left.old) result left.new }
{
    if is_name_start(first) {
        return take_name(alloc, words, first, left);
    }
    if is_digit(first) {
        return take_number(at, first, left);
    }
    if first == '.' && left.is_at_digit() {
        return Err(LexFault::NumberForm(at));
    }
    take_quoted(alloc, words, braces, at, first, left)
}

/// Takes a string, a piece of a template or a sign.
fn take_quoted(
    alloc: Global,
    words: &Words,
    braces: &Braces,
    at: u32,
    first: char,
    left: &mut Characters,
) -> Result<Found, LexFault>
    requires { left.old.at ≡ at + width first }
    ensures { Reads (found (quoted_element braces.now at first left.old.text) left.old) result left.new }
{
    match first {
        '"' | '\'' => {
            let text = take_string(alloc, first, at, left)?;
            Ok(Found::Token(TokenKind::String(text)))
        }
        '`' => take_template(alloc, true, at, left),
        '}' => take_closing(alloc, words, braces, at, left),
        _ => take_sign(words, at, first, left),
    }
}

/// Takes `}`, which may continue a template.
fn take_closing(
    alloc: Global,
    words: &Words,
    braces: &Braces,
    at: u32,
    left: &mut Characters,
) -> Result<Found, LexFault>
    requires { left.old.at ≡ at + 1 }
    ensures { Reads (found (closing_element braces.now at left.old.text) left.old) result left.new }
{
    match braces.continued() {
        Some(begun) => take_template(alloc, false, begun, left),
        None => take_sign(words, at, '}', left),
    }
}

/// Takes a piece of a template whose backquote stands at `begun`, after the character that begins it.
fn take_template(
    alloc: Global,
    first: bool,
    begun: u32,
    left: &mut Characters,
) -> Result<Found, LexFault>
    ensures { Reads (found (read_template first (template_from 0 begun left.old.at left.old.text)) left.old) result left.new }
{
    let (text, last) = take_piece(alloc, begun, left)?;
    Ok(Found::Token(TokenKind::Template { text, first, last }))
}
