//! Strings and templates (ECMA-262, 12.9.4 and 12.9.6).

ghost use Rattle.std.specs.Prelude.{◌≡◌};
ghost use Rattle.js_lexer.specs.Reads.{Escapes, Reads, escape, fed, piece, string};

use crate::characters::Characters;
use crate::escapes::{Escape, take_escape};
use crate::words::push_character;
use es_model::LexFault;
use js_value::Units;
use std::alloc::Global;

/// Takes the rest of a string, after its quote, which stands at `begun`.
pub fn take_string(
    alloc: Global,
    quote: char,
    begun: u32,
    left: &mut Characters,
) -> Result<Units, LexFault>
    ensures { Reads (string quote begun left.old) result left.new }
{
    let mut text = Units::new(alloc);
    loop {
        let at = left.place();
        let Some(c) = left.next() else {
            return Err(LexFault::OpenString(begun));
        };
        if c == quote {
            return Ok(text);
        }
        match c {
            '\n' | '\r' => return Err(LexFault::OpenString(begun)),
            '\\' => push_escape(&mut text, at, left)?,
            _ => push_character(&mut text, c)?,
        }
    }
}

/// Takes a piece of a template whose backquote stands at `begun`, and says whether it is the last.
pub fn take_piece(
    alloc: Global,
    begun: u32,
    left: &mut Characters,
) -> Result<(Units, bool), LexFault>
    ensures { Reads (piece begun left.old) result left.new }
{
    let mut text = Units::new(alloc);
    loop {
        let at = left.place();
        let Some(c) = left.next() else {
            return Err(LexFault::OpenTemplate(begun));
        };
        if c == '`' {
            return Ok((text, true));
        }
        if c == '$' && left.is_at('{') {
            left.next();
            return Ok((text, false));
        }
        match c {
            '\r' => {
                take_feed(left);
                push_character(&mut text, '\n')?;
            }
            '\\' => push_escape(&mut text, at, left)?,
            _ => push_character(&mut text, c)?,
        }
    }
}

/// Takes the LF of a CR LF, after its CR.
fn take_feed(left: &mut Characters)
    ensures { left.new ≡ fed left.old }
{
    if left.is_at('\n') {
        left.next();
    }
}

/// Takes an escape, after its backslash, which stands at `at`, and adds its units.
fn push_escape(text: &mut Units, at: u32, left: &mut Characters) -> Result<(), LexFault>
    ensures { Escapes at (escape left.old) text.old result text.new left.new }
{
    match take_escape(left) {
        Some(Escape::Continuation) => Ok(()),
        Some(Escape::CodePoint(code_point)) => {
            text.push_code_point(code_point)?;
            Ok(())
        }
        None => Err(LexFault::BadEscape(at)),
    }
}
