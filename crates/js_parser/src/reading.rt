//! The pass over the tokens of a text.

ghost use Rattle.std.specs.Prelude.{◌≡◌, ◌≢◌, ◌≤◌, ◌↔◌, [], ◌∷◌, Err, IsTrue, length};
ghost use Rattle.parser_forms.specs.Kept.{none};
ghost use Rattle.parser_forms.specs.declared.pieces.Piece.TheVariants as v;
ghost use Rattle.js_parser.specs.Held as h;
ghost use Rattle.js_parser.specs.Machine.{answer, last_answer};
ghost use Rattle.js_parser.specs.Parsed.{Answers, EndsLast, result_of};
ghost use Rattle.js_parser.specs.declared.fault.ParseFault.TheVariants as fault;
ghost use Rattle.js_parser.specs.declared.frame.Control.TheVariants as c;
ghost use Rattle.js_parser.specs.declared.frame.Frame.TheVariants as f;
ghost use Rattle.js_parser.specs.declared.frame.ItemFrame.TheVariants as n;

use crate::fault::ParseFault;
use crate::frame::{Control, Frame, ItemFrame};
use crate::step::step;
use es_model::{Module, Token, Tokens};
use parser_forms::{Piece, Stack};
use std::alloc::Global;

fn has_failed(control: Control) -> bool
    ensures { IsTrue result ↔ (control ≡ c.Fail) }
{
    matches!(control, Control::Fail)
}

// The answer at the end of the tokens, which are so many.
fn last_module(
    pieces: &mut Stack<Piece>,
    control: Control,
    place: u32,
) -> Result<Module, ParseFault>
    ensures { result ≡ result_of (last_answer place (h.control control pieces.old)) }
{
    match control {
        Control::Done => match pieces.module() {
            Some(module) => Ok(module),
            None => Err(ParseFault::TooDeep),
        },
        _ => Err(ParseFault::Syntax(place)),
    }
}

// Reads all tokens, where a module is open and nothing was read.
fn read(
    stack: &mut Stack<Frame>,
    pieces: &mut Stack<Piece>,
    tokens: &[Token],
) -> Result<Module, ParseFault>
    requires size { length tokens.now ≤ 268435457 }
    requires stack { stack.old ≡ f.Item n.Module ∷ [] }
    requires pieces { pieces.old ≡ v.Items none ∷ [] }
    ensures { result ≢ Err fault.Memory → result ≡ result_of (answer tokens.now) }
{
    let mut control = Control::Statement;
    let mut place = 0;
    for token in tokens {
        control = step(stack, pieces, control, token)?;
        if has_failed(control) {
            return Err(ParseFault::Syntax(place));
        }
        place += 1;
    }
    last_module(pieces, control, place)
}

/// The module that tokens spell, whose last one is the end of the text (ECMA-262, 16.2). No other tree
/// spells them. The fault is the place, from 0, of the token that no module's tokens go on with, or
/// that the tree is nested deeper than 64 (own rule), or want of memory.
///
/// It reads each token once, and takes memory for the tree and for each form that is open.
pub fn module(alloc: Global, tokens: &Tokens) -> Result<Module, ParseFault>
    requires size { length tokens.now ≤ 268435457 }
    requires ends { EndsLast tokens.now }
    ensures { Answers tokens.now result }
{
    let mut stack = Stack::new(alloc);
    stack.push(Frame::Item(ItemFrame::Module))?;
    let mut pieces = Stack::of_module(alloc)?;
    let module = read(&mut stack, &mut pieces, tokens.as_slice());
    pieces.let_go();
    module
}
