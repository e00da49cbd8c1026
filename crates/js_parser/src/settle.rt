//! What a token makes of an expression that was read: it goes on with it, or ends the forms that wait
//! for it.

ghost use Rattle.std.specs.Prelude.{IfOk};
ghost use Rattle.js_parser.specs.Closes.{Closes, after};
ghost use Rattle.js_parser.specs.Held as h;
ghost use Rattle.js_parser.specs.Settle as s;
ghost use Rattle.js_parser.specs.Shows.{Shows};
ghost use Rattle.parser_forms.specs.Pieces.{first, part_in, rest};

use crate::expression_ends::{Closed, close_expression};
use crate::frame::{Control, Frame};
use crate::goings::taken;
use crate::member_ends::{end_in_item, end_in_member};
use crate::statement_ends::end_in_statement;
use crate::tables::goes_on_inside;
use crate::words::word_of_kind;
use es_model::Token;
use parser_forms::{Piece, Stack};
use std::alloc::AllocError;

// A token that ends the form that was innermost, behind an expression, the last piece.
fn close_form(
    stack: &mut Stack<Frame>,
    pieces: &mut Stack<Piece>,
    frame: Frame,
    token: &Token,
) -> Result<Closed, AllocError>
    ensures { IfOk result (λ made. Closes (after (h.frame frame (rest pieces.old)) (h.frames stack.old (h.under_frame frame (rest pieces.old))) (part_in (first pieces.old)) token.now) token.now stack.old made stack.new pieces.new) }
{
    match frame {
        Frame::Expression(frame) => close_expression(stack, pieces, frame, token),
        Frame::Member(frame) => Ok(Closed::Done(end_in_member(stack, pieces, frame, token)?)),
        Frame::Statement(frame) => Ok(Closed::Done(end_in_statement(stack, pieces, frame, token)?)),
        Frame::Item(frame) => Ok(Closed::Done(end_in_item(stack, pieces, frame, token)?)),
    }
}

/// A token behind an expression, the last piece. The one error is want of memory.
pub fn settle(
    stack: &mut Stack<Frame>,
    pieces: &mut Stack<Piece>,
    token: &Token,
) -> Result<Control, AllocError>
    ensures { IfOk result (λ c. Shows (s.settle (h.frames stack.old (rest pieces.old)) (part_in (first pieces.old)) token.now) c stack.new pieces.new) }
{
    let word = word_of_kind(&token.kind);
    while !goes_on_inside(stack, word, token.line_before) {
        let Some(frame) = stack.pop() else {
            return Ok(Control::Fail);
        };
        match close_form(stack, pieces, frame, token)? {
            Closed::Read => {}
            Closed::Done(control) => return Ok(control),
        }
    }
    taken(stack, pieces, word)
}
