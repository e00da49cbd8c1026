//! A token that goes on with the expression before it (ECMA-262, 13). The one error of a call is want of
//! memory.

ghost use Rattle.std.specs.Prelude.{◌≡◌, ◌∷◌, IfOk};
ghost use Rattle.js_parser.specs.Held as h;
ghost use Rattle.js_parser.specs.Settle as s;
ghost use Rattle.js_parser.specs.Shows.{Shows};
ghost use Rattle.js_parser.specs.Tables as t;
ghost use Rattle.parser_forms.specs.Asks as asks;
ghost use Rattle.parser_forms.specs.Pieces.{first, part_in, rest};
ghost use Rattle.js_parser.specs.State.{Frames};

use crate::frame::{Callee, Control, ExpressionDue, ExpressionFrame, Frame};
use crate::tables::{assignment_of, infix_of};
use crate::words::Word;
use parser_forms::{Piece, Stack};
use std::alloc::AllocError;

// The head of an arrow. Its own place is where the head begins.
fn take_head(stack: &Stack<Frame>, pieces: &mut Stack<Piece>) -> Result<Control, AllocError>
    ensures { IfOk result (λ c. Shows (s.arrow_where (h.frames stack.now (rest pieces.old)) (part_in (first pieces.old)).at (asks.head_of (part_in (first pieces.old)).heading)) c stack.now pieces.new) }
{
    let at = pieces.at();
    if pieces.take_head()? {
        Ok(Control::Expression(ExpressionDue::ArrowBody { at }))
    } else {
        Ok(Control::Fail)
    }
}

// A word that is no operator between two operands, and no assignment.
fn taken_as(
    stack: &mut Stack<Frame>,
    pieces: &mut Stack<Piece>,
    word: Word,
) -> Result<Control, AllocError>
    ensures { IfOk result (λ c. Shows (s.taken_as (part_in (first pieces.old)) (h.frames stack.old (rest pieces.old)) word) c stack.new pieces.new) }
{
    match word {
        Word::Arrow => take_head(stack, pieces),
        Word::Question if pieces.level() >= 4 => {
            stack.push(Frame::Expression(ExpressionFrame::Yes))?;
            Ok(Control::Operand)
        }
        Word::PlusPlus if pieces.is_target() => {
            pieces.update_behind(true)?;
            Ok(Control::Read)
        }
        Word::MinusMinus if pieces.is_target() => {
            pieces.update_behind(false)?;
            Ok(Control::Read)
        }
        Word::Point if pieces.is_base() => Ok(Control::Expression(ExpressionDue::Property)),
        Word::LeftBracket if pieces.is_base() => {
            stack.push(Frame::Expression(ExpressionFrame::Index))?;
            Ok(Control::Operand)
        }
        Word::LeftParen if pieces.is_base() => {
            pieces.no_expressions()?;
            let callee = Callee::Call;
            stack.push(Frame::Expression(ExpressionFrame::Arguments { callee }))?;
            Ok(Control::Operand)
        }
        _ => Ok(Control::Fail),
    }
}

/// A word that goes on with an expression, the last piece.
pub fn taken(
    stack: &mut Stack<Frame>,
    pieces: &mut Stack<Piece>,
    word: Word,
) -> Result<Control, AllocError>
    ensures { IfOk result (λ c. Shows (s.taken_by (part_in (first pieces.old)) (h.frames stack.old (rest pieces.old)) (t.infix_of word) (t.assignment_of word) word) c stack.new pieces.new) }
{
    match (infix_of(word), assignment_of(word)) {
        (Some(operator), _) if pieces.is_left_of(operator) => {
            stack.push(Frame::Expression(ExpressionFrame::Infix { operator }))?;
            Ok(Control::Operand)
        }
        (None, Some(operator)) if pieces.is_target() => {
            stack.push(Frame::Expression(ExpressionFrame::Assign { operator }))?;
            Ok(Control::Operand)
        }
        (None, None) => taken_as(stack, pieces, word),
        _ => Ok(Control::Fail),
    }
}
