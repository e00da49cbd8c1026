//! What is done where a form is complete and no token is left over: it is put into the form round it.
//! The one error of a call is want of memory.

ghost use Rattle.std.specs.Prelude.{◌≡◌, ◌∷◌, IfOk};
ghost use Rattle.parser_forms.specs.Pieces.{first, rest, statement_in};
ghost use Rattle.js_parser.specs.Ends as e;
ghost use Rattle.js_parser.specs.Frame as f;
ghost use Rattle.js_parser.specs.Held as h;
ghost use Rattle.js_parser.specs.Placing.{Places};
ghost use Rattle.js_parser.specs.Shows.{Shows};

use crate::frame::{Control, Frame, ItemFrame, StatementDue, StatementFrame};
use parser_forms::{Piece, Stack};
use std::alloc::AllocError;

/// What comes of putting a statement into a form: the reading stands somewhere, or the form is
/// complete in its turn, and its statement is the last piece.
#[derive(Clone, Copy)]
pub enum Placed {
    Stands(Control),
    Complete,
}

// The last piece is a statement in the statement round it.
fn put_in_statement(
    stack: &mut Stack<Frame>,
    pieces: &mut Stack<Piece>,
    frame: StatementFrame,
) -> Result<Placed, AllocError>
    ensures { IfOk result (λ made. Places (e.put (f.Statement (h.statement_frame frame (rest pieces.old)) ∷ h.frames stack.old (h.under_statement_frame frame (rest pieces.old))) (statement_in (first pieces.old))) (λ frames next. e.put frames next) made stack.old stack.new pieces.new) }
{
    match frame {
        StatementFrame::List(role) => {
            pieces.and_statement()?;
            stack.push(Frame::Statement(StatementFrame::List(role)))?;
            Ok(Placed::Stands(Control::Statement))
        }
        StatementFrame::Yes => Ok(Placed::Stands(Control::StatementPart(StatementDue::Else))),
        StatementFrame::No => {
            pieces.choice_else()?;
            Ok(Placed::Complete)
        }
        StatementFrame::While => {
            pieces.while_loop()?;
            Ok(Placed::Complete)
        }
        StatementFrame::For => {
            pieces.for_loop()?;
            Ok(Placed::Complete)
        }
        StatementFrame::Do => Ok(Placed::Stands(Control::StatementPart(StatementDue::DoWhile))),
        _ => Ok(Placed::Stands(Control::Fail)),
    }
}

// The last piece is a statement in the item round it.
fn put_in_item(
    stack: &mut Stack<Frame>,
    pieces: &mut Stack<Piece>,
    frame: ItemFrame,
) -> Result<Control, AllocError>
    ensures { IfOk result (λ c. Shows (e.put (f.Item (h.item_frame frame (rest pieces.old)) ∷ h.frames stack.old (h.under_item_frame frame (rest pieces.old))) (statement_in (first pieces.old))) c stack.new pieces.new) }
{
    match frame {
        ItemFrame::Module => {
            pieces.and_plain_item()?;
            stack.push(Frame::Item(ItemFrame::Module))?;
            Ok(Control::Statement)
        }
        ItemFrame::Export => match stack.top() {
            Some(Frame::Item(ItemFrame::Module)) => {
                pieces.and_exported_item()?;
                Ok(Control::Statement)
            }
            _ => Ok(Control::Fail),
        },
        ItemFrame::Default { .. } => Ok(Control::Fail),
    }
}

/// A statement, which is the last piece. Those that it completes are put down in their turn; the first
/// statement of an `if` waits for the word behind it.
pub fn put(stack: &mut Stack<Frame>, pieces: &mut Stack<Piece>) -> Result<Control, AllocError>
    ensures { IfOk result (λ c. Shows (e.put (h.frames stack.old (rest pieces.old)) (statement_in (first pieces.old))) c stack.new pieces.new) }
{
    while let Some(frame) = stack.pop() {
        match frame {
            Frame::Statement(frame) => match put_in_statement(stack, pieces, frame)? {
                Placed::Stands(control) => return Ok(control),
                Placed::Complete => {}
            },
            Frame::Item(frame) => return put_in_item(stack, pieces, frame),
            _ => return Ok(Control::Fail),
        }
    }
    Ok(Control::Fail)
}
