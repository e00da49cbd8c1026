//! A statement is complete, and a token behind it was read already: it is put down, and so are the
//! statements that it completes; the token is then read. The one error of a call is want of memory.

ghost use Rattle.std.specs.Prelude.{◌≡◌, ◌∷◌, IfOk};
ghost use Rattle.parser_forms.specs.Pieces.{first, rest, statement_in};
ghost use Rattle.js_parser.specs.Begins as b;
ghost use Rattle.js_parser.specs.Frame as f;
ghost use Rattle.js_parser.specs.Held as h;
ghost use Rattle.js_parser.specs.Placing.{Places};
ghost use Rattle.js_parser.specs.Shows.{Shows};

use crate::begins::begin;
use crate::frame::{Control, Frame, ItemFrame, StatementDue, StatementFrame};
use crate::puts::Placed;
use crate::words::{Word, word_of_kind};
use es_model::Token;
use parser_forms::{Piece, Stack};
use std::alloc::AllocError;

// The last piece is a statement in the statement round it.
fn close_in_statement(
    stack: &mut Stack<Frame>,
    pieces: &mut Stack<Piece>,
    frame: StatementFrame,
    token: &Token,
) -> Result<Placed, AllocError>
    ensures { IfOk result (λ made. Places (b.close (f.Statement (h.statement_frame frame (rest pieces.old)) ∷ h.frames stack.old (h.under_statement_frame frame (rest pieces.old))) (statement_in (first pieces.old)) token.now) (λ frames next. b.close frames next token.now) made stack.old stack.new pieces.new) }
{
    match frame {
        StatementFrame::List(role) => {
            pieces.and_statement()?;
            stack.push(Frame::Statement(StatementFrame::List(role)))?;
            Ok(Placed::Stands(begin(stack, pieces, token)?))
        }
        StatementFrame::Yes => match word_of_kind(&token.kind) {
            Word::Else => {
                stack.push(Frame::Statement(StatementFrame::No))?;
                Ok(Placed::Stands(Control::Statement))
            }
            _ => {
                pieces.choice()?;
                Ok(Placed::Complete)
            }
        },
        StatementFrame::No => {
            pieces.choice_else()?;
            Ok(Placed::Complete)
        }
        StatementFrame::While => {
            pieces.while_loop()?;
            Ok(Placed::Complete)
        }
        StatementFrame::For => {
            pieces.for_loop()?;
            Ok(Placed::Complete)
        }
        StatementFrame::Do => Ok(Placed::Stands(match word_of_kind(&token.kind) {
            Word::While => Control::StatementPart(StatementDue::DoOpen),
            _ => Control::Fail,
        })),
        _ => Ok(Placed::Stands(Control::Fail)),
    }
}

// The last piece is a statement in the item round it.
fn close_in_item(
    stack: &mut Stack<Frame>,
    pieces: &mut Stack<Piece>,
    frame: ItemFrame,
    token: &Token,
) -> Result<Control, AllocError>
    ensures { IfOk result (λ c. Shows (b.close (f.Item (h.item_frame frame (rest pieces.old)) ∷ h.frames stack.old (h.under_item_frame frame (rest pieces.old))) (statement_in (first pieces.old)) token.now) c stack.new pieces.new) }
{
    match frame {
        ItemFrame::Module => {
            pieces.and_plain_item()?;
            stack.push(Frame::Item(ItemFrame::Module))?;
            begin(stack, pieces, token)
        }
        ItemFrame::Export => match stack.top() {
            Some(Frame::Item(ItemFrame::Module)) => {
                pieces.and_exported_item()?;
                begin(stack, pieces, token)
            }
            _ => Ok(Control::Fail),
        },
        ItemFrame::Default { .. } => Ok(Control::Fail),
    }
}

/// A statement, which is the last piece, and the token behind it.
pub fn close(
    stack: &mut Stack<Frame>,
    pieces: &mut Stack<Piece>,
    token: &Token,
) -> Result<Control, AllocError>
    ensures { IfOk result (λ c. Shows (b.close (h.frames stack.old (rest pieces.old)) (statement_in (first pieces.old)) token.now) c stack.new pieces.new) }
{
    while let Some(frame) = stack.pop() {
        match frame {
            Frame::Statement(frame) => match close_in_statement(stack, pieces, frame, token)? {
                Placed::Stands(control) => return Ok(control),
                Placed::Complete => {}
            },
            Frame::Item(frame) => return close_in_item(stack, pieces, frame, token),
            _ => return Ok(Control::Fail),
        }
    }
    Ok(Control::Fail)
}
