//! What is done at the end of a list of statements, of a switch and of the module (ECMA-262, 14 and 16.2).
//! The one error of a call is want of memory.

ghost use Rattle.std.specs.Prelude.{◌≡◌, ◌∷◌, IfOk};
ghost use Rattle.parser_forms.specs.Pieces.{first, rest, statements_in};
ghost use Rattle.js_parser.specs.Ends as e;
ghost use Rattle.js_parser.specs.Held as h;
ghost use Rattle.js_parser.specs.Shows.{Shows};

use crate::ends_of_functions::function_end;
use crate::frame::{Control, Frame, ItemFrame, ListRole, StatementDue, StatementFrame};
use crate::puts::put;
use crate::words::Word;
use parser_forms::{Piece, Stack};
use std::alloc::AllocError;

/// The `}` of a switch, behind its cases.
pub fn switch_end(
    stack: &mut Stack<Frame>,
    pieces: &mut Stack<Piece>,
) -> Result<Control, AllocError>
    ensures { IfOk result (λ c. Shows (e.switch_end (h.frames stack.old pieces.old)) c stack.new pieces.new) }
{
    match stack.pop() {
        Some(Frame::Statement(StatementFrame::Switch { .. })) => {
            pieces.switch()?;
            put(stack, pieces)
        }
        _ => Ok(Control::Fail),
    }
}

/// `case` and `default` in a switch: `default` stands in it once.
pub fn case_start(
    stack: &mut Stack<Frame>,
    pieces: &mut Stack<Piece>,
    word: Word,
) -> Result<Control, AllocError>
    ensures { IfOk result (λ c. Shows (e.case_start (h.frames stack.old pieces.old) word) c stack.new pieces.new) }
{
    match (stack.top(), word) {
        (Some(Frame::Statement(StatementFrame::Switch { .. })), Word::Case) => {
            stack.push(Frame::Statement(StatementFrame::CaseTest))?;
            Ok(Control::Operand)
        }
        (Some(Frame::Statement(StatementFrame::Switch { has_default: false })), Word::Default) =>
            Ok(Control::StatementPart(StatementDue::CaseColon)),
        _ => Ok(Control::Fail),
    }
}

/// `case` and `default` behind the statements of a case.
pub fn next_case(
    stack: &mut Stack<Frame>,
    pieces: &mut Stack<Piece>,
    word: Word,
) -> Result<Control, AllocError>
    ensures { IfOk result (λ c. Shows (e.next_case (h.frames stack.old pieces.old) word) c stack.new pieces.new) }
{
    let role = match stack.pop() {
        Some(Frame::Statement(StatementFrame::List(role))) => role,
        _ => return Ok(Control::Fail),
    };
    let has_default = match stack.pop() {
        Some(Frame::Statement(StatementFrame::Switch { has_default })) => has_default,
        _ => return Ok(Control::Fail),
    };
    let is_default = match role {
        ListRole::Case => {
            pieces.and_case()?;
            false
        }
        ListRole::Default => {
            pieces.and_default_case()?;
            true
        }
        _ => return Ok(Control::Fail),
    };
    let has_default = has_default || is_default;
    stack.push(Frame::Statement(StatementFrame::Switch { has_default }))?;
    case_start(stack, pieces, word)
}

// The end of a list of statements, which is the last piece.
fn list_end(
    stack: &mut Stack<Frame>,
    pieces: &mut Stack<Piece>,
    role: ListRole,
) -> Result<Control, AllocError>
    ensures { IfOk result (λ c. Shows (e.list_end (h.list_role role (rest pieces.old)) (h.frames stack.old (h.under_list_role role (rest pieces.old))) (statements_in (first pieces.old))) c stack.new pieces.new) }
{
    match role {
        ListRole::Block => {
            pieces.block()?;
            put(stack, pieces)
        }
        ListRole::Try => Ok(Control::StatementPart(StatementDue::Guard)),
        ListRole::Catch => Ok(Control::StatementPart(StatementDue::Finally)),
        ListRole::Finally => {
            pieces.guarded_finally()?;
            put(stack, pieces)
        }
        ListRole::Function(signature) => function_end(stack, pieces, signature),
        ListRole::Arrow { at } => {
            pieces.block_arrow(at)?;
            Ok(Control::Read)
        }
        ListRole::Case => match stack.top() {
            Some(Frame::Statement(StatementFrame::Switch { .. })) => {
                pieces.and_case()?;
                switch_end(stack, pieces)
            }
            _ => Ok(Control::Fail),
        },
        ListRole::Default => match stack.top() {
            Some(Frame::Statement(StatementFrame::Switch { .. })) => {
                pieces.and_default_case()?;
                switch_end(stack, pieces)
            }
            _ => Ok(Control::Fail),
        },
    }
}

/// A `}` where a statement may stand.
pub fn braces_end(
    stack: &mut Stack<Frame>,
    pieces: &mut Stack<Piece>,
) -> Result<Control, AllocError>
    ensures { IfOk result (λ c. Shows (e.braces_end (h.frames stack.old pieces.old)) c stack.new pieces.new) }
{
    match stack.pop() {
        Some(Frame::Statement(StatementFrame::List(role))) => list_end(stack, pieces, role),
        _ => Ok(Control::Fail),
    }
}

/// The end of the text.
pub fn module_end(
    stack: &mut Stack<Frame>,
    pieces: &mut Stack<Piece>,
) -> Result<Control, AllocError>
    ensures { IfOk result (λ c. Shows (e.module_end (h.frames stack.old pieces.old)) c stack.new pieces.new) }
{
    match (stack.pop(), stack.top()) {
        (Some(Frame::Item(ItemFrame::Module)), None) => Ok(Control::Done),
        _ => Ok(Control::Fail),
    }
}
