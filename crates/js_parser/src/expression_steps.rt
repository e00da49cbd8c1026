//! Tokens where a part of an expression is due (ECMA-262, 13.3 and 15.3). The one error of a call is want
//! of memory.

ghost use Rattle.std.specs.Prelude.{◌≡◌, ◌∷◌, IfOk};
ghost use Rattle.js_parser.specs.Held as h;
ghost use Rattle.js_parser.specs.MemberSteps as ms;
ghost use Rattle.js_parser.specs.Shows.{Shows};
ghost use Rattle.js_parser.specs.State.{the_word};
ghost use Rattle.parser_forms.specs.Pieces.{first, names_in, rest};

use crate::frame::{
    Callee, Control, ExpressionDue, ExpressionFrame, Frame, ListRole, StatementFrame,
};
use crate::operands::operand;
use crate::texts::plain_name;
use crate::words::{Word, word_of_kind};
use es_model::Token;
use parser_forms::{Piece, Stack};
use std::alloc::AllocError;

// Arguments of `super`, which is no callee of a `new`.
fn super_arguments(
    stack: &mut Stack<Frame>,
    pieces: &mut Stack<Piece>,
    at: u32,
) -> Result<Control, AllocError>
    ensures { IfOk result (λ c. Shows (ms.super_arguments (h.frames stack.old pieces.old) at) c stack.new pieces.new) }
{
    match stack.top() {
        Some(Frame::Expression(ExpressionFrame::New { .. })) => Ok(Control::Fail),
        _ => {
            pieces.no_expressions()?;
            let callee = Callee::Super { at };
            stack.push(Frame::Expression(ExpressionFrame::Arguments { callee }))?;
            Ok(Control::Operand)
        }
    }
}

// Behind `super`.
fn super_word(
    stack: &mut Stack<Frame>,
    pieces: &mut Stack<Piece>,
    at: u32,
    word: Word,
) -> Result<Control, AllocError>
    ensures { IfOk result (λ c. Shows (ms.super_word (h.frames stack.old pieces.old) at word) c stack.new pieces.new) }
{
    match word {
        Word::Point => Ok(Control::Expression(ExpressionDue::SuperProperty { at })),
        Word::LeftBracket => {
            stack.push(Frame::Expression(ExpressionFrame::SuperIndex { at }))?;
            Ok(Control::Operand)
        }
        Word::LeftParen => super_arguments(stack, pieces, at),
        _ => Ok(Control::Fail),
    }
}

// Behind the names of an arrow, the last piece, and `=>`.
fn arrow_body(
    stack: &mut Stack<Frame>,
    pieces: &mut Stack<Piece>,
    at: u32,
    token: &Token,
) -> Result<Control, AllocError>
    ensures { IfOk result (λ c. Shows (ms.arrow_body (h.frames stack.old (rest pieces.old)) at (names_in (first pieces.old)) token.now (the_word token.now)) c stack.new pieces.new) }
{
    match word_of_kind(&token.kind) {
        Word::LeftBrace => {
            pieces.no_statements()?;
            let role = ListRole::Arrow { at };
            stack.push(Frame::Statement(StatementFrame::List(role)))?;
            Ok(Control::Statement)
        }
        _ => {
            stack.push(Frame::Expression(ExpressionFrame::Arrow { at }))?;
            operand(stack, pieces, token)
        }
    }
}

/// What a token makes of a state in which a part of an expression is due.
pub fn expression_step(
    stack: &mut Stack<Frame>,
    pieces: &mut Stack<Piece>,
    due: ExpressionDue,
    token: &Token,
) -> Result<Control, AllocError>
    ensures { IfOk result (λ c. Shows (ms.expression_step (h.expression_due due pieces.old) (h.frames stack.old (h.under_expression_due due pieces.old)) token.now) c stack.new pieces.new) }
{
    let word = word_of_kind(&token.kind);
    match due {
        ExpressionDue::Property => match plain_name(pieces.alloc(), &token.kind)? {
            Some(text) => {
                pieces.dot(text)?;
                Ok(Control::Read)
            }
            None => Ok(Control::Fail),
        },
        ExpressionDue::Super { at } => super_word(stack, pieces, at, word),
        ExpressionDue::SuperProperty { at } => match plain_name(pieces.alloc(), &token.kind)? {
            Some(text) => {
                pieces.super_dot(at, text)?;
                Ok(Control::Read)
            }
            None => Ok(Control::Fail),
        },
        // `=>` stands on the line of its head.
        ExpressionDue::Arrow { at } => match word {
            Word::Arrow if !token.line_before => {
                Ok(Control::Expression(ExpressionDue::ArrowBody { at }))
            }
            _ => Ok(Control::Fail),
        },
        ExpressionDue::ArrowBody { at } => arrow_body(stack, pieces, at, token),
    }
}
