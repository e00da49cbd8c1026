//! A token that ends an expression that is open (ECMA-262, 13). The one error of a call is want of memory.

ghost use Rattle.std.specs.Prelude.{◌≡◌, ◌∷◌, IfOk};
ghost use Rattle.js_parser.specs.Closes.{Closes, after};
ghost use Rattle.js_parser.specs.ExpressionFrame as x;
ghost use Rattle.js_parser.specs.Frame as f;
ghost use Rattle.js_parser.specs.Held as h;
ghost use Rattle.js_parser.specs.Settle as s;
ghost use Rattle.js_parser.specs.Shows.{Shows};
ghost use Rattle.parser_forms.specs.Kept.{and_then};
ghost use Rattle.parser_forms.specs.Pieces.{expressions_in, first, part_in, rest, second, texts_in, third};

use crate::frame::{Callee, Control, ExpressionFrame, Frame};
use crate::operands::called;
use crate::words::{Word, word_of_kind};
use es_model::{Token, TokenKind};
use parser_forms::{Piece, Stack};
use std::alloc::AllocError;

/// What the end of a form leaves: an expression, the last piece, that is read in its turn by the forms
/// that are left, or what is due.
#[derive(Clone, Copy)]
pub enum Closed {
    Read,
    Done(Control),
}

fn end_argument(
    stack: &mut Stack<Frame>,
    pieces: &mut Stack<Piece>,
    callee: Callee,
    word: Word,
) -> Result<Control, AllocError>
    ensures { IfOk result (λ c. Shows (s.arguments_end (h.frames stack.old (h.under_callee callee (rest (rest pieces.old)))) (h.callee callee (rest (rest pieces.old))) (and_then (expressions_in (second pieces.old)) (part_in (first pieces.old)).of) word) c stack.new pieces.new) }
{
    pieces.and_expression()?;
    match word {
        Word::RightParen => {
            called(pieces, callee)?;
            Ok(Control::Read)
        }
        Word::Comma => {
            stack.push(Frame::Expression(ExpressionFrame::Arguments { callee }))?;
            Ok(Control::Operand)
        }
        _ => Ok(Control::Fail),
    }
}

fn end_item(
    stack: &mut Stack<Frame>,
    pieces: &mut Stack<Piece>,
    at: u32,
    word: Word,
) -> Result<Control, AllocError>
    ensures { IfOk result (λ c. Shows (s.items_end (h.frames stack.old (rest (rest pieces.old))) at (and_then (expressions_in (second pieces.old)) (part_in (first pieces.old)).of) word) c stack.new pieces.new) }
{
    pieces.and_expression()?;
    match word {
        Word::RightBracket => {
            pieces.array(at)?;
            Ok(Control::Read)
        }
        Word::Comma => {
            stack.push(Frame::Expression(ExpressionFrame::Array { at }))?;
            Ok(Control::Operand)
        }
        _ => Ok(Control::Fail),
    }
}

fn end_template(
    stack: &mut Stack<Frame>,
    pieces: &mut Stack<Piece>,
    at: u32,
    kind: &TokenKind,
) -> Result<Control, AllocError>
    ensures { IfOk result (λ c. Shows (s.template_end (h.frames stack.old (rest (rest (rest pieces.old)))) at (texts_in (second pieces.old)) (and_then (expressions_in (third pieces.old)) (part_in (first pieces.old)).of) kind.now) c stack.new pieces.new) }
{
    match kind {
        TokenKind::Template {
            text,
            first: false,
            last: true,
        } => {
            pieces.and_template(text)?;
            pieces.template(at)?;
            Ok(Control::Read)
        }
        TokenKind::Template {
            text,
            first: false,
            last: false,
        } => {
            pieces.and_template(text)?;
            stack.push(Frame::Expression(ExpressionFrame::Template { at }))?;
            Ok(Control::Operand)
        }
        _ => Ok(Control::Fail),
    }
}

// A form that waits for a token behind its expression.
fn end_expression(
    stack: &mut Stack<Frame>,
    pieces: &mut Stack<Piece>,
    frame: ExpressionFrame,
    token: &Token,
) -> Result<Control, AllocError>
    ensures { IfOk result (λ c. Shows (s.ended (f.Expression (h.expression_frame frame (rest pieces.old))) (h.frames stack.old (h.under_expression_frame frame (rest pieces.old))) (part_in (first pieces.old)) token.now) c stack.new pieces.new) }
{
    let word = word_of_kind(&token.kind);
    match frame {
        ExpressionFrame::Paren { at } if word == Word::RightParen => {
            pieces.paren(at)?;
            Ok(Control::Read)
        }
        ExpressionFrame::Yes if word == Word::Colon => {
            stack.push(Frame::Expression(ExpressionFrame::No))?;
            Ok(Control::Operand)
        }
        ExpressionFrame::Index if word == Word::RightBracket => {
            pieces.index()?;
            Ok(Control::Read)
        }
        ExpressionFrame::SuperIndex { at } if word == Word::RightBracket => {
            pieces.super_index(at)?;
            Ok(Control::Read)
        }
        ExpressionFrame::Arguments { callee } => end_argument(stack, pieces, callee, word),
        ExpressionFrame::Array { at } => end_item(stack, pieces, at, word),
        ExpressionFrame::Template { at } => end_template(stack, pieces, at, &token.kind),
        _ => Ok(Control::Fail),
    }
}

// The callee of a `new` ends at its arguments, or where it has none.
fn close_new(
    stack: &mut Stack<Frame>,
    pieces: &mut Stack<Piece>,
    at: u32,
    token: &Token,
) -> Result<Closed, AllocError>
    ensures { IfOk result (λ made. Closes (after (f.Expression (x.New at)) (h.frames stack.old (rest pieces.old)) (part_in (first pieces.old)) token.now) token.now stack.old made stack.new pieces.new) }
{
    if !pieces.is_new_callee() {
        return Ok(Closed::Done(Control::Fail));
    }
    match word_of_kind(&token.kind) {
        Word::LeftParen if pieces.is_base() => {
            pieces.no_expressions()?;
            let callee = Callee::New { at };
            stack.push(Frame::Expression(ExpressionFrame::Arguments { callee }))?;
            Ok(Closed::Done(Control::Operand))
        }
        Word::LeftParen => Ok(Closed::Done(Control::Fail)),
        _ => {
            pieces.bare_new(at)?;
            Ok(Closed::Read)
        }
    }
}

/// A token that makes nothing of an expression, the last piece, that the innermost form may hold: the form
/// ends.
pub fn close_expression(
    stack: &mut Stack<Frame>,
    pieces: &mut Stack<Piece>,
    frame: ExpressionFrame,
    token: &Token,
) -> Result<Closed, AllocError>
    ensures { IfOk result (λ made. Closes (after (f.Expression (h.expression_frame frame (rest pieces.old))) (h.frames stack.old (h.under_expression_frame frame (rest pieces.old))) (part_in (first pieces.old)) token.now) token.now stack.old made stack.new pieces.new) }
{
    match frame {
        ExpressionFrame::Infix { operator } => pieces.operation(operator)?,
        ExpressionFrame::Prefix { operator, at } => pieces.prefix_form(operator, at)?,
        ExpressionFrame::Update { at, up } if pieces.is_target() => pieces.update_before(at, up)?,
        ExpressionFrame::Update { .. } => return Ok(Closed::Done(Control::Fail)),
        ExpressionFrame::New { at } => return close_new(stack, pieces, at, token),
        ExpressionFrame::No => pieces.conditional()?,
        ExpressionFrame::Assign { operator } => pieces.assign(operator)?,
        ExpressionFrame::Arrow { at } => pieces.arrow(at)?,
        _ => return Ok(Closed::Done(end_expression(stack, pieces, frame, token)?)),
    }
    Ok(Closed::Read)
}
