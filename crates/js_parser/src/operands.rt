//! The tokens with which an operand begins, and those that may stand in its place (ECMA-262, 13). The one
//! error of a call is want of memory.

ghost use Rattle.std.specs.Prelude.{◌≡◌, ◌∷◌, IfOk, Some};
ghost use Rattle.js_parser.specs.Begins as b;
ghost use Rattle.js_parser.specs.Ends as e;
ghost use Rattle.js_parser.specs.ExpressionFrame as x;
ghost use Rattle.js_parser.specs.Frame as f;
ghost use Rattle.js_parser.specs.Held as h;
ghost use Rattle.js_parser.specs.Shows.{Shows};
ghost use Rattle.js_parser.specs.declared.frame.Control.TheVariants as cc;
ghost use Rattle.js_parser.specs.declared.frame.Frame.TheVariants as cf;
ghost use Rattle.parser_forms.specs.Parts as p;
ghost use Rattle.parser_forms.specs.Pieces.{expressions_in, first, names_in, part_in, rest};
ghost use Rattle.parser_forms.specs.declared.kinds.Infix.TheVariants as i;
ghost use Rattle.parser_forms.specs.declared.pieces.Piece.TheVariants as v;

use crate::frame::{
    Callee, Control, ExpressionDue, ExpressionFrame, Frame, MemberDue, MemberFrame, Role,
};
use crate::tables::{prefix_of, slot};
use crate::words::{Word, word_of_kind};
use es_model::{Token, TokenKind};
use parser_forms::{Infix, Literal, Piece, Prefix, Stack, copy_of};
use std::alloc::AllocError;

/// Arguments that are complete: the last pieces are what they are handed to, if it is an expression, and
/// the arguments.
pub fn called(pieces: &mut Stack<Piece>, callee: Callee) -> Result<(), AllocError>
    ensures { IfOk result (λ done. pieces.new ≡ v.Part (e.called (h.callee callee (rest pieces.old)) (expressions_in (first pieces.old))) ∷ h.under_callee callee (rest pieces.old)) }
{
    match callee {
        Callee::Call => pieces.call(),
        Callee::New { at } => pieces.new_call(at),
        Callee::Super { at } => pieces.super_call(at),
    }
}

// The names that are the last piece stand as an arrow's head, where an arrow may stand.
fn head_where(stack: &Stack<Frame>, pieces: &Stack<Piece>, at: u32) -> Control
    ensures { Shows (b.head_where (h.frames stack.now (rest pieces.now)) at (Some (names_in (first pieces.now)))) result stack.now pieces.now }
{
    if slot(stack) <= 2 {
        Control::Expression(ExpressionDue::Arrow { at })
    } else {
        Control::Fail
    }
}

// A `)` behind a comma that is in parentheses ends a list of names.
fn close_names(stack: &mut Stack<Frame>, pieces: &mut Stack<Piece>) -> Result<Control, AllocError>
    ensures { IfOk result (λ c. Shows (b.close_paren (f.Expression (x.Infix i.Comma (part_in (first pieces.old))) ∷ h.frames stack.old (rest pieces.old))) c stack.new pieces.new) }
{
    match stack.pop() {
        Some(Frame::Expression(ExpressionFrame::Paren { at })) => {
            if pieces.take_list()? {
                Ok(head_where(stack, pieces, at))
            } else {
                Ok(Control::Fail)
            }
        }
        _ => Ok(Control::Fail),
    }
}

// A `)` in place of an operand: behind `(`, or behind a comma.
fn close_paren(stack: &mut Stack<Frame>, pieces: &mut Stack<Piece>) -> Result<Control, AllocError>
    ensures { IfOk result (λ c. Shows (b.close_paren (h.frames stack.old pieces.old)) c stack.new pieces.new) }
{
    match stack.pop() {
        Some(Frame::Expression(ExpressionFrame::Paren { at })) => {
            pieces.no_names()?;
            Ok(head_where(stack, pieces, at))
        }
        Some(
            Frame::Expression(
                ExpressionFrame::Infix {
                    operator: Infix::Comma,
                },
            ),
        ) => close_names(stack, pieces),
        Some(Frame::Expression(ExpressionFrame::Arguments { callee })) => {
            called(pieces, callee)?;
            Ok(Control::Read)
        }
        _ => Ok(Control::Fail),
    }
}

// A `]` in place of an operand.
fn close_bracket(stack: &mut Stack<Frame>, pieces: &mut Stack<Piece>) -> Result<Control, AllocError>
    ensures { IfOk result (λ c. Shows (b.close_bracket (h.frames stack.old pieces.old)) c stack.new pieces.new) }
{
    match stack.pop() {
        Some(Frame::Expression(ExpressionFrame::Array { at })) => {
            pieces.array(at)?;
            Ok(Control::Read)
        }
        _ => Ok(Control::Fail),
    }
}

// `!`, `typeof` and their like, where an operand may be so loose.
fn prefixed(
    stack: &mut Stack<Frame>,
    pieces: &Stack<Piece>,
    operator: Option<Prefix>,
    at: u32,
) -> Result<Control, AllocError>
    ensures { IfOk result (λ c. Shows (b.prefixed (h.frames stack.old pieces.now) operator at) c stack.new pieces.now) }
{
    match operator {
        Some(operator) if slot(stack) <= 15 => {
            stack.push(Frame::Expression(ExpressionFrame::Prefix { operator, at }))?;
            Ok(Control::Operand)
        }
        _ => Ok(Control::Fail),
    }
}

// `++` and `--`, where an operand may be so loose.
fn updated(
    stack: &mut Stack<Frame>,
    pieces: &Stack<Piece>,
    up: bool,
    at: u32,
) -> Result<Control, AllocError>
    ensures { IfOk result (λ c. Shows (b.updated (h.frames stack.old pieces.now) up at) c stack.new pieces.now) }
{
    if slot(stack) > 16 {
        return Ok(Control::Fail);
    }
    stack.push(Frame::Expression(ExpressionFrame::Update { at, up }))?;
    Ok(Control::Operand)
}

// An expression that is opened, and in which an operand is due.
fn opened(stack: &mut Stack<Frame>, frame: ExpressionFrame) -> Result<Control, AllocError>
    ensures { IfOk result (λ c. (c ≡ cc.Operand) × (stack.new ≡ cf.Expression frame ∷ stack.old)) }
{
    stack.push(Frame::Expression(frame))?;
    Ok(Control::Operand)
}

// An expression that is one token, and no name.
fn read_literal(pieces: &mut Stack<Piece>, literal: Literal, at: u32) -> Result<Control, AllocError>
    ensures { IfOk result (λ c. (c ≡ cc.Read) × (pieces.new ≡ v.Part (p.literal literal at) ∷ pieces.old)) }
{
    pieces.literal(literal, at)?;
    Ok(Control::Read)
}

fn operand_word(
    stack: &mut Stack<Frame>,
    pieces: &mut Stack<Piece>,
    word: Word,
    at: u32,
) -> Result<Control, AllocError>
    ensures { IfOk result (λ c. Shows (b.operand_word (h.frames stack.old pieces.old) word at) c stack.new pieces.new) }
{
    let role = Role::Expression;
    match word {
        Word::This => read_literal(pieces, Literal::This, at),
        Word::Null => read_literal(pieces, Literal::Null, at),
        Word::True => read_literal(pieces, Literal::True, at),
        Word::False => read_literal(pieces, Literal::False, at),
        Word::Super => Ok(Control::Expression(ExpressionDue::Super { at })),
        Word::New => opened(stack, ExpressionFrame::New { at }),
        Word::Function => Ok(Control::Member(MemberDue::FunctionName { at, role })),
        Word::Class => Ok(Control::Member(MemberDue::ClassName { at, role })),
        Word::LeftParen => opened(stack, ExpressionFrame::Paren { at }),
        Word::LeftBracket => {
            pieces.no_expressions()?;
            opened(stack, ExpressionFrame::Array { at })
        }
        Word::LeftBrace => {
            pieces.no_members()?;
            stack.push(Frame::Member(MemberFrame::Object { at }))?;
            Ok(Control::Member(MemberDue::Member))
        }
        Word::PlusPlus => updated(stack, pieces, true, at),
        Word::MinusMinus => updated(stack, pieces, false, at),
        Word::RightParen => close_paren(stack, pieces),
        Word::RightBracket => close_bracket(stack, pieces),
        _ => prefixed(stack, pieces, prefix_of(word), at),
    }
}

/// Where an operand is due.
pub fn operand(
    stack: &mut Stack<Frame>,
    pieces: &mut Stack<Piece>,
    token: &Token,
) -> Result<Control, AllocError>
    ensures { IfOk result (λ c. Shows (b.operand (h.frames stack.old pieces.old) token.now) c stack.new pieces.new) }
{
    let at = token.at;
    match &token.kind {
        TokenKind::Name(text) => {
            pieces.name(at, text)?;
            Ok(Control::Read)
        }
        TokenKind::Number(number) => read_literal(pieces, Literal::Number(*number), at),
        TokenKind::String(text) => {
            let text = copy_of(pieces.alloc(), text)?;
            read_literal(pieces, Literal::String(text), at)
        }
        TokenKind::Template {
            text,
            first: true,
            last: true,
        } => {
            pieces.plain_template(at, text)?;
            Ok(Control::Read)
        }
        TokenKind::Template {
            text,
            first: true,
            last: false,
        } => {
            pieces.template_start(text)?;
            opened(stack, ExpressionFrame::Template { at })
        }
        TokenKind::Keyword(_) | TokenKind::Sign(_) => {
            operand_word(stack, pieces, word_of_kind(&token.kind), at)
        }
        _ => Ok(Control::Fail),
    }
}
