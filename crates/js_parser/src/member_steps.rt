//! The tokens of members, functions and classes (ECMA-262, 13.2.5 and 15). The one error is want of
//! memory.

ghost use Rattle.std.specs.Prelude.{◌≡◌, ◌∷◌, IfOk};
ghost use Rattle.js_parser.specs.Held as h;
ghost use Rattle.js_parser.specs.MemberSteps as ms;
ghost use Rattle.js_parser.specs.Shows.{Shows};

use crate::ends_of_functions::{class_end, derived_class_end};
use crate::frame::{Control, Frame, MemberDue, MemberFrame, MemberStart};
use crate::function_steps::{
    body_open, class_name, class_next, function_name, parameter, parameter_next, parameters_open,
};
use crate::member_keys::{accessor, fixed_member, key_next, member_start, name_key_next};
use crate::object_ends::{member_next, object_end};
use crate::words::{Word, word_of_kind};
use es_model::Token;
use parser_forms::{Piece, Stack};
use std::alloc::AllocError;

/// What a token makes of a state in which a part of a member, a function or a class is due.
pub fn member_step(
    stack: &mut Stack<Frame>,
    pieces: &mut Stack<Piece>,
    due: MemberDue,
    token: &Token,
) -> Result<Control, AllocError>
    ensures { IfOk result (λ c. Shows (ms.member_step (h.member_due due pieces.old) (h.frames stack.old (h.under_member_due due pieces.old)) token.now) c stack.new pieces.new) }
{
    let word = word_of_kind(&token.kind);
    match due {
        MemberDue::Member => member_due(stack, pieces, token),
        MemberDue::Next => member_next(stack, pieces, word),
        MemberDue::Fixed { at } => fixed_member(stack, pieces, at, token),
        MemberDue::Accessor { at, fixed, kind } => {
            accessor(stack, pieces, MemberStart { at, fixed, kind }, token)
        }
        MemberDue::Key(start) => key_next(stack, pieces, start, word),
        MemberDue::NameKey(start) => name_key_next(stack, pieces, start, word),
        MemberDue::FunctionName { at, role } => function_name(stack, pieces, at, role, token),
        MemberDue::Parameters(signature) => parameters_open(stack, pieces, signature, word),
        MemberDue::Parameter(signature) => parameter(stack, pieces, signature, token),
        MemberDue::ParameterNext(signature) => Ok(parameter_next(stack, pieces, signature, word)),
        MemberDue::Body(signature) => body_open(stack, pieces, signature, word),
        MemberDue::ClassName { at, role } => class_name(stack, pieces, at, role, token),
        MemberDue::ClassNext(start) => class_next(stack, pieces, start, word),
    }
}

// A member, or the end of the members.
fn member_due(
    stack: &mut Stack<Frame>,
    pieces: &mut Stack<Piece>,
    token: &Token,
) -> Result<Control, AllocError>
    ensures { IfOk result (λ c. Shows (ms.member_due (h.frames stack.old pieces.old) token.now) c stack.new pieces.new) }
{
    let word = word_of_kind(&token.kind);
    match stack.top() {
        Some(Frame::Member(MemberFrame::Object { .. })) => match word {
            Word::RightBrace => object_end(stack, pieces),
            _ => member_start(stack, pieces, token.at, false, token),
        },
        Some(Frame::Member(MemberFrame::Class(start))) => match word {
            Word::RightBrace => {
                let start = *start;
                stack.pop();
                class_end(stack, pieces, start)
            }
            Word::Semicolon => Ok(Control::Member(MemberDue::Member)),
            Word::Static => Ok(Control::Member(MemberDue::Fixed { at: token.at })),
            _ => member_start(stack, pieces, token.at, false, token),
        },
        Some(Frame::Member(MemberFrame::Derived(start))) => match word {
            Word::RightBrace => {
                let start = *start;
                stack.pop();
                derived_class_end(stack, pieces, start)
            }
            Word::Semicolon => Ok(Control::Member(MemberDue::Member)),
            Word::Static => Ok(Control::Member(MemberDue::Fixed { at: token.at })),
            _ => member_start(stack, pieces, token.at, false, token),
        },
        _ => Ok(Control::Fail),
    }
}
