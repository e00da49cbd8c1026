//! What is done at the end of a function and of a class (ECMA-262, 15). The one error of a call is want
//! of memory.

ghost use Rattle.std.specs.Prelude.{◌≡◌, ◌∷◌, IfOk};
ghost use Rattle.parser_forms.specs.Parts as p;
ghost use Rattle.parser_forms.specs.Pieces.{first, given_name, key_in, members_in, names_in, parent_in, rest, second, statements_in, third, under_parent};
ghost use Rattle.js_parser.specs.Ends as e;
ghost use Rattle.js_parser.specs.Held as h;
ghost use Rattle.js_parser.specs.Shows.{Shows};

use crate::frame::{
    ClassStart, Control, Frame, ItemFrame, MemberDue, MemberFrame, MemberStart, Role, Signature,
};
use crate::puts::put;
use parser_forms::{Piece, Stack};
use std::alloc::AllocError;

// The end of a method or an accessor.
fn method_end(
    stack: &Stack<Frame>,
    pieces: &mut Stack<Piece>,
    start: MemberStart,
) -> Result<Control, AllocError>
    ensures { IfOk result (λ c. Shows (e.method_end (h.frames stack.now (rest (rest (rest pieces.old)))) (h.member_start start (key_in (third pieces.old))) (names_in (second pieces.old)) (statements_in (first pieces.old))) c stack.now pieces.new) }
{
    let MemberStart { at, fixed, kind } = start;
    match stack.top() {
        Some(Frame::Member(MemberFrame::Object { .. })) => {
            pieces.and_object_method(at, fixed, kind)?;
            Ok(Control::Member(MemberDue::Next))
        }
        Some(Frame::Member(MemberFrame::Class(_))) => {
            pieces.and_class_method(at, fixed, kind, false)?;
            Ok(Control::Member(MemberDue::Member))
        }
        Some(Frame::Member(MemberFrame::Derived(_))) => {
            pieces.and_class_method(at, fixed, kind, true)?;
            Ok(Control::Member(MemberDue::Member))
        }
        _ => Ok(Control::Fail),
    }
}

/// The end of a function with no arrow, whose parameters and statements are the last pieces.
pub fn function_end(
    stack: &mut Stack<Frame>,
    pieces: &mut Stack<Piece>,
    signature: Signature,
) -> Result<Control, AllocError>
    ensures { IfOk result (λ c. Shows (e.function_end (h.frames stack.old (h.under_signature signature (rest (rest pieces.old)))) (h.signature signature (rest (rest pieces.old))) (names_in (second pieces.old)) (statements_in (first pieces.old))) c stack.new pieces.new) }
{
    let (at, role) = match signature {
        Signature::Method(start) => return method_end(stack, pieces, start),
        Signature::Function { at, role } => (at, role),
    };
    match role {
        Role::Expression => {
            pieces.function_expression(at)?;
            Ok(Control::Read)
        }
        Role::Statement => {
            pieces.function_statement(at)?;
            put(stack, pieces)
        }
        Role::Default { at: place } => match stack.top() {
            Some(Frame::Item(ItemFrame::Module)) => {
                pieces.and_default_function(place, at)?;
                Ok(Control::Statement)
            }
            _ => Ok(Control::Fail),
        },
    }
}

// The end of a class; `derived` says that it has a parent.
fn class_end_in(
    stack: &mut Stack<Frame>,
    pieces: &mut Stack<Piece>,
    start: ClassStart,
    derived: bool,
) -> Result<Control, AllocError>
    ensures { IfOk result (λ c. Shows (e.class_end_as (h.frames stack.old (rest (under_parent derived (rest pieces.old)))) start.role start.at (p.class start.at (given_name (first (under_parent derived (rest pieces.old)))) (parent_in derived (rest pieces.old)) (members_in (first pieces.old)))) c stack.new pieces.new) }
{
    let at = start.at;
    match start.role {
        Role::Expression => {
            pieces.class_expression(at, derived)?;
            Ok(Control::Read)
        }
        Role::Statement => {
            pieces.class_statement(at, derived)?;
            put(stack, pieces)
        }
        Role::Default { at: place } => match stack.top() {
            Some(Frame::Item(ItemFrame::Module)) => {
                pieces.and_default_class(place, at, derived)?;
                Ok(Control::Statement)
            }
            _ => Ok(Control::Fail),
        },
    }
}

/// The end of a class with no parent, whose members are the last piece.
pub fn class_end(
    stack: &mut Stack<Frame>,
    pieces: &mut Stack<Piece>,
    start: ClassStart,
) -> Result<Control, AllocError>
    ensures { IfOk result (λ c. Shows (e.class_end (h.frames stack.old (rest (rest pieces.old))) (h.base_class start (rest pieces.old)) (members_in (first pieces.old))) c stack.new pieces.new) }
{
    class_end_in(stack, pieces, start, false)
}

/// The end of a class with a parent, whose members are the last piece.
pub fn derived_class_end(
    stack: &mut Stack<Frame>,
    pieces: &mut Stack<Piece>,
    start: ClassStart,
) -> Result<Control, AllocError>
    ensures { IfOk result (λ c. Shows (e.class_end (h.frames stack.old (rest (rest (rest pieces.old)))) (h.derived_class start (rest pieces.old)) (members_in (first pieces.old))) c stack.new pieces.new) }
{
    class_end_in(stack, pieces, start, true)
}
