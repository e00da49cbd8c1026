//! What stands behind a member of an object literal (ECMA-262, 13.2.5). The one error of a call is want
//! of memory.

ghost use Rattle.std.specs.Prelude.{◌≡◌, ◌∷◌, IfOk};
ghost use Rattle.parser_forms.specs.Parts as p;
ghost use Rattle.parser_forms.specs.Pieces.{first, key_in, part_in, rest, second};
ghost use Rattle.js_parser.specs.Held as h;
ghost use Rattle.js_parser.specs.MemberSteps as s;
ghost use Rattle.js_parser.specs.Settle as settle;
ghost use Rattle.js_parser.specs.Shows.{Shows};
ghost use Rattle.js_parser.specs.declared.words.Word.TheVariants as w;

use crate::frame::{Control, Frame, MemberDue, MemberFrame};
use crate::words::Word;
use parser_forms::{Piece, Stack};
use std::alloc::AllocError;

/// The `}` of an object literal.
pub fn object_end(
    stack: &mut Stack<Frame>,
    pieces: &mut Stack<Piece>,
) -> Result<Control, AllocError>
    ensures { IfOk result (λ c. Shows (s.member_next (h.frames stack.old pieces.old) w.RightBrace) c stack.new pieces.new) }
{
    match stack.pop() {
        Some(Frame::Member(MemberFrame::Object { at })) => {
            pieces.object(at)?;
            Ok(Control::Read)
        }
        _ => Ok(Control::Fail),
    }
}

/// Behind a method of an object literal.
pub fn member_next(
    stack: &mut Stack<Frame>,
    pieces: &mut Stack<Piece>,
    word: Word,
) -> Result<Control, AllocError>
    ensures { IfOk result (λ c. Shows (s.member_next (h.frames stack.old pieces.old) word) c stack.new pieces.new) }
{
    match word {
        Word::Comma => Ok(Control::Member(MemberDue::Member)),
        Word::RightBrace => object_end(stack, pieces),
        _ => Ok(Control::Fail),
    }
}

/// Behind the value of a member, which begins at a place: its key and the value are the last pieces.
pub fn value_end(
    stack: &mut Stack<Frame>,
    pieces: &mut Stack<Piece>,
    at: u32,
    word: Word,
) -> Result<Control, AllocError>
    ensures { IfOk result (λ c. Shows (settle.object_next (h.frames stack.old (rest (rest pieces.old))) (p.value_member at (key_in (second pieces.old)) (part_in (first pieces.old))) word) c stack.new pieces.new) }
{
    match stack.top() {
        Some(Frame::Member(MemberFrame::Object { .. })) => {
            pieces.and_value_member(at)?;
            match word {
                Word::Comma => Ok(Control::Member(MemberDue::Member)),
                Word::RightBrace => object_end(stack, pieces),
                _ => Ok(Control::Fail),
            }
        }
        _ => Ok(Control::Fail),
    }
}
