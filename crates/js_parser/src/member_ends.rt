//! A token that ends an expression in a member, a class or an item (ECMA-262, 13.2.5, 15.7 and 16.2). The
//! one error of a call is want of memory.

ghost use Rattle.std.specs.Prelude.{◌≡◌, ◌∷◌, IfOk};
ghost use Rattle.parser_forms.specs.Parts as p;
ghost use Rattle.parser_forms.specs.Pieces.{first, part_in, rest};
ghost use Rattle.js_parser.specs.Frame as f;
ghost use Rattle.js_parser.specs.Held as h;
ghost use Rattle.js_parser.specs.Settle as s;
ghost use Rattle.js_parser.specs.Shows.{Shows};
ghost use Rattle.js_parser.specs.State.{the_word};

use crate::begins::begin;
use crate::frame::{Control, Frame, ItemFrame, MemberDue, MemberFrame, MemberStart};
use crate::object_ends::value_end;
use crate::tables::may_miss;
use crate::words::{Word, word_of_kind};
use es_model::{Semi, Token};
use parser_forms::{Piece, Stack};
use std::alloc::AllocError;

/// A token that ends an expression, the last piece, in a member.
pub fn end_in_member(
    stack: &mut Stack<Frame>,
    pieces: &mut Stack<Piece>,
    frame: MemberFrame,
    token: &Token,
) -> Result<Control, AllocError>
    ensures { IfOk result (λ c. Shows (s.ended (f.Member (h.member_frame frame (rest pieces.old))) (h.frames stack.old (h.under_member_frame frame (rest pieces.old))) (part_in (first pieces.old)) token.now) c stack.new pieces.new) }
{
    let word = word_of_kind(&token.kind);
    match frame {
        MemberFrame::Key { at, fixed, kind } => match word {
            Word::RightBracket => {
                pieces.computed_key()?;
                let start = MemberStart { at, fixed, kind };
                Ok(Control::Member(MemberDue::Key(start)))
            }
            _ => Ok(Control::Fail),
        },
        MemberFrame::Value(start) => value_end(stack, pieces, start.at, word),
        MemberFrame::Parent(start) => match word {
            Word::LeftBrace => {
                pieces.no_members()?;
                stack.push(Frame::Member(MemberFrame::Derived(start)))?;
                Ok(Control::Member(MemberDue::Member))
            }
            _ => Ok(Control::Fail),
        },
        _ => Ok(Control::Fail),
    }
}

// The exported value of a module, with a semicolon or without one; `at` is the place of `default`.
fn default_end(
    stack: &mut Stack<Frame>,
    pieces: &mut Stack<Piece>,
    at: u32,
    token: &Token,
) -> Result<Control, AllocError>
    ensures { IfOk result (λ c. Shows (s.item_end (h.frames stack.old (rest pieces.old)) (p.default_value at (part_in (first pieces.old)).of) (s.may token.now) token.now (the_word token.now)) c stack.new pieces.new) }
{
    let word = word_of_kind(&token.kind);
    match word {
        Word::Semicolon => match stack.top() {
            Some(Frame::Item(ItemFrame::Module)) => {
                pieces.and_default_value(at, Semi::Written)?;
                Ok(Control::Statement)
            }
            _ => Ok(Control::Fail),
        },
        _ => {
            if !may_miss(word, token.line_before) {
                return Ok(Control::Fail);
            }
            match stack.top() {
                Some(Frame::Item(ItemFrame::Module)) => {
                    pieces.and_default_value(at, Semi::Missing)?;
                    begin(stack, pieces, token)
                }
                _ => Ok(Control::Fail),
            }
        }
    }
}

/// A token that ends an expression, the last piece, in an item.
pub fn end_in_item(
    stack: &mut Stack<Frame>,
    pieces: &mut Stack<Piece>,
    frame: ItemFrame,
    token: &Token,
) -> Result<Control, AllocError>
    ensures { IfOk result (λ c. Shows (s.ended (f.Item (h.item_frame frame (rest pieces.old))) (h.frames stack.old (h.under_item_frame frame (rest pieces.old))) (part_in (first pieces.old)) token.now) c stack.new pieces.new) }
{
    match frame {
        ItemFrame::Default { at } => default_end(stack, pieces, at, token),
        _ => Ok(Control::Fail),
    }
}
