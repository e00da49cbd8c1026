//! The keys of members, and the words before them (ECMA-262, 13.2.5 and 15.7). The one error of a call is
//! want of memory.

ghost use Rattle.std.specs.Prelude.{◌≡◌, ◌∷◌, codes, None, Some, IfOk};
ghost use Rattle.es_model.specs.Tree as t;
ghost use Rattle.parser_forms.specs.Parts as p;
ghost use Rattle.parser_forms.specs.Pieces.{first, key_in, name_in, rest, second};
ghost use Rattle.parser_forms.specs.declared.pieces.Piece.TheVariants as v;
ghost use Rattle.js_parser.specs.Held as h;
ghost use Rattle.js_parser.specs.MemberSteps as s;
ghost use Rattle.js_parser.specs.Shows.{Shows};
ghost use Rattle.js_parser.specs.State.{the_word};

use crate::frame::{Control, Frame, MemberDue, MemberFrame, MemberStart, Signature};
use crate::object_ends::object_end;
use crate::texts::{plain_name, text_of};
use crate::words::{Word, word_of_kind};
use es_model::{MemberKind, Token, TokenKind};
use parser_forms::{Piece, Stack, is_text};
use std::alloc::AllocError;

// A key; `get` and `set` are names here.
fn key_kind(
    stack: &mut Stack<Frame>,
    pieces: &mut Stack<Piece>,
    start: MemberStart,
    token: &Token,
) -> Result<Control, AllocError>
    ensures { IfOk result (λ c. Shows (s.key_kind (h.frames stack.old pieces.old) start.at start.fixed start.kind token.now.at token.now.kind) c stack.new pieces.new) }
{
    match &token.kind {
        TokenKind::Name(text) => {
            pieces.name_key(token.at, text)?;
            return Ok(Control::Member(MemberDue::NameKey(start)));
        }
        TokenKind::Keyword(_) => match plain_name(pieces.alloc(), &token.kind)? {
            Some(text) => pieces.word_key(text)?,
            None => return Ok(Control::Fail),
        },
        TokenKind::String(text) => pieces.string_key(text)?,
        TokenKind::Number(number) => pieces.number_key(*number)?,
        TokenKind::Sign(_) => return computed_open(stack, pieces, start, word_of_kind(&token.kind)),
        _ => return Ok(Control::Fail),
    }
    Ok(Control::Member(MemberDue::Key(start)))
}

// The `[` of a computed key.
fn computed_open(
    stack: &mut Stack<Frame>,
    pieces: &Stack<Piece>,
    start: MemberStart,
    word: Word,
) -> Result<Control, AllocError>
    ensures { IfOk result (λ c. Shows (s.sign_key (h.frames stack.old pieces.now) start.at start.fixed start.kind word) c stack.new pieces.now) }
{
    let MemberStart { at, fixed, kind } = start;
    match word {
        Word::LeftBracket => {
            stack.push(Frame::Member(MemberFrame::Key { at, fixed, kind }))?;
            Ok(Control::Operand)
        }
        _ => Ok(Control::Fail),
    }
}

/// The beginning of a member, which begins at a place: `get` and `set` may be the word of an accessor.
pub fn member_start(
    stack: &mut Stack<Frame>,
    pieces: &mut Stack<Piece>,
    at: u32,
    fixed: bool,
    token: &Token,
) -> Result<Control, AllocError>
    ensures { IfOk result (λ c. Shows (s.member_start (h.frames stack.old pieces.old) at fixed token.now) c stack.new pieces.new) }
{
    if let TokenKind::Name(text) = &token.kind {
        if is_text(text.as_slice(), b"get") {
            pieces.name_at(token.at, text)?;
            let kind = MemberKind::Getter;
            return Ok(Control::Member(MemberDue::Accessor { at, fixed, kind }));
        }
        if is_text(text.as_slice(), b"set") {
            pieces.name_at(token.at, text)?;
            let kind = MemberKind::Setter;
            return Ok(Control::Member(MemberDue::Accessor { at, fixed, kind }));
        }
    }
    let kind = MemberKind::Method;
    key_kind(stack, pieces, MemberStart { at, fixed, kind }, token)
}

// The `(` of a method or an accessor of a class.
fn class_key(
    stack: &Stack<Frame>,
    pieces: &mut Stack<Piece>,
    start: MemberStart,
    word: Word,
) -> Result<Control, AllocError>
    ensures { IfOk result (λ c. Shows (s.class_key (h.frames stack.now (rest pieces.old)) (h.member_start start (key_in (first pieces.old))) word) c stack.now pieces.new) }
{
    match word {
        Word::LeftParen => {
            pieces.no_names()?;
            Ok(Control::Member(MemberDue::Parameter(Signature::Method(start))))
        }
        _ => Ok(Control::Fail),
    }
}

/// Behind a key, which is the last piece.
pub fn key_next(
    stack: &mut Stack<Frame>,
    pieces: &mut Stack<Piece>,
    start: MemberStart,
    word: Word,
) -> Result<Control, AllocError>
    ensures { IfOk result (λ c. Shows (s.key_next (h.frames stack.old (rest pieces.old)) (h.member_start start (key_in (first pieces.old))) None word) c stack.new pieces.new) }
{
    match stack.top() {
        Some(Frame::Member(MemberFrame::Object { .. })) => match word {
            Word::LeftParen => {
                pieces.no_names()?;
                Ok(Control::Member(MemberDue::Parameter(Signature::Method(start))))
            }
            Word::Colon if start.kind == MemberKind::Method => {
                stack.push(Frame::Member(MemberFrame::Value(start)))?;
                Ok(Control::Operand)
            }
            _ => Ok(Control::Fail),
        },
        _ => class_key(stack, pieces, start, word),
    }
}

/// Behind a key and the name that it is, which may stand alone in an object literal.
pub fn name_key_next(
    stack: &mut Stack<Frame>,
    pieces: &mut Stack<Piece>,
    start: MemberStart,
    word: Word,
) -> Result<Control, AllocError>
    ensures { IfOk result (λ c. Shows (s.key_next (h.frames stack.old (rest (rest pieces.old))) (h.member_start start (key_in (second pieces.old))) (Some (name_in (first pieces.old))) word) c stack.new pieces.new) }
{
    let is_plain = start.kind == MemberKind::Method;
    match stack.top() {
        Some(Frame::Member(MemberFrame::Object { .. })) => match word {
            Word::Comma if is_plain => {
                pieces.and_short_member()?;
                Ok(Control::Member(MemberDue::Member))
            }
            Word::RightBrace if is_plain => {
                pieces.and_short_member()?;
                object_end(stack, pieces)
            }
            Word::LeftParen => {
                pieces.forget();
                pieces.no_names()?;
                Ok(Control::Member(MemberDue::Parameter(Signature::Method(start))))
            }
            Word::Colon if is_plain => {
                pieces.forget();
                stack.push(Frame::Member(MemberFrame::Value(start)))?;
                Ok(Control::Operand)
            }
            _ => Ok(Control::Fail),
        },
        _ => {
            pieces.forget();
            class_key(stack, pieces, start, word)
        }
    }
}

/// Behind `get` or `set`, which is the last piece: it is the key itself, or the word of an accessor.
pub fn accessor(
    stack: &mut Stack<Frame>,
    pieces: &mut Stack<Piece>,
    start: MemberStart,
    token: &Token,
) -> Result<Control, AllocError>
    ensures { IfOk result (λ c. Shows (s.accessor (h.frames stack.old (rest pieces.old)) start.at start.fixed start.kind (name_in (first pieces.old)) token.now (the_word token.now)) c stack.new pieces.new) }
{
    let MemberStart { at, fixed, .. } = start;
    let kind = MemberKind::Method;
    match word_of_kind(&token.kind) {
        word @ (Word::LeftParen | Word::Colon | Word::Comma | Word::RightBrace) => {
            pieces.as_name_key()?;
            name_key_next(stack, pieces, MemberStart { at, fixed, kind }, word)
        }
        _ => {
            pieces.forget();
            key_kind(stack, pieces, start, token)
        }
    }
}

// The word `static` as a key.
fn static_key(pieces: &mut Stack<Piece>) -> Result<(), AllocError>
    ensures { IfOk result (λ done. pieces.new ≡ v.Key (p.key (t.KeyWord (codes "static"))) ∷ pieces.old) }
{
    let text = text_of(pieces.alloc(), "static")?;
    pieces.word_key(text)
}

/// Behind `static`, which begins at a place: it is the key itself, or it marks the member.
pub fn fixed_member(
    stack: &mut Stack<Frame>,
    pieces: &mut Stack<Piece>,
    at: u32,
    token: &Token,
) -> Result<Control, AllocError>
    ensures { IfOk result (λ c. Shows (s.fixed_member (h.frames stack.old pieces.old) at token.now (the_word token.now)) c stack.new pieces.new) }
{
    match word_of_kind(&token.kind) {
        Word::LeftParen => {
            static_key(pieces)?;
            let start = MemberStart {
                at,
                fixed: false,
                kind: MemberKind::Method,
            };
            key_next(stack, pieces, start, Word::LeftParen)
        }
        _ => member_start(stack, pieces, at, true, token),
    }
}
