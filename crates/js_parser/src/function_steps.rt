//! The heads of functions and classes (ECMA-262, 15). The one error of a call is want of memory.

ghost use Rattle.std.specs.Prelude.{◌≡◌, ◌∷◌, [], IfOk};
ghost use Rattle.es_model.specs.declared.token.TokenKind.TheVariants as k;
ghost use Rattle.parser_forms.specs.Kept.{none};
ghost use Rattle.parser_forms.specs.Pieces.{Pieces, first, given_name, names_in, rest};
ghost use Rattle.js_parser.specs.Frame as f;
ghost use Rattle.js_parser.specs.Held as h;
ghost use Rattle.js_parser.specs.ListRole as l;
ghost use Rattle.js_parser.specs.MemberDue as md;
ghost use Rattle.js_parser.specs.MemberSteps as s;
ghost use Rattle.js_parser.specs.Shows.{Shows};
ghost use Rattle.js_parser.specs.State.{member_part, statement_due, the_word};
ghost use Rattle.js_parser.specs.StatementFrame as st;
ghost use Rattle.js_parser.specs.declared.words.Word.TheVariants as w;

use crate::frame::{
    ClassStart, Control, Frame, ListRole, MemberDue, MemberFrame, Role, Signature, StatementFrame,
};
use crate::words::{Word, word_of_kind};
use es_model::{MemberKind, Token, TokenKind};
use js_value::Units;
use parser_forms::{Piece, Stack};
use std::alloc::AllocError;

// A getter has no parameter; a setter has one, with no comma behind it.
fn is_setter_of(signature: Signature) -> bool
    ensures { (pieces : Pieces) → result ≡ s.is_setter_of (h.signature signature pieces) }
{
    match signature {
        Signature::Function { .. } => false,
        Signature::Method(start) => start.kind == MemberKind::Setter,
    }
}

fn is_getter_of(signature: Signature) -> bool
    ensures { (pieces : Pieces) → result ≡ s.is_getter_of (h.signature signature pieces) }
{
    match signature {
        Signature::Function { .. } => false,
        Signature::Method(start) => start.kind == MemberKind::Getter,
    }
}

/// Behind `function`: an expression may have no name.
pub fn function_name(
    stack: &Stack<Frame>,
    pieces: &mut Stack<Piece>,
    at: u32,
    role: Role,
    token: &Token,
) -> Result<Control, AllocError>
    ensures { IfOk result (λ c. Shows (s.function_name (h.frames stack.now pieces.old) at role token.now.kind token.now.at (the_word token.now)) c stack.now pieces.new) }
{
    let signature = Signature::Function { at, role };
    match &token.kind {
        TokenKind::Name(text) => {
            pieces.name_at(token.at, text)?;
            Ok(Control::Member(MemberDue::Parameters(signature)))
        }
        _ => {
            if role == Role::Statement || word_of_kind(&token.kind) != Word::LeftParen {
                return Ok(Control::Fail);
            }
            pieces.nothing()?;
            pieces.no_names()?;
            Ok(Control::Member(MemberDue::Parameter(signature)))
        }
    }
}

/// The `(` of the parameters.
pub fn parameters_open(
    stack: &Stack<Frame>,
    pieces: &mut Stack<Piece>,
    signature: Signature,
    word: Word,
) -> Result<Control, AllocError>
    ensures { IfOk result (λ c. Shows (s.open_paren (member_part (md.Parameter (h.signature signature pieces.old) []) (h.frames stack.now (h.under_signature signature pieces.old))) word) c stack.now pieces.new) }
{
    match word {
        Word::LeftParen => {
            pieces.no_names()?;
            Ok(Control::Member(MemberDue::Parameter(signature)))
        }
        _ => Ok(Control::Fail),
    }
}

fn parameter_end(
    stack: &Stack<Frame>,
    pieces: &Stack<Piece>,
    signature: Signature,
    word: Word,
) -> Control
    ensures { Shows (s.parameter_end (h.frames stack.now (h.under_signature signature (rest pieces.now))) (h.signature signature (rest pieces.now)) (names_in (first pieces.now)) word) result stack.now pieces.now }
{
    if word != Word::RightParen || is_setter_of(signature) {
        return Control::Fail;
    }
    Control::Member(MemberDue::Body(signature))
}

fn named_parameter(
    stack: &Stack<Frame>,
    pieces: &mut Stack<Piece>,
    signature: Signature,
    place: u32,
    text: &Units,
) -> Result<Control, AllocError>
    ensures { IfOk result (λ c. Shows (s.parameter (h.frames stack.now (h.under_signature signature (rest pieces.old))) (h.signature signature (rest pieces.old)) (names_in (first pieces.old)) (k.Name text.now) place w.Name) c stack.now pieces.new) }
{
    if is_getter_of(signature) {
        return Ok(Control::Fail);
    }
    pieces.and_name(place, text)?;
    Ok(Control::Member(MemberDue::ParameterNext(signature)))
}

/// A parameter or `)`.
pub fn parameter(
    stack: &Stack<Frame>,
    pieces: &mut Stack<Piece>,
    signature: Signature,
    token: &Token,
) -> Result<Control, AllocError>
    ensures { IfOk result (λ c. Shows (s.parameter (h.frames stack.now (h.under_signature signature (rest pieces.old))) (h.signature signature (rest pieces.old)) (names_in (first pieces.old)) token.now.kind token.now.at (the_word token.now)) c stack.now pieces.new) }
{
    match &token.kind {
        TokenKind::Name(text) => named_parameter(stack, pieces, signature, token.at, text),
        _ => Ok(parameter_end(stack, pieces, signature, word_of_kind(&token.kind))),
    }
}

/// Behind a parameter.
pub fn parameter_next(
    stack: &Stack<Frame>,
    pieces: &Stack<Piece>,
    signature: Signature,
    word: Word,
) -> Control
    ensures { Shows (s.parameter_next (h.frames stack.now (h.under_signature signature (rest pieces.now))) (h.signature signature (rest pieces.now)) (names_in (first pieces.now)) word) result stack.now pieces.now }
{
    match word {
        Word::RightParen => Control::Member(MemberDue::Body(signature)),
        Word::Comma if !is_setter_of(signature) => {
            Control::Member(MemberDue::Parameter(signature))
        }
        _ => Control::Fail,
    }
}

/// The `{` of the body.
pub fn body_open(
    stack: &mut Stack<Frame>,
    pieces: &mut Stack<Piece>,
    signature: Signature,
    word: Word,
) -> Result<Control, AllocError>
    ensures { IfOk result (λ c. Shows (s.open_brace (statement_due (f.Statement (st.List (l.Function (h.signature signature (rest pieces.old)) (names_in (first pieces.old))) none) ∷ h.frames stack.old (h.under_signature signature (rest pieces.old)))) word) c stack.new pieces.new) }
{
    match word {
        Word::LeftBrace => {
            pieces.no_statements()?;
            let role = ListRole::Function(signature);
            stack.push(Frame::Statement(StatementFrame::List(role)))?;
            Ok(Control::Statement)
        }
        _ => Ok(Control::Fail),
    }
}

/// Behind the name of a class, or where it has none.
pub fn class_next(
    stack: &mut Stack<Frame>,
    pieces: &mut Stack<Piece>,
    start: ClassStart,
    word: Word,
) -> Result<Control, AllocError>
    ensures { IfOk result (λ c. Shows (s.class_next (h.frames stack.old (rest pieces.old)) start.at (given_name (first pieces.old)) start.role word) c stack.new pieces.new) }
{
    match word {
        Word::Extends => {
            stack.push(Frame::Member(MemberFrame::Parent(start)))?;
            Ok(Control::Operand)
        }
        Word::LeftBrace => {
            pieces.no_members()?;
            stack.push(Frame::Member(MemberFrame::Class(start)))?;
            Ok(Control::Member(MemberDue::Member))
        }
        _ => Ok(Control::Fail),
    }
}

/// Behind `class`: an expression may have no name.
pub fn class_name(
    stack: &mut Stack<Frame>,
    pieces: &mut Stack<Piece>,
    at: u32,
    role: Role,
    token: &Token,
) -> Result<Control, AllocError>
    ensures { IfOk result (λ c. Shows (s.class_name (h.frames stack.old pieces.old) at role token.now.kind token.now.at (the_word token.now)) c stack.new pieces.new) }
{
    let start = ClassStart { at, role };
    match &token.kind {
        TokenKind::Name(text) => {
            pieces.name_at(token.at, text)?;
            Ok(Control::Member(MemberDue::ClassNext(start)))
        }
        _ => {
            if role == Role::Statement {
                return Ok(Control::Fail);
            }
            pieces.nothing()?;
            class_next(stack, pieces, start, word_of_kind(&token.kind))
        }
    }
}
