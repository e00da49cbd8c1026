//! A token that ends an expression in a statement (ECMA-262, 14). The one error of a call is want of
//! memory.

ghost use Rattle.std.specs.Prelude.{◌≡◌, ◌∷◌, Some, IfOk};
ghost use Rattle.parser_forms.specs.Parts as p;
ghost use Rattle.parser_forms.specs.Pieces.{declarators_in, first, part_in, rest};
ghost use Rattle.js_parser.specs.Frame as f;
ghost use Rattle.js_parser.specs.Held as h;
ghost use Rattle.js_parser.specs.Settle as s;
ghost use Rattle.js_parser.specs.Shows.{Shows};
ghost use Rattle.js_parser.specs.State.{the_word};

use crate::closes::close;
use crate::frame::{Control, DeclareRole, Frame, ListRole, Opening, StatementDue, StatementFrame};
use crate::name_steps::names_end;
use crate::puts::put;
use crate::tables::may_miss;
use crate::words::{Word, word_of_kind};
use es_model::{Semi, Token};
use parser_forms::{Piece, Stack};
use std::alloc::AllocError;

// An expression as a statement.
fn end_value(
    stack: &mut Stack<Frame>,
    pieces: &mut Stack<Piece>,
    token: &Token,
) -> Result<Control, AllocError>
    ensures { IfOk result (λ c. Shows (s.statement_end (h.frames stack.old (rest pieces.old)) (p.value (part_in (first pieces.old)).of) (s.may token.now) token.now (the_word token.now)) c stack.new pieces.new) }
{
    match word_of_kind(&token.kind) {
        Word::Semicolon => {
            pieces.value(Semi::Written)?;
            put(stack, pieces)
        }
        word => {
            if !may_miss(word, token.line_before) {
                return Ok(Control::Fail);
            }
            pieces.value(Semi::Missing)?;
            close(stack, pieces, token)
        }
    }
}

// The value of a `return`.
fn end_return(
    stack: &mut Stack<Frame>,
    pieces: &mut Stack<Piece>,
    at: u32,
    token: &Token,
) -> Result<Control, AllocError>
    ensures { IfOk result (λ c. Shows (s.statement_end (h.frames stack.old (rest pieces.old)) (p.return at (Some (part_in (first pieces.old)).of)) (s.may token.now) token.now (the_word token.now)) c stack.new pieces.new) }
{
    match word_of_kind(&token.kind) {
        Word::Semicolon => {
            pieces.return_value(at, Semi::Written)?;
            put(stack, pieces)
        }
        word => {
            if !may_miss(word, token.line_before) {
                return Ok(Control::Fail);
            }
            pieces.return_value(at, Semi::Missing)?;
            close(stack, pieces, token)
        }
    }
}

fn end_throw(
    stack: &mut Stack<Frame>,
    pieces: &mut Stack<Piece>,
    token: &Token,
) -> Result<Control, AllocError>
    ensures { IfOk result (λ c. Shows (s.statement_end (h.frames stack.old (rest pieces.old)) (p.throw (part_in (first pieces.old)).of) (s.may token.now) token.now (the_word token.now)) c stack.new pieces.new) }
{
    match word_of_kind(&token.kind) {
        Word::Semicolon => {
            pieces.throw(Semi::Written)?;
            put(stack, pieces)
        }
        word => {
            if !may_miss(word, token.line_before) {
                return Ok(Control::Fail);
            }
            pieces.throw(Semi::Missing)?;
            close(stack, pieces, token)
        }
    }
}

// The initialiser of the last of some names, which are now the last piece.
fn end_initialiser(
    stack: &mut Stack<Frame>,
    pieces: &mut Stack<Piece>,
    constant: bool,
    role: DeclareRole,
    token: &Token,
) -> Result<Control, AllocError>
    ensures { IfOk result (λ c. Shows (s.initialiser_end (h.frames stack.old (rest pieces.old)) constant (declarators_in (first pieces.old)) role token.now (the_word token.now)) c stack.new pieces.new) }
{
    match word_of_kind(&token.kind) {
        Word::Comma => Ok(Control::StatementPart(StatementDue::Name { constant, role })),
        _ => names_end(stack, pieces, constant, role, token),
    }
}

// The condition of an `if` or a `while`, or the value of a switch, behind its `)`.
fn end_test(
    stack: &mut Stack<Frame>,
    pieces: &Stack<Piece>,
    opening: Opening,
) -> Result<Control, AllocError>
    ensures { IfOk result (λ c. Shows (s.test_end (h.frames stack.old (rest pieces.now)) opening (part_in (first pieces.now))) c stack.new pieces.now) }
{
    match opening {
        Opening::If => {
            stack.push(Frame::Statement(StatementFrame::Yes))?;
            Ok(Control::Statement)
        }
        Opening::While => {
            stack.push(Frame::Statement(StatementFrame::While))?;
            Ok(Control::Statement)
        }
        Opening::Switch => Ok(Control::StatementPart(StatementDue::SwitchBrace)),
    }
}

/// A token that ends an expression, the last piece, in a statement.
pub fn end_in_statement(
    stack: &mut Stack<Frame>,
    pieces: &mut Stack<Piece>,
    frame: StatementFrame,
    token: &Token,
) -> Result<Control, AllocError>
    ensures { IfOk result (λ c. Shows (s.ended (f.Statement (h.statement_frame frame (rest pieces.old))) (h.frames stack.old (h.under_statement_frame frame (rest pieces.old))) (part_in (first pieces.old)) token.now) c stack.new pieces.new) }
{
    match (frame, word_of_kind(&token.kind)) {
        (StatementFrame::Value, _) => end_value(stack, pieces, token),
        (StatementFrame::Initialiser { constant, role }, _) => {
            pieces.and_declarator()?;
            end_initialiser(stack, pieces, constant, role, token)
        }
        (StatementFrame::Return { at }, _) => end_return(stack, pieces, at, token),
        (StatementFrame::Throw, _) => end_throw(stack, pieces, token),
        (StatementFrame::Test(opening), Word::RightParen) => end_test(stack, pieces, opening),
        (StatementFrame::DoTest, Word::RightParen) => {
            Ok(Control::StatementPart(StatementDue::DoEnd))
        }
        (StatementFrame::ForValue, Word::Semicolon) => {
            pieces.head_value()?;
            Ok(Control::StatementPart(StatementDue::ForTest))
        }
        (StatementFrame::ForTest, Word::Semicolon) => {
            pieces.given_expression()?;
            Ok(Control::StatementPart(StatementDue::ForStep))
        }
        (StatementFrame::ForStep, Word::RightParen) => {
            pieces.given_expression()?;
            stack.push(Frame::Statement(StatementFrame::For))?;
            Ok(Control::Statement)
        }
        (StatementFrame::CaseTest, Word::Colon) => {
            pieces.no_statements()?;
            stack.push(Frame::Statement(StatementFrame::List(ListRole::Case)))?;
            Ok(Control::Statement)
        }
        _ => Ok(Control::Fail),
    }
}
