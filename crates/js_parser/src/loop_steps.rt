//! The tokens of `for` and of `do` (ECMA-262, 14.7). What was read of the loop stands on the store. The
//! one error of a call is want of memory.

ghost use Rattle.std.specs.Prelude.{◌≡◌, IfOk};
ghost use Rattle.parser_forms.specs.Pieces.{first, given_expression, head_in, part_in, rest, second, statement_in};
ghost use Rattle.js_parser.specs.Held as h;
ghost use Rattle.js_parser.specs.Shows.{Shows};
ghost use Rattle.js_parser.specs.State.{the_word};
ghost use Rattle.js_parser.specs.StatementDue as sd;
ghost use Rattle.js_parser.specs.StatementSteps as s;

use crate::closes::close;
use crate::frame::{Control, DeclareRole, Frame, StatementDue, StatementFrame};
use crate::operands::operand;
use crate::puts::put;
use crate::words::{Word, word_of_kind};
use es_model::{Semi, Token};
use parser_forms::{Piece, Stack};
use std::alloc::AllocError;

/// Behind the `(` of a `for`.
pub fn for_head(
    stack: &mut Stack<Frame>,
    pieces: &mut Stack<Piece>,
    token: &Token,
) -> Result<Control, AllocError>
    ensures { IfOk result (λ c. Shows (s.for_head (h.frames stack.old pieces.old) token.now (the_word token.now)) c stack.new pieces.new) }
{
    let role = DeclareRole::For;
    match word_of_kind(&token.kind) {
        Word::Semicolon => {
            pieces.head_nothing()?;
            Ok(Control::StatementPart(StatementDue::ForTest))
        }
        Word::Let => {
            pieces.no_declarators()?;
            Ok(Control::StatementPart(StatementDue::Name {
                constant: false,
                role,
            }))
        }
        Word::Const => {
            pieces.no_declarators()?;
            Ok(Control::StatementPart(StatementDue::Name {
                constant: true,
                role,
            }))
        }
        _ => {
            stack.push(Frame::Statement(StatementFrame::ForValue))?;
            operand(stack, pieces, token)
        }
    }
}

/// Behind the first `;` of a `for`; its head is the last piece.
pub fn for_test(
    stack: &mut Stack<Frame>,
    pieces: &mut Stack<Piece>,
    token: &Token,
) -> Result<Control, AllocError>
    ensures { IfOk result (λ c. Shows (s.for_test (h.frames stack.old (rest pieces.old)) (head_in (first pieces.old)) token.now (the_word token.now)) c stack.new pieces.new) }
{
    match word_of_kind(&token.kind) {
        Word::Semicolon => {
            pieces.nothing()?;
            Ok(Control::StatementPart(StatementDue::ForStep))
        }
        _ => {
            stack.push(Frame::Statement(StatementFrame::ForTest))?;
            operand(stack, pieces, token)
        }
    }
}

/// Behind the second `;` of a `for`; its test, or nothing, is the last piece.
pub fn for_step(
    stack: &mut Stack<Frame>,
    pieces: &mut Stack<Piece>,
    token: &Token,
) -> Result<Control, AllocError>
    ensures { IfOk result (λ c. Shows (s.for_step (h.frames stack.old (rest (rest pieces.old))) (head_in (second pieces.old)) (given_expression (first pieces.old)) token.now (the_word token.now)) c stack.new pieces.new) }
{
    match word_of_kind(&token.kind) {
        Word::RightParen => {
            pieces.nothing()?;
            stack.push(Frame::Statement(StatementFrame::For))?;
            Ok(Control::Statement)
        }
        _ => {
            stack.push(Frame::Statement(StatementFrame::ForStep))?;
            operand(stack, pieces, token)
        }
    }
}

/// Behind the `)` of a `do`, whose test is the last piece: its semicolon may be missing before any token.
pub fn do_end(
    stack: &mut Stack<Frame>,
    pieces: &mut Stack<Piece>,
    token: &Token,
) -> Result<Control, AllocError>
    ensures { IfOk result (λ c. Shows (s.statement_step (sd.DoEnd (statement_in (second pieces.old)) (part_in (first pieces.old)).of) (h.frames stack.old (rest (rest pieces.old))) token.now) c stack.new pieces.new) }
{
    match word_of_kind(&token.kind) {
        Word::Semicolon => {
            pieces.do_loop(Semi::Written)?;
            put(stack, pieces)
        }
        _ => {
            pieces.do_loop(Semi::Missing)?;
            close(stack, pieces, token)
        }
    }
}
