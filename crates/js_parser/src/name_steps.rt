//! The tokens of the names that a declaration or a `for` declares (ECMA-262, 14.3). What was read of them
//! stands on the store. The one error of a call is want of memory.

ghost use Rattle.std.specs.Prelude.{◌≡◌, IfOk};
ghost use Rattle.parser_forms.specs.Pieces.{declarators_in, first, name_in, rest, second};
ghost use Rattle.js_parser.specs.Held as h;
ghost use Rattle.js_parser.specs.Settle as settle;
ghost use Rattle.js_parser.specs.Shows.{Shows};
ghost use Rattle.js_parser.specs.State.{the_word};
ghost use Rattle.js_parser.specs.StatementSteps as s;
ghost use Rattle.js_parser.specs.declared.frame.DeclareRole.TheVariants as d;

use crate::closes::close;
use crate::frame::{Control, DeclareRole, Frame, StatementDue, StatementFrame};
use crate::puts::put;
use crate::tables::may_miss;
use crate::words::{Word, word_of_kind};
use es_model::{Semi, Token, TokenKind};
use parser_forms::{Piece, Stack};
use std::alloc::AllocError;

/// A declared name; the last piece is the names before.
pub fn name_due(
    stack: &Stack<Frame>,
    pieces: &mut Stack<Piece>,
    constant: bool,
    role: DeclareRole,
    token: &Token,
) -> Result<Control, AllocError>
    ensures { IfOk result (λ c. Shows (s.name_due (h.frames stack.now (rest pieces.old)) constant (declarators_in (first pieces.old)) role token.now.kind token.now.at) c stack.now pieces.new) }
{
    match &token.kind {
        TokenKind::Name(text) => {
            pieces.name_at(token.at, text)?;
            Ok(Control::StatementPart(StatementDue::NameNext { constant, role }))
        }
        _ => Ok(Control::Fail),
    }
}

/// Behind a declared name, which is the last piece; `const` has an initialiser.
pub fn name_next(
    stack: &mut Stack<Frame>,
    pieces: &mut Stack<Piece>,
    constant: bool,
    role: DeclareRole,
    token: &Token,
) -> Result<Control, AllocError>
    ensures { IfOk result (λ c. Shows (s.name_next (h.frames stack.old (rest (rest pieces.old))) constant (declarators_in (second pieces.old)) role (name_in (first pieces.old)) token.now (the_word token.now)) c stack.new pieces.new) }
{
    match word_of_kind(&token.kind) {
        Word::Assign => {
            stack.push(Frame::Statement(StatementFrame::Initialiser { constant, role }))?;
            Ok(Control::Operand)
        }
        _ if constant => Ok(Control::Fail),
        Word::Comma => {
            pieces.and_bare_declarator()?;
            Ok(Control::StatementPart(StatementDue::Name {
                constant: false,
                role,
            }))
        }
        _ => {
            pieces.and_bare_declarator()?;
            names_end(stack, pieces, false, role, token)
        }
    }
}

// The end of names that a statement declares.
fn names_of_statement(
    stack: &mut Stack<Frame>,
    pieces: &mut Stack<Piece>,
    constant: bool,
    token: &Token,
) -> Result<Control, AllocError>
    ensures { IfOk result (λ c. Shows (settle.names_end (h.frames stack.old (rest pieces.old)) constant (declarators_in (first pieces.old)) d.Statement token.now) c stack.new pieces.new) }
{
    match word_of_kind(&token.kind) {
        Word::Semicolon => {
            pieces.declare(constant, Semi::Written)?;
            put(stack, pieces)
        }
        word => {
            if !may_miss(word, token.line_before) {
                return Ok(Control::Fail);
            }
            pieces.declare(constant, Semi::Missing)?;
            close(stack, pieces, token)
        }
    }
}

/// Behind all declared names, which are the last piece. In a `for` the semicolon is written.
pub fn names_end(
    stack: &mut Stack<Frame>,
    pieces: &mut Stack<Piece>,
    constant: bool,
    role: DeclareRole,
    token: &Token,
) -> Result<Control, AllocError>
    ensures { IfOk result (λ c. Shows (settle.names_end (h.frames stack.old (rest pieces.old)) constant (declarators_in (first pieces.old)) role token.now) c stack.new pieces.new) }
{
    match (role, word_of_kind(&token.kind)) {
        (DeclareRole::Statement, _) => names_of_statement(stack, pieces, constant, token),
        (DeclareRole::For, Word::Semicolon) => {
            pieces.head_declare(constant)?;
            Ok(Control::StatementPart(StatementDue::ForTest))
        }
        (DeclareRole::For, _) => Ok(Control::Fail),
    }
}
