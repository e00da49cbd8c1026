//! The tokens of statements behind the word that they begin with (ECMA-262, 14). What was read of a
//! statement stands on the store. The one error of a call is want of memory.

ghost use Rattle.std.specs.Prelude.{◌≡◌, ◌∷◌, IfOk, false};
ghost use Rattle.parser_forms.specs.Kept.{none};
ghost use Rattle.parser_forms.specs.Parts as p;
ghost use Rattle.parser_forms.specs.Pieces.{first, given_name, part_in, rest, second, statement_in, statements_in, third};
ghost use Rattle.js_parser.specs.Frame as f;
ghost use Rattle.js_parser.specs.Held as h;
ghost use Rattle.js_parser.specs.Shows.{Shows};
ghost use Rattle.js_parser.specs.State.{statement_due, statement_part, the_word};
ghost use Rattle.js_parser.specs.StatementDue as sd;
ghost use Rattle.js_parser.specs.StatementFrame as st;
ghost use Rattle.js_parser.specs.StatementSteps as s;

use crate::closes::close;
use crate::ends_of_lists::{case_start, switch_end};
use crate::frame::{Control, Frame, Jump, ListRole, StatementDue, StatementFrame};
use crate::loop_steps::{do_end, for_head, for_step, for_test};
use crate::name_steps::{name_due, name_next};
use crate::operands::operand;
use crate::puts::put;
use crate::tables::may_miss_bare;
use crate::words::{Word, word_of_kind};
use es_model::{Semi, Token, TokenKind};
use parser_forms::{Bare, Piece, Stack};
use std::alloc::AllocError;

// A list of statements is open, and nothing stands in it.
fn list_opened(
    stack: &mut Stack<Frame>,
    pieces: &mut Stack<Piece>,
    role: ListRole,
) -> Result<Control, AllocError>
    ensures { IfOk result (λ c. Shows (statement_due (f.Statement (st.List (h.list_role role pieces.old) none) ∷ h.frames stack.old (h.under_list_role role pieces.old))) c stack.new pieces.new) }
{
    pieces.no_statements()?;
    stack.push(Frame::Statement(StatementFrame::List(role)))?;
    Ok(Control::Statement)
}

// Behind the test and the first statement of an `if`.
fn else_due(
    stack: &mut Stack<Frame>,
    pieces: &mut Stack<Piece>,
    token: &Token,
) -> Result<Control, AllocError>
    ensures { IfOk result (λ c. Shows (s.statement_step (sd.Else (part_in (second pieces.old)).of (statement_in (first pieces.old))) (h.frames stack.old (rest (rest pieces.old))) token.now) c stack.new pieces.new) }
{
    match word_of_kind(&token.kind) {
        Word::Else => {
            stack.push(Frame::Statement(StatementFrame::No))?;
            Ok(Control::Statement)
        }
        _ => {
            pieces.choice()?;
            close(stack, pieces, token)
        }
    }
}

// The `{` of a switch, behind its value.
fn switch_opened(stack: &mut Stack<Frame>, pieces: &mut Stack<Piece>) -> Result<Control, AllocError>
    ensures { IfOk result (λ c. Shows (statement_part sd.Case (f.Statement (st.Switch (part_in (first pieces.old)).of none false) ∷ h.frames stack.old (rest pieces.old))) c stack.new pieces.new) }
{
    pieces.no_cases()?;
    let has_default = false;
    stack.push(Frame::Statement(StatementFrame::Switch { has_default }))?;
    Ok(Control::StatementPart(StatementDue::Case))
}

// A case or the end of a switch.
fn case_due(
    stack: &mut Stack<Frame>,
    pieces: &mut Stack<Piece>,
    word: Word,
) -> Result<Control, AllocError>
    ensures { IfOk result (λ c. Shows (s.case_due (h.frames stack.old pieces.old) word) c stack.new pieces.new) }
{
    match word {
        Word::RightBrace => switch_end(stack, pieces),
        _ => case_start(stack, pieces, word),
    }
}

fn jump_of(jump: Jump, at: u32, semi: Semi) -> Bare
    ensures { p.bare (p.bare_tree result) ≡ s.jump jump at semi }
{
    match jump {
        Jump::Break => Bare::Break { at, semi },
        Jump::Continue => Bare::Continue { at, semi },
    }
}

// Behind `break` or `continue`, whose missing semicolon needs less.
fn jump_end(
    stack: &mut Stack<Frame>,
    pieces: &mut Stack<Piece>,
    jump: Jump,
    at: u32,
    token: &Token,
) -> Result<Control, AllocError>
    ensures { IfOk result (λ c. Shows (s.statement_step (sd.Jump jump at) (h.frames stack.old pieces.old) token.now) c stack.new pieces.new) }
{
    match word_of_kind(&token.kind) {
        Word::Semicolon => {
            pieces.bare(jump_of(jump, at, Semi::Written))?;
            put(stack, pieces)
        }
        word => {
            if !may_miss_bare(word, token.line_before) {
                return Ok(Control::Fail);
            }
            pieces.bare(jump_of(jump, at, Semi::Missing))?;
            close(stack, pieces, token)
        }
    }
}

// Behind `return`, which may have no value.
fn return_due(
    stack: &mut Stack<Frame>,
    pieces: &mut Stack<Piece>,
    at: u32,
    token: &Token,
) -> Result<Control, AllocError>
    ensures { IfOk result (λ c. Shows (s.return_due (h.frames stack.old pieces.old) at token.now) c stack.new pieces.new) }
{
    match word_of_kind(&token.kind) {
        Word::Semicolon => {
            pieces.return_nothing(at, Semi::Written)?;
            put(stack, pieces)
        }
        word => {
            if may_miss_bare(word, token.line_before) {
                pieces.return_nothing(at, Semi::Missing)?;
                return close(stack, pieces, token);
            }
            stack.push(Frame::Statement(StatementFrame::Return { at }))?;
            operand(stack, pieces, token)
        }
    }
}

// Behind `throw`.
fn throw_due(
    stack: &mut Stack<Frame>,
    pieces: &mut Stack<Piece>,
    token: &Token,
) -> Result<Control, AllocError>
    ensures { IfOk result (λ c. Shows (s.throw_due (h.frames stack.old pieces.old) token.now) c stack.new pieces.new) }
{
    if token.line_before {
        return Ok(Control::Fail);
    }
    stack.push(Frame::Statement(StatementFrame::Throw))?;
    operand(stack, pieces, token)
}

// Behind the block of a `try`.
fn guard_due(
    stack: &Stack<Frame>,
    pieces: &mut Stack<Piece>,
    word: Word,
) -> Result<Control, AllocError>
    ensures { IfOk result (λ c. Shows (s.guard_due (h.frames stack.now (rest pieces.old)) (statements_in (first pieces.old)) word) c stack.now pieces.new) }
{
    match word {
        Word::Catch => Ok(Control::StatementPart(StatementDue::Catch)),
        Word::Finally => {
            pieces.nothing()?;
            pieces.nothing()?;
            Ok(Control::StatementPart(StatementDue::Brace(ListRole::Finally)))
        }
        _ => Ok(Control::Fail),
    }
}

// Behind `catch`.
fn catch_due(
    stack: &mut Stack<Frame>,
    pieces: &mut Stack<Piece>,
    word: Word,
) -> Result<Control, AllocError>
    ensures { IfOk result (λ c. Shows (s.catch_due (h.frames stack.old (rest pieces.old)) (statements_in (first pieces.old)) word) c stack.new pieces.new) }
{
    match word {
        Word::LeftParen => Ok(Control::StatementPart(StatementDue::CatchName)),
        Word::LeftBrace => {
            pieces.nothing()?;
            list_opened(stack, pieces, ListRole::Catch)
        }
        _ => Ok(Control::Fail),
    }
}

// Behind `catch (`.
fn catch_name(
    stack: &Stack<Frame>,
    pieces: &mut Stack<Piece>,
    token: &Token,
) -> Result<Control, AllocError>
    ensures { IfOk result (λ c. Shows (s.catch_name (h.frames stack.now (rest pieces.old)) (statements_in (first pieces.old)) token.now.kind token.now.at) c stack.now pieces.new) }
{
    match &token.kind {
        TokenKind::Name(text) => {
            pieces.name_at(token.at, text)?;
            Ok(Control::StatementPart(StatementDue::CatchClose))
        }
        _ => Ok(Control::Fail),
    }
}

// Behind the block of a `catch`.
fn finally_due(
    stack: &mut Stack<Frame>,
    pieces: &mut Stack<Piece>,
    token: &Token,
) -> Result<Control, AllocError>
    ensures { IfOk result (λ c. Shows (s.finally_due (h.frames stack.old (rest (rest (rest pieces.old)))) (statements_in (third pieces.old)) (given_name (second pieces.old)) (statements_in (first pieces.old)) token.now (the_word token.now)) c stack.new pieces.new) }
{
    match word_of_kind(&token.kind) {
        Word::Finally => {
            pieces.given_statements()?;
            Ok(Control::StatementPart(StatementDue::Brace(ListRole::Finally)))
        }
        _ => {
            pieces.guarded()?;
            close(stack, pieces, token)
        }
    }
}

/// What a token makes of a state in which a part of a statement is due.
pub fn statement_step(
    stack: &mut Stack<Frame>,
    pieces: &mut Stack<Piece>,
    due: StatementDue,
    token: &Token,
) -> Result<Control, AllocError>
    ensures { IfOk result (λ c. Shows (s.statement_step (h.statement_due due pieces.old) (h.frames stack.old (h.under_statement_due due pieces.old)) token.now) c stack.new pieces.new) }
{
    match (due, word_of_kind(&token.kind)) {
        (StatementDue::Open(opening), Word::LeftParen) => {
            stack.push(Frame::Statement(StatementFrame::Test(opening)))?;
            Ok(Control::Operand)
        }
        (StatementDue::Brace(role), Word::LeftBrace) => list_opened(stack, pieces, role),
        (StatementDue::SwitchBrace, Word::LeftBrace) => switch_opened(stack, pieces),
        (StatementDue::Case, word) => case_due(stack, pieces, word),
        (StatementDue::CaseColon, Word::Colon) => list_opened(stack, pieces, ListRole::Default),
        (StatementDue::ForOpen, Word::LeftParen) => {
            Ok(Control::StatementPart(StatementDue::ForHead))
        }
        (StatementDue::ForHead, _) => for_head(stack, pieces, token),
        (StatementDue::ForTest, _) => for_test(stack, pieces, token),
        (StatementDue::ForStep, _) => for_step(stack, pieces, token),
        (StatementDue::Name { constant, role }, _) => {
            name_due(stack, pieces, constant, role, token)
        }
        (StatementDue::NameNext { constant, role }, _) => {
            name_next(stack, pieces, constant, role, token)
        }
        (StatementDue::Else, _) => else_due(stack, pieces, token),
        (StatementDue::DoWhile, Word::While) => Ok(Control::StatementPart(StatementDue::DoOpen)),
        (StatementDue::DoOpen, Word::LeftParen) => {
            stack.push(Frame::Statement(StatementFrame::DoTest))?;
            Ok(Control::Operand)
        }
        (StatementDue::DoEnd, _) => do_end(stack, pieces, token),
        (StatementDue::Jump { jump, at }, _) => jump_end(stack, pieces, jump, at, token),
        (StatementDue::Return { at }, _) => return_due(stack, pieces, at, token),
        (StatementDue::Throw, _) => throw_due(stack, pieces, token),
        (StatementDue::Guard, word) => guard_due(stack, pieces, word),
        (StatementDue::Catch, word) => catch_due(stack, pieces, word),
        (StatementDue::CatchName, _) => catch_name(stack, pieces, token),
        (StatementDue::CatchClose, Word::RightParen) => {
            pieces.given_name()?;
            Ok(Control::StatementPart(StatementDue::Brace(ListRole::Catch)))
        }
        (StatementDue::Finally, _) => finally_due(stack, pieces, token),
        _ => Ok(Control::Fail),
    }
}
