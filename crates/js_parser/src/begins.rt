//! The tokens with which a statement or a declaration begins, and those that may stand in its place
//! (ECMA-262, 14 and 16.2). The one error of a call is want of memory.

ghost use Rattle.std.specs.Prelude.{◌≡◌, ◌∷◌, IfOk, if◌then◌else◌};
ghost use Rattle.parser_forms.specs.Pieces.{Pieces};
ghost use Rattle.js_parser.specs.Begins as b;
ghost use Rattle.js_parser.specs.Frame as f;
ghost use Rattle.js_parser.specs.Held as h;
ghost use Rattle.js_parser.specs.Shows.{Shows};
ghost use Rattle.js_parser.specs.State.{fail};
ghost use Rattle.js_parser.specs.StatementFrame as s;
ghost use Rattle.js_parser.specs.declared.frame.Control.TheVariants as due;
ghost use Rattle.js_parser.specs.declared.frame.StatementDue.TheVariants as sd;

use crate::ends_of_lists::{braces_end, module_end, next_case};
use crate::frame::{
    Control, DeclareRole, Frame, ItemDue, ItemFrame, Jump, ListRole, MemberDue, Opening, Role,
    StatementDue, StatementFrame,
};
use crate::operands::operand;
use crate::puts::put;
use crate::words::{Word, word_of_kind};
use es_model::Token;
use parser_forms::{Bare, Piece, Stack};
use std::alloc::AllocError;

// A list of statements, where declarations may stand, and the module, where items may.
fn in_list(stack: &Stack<Frame>) -> bool
    ensures { (pieces : Pieces) → result ≡ b.in_list (h.frames stack.now pieces) }
{
    match stack.top() {
        Some(Frame::Statement(StatementFrame::List(_))) => true,
        Some(Frame::Item(ItemFrame::Module)) => true,
        _ => false,
    }
}

/// `let`, `const`, `function` and `class` at the beginning of a declaration.
pub fn declaration(
    stack: &mut Stack<Frame>,
    pieces: &mut Stack<Piece>,
    word: Word,
    at: u32,
) -> Result<Control, AllocError>
    ensures { IfOk result (λ c. Shows (b.declaration (h.frames stack.old pieces.old) word at) c stack.new pieces.new) }
{
    let names = DeclareRole::Statement;
    let role = Role::Statement;
    match word {
        Word::Let => {
            pieces.no_declarators()?;
            Ok(Control::StatementPart(StatementDue::Name {
                constant: false,
                role: names,
            }))
        }
        Word::Const => {
            pieces.no_declarators()?;
            Ok(Control::StatementPart(StatementDue::Name {
                constant: true,
                role: names,
            }))
        }
        Word::Function => Ok(Control::Member(MemberDue::FunctionName { at, role })),
        Word::Class => Ok(Control::Member(MemberDue::ClassName { at, role })),
        _ => Ok(Control::Fail),
    }
}

// A declaration, where one may stand.
fn declared(
    stack: &mut Stack<Frame>,
    pieces: &mut Stack<Piece>,
    word: Word,
    at: u32,
) -> Result<Control, AllocError>
    ensures { IfOk result (λ c. Shows (b.declared (h.frames stack.old pieces.old) word at) c stack.new pieces.new) }
{
    if in_list(stack) {
        declaration(stack, pieces, word, at)
    } else {
        Ok(Control::Fail)
    }
}

// `import` and `export`, where an item may stand.
fn item_begins(stack: &Stack<Frame>, pieces: &Stack<Piece>, word: Word) -> Control
    ensures { Shows (if b.in_module (h.frames stack.now pieces.now) then b.item (h.frames stack.now pieces.now) word else fail) result stack.now pieces.now }
{
    match (stack.top(), word) {
        (Some(Frame::Item(ItemFrame::Module)), Word::Import) => Control::Item(ItemDue::Import),
        (Some(Frame::Item(ItemFrame::Module)), Word::Export) => Control::Item(ItemDue::Export),
        _ => Control::Fail,
    }
}

// An expression as a statement.
fn value_begins(
    stack: &mut Stack<Frame>,
    pieces: &mut Stack<Piece>,
    token: &Token,
) -> Result<Control, AllocError>
    ensures { IfOk result (λ c. Shows (b.operand (f.Statement s.Value ∷ h.frames stack.old pieces.old) token.now) c stack.new pieces.new) }
{
    stack.push(Frame::Statement(StatementFrame::Value))?;
    operand(stack, pieces, token)
}

// `break` and `continue`.
fn jump_due(jump: Jump, at: u32) -> Control
    ensures { result ≡ due.StatementPart (sd.Jump jump at) }
{
    Control::StatementPart(StatementDue::Jump { jump, at })
}

/// Where a statement is due, or the end of a list of statements.
pub fn begin(
    stack: &mut Stack<Frame>,
    pieces: &mut Stack<Piece>,
    token: &Token,
) -> Result<Control, AllocError>
    ensures { IfOk result (λ c. Shows (b.begin (h.frames stack.old pieces.old) token.now) c stack.new pieces.new) }
{
    let word = word_of_kind(&token.kind);
    let at = token.at;
    match word {
        Word::LeftBrace => {
            pieces.no_statements()?;
            stack.push(Frame::Statement(StatementFrame::List(ListRole::Block)))?;
            Ok(Control::Statement)
        }
        Word::RightBrace => braces_end(stack, pieces),
        Word::Semicolon => {
            pieces.bare(Bare::Empty)?;
            put(stack, pieces)
        }
        Word::End => module_end(stack, pieces),
        Word::Let | Word::Const | Word::Function | Word::Class => {
            declared(stack, pieces, word, at)
        }
        Word::If => Ok(Control::StatementPart(StatementDue::Open(Opening::If))),
        Word::While => Ok(Control::StatementPart(StatementDue::Open(Opening::While))),
        Word::Switch => Ok(Control::StatementPart(StatementDue::Open(Opening::Switch))),
        Word::For => Ok(Control::StatementPart(StatementDue::ForOpen)),
        Word::Do => {
            stack.push(Frame::Statement(StatementFrame::Do))?;
            Ok(Control::Statement)
        }
        Word::Break => Ok(jump_due(Jump::Break, at)),
        Word::Continue => Ok(jump_due(Jump::Continue, at)),
        Word::Return => Ok(Control::StatementPart(StatementDue::Return { at })),
        Word::Throw => Ok(Control::StatementPart(StatementDue::Throw)),
        Word::Try => Ok(Control::StatementPart(StatementDue::Brace(ListRole::Try))),
        Word::Case | Word::Default => next_case(stack, pieces, word),
        Word::Import | Word::Export => Ok(item_begins(stack, pieces, word)),
        _ => value_begins(stack, pieces, token),
    }
}
