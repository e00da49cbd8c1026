//! The tokens of imports and exports (ECMA-262, 16.2). The one error of a call is want of memory.

ghost use Rattle.std.specs.Prelude.{◌≡◌, ◌∷◌, IfOk, codes, false};
ghost use Rattle.js_parser.specs.Held as h;
ghost use Rattle.js_parser.specs.ItemDue as nd;
ghost use Rattle.js_parser.specs.ItemSteps as n;
ghost use Rattle.js_parser.specs.Shows.{Shows};
ghost use Rattle.js_parser.specs.State.{fail, item_part, the_word};
ghost use Rattle.js_parser.specs.declared.frame.PairRole.TheVariants as pr;
ghost use Rattle.parser_forms.specs.Kept.{and_then};
ghost use Rattle.parser_forms.specs.Pieces.{first, items_in, name_in, pairs_in, rest, second, text_in, third};
ghost use Rattle.parser_forms.specs.declared.pieces.Piece.TheVariants as v;

use crate::begins::{begin, declaration};
use crate::frame::{Control, Frame, ItemDue, ItemFrame, MemberDue, PairRole, Role};
use crate::operands::operand;
use crate::tables::may_miss;
use crate::words::{Word, word_of_kind};
use es_model::{Semi, Token, TokenKind};
use parser_forms::{Piece, Stack, is_text};
use std::alloc::AllocError;

/// What a token makes of a state in which a part of an item is due.
pub fn item_step(
    stack: &mut Stack<Frame>,
    pieces: &mut Stack<Piece>,
    due: ItemDue,
    token: &Token,
) -> Result<Control, AllocError>
    ensures { IfOk result (λ c. Shows (n.item_step (h.item_due due pieces.old) (h.frames stack.old (h.under_item_due due pieces.old)) token.now) c stack.new pieces.new) }
{
    let word = word_of_kind(&token.kind);
    match due {
        ItemDue::Import => import_due(stack, pieces, token),
        ItemDue::ImportNext if word == Word::Comma => Ok(Control::Item(ItemDue::ImportBrace)),
        ItemDue::ImportNext => Ok(from_due(stack, pieces, &token.kind)),
        ItemDue::ImportBrace if word == Word::LeftBrace => {
            let role = PairRole::Import;
            Ok(Control::Item(ItemDue::Pair { role }))
        }
        ItemDue::ImportBrace => Ok(Control::Fail),
        ItemDue::Pair { role } => pair_due(stack, pieces, role, token),
        ItemDue::PairAs { role, outer } => pair_as(stack, pieces, role, outer, token),
        ItemDue::PairGiven { role, outer } => pair_given(stack, pieces, role, outer, token),
        ItemDue::PairNext { role } => Ok(pair_next(stack, pieces, role, word)),
        ItemDue::From => Ok(from_due(stack, pieces, &token.kind)),
        ItemDue::Other { role } => other_due(stack, pieces, role, &token.kind),
        ItemDue::OtherEnd { role } => other_end(stack, pieces, role, token),
        ItemDue::ExportNext { from } => export_next(stack, pieces, from, token),
        ItemDue::Export => export_due(stack, pieces, token.at, word),
        ItemDue::Default { at } => default_due(stack, pieces, at, token),
    }
}

// A name that is a word to the grammar, as `from`.
fn is_name(kind: &TokenKind, text: &[u8]) -> bool
    ensures { result ≡ n.is_name text.now kind.now }
{
    match kind {
        TokenKind::Name(name) => is_text(name.as_slice(), text),
        _ => false,
    }
}

// Imports.

fn import_due(
    stack: &Stack<Frame>,
    pieces: &mut Stack<Piece>,
    token: &Token,
) -> Result<Control, AllocError>
    ensures { IfOk result (λ c. Shows (n.import_due (h.frames stack.now pieces.old) token.now.kind token.now.at (the_word token.now)) c stack.now pieces.new) }
{
    let role = PairRole::Import;
    match &token.kind {
        TokenKind::String(text) => {
            pieces.no_pairs()?;
            pieces.text(text)?;
            Ok(Control::Item(ItemDue::OtherEnd { role }))
        }
        TokenKind::Name(text) => {
            pieces.default_import(token.at, text)?;
            Ok(Control::Item(ItemDue::ImportNext))
        }
        _ => match word_of_kind(&token.kind) {
            Word::LeftBrace => {
                pieces.no_pairs()?;
                Ok(Control::Item(ItemDue::Pair { role }))
            }
            _ => Ok(Control::Fail),
        },
    }
}

// The word `from` of an import.
fn from_due(stack: &Stack<Frame>, pieces: &Stack<Piece>, kind: &TokenKind) -> Control
    ensures { Shows (n.at_name (codes "from") (item_part (nd.Other pr.Import (pairs_in (first pieces.now))) (h.frames stack.now (rest pieces.now))) fail kind.now) result stack.now pieces.now }
{
    if is_name(kind, b"from") {
        let role = PairRole::Import;
        return Control::Item(ItemDue::Other { role });
    }
    Control::Fail
}

// Pairs of names.

fn pairs_end(stack: &Stack<Frame>, pieces: &Stack<Piece>, role: PairRole) -> Control
    ensures { Shows (n.pairs_end (h.frames stack.now (rest pieces.now)) role (pairs_in (first pieces.now))) result stack.now pieces.now }
{
    match role {
        PairRole::Import => Control::Item(ItemDue::From),
        PairRole::Export { from } => Control::Item(ItemDue::ExportNext { from }),
    }
}

// A taken name that is the word `default` is a name of another module.
fn and_outer(role: PairRole, outer: bool) -> PairRole
    ensures { result ≡ n.and_outer role outer }
{
    match role {
        PairRole::Import => PairRole::Import,
        PairRole::Export { from } => PairRole::Export {
            from: from || outer,
        },
    }
}

fn pair_due(
    stack: &Stack<Frame>,
    pieces: &mut Stack<Piece>,
    role: PairRole,
    token: &Token,
) -> Result<Control, AllocError>
    ensures { IfOk result (λ c. Shows (n.pair_due (h.frames stack.now (rest pieces.old)) role (pairs_in (first pieces.old)) token.now.kind token.now.at (the_word token.now)) c stack.now pieces.new) }
{
    match &token.kind {
        TokenKind::Name(text) => {
            pieces.name_at(token.at, text)?;
            Ok(Control::Item(ItemDue::PairAs { role, outer: false }))
        }
        _ => match word_of_kind(&token.kind) {
            Word::RightBrace => Ok(pairs_end(stack, pieces, role)),
            Word::Default => {
                pieces.default_name(token.at)?;
                Ok(Control::Item(ItemDue::PairAs { role, outer: true }))
            }
            _ => Ok(Control::Fail),
        },
    }
}

// One name that is both: an import has no name for what is called `default` in the other module.
fn both_names(
    stack: &Stack<Frame>,
    pieces: &mut Stack<Piece>,
    role: PairRole,
    outer: bool,
    word: Word,
) -> Result<Control, AllocError>
    ensures { IfOk result (λ c. Shows (n.both_names (h.frames stack.now (rest (rest pieces.old))) role (pairs_in (second pieces.old)) (name_in (first pieces.old)) outer word) c stack.now pieces.new) }
{
    match (role, outer) {
        (PairRole::Import, true) => Ok(Control::Fail),
        (PairRole::Import, false) => {
            pieces.and_both_names()?;
            Ok(pair_next(stack, pieces, PairRole::Import, word))
        }
        (PairRole::Export { from }, _) => {
            pieces.and_both_names()?;
            let from = from || outer;
            Ok(pair_next(stack, pieces, PairRole::Export { from }, word))
        }
    }
}

// Behind the first name of a pair.
fn pair_as(
    stack: &Stack<Frame>,
    pieces: &mut Stack<Piece>,
    role: PairRole,
    outer: bool,
    token: &Token,
) -> Result<Control, AllocError>
    ensures { IfOk result (λ c. Shows (n.item_step (nd.PairAs role (pairs_in (second pieces.old)) (name_in (first pieces.old)) outer) (h.frames stack.now (rest (rest pieces.old))) token.now) c stack.now pieces.new) }
{
    if is_name(&token.kind, b"as") {
        return Ok(Control::Item(ItemDue::PairGiven { role, outer }));
    }
    both_names(stack, pieces, role, outer, word_of_kind(&token.kind))
}

fn pair_next(stack: &Stack<Frame>, pieces: &Stack<Piece>, role: PairRole, word: Word) -> Control
    ensures { Shows (n.pair_next (h.frames stack.now (rest pieces.now)) role (pairs_in (first pieces.now)) word) result stack.now pieces.now }
{
    match word {
        Word::Comma => Control::Item(ItemDue::Pair { role }),
        Word::RightBrace => pairs_end(stack, pieces, role),
        _ => Control::Fail,
    }
}

// The name behind `as`. An export may be named by the word `default`.
fn pair_given(
    stack: &Stack<Frame>,
    pieces: &mut Stack<Piece>,
    role: PairRole,
    outer: bool,
    token: &Token,
) -> Result<Control, AllocError>
    ensures { IfOk result (λ c. Shows (n.pair_given (h.frames stack.now (rest (rest pieces.old))) role (pairs_in (second pieces.old)) (name_in (first pieces.old)) outer token.now.kind token.now.at (the_word token.now)) c stack.now pieces.new) }
{
    match &token.kind {
        TokenKind::Name(text) => pieces.and_pair(token.at, text)?,
        _ => {
            if role == PairRole::Import || word_of_kind(&token.kind) != Word::Default {
                return Ok(Control::Fail);
            }
            pieces.and_default_pair(token.at)?;
        }
    }
    let role = and_outer(role, outer);
    Ok(Control::Item(ItemDue::PairNext { role }))
}

// The other module.

fn other_due(
    stack: &Stack<Frame>,
    pieces: &mut Stack<Piece>,
    role: PairRole,
    kind: &TokenKind,
) -> Result<Control, AllocError>
    ensures { IfOk result (λ c. Shows (n.other_due (h.frames stack.now (rest pieces.old)) role (pairs_in (first pieces.old)) kind.now) c stack.now pieces.new) }
{
    match kind {
        TokenKind::String(text) => {
            pieces.text(text)?;
            Ok(Control::Item(ItemDue::OtherEnd { role }))
        }
        _ => Ok(Control::Fail),
    }
}

fn and_from(pieces: &mut Stack<Piece>, role: PairRole, semi: Semi) -> Result<(), AllocError>
    ensures { IfOk result (λ done. pieces.new ≡ v.Items (and_then (items_in (third pieces.old)) (n.from_other role (pairs_in (second pieces.old)) (text_in (first pieces.old)) semi)) ∷ rest (rest (rest pieces.old))) }
{
    match role {
        PairRole::Import => pieces.and_import(semi),
        PairRole::Export { .. } => pieces.and_export_from(semi),
    }
}

// Behind the name of the other module.
fn other_end(
    stack: &mut Stack<Frame>,
    pieces: &mut Stack<Piece>,
    role: PairRole,
    token: &Token,
) -> Result<Control, AllocError>
    ensures { IfOk result (λ c. Shows (n.item_step (nd.OtherEnd role (pairs_in (second pieces.old)) (text_in (first pieces.old))) (h.frames stack.old (rest (rest pieces.old))) token.now) c stack.new pieces.new) }
{
    let word = word_of_kind(&token.kind);
    match word {
        Word::Semicolon => match stack.top() {
            Some(Frame::Item(ItemFrame::Module)) => {
                and_from(pieces, role, Semi::Written)?;
                Ok(Control::Statement)
            }
            _ => Ok(Control::Fail),
        },
        _ => {
            if !may_miss(word, token.line_before) {
                return Ok(Control::Fail);
            }
            match stack.top() {
                Some(Frame::Item(ItemFrame::Module)) => {
                    and_from(pieces, role, Semi::Missing)?;
                    begin(stack, pieces, token)
                }
                _ => Ok(Control::Fail),
            }
        }
    }
}

// Exports.

fn export_next(
    stack: &mut Stack<Frame>,
    pieces: &mut Stack<Piece>,
    from: bool,
    token: &Token,
) -> Result<Control, AllocError>
    ensures { IfOk result (λ c. Shows (n.export_next (h.frames stack.old (rest pieces.old)) from (pairs_in (first pieces.old)) token.now) c stack.new pieces.new) }
{
    if is_name(&token.kind, b"from") {
        let role = PairRole::Export { from };
        return Ok(Control::Item(ItemDue::Other { role }));
    }
    if from {
        return Ok(Control::Fail);
    }
    export_names(stack, pieces, token)
}

fn export_names(
    stack: &mut Stack<Frame>,
    pieces: &mut Stack<Piece>,
    token: &Token,
) -> Result<Control, AllocError>
    ensures { IfOk result (λ c. Shows (n.export_names (h.frames stack.old (rest pieces.old)) false (pairs_in (first pieces.old)) token.now) c stack.new pieces.new) }
{
    let word = word_of_kind(&token.kind);
    match word {
        Word::Semicolon => match stack.top() {
            Some(Frame::Item(ItemFrame::Module)) => {
                pieces.and_export_names(Semi::Written)?;
                Ok(Control::Statement)
            }
            _ => Ok(Control::Fail),
        },
        _ => {
            if !may_miss(word, token.line_before) {
                return Ok(Control::Fail);
            }
            match stack.top() {
                Some(Frame::Item(ItemFrame::Module)) => {
                    pieces.and_export_names(Semi::Missing)?;
                    begin(stack, pieces, token)
                }
                _ => Ok(Control::Fail),
            }
        }
    }
}

fn export_due(
    stack: &mut Stack<Frame>,
    pieces: &mut Stack<Piece>,
    at: u32,
    word: Word,
) -> Result<Control, AllocError>
    ensures { IfOk result (λ c. Shows (n.export_due (h.frames stack.old pieces.old) at word) c stack.new pieces.new) }
{
    match word {
        Word::LeftBrace => {
            pieces.no_pairs()?;
            let role = PairRole::Export { from: false };
            Ok(Control::Item(ItemDue::Pair { role }))
        }
        Word::Default => Ok(Control::Item(ItemDue::Default { at })),
        _ => {
            stack.push(Frame::Item(ItemFrame::Export))?;
            declaration(stack, pieces, word, at)
        }
    }
}

// Behind `export default`.
fn default_due(
    stack: &mut Stack<Frame>,
    pieces: &mut Stack<Piece>,
    at: u32,
    token: &Token,
) -> Result<Control, AllocError>
    ensures { IfOk result (λ c. Shows (n.default_due (h.frames stack.old pieces.old) at token.now (the_word token.now)) c stack.new pieces.new) }
{
    match word_of_kind(&token.kind) {
        Word::Function => Ok(Control::Member(MemberDue::FunctionName {
            at: token.at,
            role: Role::Default { at },
        })),
        Word::Class => Ok(Control::Member(MemberDue::ClassName {
            at: token.at,
            role: Role::Default { at },
        })),
        _ => {
            stack.push(Frame::Item(ItemFrame::Default { at }))?;
            operand(stack, pieces, token)
        }
    }
}
