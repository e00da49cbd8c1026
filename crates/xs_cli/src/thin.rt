//! Reading of thin texts: blank ones, and those that import `print` from the host and print strings.
//! Own rule, for as long as there is no parser.

ghost use Rattle.std.specs.List.{position, list_all};
ghost use Rattle.std.specs.Prelude.{false, ◌≡◌, ◌<◌, ◌≤◌, ◌∷◌, [], ◌++◌, length, MatchOption, OnOk, OnErr, IfOk, option_map, Some, None};
ghost use Rattle.xs_cli.specs.Thin.{thin, texts_of, parts, spells, unblanked, is_quote, is_blank, is_plain, strings, end_tokens, print_tokens};
ghost use Rattle.js_value.specs.Text.{units};
ghost use Rattle.xs_cli.specs.Before.{is_call, IsNext};

use crate::texts::Texts;
use js_value::Units;
use std::alloc::{AllocError, Global};

/// The most bytes that a thin text has.
const MOST: usize = 16_000;

const IMPORT: &[u8] = b" import { print } from";

/// Why a text gives no strings.
#[derive(Clone, Copy, Debug, PartialEq, Eq)]
pub enum Fault {
    NotThin,
    Memory,
}

/// What stands before the next string.
#[derive(Clone, Copy, Debug, PartialEq, Eq)]
enum Before {
    Import,
    Call,
}

/// The strings that a thin text prints, in its order.
pub fn strings(alloc: Global, text: &[u8]) -> Result<Texts, Fault>
    ensures ok { IfOk result (λ texts. option_map texts_of (thin text.now) ≡ Some texts) }
    ensures refused { result ≡ Err Fault.NotThin → thin text.now ≡ None }
{
    if text.len() > MOST {
        return Err(Fault::NotThin);
    }
    let Some((head, behind)) = cut(text) else {
        if are_blank(text) {
            return Ok(Texts::new(alloc));
        }
        return Err(Fault::NotThin);
    };
    let Some((from, rest)) = cut(behind) else {
        return Err(Fault::NotThin);
    };
    if !spells(IMPORT, head) {
        return Err(Fault::NotThin);
    }
    if from != b"host".as_slice() {
        return Err(Fault::NotThin);
    }
    printed(alloc, rest)
}

/// What stands before the first double quote, and what stands behind it.
fn cut(text: &[u8]) -> Option<(&[u8], &[u8])>
    ensures cases { MatchOption result (parts text.now ≡ text.now ∷ []) (λ cut. parts text.now ≡ cut.0.now ∷ parts cut.1.now) }
    ensures shorter { MatchOption result (length text.now ≤ length text.now) (λ cut. length cut.1.now < length text.now) }
{
    let quote = first_quote(text)?;
    let (before, rest) = text.split_at(quote);
    let (_quote, behind) = rest.split_at(1);
    Some((before, behind))
}

fn first_quote(text: &[u8]) -> Option<usize>
    ensures { result ≡ position is_quote text.now }
{
    text.iter().position(|byte| *byte == b'"')
}

fn is_blank(byte: u8) -> bool
    ensures { result ≡ is_blank byte }
{
    byte == b' ' || byte == b'\n'
}

fn is_plain(byte: u8) -> bool
    ensures { result ≡ is_plain byte }
{
    0x20 <= byte && byte <= 0x7E && byte != b'\\'
}

fn are_blank(bytes: &[u8]) -> bool
    ensures { result ≡ list_all is_blank bytes.now }
{
    bytes.iter().all(|byte| is_blank(*byte))
}

fn are_plain(bytes: &[u8]) -> bool
    ensures { result ≡ list_all is_plain bytes.now }
{
    bytes.iter().all(|byte| is_plain(*byte))
}

/// The bytes behind the first blanks.
#[tactic(auto, unfolding(crate::specs::Thin::unblanked))]
fn unblanked(text: &[u8]) -> &[u8]
    ensures { result.now ≡ unblanked text.now }
{
    let mut rest = text;
    while let [first, behind @ ..] = rest {
        if !is_blank(*first) {
            break;
        }
        rest = behind;
    }
    rest
}

/// Whether a part of the text is these tokens, a space standing for any blanks.
#[tactic(auto, unfolding(crate::specs::Thin::spells))]
fn spells(tokens: &[u8], part: &[u8]) -> bool
    ensures { result ≡ spells tokens.now part.now }
{
    let mut rest = part;
    for token in tokens {
        if *token == b' ' {
            rest = unblanked(rest);
            continue;
        }
        let [first, behind @ ..] = rest else {
            return false;
        };
        if *first != *token {
            return false;
        }
        rest = behind;
    }
    are_blank(rest)
}

impl Before {
    /// The tokens that end the import, or a call.
    fn end(self) -> &'static [u8]
        ensures { result.now ≡ end_tokens (is_call self) }
    {
        match self {
            Before::Import => b" ;",
            Before::Call => b" ) ;",
        }
    }

    /// These, and the tokens that begin the next call.
    fn next(self) -> &'static [u8]
        ensures { result.now ≡ end_tokens (is_call self) ++ print_tokens }
    {
        match self {
            Before::Import => b" ; print (",
            Before::Call => b" ) ; print (",
        }
    }
}

/// What comes next in a text behind its import.
enum Next<'a> {
    /// A call that prints this string, and what stands behind the string.
    Call { argument: &'a [u8], later: &'a [u8] },
    End,
    NotThin,
}

fn read_next<'a>(before: Before, text: &'a [u8]) -> Next<'a>
    ensures { IsNext (is_call before) text.now result }
{
    let Some((between, behind)) = cut(text) else {
        if spells(before.end(), text) {
            return Next::End;
        }
        return Next::NotThin;
    };
    let Some((argument, later)) = cut(behind) else {
        return Next::NotThin;
    };
    if !spells(before.next(), between) {
        return Next::NotThin;
    }
    if !are_plain(argument) {
        return Next::NotThin;
    }
    Next::Call { argument, later }
}

/// The strings of what stands behind the import's module name.
fn printed(alloc: Global, text: &[u8]) -> Result<Texts, Fault>
    ensures ok { IfOk result (λ texts. strings false (parts text.now) ≡ Some texts) }
    ensures refused { result ≡ Err Fault.NotThin → strings false (parts text.now) ≡ None }
{
    let mut texts = Texts::new(alloc);
    let mut before = Before::Import;
    let mut rest = text;
    loop {
        match read_next(before, rest) {
            Next::End => return Ok(texts),
            Next::NotThin => return Err(Fault::NotThin),
            Next::Call { argument, later } => {
                push(&mut texts, alloc, argument)?;
                before = Before::Call;
                rest = later;
            }
        }
    }
}

/// Adds the text of these bytes.
fn push(texts: &mut Texts, alloc: Global, bytes: &[u8]) -> Result<(), Fault>
    ensures ok { OnOk result (texts.new ≡ texts.old ++ units bytes.now ∷ []) }
    ensures err { OnErr result (result ≡ Err Fault.Memory) }
{
    let Ok(text) = Units::from_utf8(alloc, bytes) else {
        return Err(Fault::Memory);
    };
    match texts.push(text) {
        Ok(()) => Ok(()),
        Err(AllocError) => Err(Fault::Memory),
    }
}
