//! The pass over a text.

ghost use Rattle.std.specs.Prelude.{◌≡◌, ◌≤◌, [], false, length};
ghost use Rattle.es_model.specs.Tokens.{tokens_of, tokens_in, parts_of};
ghost use Rattle.js_lexer.specs.Reads.{Answers, Lists};

use crate::braces::Braces;
use crate::characters::{Characters, first_bad};
use crate::elements::{Found, take_element};
use es_model::{LexFault, Token, TokenKind, Tokens, Words};
use std::alloc::Global;

/// The tokens of a text of at most 268,435,456 bytes in their order, `End` last, or the fault that is met
/// first; places count bytes, from 0. A text that isn't UTF-8 is that before all else. Its keywords and signs
/// are numbered as es_model's lists have them, and its names, strings and templates are units. The answer
/// `Memory` comes where memory is refused.
///
/// It reads each byte a constant number of times. It takes memory for each token, for the text of each name,
/// string and template, and for each brace that is open.
pub fn tokens(alloc: Global, text: &[u8]) -> Result<Tokens, LexFault>
    requires { length text.now ≤ 268435456 }
    ensures { Answers (tokens_of text.now) result }
{
    if let Some(at) = first_bad(text) {
        return Err(LexFault::NotUtf8(at as u32));
    }
    let mut tokens = Tokens::new(alloc);
    take_all(alloc, Characters::new(text), &mut tokens)?;
    Ok(tokens)
}

/// Adds all tokens of what is left of a text to an empty list.
fn take_all(alloc: Global, text: Characters, tokens: &mut Tokens) -> Result<(), LexFault>
    requires { tokens.old ≡ [] }
    ensures { Lists (tokens_in false (parts_of 0 [] text.entry.at text.entry.text)) result tokens.new }
{
    let words = Words::new();
    let mut left = text;
    let mut braces = Braces::new(alloc);
    let mut line_before = false;
    loop {
        let at = left.place();
        let Some(first) = left.next() else {
            break;
        };
        match take_element(alloc, &words, &braces, at, first, &mut left)? {
            Found::Gap(line) => line_before = line_before || line,
            Found::Token(kind) => {
                braces.follow(at, &kind)?;
                tokens.push(Token {
                    kind,
                    at,
                    line_before,
                })?;
                line_before = false;
            }
        }
    }
    if let Some(begun) = braces.innermost() {
        return Err(LexFault::OpenTemplate(begun));
    }
    tokens.push(Token {
        kind: TokenKind::End,
        at: left.place(),
        line_before,
    })?;
    Ok(())
}
