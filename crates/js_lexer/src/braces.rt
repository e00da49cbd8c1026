//! The braces that are open at a place of a text.

ghost use Rattle.std.specs.Prelude.{◌≡◌, ◌∷◌, [], drop, OnOk};
ghost use Rattle.es_model.specs.Tokens.{continued, innermost, braces_after};
ghost use Rattle.js_lexer.specs.Braces.{brace_of};

use es_model::TokenKind;
use std::alloc::{AllocError, Global};
use std::marker::Model;

/// The places of `{` and `}` in the list of signs.
const OPENING: u8 = 0;

const CLOSING: u8 = 1;

/// An open brace: a plain one, or the `${` of a template whose backquote stands at a place.
#[derive(Clone, Copy)]
pub enum Brace {
    Curly,
    Substitution(u32),
}

/// The open braces. Contracts see the innermost first.
#[derive(Drop)]
pub struct Braces {
    items: Vec<Brace>,
}

impl Model for Braces {
    ghost use Rattle.std.specs.Prelude.{List, map, reverse};
    ghost use Rattle.es_model.specs.Tokens.{Brace as OpenBrace};

    ghost Value = { List OpenBrace };

    ghost use Rattle.js_lexer.specs.Braces.{brace_of};

    ghost view = { λ b. reverse (map brace_of b.items.items) };
}

impl Braces {
    /// None. Takes no memory.
    pub fn new(alloc: Global) -> Braces
        ensures { result ≡ [] }
    {
        Braces {
            items: Vec::new(alloc),
        }
    }

    /// The backquote of the template of the innermost brace, where that is a `${`.
    pub fn continued(&self) -> Option<u32>
        ensures { result ≡ continued self.now }
    {
        match self.items.last() {
            Some(Brace::Substitution(at)) => Some(*at),
            _ => None,
        }
    }

    /// The backquote of the innermost template that is open.
    pub fn innermost(&self) -> Option<u32>
        ensures { result ≡ innermost self.now }
    {
        let mut count = self.items.len();
        while count > 0 {
            count -= 1;
            if let Brace::Substitution(at) = self.items[count] {
                return Some(at);
            }
        }
        None
    }

    /// What is open after a token that stands at `at`.
    pub fn follow(&mut self, at: u32, kind: &TokenKind) -> Result<(), AllocError>
        ensures { OnOk result (self.new ≡ braces_after at kind.now self.old) }
    {
        match kind {
            TokenKind::Sign(OPENING) => self.open(Brace::Curly),
            TokenKind::Sign(CLOSING) => {
                self.close();
                Ok(())
            }
            TokenKind::Template {
                first: true,
                last: false,
                ..
            } => self.open(Brace::Substitution(at)),
            TokenKind::Template {
                first: false,
                last: true,
                ..
            } => {
                self.close();
                Ok(())
            }
            _ => Ok(()),
        }
    }

    fn open(&mut self, brace: Brace) -> Result<(), AllocError>
        ensures { OnOk result (self.new ≡ brace_of brace ∷ self.old) }
    {
        self.items.push(brace)?;
        Ok(())
    }

    fn close(&mut self)
        ensures { self.new ≡ drop 1 self.old }
    {
        self.items.pop();
    }
}
