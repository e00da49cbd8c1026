ghost use Rattle.std.specs.Prelude.{◌≡◌, [], ◌∷◌, ◌++◌};
ghost use Rattle.std.specs.Result.{OnOk, OnErr};

use js_value::Units;
use std::alloc::{AllocError, Global};
use std::marker::Model;

/// What a token is (ECMA-262, 12). The number of a keyword or a sign is its place in the list of
/// keywords or of signs, from 0.
#[derive(Drop)]
pub enum TokenKind {
    Name(Units),
    Keyword(u8),
    /// The value of a number literal, at most 9007199254740991.
    Number(i64),
    /// The units that a string literal stands for.
    String(Units),
    /// The units of a template between its backquotes and substitutions. The first piece begins
    /// at the opening backquote, and the last ends with the closing one. The marks stand before
    /// the text, where they take no room of their own.
    Template {
        first: bool,
        last: bool,
        text: Units,
    },
    Sign(u8),
    /// The end of the text. It is the last token.
    End,
}

/// A token. `at` is the place of its first byte in the text, from 0, and `line_before` says that
/// a line break stands before it, after the token before. It takes 40 bytes beside its units.
#[derive(Drop)]
pub struct Token {
    pub kind: TokenKind,
    pub at: u32,
    pub line_before: bool,
}

const _: () = prove!(size_of::<Token>() == 40);

/// A list of tokens.
#[derive(Drop)]
pub struct Tokens {
    items: Vec<Token>,
}

impl Model for Tokens {
    ghost use Rattle.std.specs.Prelude.{List};
    ghost use Rattle.es_model.specs.declared.token.Token.{Token};

    ghost Value = { List Token };

    ghost view = { λ t. t.items.items };
}

impl Tokens {
    /// The empty list. Takes no memory.
    pub fn new(alloc: Global) -> Tokens
        ensures { result ≡ [] }
    {
        Tokens {
            items: Vec::new(alloc),
        }
    }

    /// Adds a token at the end; on want of memory the list stays as it was, and the token is
    /// dropped.
    pub fn push(&mut self, token: Token) -> Result<(), AllocError>
        ensures ok { OnOk result (self.new ≡ self.old ++ token ∷ []) }
        ensures err { OnErr result (self.new ≡ self.old) }
    {
        self.items.push(token)?;
        Ok(())
    }

    /// The tokens in order.
    pub fn as_slice(&self) -> &[Token]
        ensures { result.now ≡ self.now }
    {
        self.items.as_slice()
    }
}
