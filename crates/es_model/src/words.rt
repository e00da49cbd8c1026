//! The keywords and the signs by their texts (ECMA-262, 12.7.2 and 12.8).

ghost use Rattle.std.specs.Prelude.{◌≡◌, ◌<◌, Some, length, slice_get};
ghost use Rattle.es_model.specs.SignTable.{ascending_signs};
ghost use Rattle.es_model.specs.Tokens.{keywords, signs, keyword_of, place_from};

use js_value::Case;
use std::marker::Model;

// The list of keywords ascends, so that a keyword's row is its place.
const KEYWORDS: &'static [&'static str; 46] = &[
    "await",
    "break",
    "case",
    "catch",
    "class",
    "const",
    "continue",
    "debugger",
    "default",
    "delete",
    "do",
    "else",
    "enum",
    "export",
    "extends",
    "false",
    "finally",
    "for",
    "function",
    "if",
    "implements",
    "import",
    "in",
    "instanceof",
    "interface",
    "let",
    "new",
    "null",
    "package",
    "private",
    "protected",
    "public",
    "return",
    "static",
    "super",
    "switch",
    "this",
    "throw",
    "true",
    "try",
    "typeof",
    "var",
    "void",
    "while",
    "with",
    "yield",
];

// In ascending order.
const SIGNS: &'static [&'static str; 52] = &[
    "!", "!=", "!==", "%", "%=", "&", "&&", "&=", "(", ")", "*", "**", "**=", "*=", "+", "++",
    "+=", ",", "-", "--", "-=", ".", "/", "/=", ":", ";", "<", "<<", "<<=", "<=", "=", "==", "===",
    "=>", ">", ">=", ">>", ">>=", ">>>", ">>>=", "?", "??", "[", "]", "^", "^=", "{", "|", "|=",
    "||", "}", "~",
];

// The place of each row.
const SIGN_PLACES: [u8; 52] = [
    31, 14, 16, 21, 43, 28, 33, 48, 2, 3, 19, 22, 44, 41, 17, 23, 39, 7, 18, 24, 40, 8, 20, 42, 37,
    6, 9, 25, 45, 11, 38, 13, 15, 51, 10, 12, 26, 46, 27, 47, 36, 35, 4, 5, 30, 50, 0, 29, 49, 34,
    1, 32,
];

// The row of each place.
const SIGN_ROWS: [u8; 52] = [
    46, 50, 8, 9, 42, 43, 25, 17, 21, 26, 34, 29, 35, 31, 1, 32, 2, 14, 18, 10, 22, 3, 11, 15, 19,
    27, 36, 38, 5, 47, 44, 0, 51, 6, 49, 41, 40, 24, 30, 16, 20, 13, 23, 4, 12, 28, 37, 39, 7, 48,
    45, 33,
];

/// The keywords and the signs by their texts. The tables are made once, by `new`, and then only read; they
/// take no memory but their own, which is 1,568 bytes.
#[derive(Drop)]
pub struct Words {
    keyword_table: Case<46>,
    sign_table: Case<52>,
}

// There is one such value, since the tables hold the texts of the definitions.
impl Model for Words {
    ghost use Rattle.std.specs.Prelude.{◌≡◌};
    ghost use Rattle.es_model.specs.SignTable.{ascending_signs};
    ghost use Rattle.es_model.specs.Tokens.{keywords};

    ghost Value = { Unit {0} };

    ghost view = { λ w. tt };

    ghost invariant = { λ w. (w.keyword_table ≡ keywords) × (w.sign_table ≡ ascending_signs) };
}

impl Words {
    /// The tables.
    pub fn new() -> Words {
        Words {
            keyword_table: keyword_table(),
            sign_table: sign_table(),
        }
    }

    /// The place of a keyword in the list of keywords, from 0; None where the text is no keyword.
    pub fn keyword(&self, units: &[u16]) -> Option<u8>
        ensures { result ≡ keyword_of units.now }
    {
        match self.keyword_table.find(units) {
            Some(row) => Some(row as u8),
            None => None,
        }
    }

    /// The place of a sign in the list of signs, from 0; None where the text is no sign.
    pub fn sign(&self, units: &[u16]) -> Option<u8>
        ensures { result ≡ place_from 0 signs units.now }
    {
        match self.sign_table.find(units) {
            Some(row) => Some(SIGN_PLACES[row]),
            None => None,
        }
    }
}

/// The keyword at a place.
pub fn keyword_text(place: u8) -> &'static str
    requires { place < length keywords }
    ensures { slice_get keywords place ≡ Some result.now }
{
    keyword_table().key(usize::from(place))
}

/// The sign at a place.
pub fn sign_text(place: u8) -> &'static str
    requires { place < length signs }
    ensures { slice_get signs place ≡ Some result.now }
{
    let row = usize::from(SIGN_ROWS[usize::from(place)]);
    sign_table().key(row)
}

fn keyword_table() -> Case<46>
    ensures { result ≡ keywords }
{
    Case::new(*KEYWORDS)
}

fn sign_table() -> Case<52>
    ensures { result ≡ ascending_signs }
{
    Case::new(*SIGNS)
}
