//! Forms that are made alike, each with what tells it from its like.

ghost use Rattle.std.specs.Prelude.{◌≡◌, false, true};

use crate::kinds::{Infix, Prefix};
use es_model::{BinaryOperator, Semi};
use js_value::Units;

/// What is known of an expression but for its tree, where it is no head of an arrow.
#[derive(Clone, Copy)]
pub struct Standing {
    pub at: u32,
    pub level: u8,
    pub is_target: bool,
    pub is_nullish: bool,
    pub is_bare_new: bool,
    pub has_call: bool,
}

impl Standing {
    /// An expression of which nothing but its level is asked.
    pub fn plain(at: u32, level: u8) -> Standing
        ensures { result ≡ record { at = at; level = level; is_target = false; is_nullish = false; is_bare_new = false; has_call = false } }
    {
        Standing {
            at,
            level,
            is_target: false,
            is_nullish: false,
            is_bare_new: false,
            has_call: false,
        }
    }

    /// A form that may be assigned to, and is no name.
    pub fn target(at: u32, has_call: bool) -> Standing
        ensures { result ≡ record { at = at; level = 17; is_target = true; is_nullish = false; is_bare_new = false; has_call = has_call } }
    {
        Standing {
            at,
            level: 17,
            is_target: true,
            is_nullish: false,
            is_bare_new: false,
            has_call,
        }
    }

    /// A call.
    pub fn call(at: u32) -> Standing
        ensures { result ≡ record { at = at; level = 17; is_target = false; is_nullish = false; is_bare_new = false; has_call = true } }
    {
        Standing {
            at,
            level: 17,
            is_target: false,
            is_nullish: false,
            is_bare_new: false,
            has_call: true,
        }
    }
}

/// What has nothing in it.
#[derive(Clone, Copy)]
pub enum Empty {
    Nothing,
    Expressions,
    Statements,
    Members,
    Declarators,
    Cases,
    Head,
}

/// Expressions round one expression.
#[derive(Clone, Copy)]
pub enum Wrapping {
    SuperIndex { at: u32 },
    BareNew,
    Update { at: u32, up: bool, prefix: bool },
    Before { operator: Prefix, at: u32 },
}

/// Expressions round two expressions.
#[derive(Clone, Copy)]
pub enum Joining {
    Index,
    Operation(Infix),
    Assign {
        at: u32,
        operator: Option<BinaryOperator>,
    },
}

/// Statements round an expression.
#[derive(Clone, Copy)]
pub enum Valued {
    Value { semi: Semi },
    Return { at: u32, semi: Semi },
    Throw { semi: Semi },
}

/// Statements round an expression and the statement behind it.
#[derive(Clone, Copy)]
pub enum Bodied {
    While,
    If,
}

/// Items that are a statement.
#[derive(Clone, Copy)]
pub enum Stated {
    Plain,
    Exported,
}

/// Items with pairs of names; two of them name another module.
#[derive(Drop)]
pub enum Paired {
    Import(Units),
    ExportFrom(Units),
    ExportNames,
}
