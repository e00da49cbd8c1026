//! The syntax of the language: tokens and trees, and what ECMA-262 says of them.
#![tactic(auto)]

mod faults;
mod items;
mod kinds;
mod list;
mod measure;
mod names;
mod place;
mod token;
mod tree;
mod words;

pub use faults::{EarlyFault, LexFault};
pub use items::{Default, Item, Module};
pub use kinds::{BinaryOperator, FunctionKind, MemberKind, Semi, UnaryOperator};
pub use list::TreeList;
pub use measure::{function_count, nesting};
pub use names::{Identifier, Pair};
pub use place::{Capture, Place};
pub use token::{Token, TokenKind, Tokens};
pub use tree::{
    Case, Class, Declarator, Expression, ExpressionForm, Function, FunctionBody, Head, Key, Member,
    Statement, StatementForm,
};
pub use words::{Words, keyword_text, sign_text};

#[cfg(test)]
mod tests;
