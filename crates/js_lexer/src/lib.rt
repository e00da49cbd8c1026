//! The tokens of a text (ECMA-262, 12, without what the language leaves out).
#![tactic(auto)]

mod braces;
mod characters;
mod classes;
mod comments;
mod elements;
mod escapes;
mod numbers;
mod pass;
mod quotes;
mod words;

pub use pass::tokens;
