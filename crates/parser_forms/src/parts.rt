use crate::trees::KeyTree;
use es_model::{Expression, Identifier, TreeList};
use js_value::Units;

/// What is kept of a thing that was read: its tree, where its nesting is at most 64, and its
/// nesting, which stands still at 65 (own rule). So no tree is held that is nested deeper than 64.
#[derive(Drop)]
pub struct Kept<T> {
    pub tree: Option<T>,
    pub nesting: u8,
}

/// What an expression is as the head of an arrow (ECMA-262, 15.3): a name, names with commas
/// between, or such in parentheses. The names are kept beside the tree, since they may be more
/// than a tree of commas can hold.
#[derive(Drop)]
pub enum Heading {
    Nothing,
    Name(Identifier),
    Names(TreeList<Identifier>),
    Head(TreeList<Identifier>),
}

/// What was read as an expression: its tree, the place where it begins, and what else the grammar
/// asks of an expression, which is so also where the tree is nested too deep to be kept.
#[derive(Drop)]
pub struct Part {
    pub of: Kept<Expression>,
    pub at: u32,
    pub level: u8,
    pub is_target: bool,
    pub is_nullish: bool,
    pub is_bare_new: bool,
    pub has_call: bool,
    pub heading: Heading,
}

/// The key of a member. `is_constructor` says that it is written, and is `constructor`.
#[derive(Drop)]
pub struct KeyPart {
    pub of: Kept<KeyTree>,
    pub is_constructor: bool,
}

/// An expression that is one token, and no name: a literal or `this` (ECMA-262, 13.2).
#[derive(Drop)]
pub enum Literal {
    This,
    Null,
    True,
    False,
    Number(i64),
    String(Units),
}
