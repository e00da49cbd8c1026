//! What the parser keeps of what it read: trees with what the grammar asks of them, on one store, and
//! the calls that build each form of the language from its parts.
#![tactic(auto)]

mod functions;
mod items;
mod keeping;
mod kinds;
mod lists;
mod members;
mod names;
mod operands;
mod operators;
mod parts;
mod pieces;
mod readers;
mod shapes;
mod stack;
mod statements;
mod texts;
mod trees;

pub use keeping::raise;
pub use kinds::{Bare, Infix, Prefix, infix_level, left_level, operator_level};
pub use parts::{Heading, Kept, KeyPart, Literal, Part};
pub use pieces::{Piece, Pieces};
pub use stack::Stack;
pub use texts::{copy_of, is_text};
pub use trees::{Cases, Declarators, Expressions, HeadTree, Items, KeyTree, Members, Statements};
