//! The parser: the one tree that the tokens of a text spell.
#![tactic(auto)]

mod begins;
mod closes;
mod ends_of_functions;
mod ends_of_lists;
mod expression_ends;
mod expression_steps;
mod fault;
mod frame;
mod function_steps;
mod goings;
mod item_steps;
mod loop_steps;
mod member_ends;
mod member_keys;
mod member_steps;
mod name_steps;
mod object_ends;
mod operands;
mod puts;
mod reading;
mod settle;
mod statement_ends;
mod statement_steps;
mod step;
mod tables;
mod texts;
mod words;

pub use fault::ParseFault;
pub use reading::module;
