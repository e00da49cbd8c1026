//! Texts and Numbers of the language: 16-bit units with their form in UTF-8, and the operators on Numbers.
#![tactic(auto)]

mod arithmetic;
mod case;
mod counts;
mod literals;
mod numerals;
#[cfg(test)]
mod tests;
mod text;
mod words;

pub use arithmetic::{add, div, mul, neg, pow, rem, sub};
pub use case::Case;
pub use counts::{Full, Room};
pub use literals::{index_of_key, number_of_units};
pub use numerals::{text_of_number, text_of_number_radix};
pub use text::{Units, scalar_value, sequence_length, utf8_piece};
pub use words::{clz32, imul, sar, shl, shr, to_int32, to_uint32};

/// A result that is no Number of the language: not a whole number from -9007199254740991 to
/// 9007199254740991, or negative zero (own rule).
#[derive(Clone, Copy, PartialEq, Eq, Debug)]
pub struct Range;
