//! Operators, and the statements that have no parts.

ghost use Rattle.std.specs.Prelude.{◌≡◌};
ghost use Rattle.es_model.specs.Levels as levels;
ghost use Rattle.parser_forms.specs.Parts as p;

use es_model::{BinaryOperator, Semi, UnaryOperator};

/// An operator between two operands.
#[derive(Clone, Copy)]
pub enum Infix {
    Binary(BinaryOperator),
    In,
    InstanceOf,
    And,
    Or,
    Nullish,
    Comma,
}

/// An operator before its operand; `++` and `--` are none.
#[derive(Clone, Copy)]
pub enum Prefix {
    Unary(UnaryOperator),
    Typeof,
    Void,
    Delete,
}

/// A statement with nothing in it; `at` is the place of its word.
#[derive(Clone, Copy)]
pub enum Bare {
    Empty,
    Break { at: u32, semi: Semi },
    Continue { at: u32, semi: Semi },
}

/// The level of the form that an operator makes.
pub fn operator_level(operator: BinaryOperator) -> u8
    ensures { result ≡ levels.operator_level operator }
{
    match operator {
        BinaryOperator::Add | BinaryOperator::Subtract => 12,
        BinaryOperator::Multiply | BinaryOperator::Divide | BinaryOperator::Remainder => 13,
        BinaryOperator::Power => 14,
        BinaryOperator::BitAnd => 8,
        BinaryOperator::BitOr => 6,
        BinaryOperator::BitXor => 7,
        BinaryOperator::ShiftLeft
        | BinaryOperator::ShiftRight
        | BinaryOperator::ShiftRightUnsigned => 11,
        BinaryOperator::Less
        | BinaryOperator::Greater
        | BinaryOperator::LessOrEqual
        | BinaryOperator::GreaterOrEqual => 10,
        BinaryOperator::Equal
        | BinaryOperator::NotEqual
        | BinaryOperator::StrictEqual
        | BinaryOperator::StrictNotEqual => 9,
    }
}

/// The level of the form that an operator makes.
pub fn infix_level(operator: Infix) -> u8
    ensures { result ≡ p.infix_level operator }
{
    match operator {
        Infix::Binary(operator) => operator_level(operator),
        Infix::In => 10,
        Infix::InstanceOf => 10,
        Infix::And => 5,
        Infix::Or => 4,
        Infix::Nullish => 4,
        Infix::Comma => 1,
    }
}

/// The least level of an operator's left operand. All operators group to the left but `**`.
pub fn left_level(operator: BinaryOperator) -> u8
    ensures { result ≡ levels.left_level operator }
{
    match operator {
        BinaryOperator::Power => 16,
        _ => operator_level(operator),
    }
}
