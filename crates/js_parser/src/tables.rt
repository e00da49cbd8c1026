//! What each word does behind and before an operand (ECMA-262, 13).

ghost use Rattle.std.specs.Prelude.{◌≡◌};
ghost use Rattle.es_model.specs.Levels.{right_level};
ghost use Rattle.parser_forms.specs.Pieces.{Pieces};
ghost use Rattle.js_parser.specs.Frame as f;
ghost use Rattle.js_parser.specs.Held as h;
ghost use Rattle.js_parser.specs.Tables as t;

use crate::frame::{ExpressionFrame, Frame, ItemFrame, MemberFrame, StatementFrame};
use crate::words::Word;
use es_model::{BinaryOperator, UnaryOperator};
use parser_forms::{Infix, Prefix, Stack, infix_level, operator_level};

/// The operator between two operands that a word is.
pub fn infix_of(word: Word) -> Option<Infix>
    ensures { result ≡ t.infix_of word }
{
    match word {
        Word::Plus => Some(Infix::Binary(BinaryOperator::Add)),
        Word::Minus => Some(Infix::Binary(BinaryOperator::Subtract)),
        Word::Star => Some(Infix::Binary(BinaryOperator::Multiply)),
        Word::Slash => Some(Infix::Binary(BinaryOperator::Divide)),
        Word::Percent => Some(Infix::Binary(BinaryOperator::Remainder)),
        Word::StarStar => Some(Infix::Binary(BinaryOperator::Power)),
        Word::Ampersand => Some(Infix::Binary(BinaryOperator::BitAnd)),
        Word::Bar => Some(Infix::Binary(BinaryOperator::BitOr)),
        Word::Caret => Some(Infix::Binary(BinaryOperator::BitXor)),
        Word::ShiftLeft => Some(Infix::Binary(BinaryOperator::ShiftLeft)),
        Word::ShiftRight => Some(Infix::Binary(BinaryOperator::ShiftRight)),
        Word::ShiftRightUnsigned => Some(Infix::Binary(BinaryOperator::ShiftRightUnsigned)),
        Word::Less => Some(Infix::Binary(BinaryOperator::Less)),
        Word::Greater => Some(Infix::Binary(BinaryOperator::Greater)),
        Word::LessOrEqual => Some(Infix::Binary(BinaryOperator::LessOrEqual)),
        Word::GreaterOrEqual => Some(Infix::Binary(BinaryOperator::GreaterOrEqual)),
        Word::Equal => Some(Infix::Binary(BinaryOperator::Equal)),
        Word::NotEqual => Some(Infix::Binary(BinaryOperator::NotEqual)),
        Word::StrictEqual => Some(Infix::Binary(BinaryOperator::StrictEqual)),
        Word::StrictNotEqual => Some(Infix::Binary(BinaryOperator::StrictNotEqual)),
        Word::In => Some(Infix::In),
        Word::InstanceOf => Some(Infix::InstanceOf),
        Word::AndAnd => Some(Infix::And),
        Word::OrOr => Some(Infix::Or),
        Word::QuestionQuestion => Some(Infix::Nullish),
        Word::Comma => Some(Infix::Comma),
        _ => None,
    }
}

/// The assignment that a word is, with the operator of a compound one.
pub fn assignment_of(word: Word) -> Option<Option<BinaryOperator>>
    ensures { result ≡ t.assignment_of word }
{
    match word {
        Word::Assign => Some(None),
        Word::PlusAssign => Some(Some(BinaryOperator::Add)),
        Word::MinusAssign => Some(Some(BinaryOperator::Subtract)),
        Word::StarAssign => Some(Some(BinaryOperator::Multiply)),
        Word::SlashAssign => Some(Some(BinaryOperator::Divide)),
        Word::PercentAssign => Some(Some(BinaryOperator::Remainder)),
        Word::StarStarAssign => Some(Some(BinaryOperator::Power)),
        Word::ShiftLeftAssign => Some(Some(BinaryOperator::ShiftLeft)),
        Word::ShiftRightAssign => Some(Some(BinaryOperator::ShiftRight)),
        Word::ShiftRightUnsignedAssign => Some(Some(BinaryOperator::ShiftRightUnsigned)),
        Word::AndAssign => Some(Some(BinaryOperator::BitAnd)),
        Word::OrAssign => Some(Some(BinaryOperator::BitOr)),
        Word::XorAssign => Some(Some(BinaryOperator::BitXor)),
        _ => None,
    }
}

/// The operator before its operand that a word is.
pub fn prefix_of(word: Word) -> Option<Prefix>
    ensures { result ≡ t.prefix_of word }
{
    match word {
        Word::Exclamation => Some(Prefix::Unary(UnaryOperator::Not)),
        Word::Minus => Some(Prefix::Unary(UnaryOperator::Negate)),
        Word::Plus => Some(Prefix::Unary(UnaryOperator::Plus)),
        Word::Tilde => Some(Prefix::Unary(UnaryOperator::BitNot)),
        Word::Typeof => Some(Prefix::Typeof),
        Word::Void => Some(Prefix::Void),
        Word::Delete => Some(Prefix::Delete),
        _ => None,
    }
}

fn gives_other(word: Word, line: bool) -> u8
    ensures { result ≡ t.gives_other word line }
{
    match word {
        Word::Arrow if !line => 2,
        Word::Question => 3,
        Word::PlusPlus if !line => 16,
        Word::MinusMinus if !line => 16,
        Word::LeftParen => 17,
        Word::Point => 18,
        Word::LeftBracket => 18,
        _ => 0,
    }
}

/// The level of the form that a word makes of an operand before it, 0 where it makes none; of what a
/// `new` may take, one more. `line` says that a line break stands before the word.
pub fn gives(word: Word, line: bool) -> u8
    ensures { result ≡ t.gives word line }
{
    if let Some(operator) = infix_of(word) {
        return infix_level(operator);
    }
    match assignment_of(word) {
        Some(_) => 2,
        None => gives_other(word, line),
    }
}

fn right_level(operator: BinaryOperator) -> u8
    ensures { result ≡ right_level operator }
{
    match operator {
        BinaryOperator::Power => 14,
        _ => operator_level(operator) + 1,
    }
}

/// The least level of the right operand of an operator.
pub fn right_of(operator: Infix) -> u8
    ensures { result ≡ t.right_of operator }
{
    match operator {
        Infix::Binary(operator) => right_level(operator),
        Infix::In => 11,
        Infix::InstanceOf => 11,
        Infix::And => 6,
        Infix::Or => 5,
        Infix::Nullish => 6,
        Infix::Comma => 2,
    }
}

fn expression_slot(frame: ExpressionFrame) -> u8
    ensures { (pieces : Pieces) → result ≡ t.slot_of (f.Expression (h.expression_frame frame pieces)) }
{
    match frame {
        ExpressionFrame::Paren { .. } => 1,
        ExpressionFrame::Infix { operator } => right_of(operator),
        ExpressionFrame::Prefix { .. } => 15,
        ExpressionFrame::Update { .. } => 17,
        ExpressionFrame::New { .. } => 18,
        ExpressionFrame::Yes => 2,
        ExpressionFrame::No => 2,
        ExpressionFrame::Assign { .. } => 2,
        ExpressionFrame::Arrow { .. } => 2,
        ExpressionFrame::Arguments { .. } => 2,
        ExpressionFrame::Array { .. } => 2,
        ExpressionFrame::Index => 1,
        ExpressionFrame::SuperIndex { .. } => 1,
        ExpressionFrame::Template { .. } => 1,
    }
}

fn member_slot(frame: MemberFrame) -> u8
    ensures { (pieces : Pieces) → result ≡ t.slot_of (f.Member (h.member_frame frame pieces)) }
{
    match frame {
        MemberFrame::Object { .. } => 100,
        MemberFrame::Class(_) => 100,
        MemberFrame::Derived(_) => 100,
        MemberFrame::Parent(_) => 17,
        MemberFrame::Key { .. } => 2,
        MemberFrame::Value(_) => 2,
    }
}

fn statement_slot(frame: StatementFrame) -> u8
    ensures { (pieces : Pieces) → result ≡ t.slot_of (f.Statement (h.statement_frame frame pieces)) }
{
    match frame {
        StatementFrame::Value => 1,
        StatementFrame::Initialiser { .. } => 2,
        StatementFrame::Test(_) => 1,
        StatementFrame::DoTest => 1,
        StatementFrame::ForValue => 1,
        StatementFrame::ForTest => 1,
        StatementFrame::ForStep => 1,
        StatementFrame::Return { .. } => 1,
        StatementFrame::Throw => 1,
        StatementFrame::CaseTest => 1,
        _ => 100,
    }
}

/// The least level of the expression that an open form waits for, 100 where it waits for none.
pub fn slot_of(frame: Frame) -> u8
    ensures { (pieces : Pieces) → result ≡ t.slot_of (h.frame frame pieces) }
{
    match frame {
        Frame::Expression(frame) => expression_slot(frame),
        Frame::Member(frame) => member_slot(frame),
        Frame::Statement(frame) => statement_slot(frame),
        Frame::Item(ItemFrame::Default { .. }) => 2,
        Frame::Item(_) => 100,
    }
}

/// The least level of the expression that the innermost form waits for.
pub fn slot(stack: &Stack<Frame>) -> u8
    ensures { (pieces : Pieces) → result ≡ t.slot (h.frames stack.now pieces) }
{
    match stack.top() {
        Some(frame) => slot_of(*frame),
        None => 100,
    }
}

// Whether an expression goes on with a word in an open form.
fn goes_on_in(frame: Frame, word: Word, line: bool) -> bool
    ensures { (pieces : Pieces) → result ≡ t.goes_on_in (h.frame frame pieces) word line }
{
    slot_of(frame) <= gives(word, line)
}

/// Whether an expression goes on with a word in the innermost form.
pub fn goes_on_inside(stack: &Stack<Frame>, word: Word, line: bool) -> bool
    ensures { (pieces : Pieces) → result ≡ t.goes_on_inside (h.frames stack.now pieces) word line }
{
    match stack.top() {
        Some(frame) => goes_on_in(*frame, word, line),
        None => false,
    }
}

/// Whether a word is a semicolon.
pub fn is_semicolon(word: Word) -> bool
    ensures { result ≡ t.is_semicolon word }
{
    matches!(word, Word::Semicolon)
}

fn ends(word: Word) -> bool
    ensures { result ≡ t.ends word }
{
    matches!(word, Word::RightBrace | Word::End)
}

fn goes_on_other(word: Word) -> bool
    ensures { result ≡ t.goes_on_other word }
{
    match word {
        Word::Template => true,
        Word::LeftParen => true,
        Word::LeftBracket => true,
        Word::Point => true,
        Word::Question => true,
        Word::Colon => true,
        Word::Arrow => true,
        _ => false,
    }
}

// Whether a word goes on with a statement after a line break.
fn goes_on(word: Word) -> bool
    ensures { result ≡ t.goes_on word }
{
    infix_of(word).is_some() || assignment_of(word).is_some() || goes_on_other(word)
}

/// Whether a semicolon may be missing before a word (own rule).
pub fn may_miss(word: Word, line: bool) -> bool
    ensures { result ≡ t.may_miss word line }
{
    ends(word) || (line && !is_semicolon(word) && !goes_on(word))
}

/// Whether the semicolon of a statement that is one word may be missing (own rule).
pub fn may_miss_bare(word: Word, line: bool) -> bool
    ensures { result ≡ t.may_miss_bare word line }
{
    ends(word) || (line && !is_semicolon(word))
}
