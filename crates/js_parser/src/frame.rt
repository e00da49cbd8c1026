//! The forms that are open, and what is due (ECMA-262, 13 to 16). What was read of a form, and is a
//! tree, a name or a list, stands on the store of pieces, in the order of the text: each form says
//! which of the last pieces are its own.

use es_model::{BinaryOperator, MemberKind};
use parser_forms::{Infix, Prefix};

/// What arguments are handed to; a call and `new` have it as a piece. `at` is the place of the word
/// `new` or `super`.
#[derive(Clone, Copy)]
pub enum Callee {
    Call,
    New { at: u32 },
    Super { at: u32 },
}

/// What a function or a class stands as; `at` is the place of the word `default`.
#[derive(Clone, Copy, PartialEq, Eq)]
pub enum Role {
    Expression,
    Statement,
    Default { at: u32 },
}

/// A member up to its key, which is a piece: the place where it begins, whether it is static, and its
/// kind, which is `Method` where no accessor's word stands.
#[derive(Clone, Copy)]
pub struct MemberStart {
    pub at: u32,
    pub fixed: bool,
    pub kind: MemberKind,
}

/// A function with no arrow, up to its parameters. Its name, if it has one, or its key is a piece.
#[derive(Clone, Copy)]
pub enum Signature {
    Function { at: u32, role: Role },
    Method(MemberStart),
}

/// A class up to its members. Its name, if it has one, is a piece, and so is the parent of a derived
/// one.
#[derive(Clone, Copy)]
pub struct ClassStart {
    pub at: u32,
    pub role: Role,
}

/// An expression that is open.
#[derive(Clone, Copy)]
pub enum ExpressionFrame {
    Paren { at: u32 },
    /// Behind the left operand.
    Infix { operator: Infix },
    Prefix { operator: Prefix, at: u32 },
    Update { at: u32, up: bool },
    New { at: u32 },
    /// Between `?` and `:`, behind the test.
    Yes,
    /// Behind the `:` of a conditional, its test and its first arm.
    No,
    /// Behind the target.
    Assign { operator: Option<BinaryOperator> },
    /// Behind the parameters.
    Arrow { at: u32 },
    /// Behind the callee and the arguments so far.
    Arguments { callee: Callee },
    /// Behind the items so far.
    Array { at: u32 },
    /// Behind what the index is of.
    Index,
    SuperIndex { at: u32 },
    /// Behind the expressions and the texts so far.
    Template { at: u32 },
}

/// A member, a class or an object literal that is open.
#[derive(Clone, Copy)]
pub enum MemberFrame {
    /// Behind the members so far, and so is a class.
    Object {
        at: u32,
    },
    /// With no parent.
    Class(ClassStart),
    /// With a parent.
    Derived(ClassStart),
    /// Behind `extends`.
    Parent(ClassStart),
    /// A computed key.
    Key {
        at: u32,
        fixed: bool,
        kind: MemberKind,
    },
    /// Behind the `:` of a member, and its key.
    Value(MemberStart),
}

/// What declared names belong to.
#[derive(Clone, Copy, PartialEq, Eq)]
pub enum DeclareRole {
    Statement,
    For,
}

/// A statement that begins with a word and a condition in parentheses.
#[derive(Clone, Copy, PartialEq, Eq)]
pub enum Opening {
    If,
    While,
    Switch,
}

/// What a list of statements in braces, or behind the `:` of a case, belongs to.
#[derive(Clone, Copy)]
pub enum ListRole {
    Block,
    Try,
    /// Behind the block of the `try`, and the name that is caught, if there is one.
    Catch,
    /// Behind these and the block of the `catch`, if there is one.
    Finally,
    /// Behind the parameters, and so is an arrow.
    Function(Signature),
    Arrow { at: u32 },
    /// Behind the test.
    Case,
    Default,
}

/// A statement that is open.
#[derive(Clone, Copy)]
pub enum StatementFrame {
    /// Behind the statements so far.
    List(ListRole),
    /// An expression as a statement.
    Value,
    /// Behind the `=` of a declared name, and the names before.
    Initialiser { constant: bool, role: DeclareRole },
    /// The condition of an `if` or a `while`, or the value of a switch.
    Test(Opening),
    /// The condition of a `do..while` loop, behind its statement.
    DoTest,
    /// The value before the first `;` of a `for`.
    ForValue,
    /// The test of a `for`, behind its head.
    ForTest,
    /// The step of a `for`, behind its head and its test, if it has one.
    ForStep,
    Return { at: u32 },
    Throw,
    /// The test of a case.
    CaseTest,
    /// The first statement of an `if`, behind its test.
    Yes,
    /// The statement behind `else`, the test and the first statement.
    No,
    /// Behind the test.
    While,
    /// Behind the head, and the test and the step, if there are such.
    For,
    Do,
    /// Behind the value and the cases so far.
    Switch { has_default: bool },
}

/// A module and what is open in it alone.
#[derive(Clone, Copy)]
pub enum ItemFrame {
    /// Behind the items so far.
    Module,
    /// Behind `export`, where a declaration stands.
    Export,
    /// Behind `export default`, where a value stands; `at` is the place of `default`.
    Default { at: u32 },
}

/// A form that is open: its beginning was read, and its end wasn't.
#[derive(Clone, Copy)]
pub enum Frame {
    Expression(ExpressionFrame),
    Member(MemberFrame),
    Statement(StatementFrame),
    Item(ItemFrame),
}

/// What is due in an expression.
#[derive(Clone, Copy)]
pub enum ExpressionDue {
    /// Behind `.`: a name or a keyword. What it is of is a piece.
    Property,
    /// Behind `super`.
    Super { at: u32 },
    /// Behind `super.`.
    SuperProperty { at: u32 },
    /// Behind a head that is no expression, which is `()` or has a comma at its end: `=>`. The names
    /// are a piece.
    Arrow { at: u32 },
    /// Behind the names and `=>`.
    ArrowBody { at: u32 },
}

/// What is due in a function, a class or an object literal.
#[derive(Clone, Copy)]
pub enum MemberDue {
    /// A member or the end.
    Member,
    /// Behind a member of an object literal: `,` or `}`.
    Next,
    /// Behind `static`, which begins at a place.
    Fixed {
        at: u32,
    },
    /// Behind the name `get` or `set`, which is a piece.
    Accessor {
        at: u32,
        fixed: bool,
        kind: MemberKind,
    },
    /// Behind a key.
    Key(MemberStart),
    /// Behind a key and the name that it is, which may stand alone.
    NameKey(MemberStart),
    /// Behind `function`.
    FunctionName {
        at: u32,
        role: Role,
    },
    /// The `(` of the parameters.
    Parameters(Signature),
    /// A parameter or `)`, behind the parameters so far.
    Parameter(Signature),
    /// Behind a parameter.
    ParameterNext(Signature),
    /// The `{` of the body.
    Body(Signature),
    /// Behind `class`.
    ClassName {
        at: u32,
        role: Role,
    },
    /// Behind a class's name, or where it has none.
    ClassNext(ClassStart),
}

/// A `break` or a `continue`.
#[derive(Clone, Copy, PartialEq, Eq)]
pub enum Jump {
    Break,
    Continue,
}

/// What is due in a statement.
#[derive(Clone, Copy)]
pub enum StatementDue {
    /// The `(` before a condition.
    Open(Opening),
    /// The `{` before a list of statements.
    Brace(ListRole),
    /// The `{` of a switch, behind its value.
    SwitchBrace,
    /// A case or the end of a switch.
    Case,
    /// The `:` behind `default`.
    CaseColon,
    /// The `(` of a `for`.
    ForOpen,
    /// Behind the `(` of a `for`.
    ForHead,
    /// Behind the first `;` of a `for`.
    ForTest,
    /// Behind the second `;` of a `for`.
    ForStep,
    /// A declared name, behind the names before.
    Name { constant: bool, role: DeclareRole },
    /// Behind a declared name.
    NameNext { constant: bool, role: DeclareRole },
    /// Behind the test and the first statement of an `if`.
    Else,
    /// Behind the statement of a `do`: `while`.
    DoWhile,
    /// The `(` behind that.
    DoOpen,
    /// Behind the `)` of a `do..while` loop.
    DoEnd,
    /// Behind `break` or `continue`.
    Jump { jump: Jump, at: u32 },
    /// Behind `return`.
    Return { at: u32 },
    /// Behind `throw`.
    Throw,
    /// Behind the block of a `try`.
    Guard,
    /// Behind `catch`.
    Catch,
    /// Behind `catch (`.
    CatchName,
    /// Behind the name of a `catch`.
    CatchClose,
    /// Behind the block of a `catch`.
    Finally,
}

/// What a list of pairs belongs to. `from` says that a name stands in it that only another module can
/// give, so that `from` is due behind it.
#[derive(Clone, Copy, PartialEq, Eq)]
pub enum PairRole {
    Import,
    Export { from: bool },
}

/// What is due in an item. The pairs so far are a piece, and behind them a name that was taken.
#[derive(Clone, Copy)]
pub enum ItemDue {
    /// Behind `import`.
    Import,
    /// Behind `import` and a name.
    ImportNext,
    /// Behind `import`, a name and a comma: `{`.
    ImportBrace,
    /// A pair, or the end of the list.
    Pair { role: PairRole },
    /// Behind the first name of a pair; `outer` says that it is the word `default`.
    PairAs { role: PairRole, outer: bool },
    /// Behind the `as` of a pair.
    PairGiven { role: PairRole, outer: bool },
    /// Behind a pair with `as`.
    PairNext { role: PairRole },
    /// The word `from` of an import.
    From,
    /// The name of the other module.
    Other { role: PairRole },
    /// Behind the name of the other module.
    OtherEnd { role: PairRole },
    /// Behind the list of an export.
    ExportNext { from: bool },
    /// Behind `export`.
    Export,
    /// Behind `default`, which begins at a place.
    Default { at: u32 },
}

/// Where the reading of a text stands.
#[derive(Clone, Copy)]
pub enum Control {
    /// No module begins with the tokens that were read.
    Fail,
    /// An operand is due.
    Operand,
    /// An expression was read: it is the last piece.
    Read,
    /// A statement is due, or the end of a list of statements.
    Statement,
    Expression(ExpressionDue),
    Member(MemberDue),
    StatementPart(StatementDue),
    Item(ItemDue),
    /// The whole module was read.
    Done,
}
