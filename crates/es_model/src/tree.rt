use crate::kinds::{BinaryOperator, FunctionKind, MemberKind, Semi, UnaryOperator};
use crate::list::TreeList;
use crate::names::Identifier;
use js_value::Units;
use std::marker::Model;

/// A name that a declaration binds, with its initialiser.
#[cycle(tree)]
#[derive(Drop)]
pub struct Declarator {
    pub name: Identifier,
    pub value: Option<Box<Expression>>,
}

/// A case of a switch; the default has no test.
#[cycle(tree)]
#[derive(Drop)]
pub struct Case {
    pub test: Option<Box<Expression>>,
    pub body: TreeList<Statement>,
}

/// What stands first in the parentheses of a `for`.
#[cycle(tree)]
#[derive(Drop)]
pub enum Head {
    Nothing,
    Value(Box<Expression>),
    Declare {
        constant: bool,
        names: TreeList<Declarator>,
    },
}

/// A function's body: a list of statements, or the expression of an arrow.
#[cycle(tree)]
#[derive(Drop)]
pub enum FunctionBody {
    Statements(TreeList<Statement>),
    Expression(Box<Expression>),
}

/// A function. `at` is the place where its text begins, from 0; a method's text begins at its
/// member, before `static`, `get` and a computed key. By its place a function is known from the
/// others of its module.
#[cycle(tree)]
#[derive(Drop)]
pub struct Function {
    pub at: u32,
    pub name: Option<Identifier>,
    pub kind: FunctionKind,
    pub parameters: TreeList<Identifier>,
    pub body: FunctionBody,
}

/// A class. `at` is the place of the word `class`, from 0.
#[cycle(tree)]
#[derive(Drop)]
pub struct Class {
    pub at: u32,
    pub name: Option<Identifier>,
    pub parent: Option<Box<Expression>>,
    pub members: TreeList<Member>,
}

/// The key of a member, as it is written.
#[cycle(tree)]
#[derive(Drop)]
pub enum Key {
    Word(Units),
    String(Units),
    Number(i64),
    Computed(Box<Expression>),
}

/// A member of a class or an object literal. `at` is the place where it begins, from 0, and
/// `fixed` says that it is static. A `Value` has a value, a method or an accessor a function, and
/// a `Short` neither.
#[cycle(tree)]
#[derive(Drop)]
pub struct Member {
    pub at: u32,
    pub fixed: bool,
    pub kind: MemberKind,
    pub key: Key,
    pub value: Option<Box<Expression>>,
    pub function: Option<Box<Function>>,
}

/// A statement (ECMA-262, 14). Contracts see it as a pure tree.
#[cycle(tree)]
#[derive(Drop)]
pub struct Statement {
    pub form: StatementForm,
}

impl Model for Statement {
    ghost use Rattle.es_model.specs.Tree.{Tree, statement, tree_size};
    ghost use Rattle.es_model.specs.Codes.{code_of};

    ghost Value = { Tree statement };

    ghost coded = { code_of statement };

    ghost use Rattle.es_model.specs.View.{statement_of};

    ghost view = { λ a. statement_of a.form };

    ghost size = { tree_size };

    ghost use Rattle.es_model.specs.Falls.{statement_falls};
    ghost use Rattle.std.proofs.Common.{arith};

    ghost size_decreases = { λ a h. omega (arith, statement_falls a.form) };
}

/// The forms of a statement. `at` is the place of its first word, from 0.
#[cycle(tree)]
#[derive(Drop)]
pub enum StatementForm {
    Empty,
    Value {
        value: Box<Expression>,
        semi: Semi,
    },
    Declare {
        constant: bool,
        names: TreeList<Declarator>,
        semi: Semi,
    },
    Function(Box<Function>),
    Class(Box<Class>),
    Block(TreeList<Statement>),
    If {
        test: Box<Expression>,
        yes: Box<Statement>,
        other: Option<Box<Statement>>,
    },
    For {
        head: Box<Head>,
        test: Option<Box<Expression>>,
        step: Option<Box<Expression>>,
        body: Box<Statement>,
    },
    While {
        test: Box<Expression>,
        body: Box<Statement>,
    },
    DoWhile {
        body: Box<Statement>,
        test: Box<Expression>,
        semi: Semi,
    },
    Break {
        at: u32,
        semi: Semi,
    },
    Continue {
        at: u32,
        semi: Semi,
    },
    Return {
        at: u32,
        value: Option<Box<Expression>>,
        semi: Semi,
    },
    Throw {
        value: Box<Expression>,
        semi: Semi,
    },
    Try {
        block: TreeList<Statement>,
        name: Option<Identifier>,
        catch: Option<TreeList<Statement>>,
        finally: Option<TreeList<Statement>>,
    },
    Switch {
        value: Box<Expression>,
        cases: TreeList<Case>,
    },
}

/// An expression (ECMA-262, 13). Contracts see it as a pure tree.
#[cycle(tree)]
#[derive(Drop)]
pub struct Expression {
    pub form: ExpressionForm,
}

impl Model for Expression {
    ghost use Rattle.es_model.specs.Tree.{Tree, expression, tree_size};
    ghost use Rattle.es_model.specs.Codes.{code_of};

    ghost Value = { Tree expression };

    ghost coded = { code_of expression };

    ghost use Rattle.es_model.specs.View.{expression_of};

    ghost view = { λ a. expression_of a.form };

    ghost size = { tree_size };

    ghost use Rattle.es_model.specs.Falls.{expression_falls};
    ghost use Rattle.std.proofs.Common.{arith};

    ghost size_decreases = { λ a h. omega (arith, expression_falls a.form) };
}

/// The forms of an expression. `at` is the place where the whole expression begins, from 0. The
/// target of an assignment or an update is a name, a member form, or one of these in
/// parentheses.
#[cycle(tree)]
#[derive(Drop)]
pub enum ExpressionForm {
    This,
    Null,
    True,
    False,
    Name(Identifier),
    Number(i64),
    String(Units),
    /// One text more than values; the values stand between the texts.
    Template {
        texts: TreeList<Units>,
        values: TreeList<Expression>,
    },
    Array(TreeList<Expression>),
    Object(TreeList<Member>),
    Function(Box<Function>),
    Class(Box<Class>),
    Paren(Box<Expression>),
    Dot {
        of: Box<Expression>,
        name: Units,
    },
    Index {
        of: Box<Expression>,
        key: Box<Expression>,
    },
    SuperDot {
        at: u32,
        name: Units,
    },
    SuperIndex {
        at: u32,
        key: Box<Expression>,
    },
    Call {
        callee: Box<Expression>,
        arguments: TreeList<Expression>,
    },
    New {
        callee: Box<Expression>,
        arguments: Option<TreeList<Expression>>,
    },
    SuperCall {
        at: u32,
        arguments: TreeList<Expression>,
    },
    /// `++` where `up`, else `--`.
    Update {
        at: u32,
        up: bool,
        prefix: bool,
        target: Box<Expression>,
    },
    Unary {
        operator: UnaryOperator,
        of: Box<Expression>,
    },
    Typeof(Box<Expression>),
    Void(Box<Expression>),
    Delete {
        at: u32,
        of: Box<Expression>,
    },
    Binary {
        operator: BinaryOperator,
        left: Box<Expression>,
        right: Box<Expression>,
    },
    In {
        left: Box<Expression>,
        right: Box<Expression>,
    },
    InstanceOf {
        left: Box<Expression>,
        right: Box<Expression>,
    },
    And {
        left: Box<Expression>,
        right: Box<Expression>,
    },
    Or {
        left: Box<Expression>,
        right: Box<Expression>,
    },
    Nullish {
        left: Box<Expression>,
        right: Box<Expression>,
    },
    Conditional {
        test: Box<Expression>,
        yes: Box<Expression>,
        no: Box<Expression>,
    },
    /// `=`, or the compound assignment of an operator.
    Assign {
        at: u32,
        target: Box<Expression>,
        operator: Option<BinaryOperator>,
        value: Box<Expression>,
    },
    Comma {
        left: Box<Expression>,
        right: Box<Expression>,
    },
}
