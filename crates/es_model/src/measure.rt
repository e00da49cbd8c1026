#![tactic(auto, using(crate::proofs::Counts::writes_constructor_listed), unfolding(crate::specs::Counted::counted))]

ghost use Rattle.std.specs.Prelude.{◌≡◌, true, false, min, map};
ghost use Rattle.std.specs.List.{list_any};
ghost use Rattle.es_model.specs.Tree.{listed};
ghost use Rattle.es_model.specs.Nesting.{nesting};
ghost use Rattle.es_model.specs.Functions.{function_count, is_constructor};
ghost use Rattle.es_model.specs.Counted.{
  nothing_counted,
  beside,
  inside,
  and_function,
  counted,
  is_compound,
  is_loop_or_bare,
};
ghost use Rattle.es_model.specs.View.{
  expression_of,
  statement_of,
  optional,
  optional_list,
  optional_function,
  function_of,
  class_of,
  member_of,
  key_of,
  head_of,
  declarator_of,
  case_of,
};
ghost use Rattle.es_model.specs.ModuleView.{item_of};

use crate::items::{Default, Item, Module};
use crate::kinds::FunctionKind;
use crate::list::TreeList;
use crate::tree::{
    Case, Class, Declarator, Expression, ExpressionForm, Function, FunctionBody, Head, Key, Member,
    Statement, StatementForm,
};

/// How deep a tree is nested and how many functions it has. Each count stands still at its type's
/// end.
#[derive(Clone, Copy)]
struct Counts {
    nesting: u32,
    functions: u32,
}

impl Counts {
    /// Those of a tree with nothing in it.
    fn none() -> Counts
        ensures { result ≡ nothing_counted }
    {
        Counts {
            nesting: 0,
            functions: 0,
        }
    }

    /// Those of two trees that stand side by side.
    #[tactic(auto, unfolding(crate::specs::Counted::beside))]
    fn beside(self, other: Counts) -> Counts
        ensures { result ≡ beside self other }
    {
        Counts {
            nesting: self.nesting.max(other.nesting),
            functions: self.functions.saturating_add(other.functions),
        }
    }

    /// Those of a statement, expression, function or class round what was counted.
    #[tactic(auto, unfolding(crate::specs::Counted::inside))]
    fn inside(self) -> Counts
        ensures { result ≡ inside self }
    {
        Counts {
            nesting: self.nesting.saturating_add(1),
            functions: self.functions,
        }
    }

    /// With one function more.
    #[tactic(auto, unfolding(crate::specs::Counted::and_function))]
    fn and_function(self) -> Counts
        ensures { result ≡ and_function self }
    {
        Counts {
            nesting: self.nesting,
            functions: self.functions.saturating_add(1),
        }
    }
}

/// The longest chain of statements, expressions, functions and classes of the module that stand in
/// each other (own rule), or 4294967295 where it is longer. A function or class counts beside the
/// expression or statement that it is, and once where it is a default export. Takes no memory;
/// recurses on the tree.
#[tactic(auto, using(crate::proofs::Counts::counted_nesting))]
pub fn nesting(module: &Module) -> u32
    ensures { result ≡ min (nesting «module».now) u32.MAX }
{
    of_items(module.items.as_slice()).nesting
}

/// The number of the module's functions, or 4294967295 where there are more: its body, each
/// function of the text, and a constructor for each class that writes none (own rule). Takes no
/// memory; recurses on the tree.
#[tactic(auto, using(crate::proofs::Counts::counted_functions))]
pub fn function_count(module: &Module) -> u32
    ensures { result ≡ min (function_count «module».now) u32.MAX }
{
    of_items(module.items.as_slice()).and_function().functions
}

fn of_items(items: &[Item]) -> Counts
    ensures { result ≡ counted (listed (map item_of items.now)) }
{
    let mut counts = Counts::none();
    for item in items {
        counts = counts.beside(of_item(item));
    }
    counts
}

fn of_item(item: &Item) -> Counts
    ensures { result ≡ counted (item_of item.now) }
{
    match item {
        Item::Import { .. } | Item::ExportFrom { .. } | Item::ExportNames { .. } => Counts::none(),
        Item::ExportDeclaration { statement } | Item::Plain { statement } => of_statement(
            statement,
        ),
        Item::ExportDefault { value, .. } => match value {
            Default::Function(function) => of_function(function),
            Default::Class(class) => of_class(class),
            Default::Value(value) => of_expression(value),
        },
    }
}

#[cycle(counts)]
fn of_expression(expression: &Expression) -> Counts
    ensures { result ≡ counted expression.now }
{
    match &expression.form {
        ExpressionForm::Template { values, .. }
        | ExpressionForm::Array(values)
        | ExpressionForm::SuperCall {
            arguments: values,
            ..
        } => of_expressions(values.as_slice()).inside(),
        ExpressionForm::Object(members) => of_members(members.as_slice()).inside(),
        ExpressionForm::Function(function) => of_function(function).inside(),
        ExpressionForm::Class(class) => of_class(class).inside(),
        ExpressionForm::Call { callee, arguments }
        | ExpressionForm::New {
            callee,
            arguments: Some(arguments),
        } => of_expression(callee)
            .beside(of_expressions(arguments.as_slice()))
            .inside(),
        ExpressionForm::New {
            callee,
            arguments: None,
        } => of_expression(callee).beside(Counts::none()).inside(),
        ExpressionForm::Conditional { test, yes, no } => of_expression(test)
            .beside(of_expression(yes).beside(of_expression(no)))
            .inside(),
        form => of_operation(form),
    }
}

/// Those of an expression that has one operand, or two, or nothing in it.
#[cycle(counts)]
fn of_operation(form: &ExpressionForm) -> Counts
    requires { is_compound (expression_of form.now) ≡ false }
    ensures { result ≡ counted (expression_of form.now) }
{
    match form {
        ExpressionForm::Paren(of)
        | ExpressionForm::Dot { of, .. }
        | ExpressionForm::SuperIndex { key: of, .. }
        | ExpressionForm::Update { target: of, .. }
        | ExpressionForm::Unary { of, .. }
        | ExpressionForm::Typeof(of)
        | ExpressionForm::Void(of)
        | ExpressionForm::Delete { of, .. } => of_expression(of).inside(),
        ExpressionForm::Index { of, key } => of_expression(of).beside(of_expression(key)).inside(),
        ExpressionForm::Assign { target, value, .. } => {
            of_expression(target).beside(of_expression(value)).inside()
        }
        ExpressionForm::Binary { left, right, .. }
        | ExpressionForm::In { left, right }
        | ExpressionForm::InstanceOf { left, right }
        | ExpressionForm::And { left, right }
        | ExpressionForm::Or { left, right }
        | ExpressionForm::Nullish { left, right }
        | ExpressionForm::Comma { left, right } => {
            of_expression(left).beside(of_expression(right)).inside()
        }
        _ => Counts::none().inside(),
    }
}

#[cycle(counts)]
fn of_expressions(expressions: &[Expression]) -> Counts
    ensures { result ≡ counted (listed expressions.now) }
{
    let mut counts = Counts::none();
    for expression in expressions {
        counts = counts.beside(of_expression(expression));
    }
    counts
}

#[cycle(counts)]
fn of_optional(expression: &Option<Box<Expression>>) -> Counts
    ensures { result ≡ counted (optional expression.now) }
{
    match expression {
        Some(value) => of_expression(value),
        None => Counts::none(),
    }
}

#[cycle(counts)]
fn of_statement(statement: &Statement) -> Counts
    ensures { result ≡ counted statement.now }
{
    match &statement.form {
        StatementForm::Value { value, .. } | StatementForm::Throw { value, .. } => {
            of_expression(value).inside()
        }
        StatementForm::Declare { names, .. } => of_declarators(names.as_slice()).inside(),
        StatementForm::Function(function) => of_function(function).inside(),
        StatementForm::Class(class) => of_class(class).inside(),
        StatementForm::Block(statements) => of_statements(statements.as_slice()).inside(),
        StatementForm::Return { value, .. } => of_optional(value).inside(),
        StatementForm::If { test, yes, other } => of_expression(test)
            .beside(of_statement(yes).beside(of_other(other)))
            .inside(),
        StatementForm::Try {
            block,
            catch,
            finally,
            ..
        } => of_statements(block.as_slice())
            .beside(of_block(catch).beside(of_block(finally)))
            .inside(),
        StatementForm::Switch { value, cases } => of_expression(value)
            .beside(of_cases(cases.as_slice()))
            .inside(),
        form => of_loop(form),
    }
}

/// Those of a loop, or of a statement with nothing in it.
#[cycle(counts)]
fn of_loop(form: &StatementForm) -> Counts
    requires { is_loop_or_bare (statement_of form.now) ≡ true }
    ensures { result ≡ counted (statement_of form.now) }
{
    match form {
        StatementForm::For {
            head,
            test,
            step,
            body,
        } => of_head(head)
            .beside(of_optional(test).beside(of_optional(step).beside(of_statement(body))))
            .inside(),
        StatementForm::While { test, body } => {
            of_expression(test).beside(of_statement(body)).inside()
        }
        StatementForm::DoWhile { body, test, .. } => {
            of_statement(body).beside(of_expression(test)).inside()
        }
        _ => Counts::none().inside(),
    }
}

#[cycle(counts)]
fn of_other(other: &Option<Box<Statement>>) -> Counts
    ensures { result ≡ counted (optional other.now) }
{
    match other {
        Some(statement) => of_statement(statement),
        None => Counts::none(),
    }
}

#[cycle(counts)]
fn of_statements(statements: &[Statement]) -> Counts
    ensures { result ≡ counted (listed statements.now) }
{
    let mut counts = Counts::none();
    for statement in statements {
        counts = counts.beside(of_statement(statement));
    }
    counts
}

#[cycle(counts)]
fn of_block(block: &Option<TreeList<Statement>>) -> Counts
    ensures { result ≡ counted (optional_list block.now) }
{
    match block {
        Some(statements) => of_statements(statements.as_slice()),
        None => Counts::none(),
    }
}

#[cycle(counts)]
fn of_function(function: &Function) -> Counts
    ensures { result ≡ counted (function_of function.now) }
{
    match &function.body {
        FunctionBody::Statements(statements) => of_statements(statements.as_slice())
            .inside()
            .and_function(),
        FunctionBody::Expression(value) => of_expression(value).inside().and_function(),
    }
}

#[cycle(counts)]
fn of_class(class: &Class) -> Counts
    ensures { result ≡ counted (class_of class.now) }
{
    let inner = of_optional(&class.parent)
        .beside(of_members(class.members.as_slice()))
        .inside();
    if writes_constructor(class.members.as_slice()) {
        inner
    } else {
        inner.and_function()
    }
}

fn writes_constructor(members: &[Member]) -> bool
    ensures { result ≡ list_any (λ m. is_constructor (member_of m)) members.now }
{
    members.iter().any(|member| is_constructor(member))
}

fn is_constructor(member: &Member) -> bool
    ensures { result ≡ is_constructor (member_of member.now) }
{
    match &member.function {
        Some(function) => matches!(function.kind, FunctionKind::Base | FunctionKind::Derived),
        None => false,
    }
}

#[cycle(counts)]
fn of_members(members: &[Member]) -> Counts
    ensures { result ≡ counted (listed (map member_of members.now)) }
{
    let mut counts = Counts::none();
    for member in members {
        counts = counts.beside(of_member(member));
    }
    counts
}

#[cycle(counts)]
fn of_member(member: &Member) -> Counts
    ensures { result ≡ counted (member_of member.now) }
{
    let value = of_optional(&member.value);
    let function = match &member.function {
        Some(function) => of_function(function),
        None => Counts::none(),
    };
    of_key(&member.key).beside(value.beside(function))
}

#[cycle(counts)]
fn of_key(key: &Key) -> Counts
    ensures { result ≡ counted (key_of key.now) }
{
    match key {
        Key::Computed(value) => of_expression(value),
        _ => Counts::none(),
    }
}

#[cycle(counts)]
fn of_head(head: &Head) -> Counts
    ensures { result ≡ counted (head_of head.now) }
{
    match head {
        Head::Nothing => Counts::none(),
        Head::Value(value) => of_expression(value),
        Head::Declare { names, .. } => of_declarators(names.as_slice()),
    }
}

#[cycle(counts)]
fn of_declarators(names: &[Declarator]) -> Counts
    ensures { result ≡ counted (listed (map declarator_of names.now)) }
{
    let mut counts = Counts::none();
    for name in names {
        counts = counts.beside(of_optional(&name.value));
    }
    counts
}

#[cycle(counts)]
fn of_cases(cases: &[Case]) -> Counts
    ensures { result ≡ counted (listed (map case_of cases.now)) }
{
    let mut counts = Counts::none();
    for case in cases {
        let body = of_statements(case.body.as_slice());
        counts = counts.beside(of_optional(&case.test).beside(body));
    }
    counts
}
