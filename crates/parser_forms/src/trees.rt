//! For each syntax type that has no model as a pure tree of its own, a type here that has one.

use es_model::{
    Case, Class, Declarator, Expression, Function, Head, Item, Key, Member, Statement, TreeList,
};
use std::marker::Model;

/// A list of expressions. Contracts see them as one tree.
#[derive(Drop)]
pub struct Expressions {
    pub trees: TreeList<Expression>,
}

impl Model for Expressions {
    ghost use Rattle.es_model.specs.Tree.{Tree, expression, list, listed};
    ghost use Rattle.es_model.specs.Codes.{code_of};

    ghost Value = { Tree (list expression) };

    ghost coded = { code_of (list expression) };

    ghost view = { λ a. listed a.trees };
}

/// A list of statements. Contracts see them as one tree.
#[derive(Drop)]
pub struct Statements {
    pub trees: TreeList<Statement>,
}

impl Model for Statements {
    ghost use Rattle.es_model.specs.Tree.{Tree, statement, list, listed};
    ghost use Rattle.es_model.specs.Codes.{code_of};

    ghost Value = { Tree (list statement) };

    ghost coded = { code_of (list statement) };

    ghost view = { λ a. listed a.trees };
}

/// A list of members of an object literal or a class. Contracts see them as one tree.
#[derive(Drop)]
pub struct Members {
    pub trees: TreeList<Member>,
}

impl Model for Members {
    ghost use Rattle.std.specs.Prelude.{map};
    ghost use Rattle.es_model.specs.Tree.{Tree, member, list, listed};
    ghost use Rattle.es_model.specs.Codes.{code_of};
    ghost use Rattle.es_model.specs.View.{member_of};

    ghost Value = { Tree (list member) };

    ghost coded = { code_of (list member) };

    ghost view = { λ a. listed (map member_of a.trees) };
}

/// A list of names with their initialisers. Contracts see them as one tree.
#[derive(Drop)]
pub struct Declarators {
    pub trees: TreeList<Declarator>,
}

impl Model for Declarators {
    ghost use Rattle.std.specs.Prelude.{map};
    ghost use Rattle.es_model.specs.Tree.{Tree, declarator, list, listed};
    ghost use Rattle.es_model.specs.Codes.{code_of};
    ghost use Rattle.es_model.specs.View.{declarator_of};

    ghost Value = { Tree (list declarator) };

    ghost coded = { code_of (list declarator) };

    ghost view = { λ a. listed (map declarator_of a.trees) };
}

/// A list of cases of a switch. Contracts see them as one tree.
#[derive(Drop)]
pub struct Cases {
    pub trees: TreeList<Case>,
}

impl Model for Cases {
    ghost use Rattle.std.specs.Prelude.{map};
    ghost use Rattle.es_model.specs.Tree.{Tree, case, list, listed};
    ghost use Rattle.es_model.specs.Codes.{code_of};
    ghost use Rattle.es_model.specs.View.{case_of};

    ghost Value = { Tree (list case) };

    ghost coded = { code_of (list case) };

    ghost view = { λ a. listed (map case_of a.trees) };
}

/// A list of items of a module. Contracts see them as one tree.
#[derive(Drop)]
pub struct Items {
    pub trees: TreeList<Item>,
}

impl Model for Items {
    ghost use Rattle.std.specs.Prelude.{map};
    ghost use Rattle.es_model.specs.Tree.{Tree, item, list, listed};
    ghost use Rattle.es_model.specs.Codes.{code_of};
    ghost use Rattle.es_model.specs.ModuleView.{item_of};

    ghost Value = { Tree (list item) };

    ghost coded = { code_of (list item) };

    ghost view = { λ a. listed (map item_of a.trees) };
}

/// A key of a member. Contracts see it as a tree.
#[derive(Drop)]
pub struct KeyTree {
    pub tree: Key,
}

impl Model for KeyTree {
    ghost use Rattle.es_model.specs.Tree.{Tree, key};
    ghost use Rattle.es_model.specs.Codes.{code_of};
    ghost use Rattle.es_model.specs.View.{key_of};

    ghost Value = { Tree key };

    ghost coded = { code_of key };

    ghost view = { λ a. key_of a.tree };
}

/// A function. Contracts see it as a tree.
#[derive(Drop)]
pub struct FunctionTree {
    pub tree: Function,
}

impl Model for FunctionTree {
    ghost use Rattle.es_model.specs.Tree.{Tree, function};
    ghost use Rattle.es_model.specs.Codes.{code_of};
    ghost use Rattle.es_model.specs.View.{function_of};

    ghost Value = { Tree function };

    ghost coded = { code_of function };

    ghost view = { λ a. function_of a.tree };
}

/// A class. Contracts see it as a tree.
#[derive(Drop)]
pub struct ClassTree {
    pub tree: Class,
}

impl Model for ClassTree {
    ghost use Rattle.es_model.specs.Tree.{Tree, class};
    ghost use Rattle.es_model.specs.Codes.{code_of};
    ghost use Rattle.es_model.specs.View.{class_of};

    ghost Value = { Tree class };

    ghost coded = { code_of class };

    ghost view = { λ a. class_of a.tree };
}

/// What stands first in the parentheses of a `for`. Contracts see it as a tree.
#[derive(Drop)]
pub struct HeadTree {
    pub tree: Head,
}

impl Model for HeadTree {
    ghost use Rattle.es_model.specs.Tree.{Tree, head};
    ghost use Rattle.es_model.specs.Codes.{code_of};
    ghost use Rattle.es_model.specs.View.{head_of};

    ghost Value = { Tree head };

    ghost coded = { code_of head };

    ghost view = { λ a. head_of a.tree };
}

/// A member of an object literal or a class. Contracts see it as a tree.
#[derive(Drop)]
pub struct MemberTree {
    pub tree: Member,
}

impl Model for MemberTree {
    ghost use Rattle.es_model.specs.Tree.{Tree, member};
    ghost use Rattle.es_model.specs.Codes.{code_of};
    ghost use Rattle.es_model.specs.View.{member_of};

    ghost Value = { Tree member };

    ghost coded = { code_of member };

    ghost view = { λ a. member_of a.tree };
}

/// An item of a module. Contracts see it as a tree.
#[derive(Drop)]
pub struct ItemTree {
    pub tree: Item,
}

impl Model for ItemTree {
    ghost use Rattle.es_model.specs.Tree.{Tree, item};
    ghost use Rattle.es_model.specs.Codes.{code_of};
    ghost use Rattle.es_model.specs.ModuleView.{item_of};

    ghost Value = { Tree item };

    ghost coded = { code_of item };

    ghost view = { λ a. item_of a.tree };
}

/// An expression that may be left out. Contracts see it as a tree.
#[derive(Drop)]
pub struct OptionalExpression {
    pub tree: Option<Expression>,
}

impl Model for OptionalExpression {
    ghost use Rattle.es_model.specs.Tree.{Tree, expression, option};
    ghost use Rattle.es_model.specs.Codes.{code_of};
    ghost use Rattle.parser_forms.specs.Kept.{given};

    ghost Value = { Tree (option expression) };

    ghost coded = { code_of (option expression) };

    ghost view = { λ a. given a.tree };
}

/// A list of statements that may be left out. Contracts see it as a tree.
#[derive(Drop)]
pub struct OptionalStatements {
    pub trees: Option<TreeList<Statement>>,
}

impl Model for OptionalStatements {
    ghost use Rattle.es_model.specs.Tree.{Tree, statement, list, option};
    ghost use Rattle.es_model.specs.Codes.{code_of};
    ghost use Rattle.es_model.specs.View.{optional_list};

    ghost Value = { Tree (option (list statement)) };

    ghost coded = { code_of (option (list statement)) };

    ghost view = { λ a. optional_list a.trees };
}
