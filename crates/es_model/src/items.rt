use crate::kinds::Semi;
use crate::list::TreeList;
use crate::names::Pair;
use crate::tree::{Class, Expression, Function, Statement};
use js_value::Units;
use std::marker::Model;

/// What `export default` exports.
#[derive(Drop)]
pub enum Default {
    Function(Function),
    Class(Class),
    Value(Expression),
}

/// An item of a module (ECMA-262, 16.2).
#[derive(Drop)]
pub enum Item {
    /// Any `import`: its pairs are (name there, name bound here).
    Import {
        from: Units,
        names: TreeList<Pair>,
        semi: Semi,
    },
    /// `export {a as b} from "m"`: its pairs are (name there, name exported).
    ExportFrom {
        from: Units,
        names: TreeList<Pair>,
        semi: Semi,
    },
    /// `export {a as b}`: its pairs are (name bound here, name exported).
    ExportNames {
        names: TreeList<Pair>,
        semi: Semi,
    },
    ExportDeclaration {
        statement: Statement,
    },
    /// `export default`; `at` is the place of the word `default`. A function or a class has the
    /// mark `Missing`: a semicolon after it is an empty statement.
    ExportDefault {
        at: u32,
        value: Default,
        semi: Semi,
    },
    Plain {
        statement: Statement,
    },
}

/// A module: the list of its items. Contracts see it as one tree.
#[derive(Drop)]
pub struct Module {
    pub items: TreeList<Item>,
}

impl Model for Module {
    ghost use Rattle.std.specs.Prelude.{map};
    ghost use Rattle.es_model.specs.Tree.{Tree, item, list, listed};
    ghost use Rattle.es_model.specs.Codes.{code_of};

    ghost Value = { Tree (list item) };

    ghost coded = { code_of (list item) };

    ghost use Rattle.es_model.specs.ModuleView.{item_of};

    ghost view = { λ m. listed (map item_of m.items) };
}
