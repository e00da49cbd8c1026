//! Functions and classes (ECMA-262, 15).

ghost use Rattle.std.specs.Prelude.{◌∷◌, None, ◌≡◌, IfOk};
ghost use Rattle.es_model.specs.declared.kinds.FunctionKind.TheVariants as kinds;
ghost use Rattle.es_model.specs.Tree as t;
ghost use Rattle.parser_forms.specs.Kept.{and_then, around, counted as one_more};
ghost use Rattle.parser_forms.specs.Parts as p;
ghost use Rattle.parser_forms.specs.Pieces.{first, fourth, given_name, items_in, members_in, names_in, parent_in, part_in, rest, second, statements_in, third, under_parent};
ghost use Rattle.parser_forms.specs.declared.pieces.Piece.TheVariants as v;

use crate::keeping::{both, counted, lose};
use crate::parts::Kept;
use crate::pieces::Piece;
use crate::readers::boxed_beside;
use crate::shapes::Standing;
use crate::stack::Stack;
use crate::trees::{ClassTree, FunctionTree, ItemTree, Statements};
use es_model::{
    Class, Default, Expression, ExpressionForm, Function, FunctionBody, FunctionKind, Identifier,
    Item, Semi, Statement, StatementForm, TreeList,
};
use std::alloc::AllocError;

/// A function with a list of statements. Takes no memory.
pub(crate) fn function(
    at: u32,
    own: Option<Identifier>,
    kind: FunctionKind,
    parameters: TreeList<Identifier>,
    statements: Kept<Statements>,
) -> Kept<FunctionTree>
    ensures { result ≡ p.function at own kind parameters statements }
{
    let Kept { tree, nesting } = counted(statements);
    let tree = match tree {
        Some(statements) => Some(FunctionTree {
            tree: Function {
                at,
                name: own,
                kind,
                parameters,
                body: FunctionBody::Statements(statements.trees),
            },
        }),
        None => {
            lose(own);
            lose(parameters);
            None
        }
    };
    Kept { tree, nesting }
}

impl Stack<Piece> {
    /// A function as an expression.
    pub fn function_expression(&mut self, at: u32) -> Result<(), AllocError>
        ensures { IfOk result (λ done. self.new ≡ v.Part (p.function_expression at (p.function at (given_name (third self.old)) kinds.Plain (names_in (second self.old)) (statements_in (first self.old)))) ∷ rest (rest (rest self.old))) }
    {
        let function = self.take_function(at);
        self.put_function(at, 18, function)
    }

    /// A function as a statement.
    pub fn function_statement(&mut self, at: u32) -> Result<(), AllocError>
        ensures { IfOk result (λ done. self.new ≡ v.Statement (p.function_statement (p.function at (given_name (third self.old)) kinds.Plain (names_in (second self.old)) (statements_in (first self.old)))) ∷ rest (rest (rest self.old))) }
    {
        let Kept { tree, nesting } = counted(self.take_function(at));
        let tree = match tree {
            Some(of) => {
                let form = StatementForm::Function(Box::new(self.alloc(), of.tree)?);
                Some(Statement { form })
            }
            None => None,
        };
        self.push(Piece::Statement(Kept { tree, nesting }))
    }

    /// The list of items, and behind it `export default`, at a place, before a function.
    pub fn and_default_function(&mut self, place: u32, at: u32) -> Result<(), AllocError>
        ensures { IfOk result (λ done. self.new ≡ v.Items (and_then (items_in (fourth self.old)) (p.default_function place (p.function at (given_name (third self.old)) kinds.Plain (names_in (second self.old)) (statements_in (first self.old))))) ∷ rest (rest (rest (rest self.old)))) }
    {
        let Kept { tree, nesting } = self.take_function(at);
        let tree = match tree {
            Some(of) => {
                let tree = Item::ExportDefault {
                    at: place,
                    value: Default::Function(of.tree),
                    semi: Semi::Missing,
                };
                Some(ItemTree { tree })
            }
            None => None,
        };
        self.and_item(Kept { tree, nesting })
    }

    /// An arrow whose body is an expression.
    pub fn arrow(&mut self, at: u32) -> Result<(), AllocError>
        ensures { IfOk result (λ done. self.new ≡ v.Part (p.arrow at (names_in (second self.old)) (part_in (first self.old))) ∷ rest (rest self.old)) }
    {
        let Kept { tree, nesting } = self.take_counted_expression()?;
        let parameters = self.take_names();
        let tree = match tree {
            Some(value) => Some(FunctionTree {
                tree: Function {
                    at,
                    name: None,
                    kind: FunctionKind::Arrow,
                    parameters,
                    body: FunctionBody::Expression(value),
                },
            }),
            None => {
                lose(parameters);
                None
            }
        };
        self.put_function(at, 2, Kept { tree, nesting })
    }

    /// An arrow whose body is a list of statements.
    pub fn block_arrow(&mut self, at: u32) -> Result<(), AllocError>
        ensures { IfOk result (λ done. self.new ≡ v.Part (p.arrow_expression at (p.function at None kinds.Arrow (names_in (second self.old)) (statements_in (first self.old)))) ∷ rest (rest self.old)) }
    {
        let statements = self.take_statements();
        let parameters = self.take_names();
        let function = function(at, None, FunctionKind::Arrow, parameters, statements);
        self.put_function(at, 2, function)
    }

    /// A class as an expression; a derived one has its parent before its members.
    pub fn class_expression(&mut self, at: u32, derived: bool) -> Result<(), AllocError>
        ensures { IfOk result (λ done. self.new ≡ v.Part (p.class_expression at (p.class at (given_name (first (under_parent derived (rest self.old)))) (parent_in derived (rest self.old)) (members_in (first self.old)))) ∷ rest (under_parent derived (rest self.old))) }
    {
        let Kept { tree, nesting } = counted(self.take_class(at, derived)?);
        let tree = match tree {
            Some(class) => {
                let form = ExpressionForm::Class(Box::new(self.alloc(), class.tree)?);
                Some(Expression { form })
            }
            None => None,
        };
        self.put_part(Kept { tree, nesting }, Standing::plain(at, 18))
    }

    /// A class as a statement.
    pub fn class_statement(&mut self, at: u32, derived: bool) -> Result<(), AllocError>
        ensures { IfOk result (λ done. self.new ≡ v.Statement (p.class_statement (p.class at (given_name (first (under_parent derived (rest self.old)))) (parent_in derived (rest self.old)) (members_in (first self.old)))) ∷ rest (under_parent derived (rest self.old))) }
    {
        let Kept { tree, nesting } = counted(self.take_class(at, derived)?);
        let tree = match tree {
            Some(of) => {
                let form = StatementForm::Class(Box::new(self.alloc(), of.tree)?);
                Some(Statement { form })
            }
            None => None,
        };
        self.push(Piece::Statement(Kept { tree, nesting }))
    }

    /// The list of items, and behind it `export default`, at a place, before a class.
    pub fn and_default_class(
        &mut self,
        place: u32,
        at: u32,
        derived: bool,
    ) -> Result<(), AllocError>
        ensures { IfOk result (λ done. self.new ≡ v.Items (and_then (items_in (second (under_parent derived (rest self.old)))) (p.default_class place (p.class at (given_name (first (under_parent derived (rest self.old)))) (parent_in derived (rest self.old)) (members_in (first self.old))))) ∷ rest (rest (under_parent derived (rest self.old)))) }
    {
        let Kept { tree, nesting } = self.take_class(at, derived)?;
        let tree = match tree {
            Some(of) => {
                let tree = Item::ExportDefault {
                    at: place,
                    value: Default::Class(of.tree),
                    semi: Semi::Missing,
                };
                Some(ItemTree { tree })
            }
            None => None,
        };
        self.and_item(Kept { tree, nesting })
    }

    // A function with the word `function`.
    fn take_function(&mut self, at: u32) -> Kept<FunctionTree>
        ensures { (result ≡ p.function at (given_name (third self.old)) kinds.Plain (names_in (second self.old)) (statements_in (first self.old))) × (self.new ≡ rest (rest (rest self.old))) }
    {
        let statements = self.take_statements();
        let parameters = self.take_names();
        let own = self.take_given_name();
        function(at, own, FunctionKind::Plain, parameters, statements)
    }

    // A function as an expression of a level.
    fn put_function(
        &mut self,
        at: u32,
        level: u8,
        function: Kept<FunctionTree>,
    ) -> Result<(), AllocError>
        ensures { IfOk result (λ done. self.new ≡ v.Part (p.plain (one_more (around t.Function function)) at level) ∷ self.old) }
    {
        let Kept { tree, nesting } = counted(function);
        let tree = match tree {
            Some(function) => {
                let form = ExpressionForm::Function(Box::new(self.alloc(), function.tree)?);
                Some(Expression { form })
            }
            None => None,
        };
        self.put_part(Kept { tree, nesting }, Standing::plain(at, level))
    }

    // A class.
    fn take_class(&mut self, at: u32, derived: bool) -> Result<Kept<ClassTree>, AllocError>
        ensures { IfOk result (λ made. (made ≡ p.class at (given_name (first (under_parent derived (rest self.old)))) (parent_in derived (rest self.old)) (members_in (first self.old))) × (self.new ≡ rest (under_parent derived (rest self.old)))) }
    {
        let members = self.take_members();
        let parent = self.take_expression_if(derived);
        let own = self.take_given_name();
        let Kept { tree, nesting } = counted(both(parent, members));
        let tree = match tree {
            Some((parent, members)) => {
                let (parent, (name, members)) = boxed_beside(self.alloc(), parent, (own, members))?;
                Some(ClassTree {
                    tree: Class {
                        at,
                        name,
                        parent,
                        members: members.trees,
                    },
                })
            }
            None => {
                lose(own);
                None
            }
        };
        Ok(Kept { tree, nesting })
    }
}
