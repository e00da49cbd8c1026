//! What is taken from the store, each piece as one of its kind. A piece of another kind is dropped, and
//! read as nothing.

ghost use Rattle.std.specs.Prelude.{◌≡◌, IfOk};
ghost use Rattle.es_model.specs.View.{optional as optional_view};
ghost use Rattle.es_model.specs.Tree.{present};
ghost use Rattle.parser_forms.specs.Kept.{around, counted as one_more, optional, unboxed};
ghost use Rattle.parser_forms.specs.Pieces.{cases_in, declarators_in, expressions_in, first, given_expression, given_name, given_statements, head_in, items_in, key_in, members_in, name_in, names_in, pairs_in, parent_in, part_in, rest, statement_in, statements_in, text_in, texts_in, under_parent};

use crate::keeping::{box_of_option, counted_box, flat, lose, lose_piece, option_beside};
use crate::parts::{Heading, Kept, KeyPart, Part};
use crate::pieces::Piece;
use crate::stack::Stack;
use crate::trees::{
    Cases, Declarators, Expressions, HeadTree, Items, Members, OptionalExpression,
    OptionalStatements, Statements,
};
use es_model::{Expression, Identifier, Pair, Statement, TreeList};
use js_value::Units;
use std::alloc::{AllocError, Global};

/// An expression that is there, where one may be left out.
pub(crate) fn given_expression(of: Kept<Expression>) -> Kept<OptionalExpression>
    ensures { result ≡ around present of }
{
    let Kept { tree, nesting } = of;
    let tree = match tree {
        Some(tree) => Some(OptionalExpression { tree: Some(tree) }),
        None => None,
    };
    Kept { tree, nesting }
}

/// An expression that may be left out in a box, and something beside it.
pub(crate) fn boxed_beside<B: Drop>(
    alloc: Global,
    of: OptionalExpression,
    beside: B,
) -> Result<(Option<Box<Expression>>, B), AllocError>
    ensures { IfOk result (λ made. (optional_view made.0 ≡ of) × (made.1 ≡ beside)) }
{
    option_beside(alloc, of.tree, beside)
}

impl Stack<Piece> {
    /// The expression that was read last.
    pub(crate) fn take_part(&mut self) -> Part
        ensures { (result ≡ part_in (first self.old)) × (self.new ≡ rest self.old) }
    {
        match self.take() {
            Piece::Part(part) => part,
            other => {
                lose_piece(other);
                Part {
                    of: Kept {
                        tree: None,
                        nesting: 0,
                    },
                    at: 0,
                    level: 0,
                    is_target: false,
                    is_nullish: false,
                    is_bare_new: false,
                    has_call: false,
                    heading: Heading::Nothing,
                }
            }
        }
    }

    /// The tree of the expression that was read last.
    pub(crate) fn take_expression(&mut self) -> Kept<Expression>
        ensures { (result ≡ (part_in (first self.old)).of) × (self.new ≡ rest self.old) }
    {
        match self.take() {
            Piece::Part(Part { of, heading, .. }) => {
                lose(heading);
                of
            }
            other => {
                lose_piece(other);
                Kept {
                    tree: None,
                    nesting: 0,
                }
            }
        }
    }

    /// The expression that was read last, in a box.
    pub(crate) fn take_boxed_expression(&mut self) -> Result<Kept<Box<Expression>>, AllocError>
        ensures { IfOk result (λ made. (unboxed made ≡ (part_in (first self.old)).of) × (self.new ≡ rest self.old)) }
    {
        let Kept { tree, nesting } = self.take_expression();
        let tree = box_of_option(self.alloc(), tree)?;
        Ok(Kept { tree, nesting })
    }

    /// The expression that was read last, as one level of nesting more, in a box.
    pub(crate) fn take_counted_expression(&mut self) -> Result<Kept<Box<Expression>>, AllocError>
        ensures { IfOk result (λ made. (unboxed made ≡ one_more (part_in (first self.old)).of) × (self.new ≡ rest self.old)) }
    {
        let of = self.take_expression();
        counted_box(self.alloc(), of)
    }

    /// The expressions that were read last.
    pub(crate) fn take_expressions(&mut self) -> Kept<Expressions>
        ensures { (result ≡ expressions_in (first self.old)) × (self.new ≡ rest self.old) }
    {
        match self.take() {
            Piece::Expressions(list) => list,
            other => {
                lose_piece(other);
                Kept {
                    tree: None,
                    nesting: 0,
                }
            }
        }
    }

    /// The statements that were read last.
    pub(crate) fn take_statements(&mut self) -> Kept<Statements>
        ensures { (result ≡ statements_in (first self.old)) × (self.new ≡ rest self.old) }
    {
        match self.take() {
            Piece::Statements(list) => list,
            other => {
                lose_piece(other);
                Kept {
                    tree: None,
                    nesting: 0,
                }
            }
        }
    }

    /// The members that were read last.
    pub(crate) fn take_members(&mut self) -> Kept<Members>
        ensures { (result ≡ members_in (first self.old)) × (self.new ≡ rest self.old) }
    {
        match self.take() {
            Piece::Members(list) => list,
            other => {
                lose_piece(other);
                Kept {
                    tree: None,
                    nesting: 0,
                }
            }
        }
    }

    /// The declared names that were read last.
    pub(crate) fn take_declarators(&mut self) -> Kept<Declarators>
        ensures { (result ≡ declarators_in (first self.old)) × (self.new ≡ rest self.old) }
    {
        match self.take() {
            Piece::Declarators(list) => list,
            other => {
                lose_piece(other);
                Kept {
                    tree: None,
                    nesting: 0,
                }
            }
        }
    }

    /// The cases that were read last.
    pub(crate) fn take_cases(&mut self) -> Kept<Cases>
        ensures { (result ≡ cases_in (first self.old)) × (self.new ≡ rest self.old) }
    {
        match self.take() {
            Piece::Cases(list) => list,
            other => {
                lose_piece(other);
                Kept {
                    tree: None,
                    nesting: 0,
                }
            }
        }
    }

    /// The items that were read last.
    pub(crate) fn take_items(&mut self) -> Kept<Items>
        ensures { (result ≡ items_in (first self.old)) × (self.new ≡ rest self.old) }
    {
        match self.take() {
            Piece::Items(list) => list,
            other => {
                lose_piece(other);
                Kept {
                    tree: None,
                    nesting: 0,
                }
            }
        }
    }

    /// The statement that was read last.
    pub(crate) fn take_statement(&mut self) -> Kept<Statement>
        ensures { (result ≡ statement_in (first self.old)) × (self.new ≡ rest self.old) }
    {
        match self.take() {
            Piece::Statement(one) => one,
            other => {
                lose_piece(other);
                Kept {
                    tree: None,
                    nesting: 0,
                }
            }
        }
    }

    /// What was read last as the first in the parentheses of a `for`.
    pub(crate) fn take_head_tree(&mut self) -> Kept<HeadTree>
        ensures { (result ≡ head_in (first self.old)) × (self.new ≡ rest self.old) }
    {
        match self.take() {
            Piece::Head(head) => head,
            other => {
                lose_piece(other);
                Kept {
                    tree: None,
                    nesting: 0,
                }
            }
        }
    }

    /// The key that was read last.
    pub(crate) fn take_key(&mut self) -> KeyPart
        ensures { (result ≡ key_in (first self.old)) × (self.new ≡ rest self.old) }
    {
        match self.take() {
            Piece::Key(key) => key,
            other => {
                lose_piece(other);
                KeyPart {
                    of: Kept {
                        tree: None,
                        nesting: 0,
                    },
                    is_constructor: false,
                }
            }
        }
    }

    /// The name that was read last.
    pub(crate) fn take_name(&mut self) -> Identifier
        ensures { (result ≡ name_in (first self.old)) × (self.new ≡ rest self.old) }
    {
        let alloc = self.alloc();
        match self.take() {
            Piece::Name(one) => one,
            other => {
                lose_piece(other);
                Identifier {
                    at: 0,
                    name: Units::new(alloc),
                }
            }
        }
    }

    /// The names that were read last.
    pub(crate) fn take_names(&mut self) -> TreeList<Identifier>
        ensures { (result ≡ names_in (first self.old)) × (self.new ≡ rest self.old) }
    {
        let alloc = self.alloc();
        match self.take() {
            Piece::Names(list) => list,
            other => {
                lose_piece(other);
                TreeList::new(alloc)
            }
        }
    }

    /// The text that was read last.
    pub(crate) fn take_text(&mut self) -> Units
        ensures { (result ≡ text_in (first self.old)) × (self.new ≡ rest self.old) }
    {
        let alloc = self.alloc();
        match self.take() {
            Piece::Text(text) => text,
            other => {
                lose_piece(other);
                Units::new(alloc)
            }
        }
    }

    /// The texts that were read last.
    pub(crate) fn take_texts(&mut self) -> TreeList<Units>
        ensures { (result ≡ texts_in (first self.old)) × (self.new ≡ rest self.old) }
    {
        let alloc = self.alloc();
        match self.take() {
            Piece::Texts(list) => list,
            other => {
                lose_piece(other);
                TreeList::new(alloc)
            }
        }
    }

    /// The pairs of names that were read last.
    pub(crate) fn take_pairs(&mut self) -> TreeList<Pair>
        ensures { (result ≡ pairs_in (first self.old)) × (self.new ≡ rest self.old) }
    {
        let alloc = self.alloc();
        match self.take() {
            Piece::Pairs(list) => list,
            other => {
                lose_piece(other);
                TreeList::new(alloc)
            }
        }
    }

    /// The name that was read last, which may be left out.
    pub(crate) fn take_given_name(&mut self) -> Option<Identifier>
        ensures { (result ≡ given_name (first self.old)) × (self.new ≡ rest self.old) }
    {
        match self.take() {
            Piece::Name(one) => Some(one),
            other => {
                lose_piece(other);
                None
            }
        }
    }

    /// The expression that was read last, where there is one.
    pub(crate) fn take_expression_if(&mut self, there: bool) -> Kept<OptionalExpression>
        ensures { (result ≡ optional (parent_in there self.old)) × (self.new ≡ under_parent there self.old) }
    {
        if there {
            given_expression(self.take_expression())
        } else {
            flat(OptionalExpression { tree: None })
        }
    }

    /// The expression that was read last, which may be left out.
    pub(crate) fn take_given_expression(&mut self) -> Kept<OptionalExpression>
        ensures { (result ≡ optional (given_expression (first self.old))) × (self.new ≡ rest self.old) }
    {
        match self.take() {
            Piece::Part(Part { of, heading, .. }) => {
                lose(heading);
                given_expression(of)
            }
            other => {
                lose_piece(other);
                flat(OptionalExpression { tree: None })
            }
        }
    }

    /// The statements that were read last, which may be left out.
    pub(crate) fn take_given_statements(&mut self) -> Kept<OptionalStatements>
        ensures { (result ≡ optional (given_statements (first self.old))) × (self.new ≡ rest self.old) }
    {
        match self.take() {
            Piece::Statements(Kept { tree, nesting }) => {
                let tree = match tree {
                    Some(list) => {
                        let trees = Some(list.trees);
                        Some(OptionalStatements { trees })
                    }
                    None => None,
                };
                Kept { tree, nesting }
            }
            other => {
                lose_piece(other);
                flat(OptionalStatements { trees: None })
            }
        }
    }
}
