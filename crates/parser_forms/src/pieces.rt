//! The store of what was read. A form that waits for more has its parts here, and what reads it names
//! none of them: they are the last ones that were put here, in the order of the text.

ghost use Rattle.std.specs.Prelude.{◌≡◌, ◌∷◌, [], IfOk, true};
ghost use Rattle.parser_forms.specs.Asks as asks;
ghost use Rattle.parser_forms.specs.Kept.{none};
ghost use Rattle.parser_forms.specs.Pieces.{Finds, first, items_in, part_in, rest};
ghost use Rattle.parser_forms.specs.Shapes as shapes;
ghost use Rattle.parser_forms.specs.declared.pieces.Piece.TheVariants as v;

use crate::keeping::{flat, lose, lose_piece};
use crate::kinds::{Infix, left_level};
use crate::parts::{Heading, Kept, KeyPart, Part};
use crate::shapes::{Empty, Standing};
use crate::stack::Stack;
use crate::trees::{Cases, Declarators, Expressions, HeadTree, Items, Members, Statements};
use es_model::{Head, Identifier, Module, Pair, Statement, TreeList};
use js_value::Units;
use std::alloc::{AllocError, Global};

/// What was read, and waits for the form in which it stands. `Nothing` stands where a part is left out.
#[derive(Drop)]
pub enum Piece {
    Nothing,
    Part(Part),
    Expressions(Kept<Expressions>),
    Statement(Kept<Statement>),
    Statements(Kept<Statements>),
    Members(Kept<Members>),
    Declarators(Kept<Declarators>),
    Cases(Kept<Cases>),
    Items(Kept<Items>),
    Head(Kept<HeadTree>),
    Key(KeyPart),
    Name(Identifier),
    Names(TreeList<Identifier>),
    Text(Units),
    Texts(TreeList<Units>),
    Pairs(TreeList<Pair>),
}

/// The store of what was read: the last one that was read is on top. The one error of each call is want
/// of memory; what the store then holds is not said.
pub type Pieces = Stack<Piece>;

impl Stack<Piece> {
    /// The store of a module of which nothing was read: its items, of which there is none.
    pub fn of_module(alloc: Global) -> Result<Stack<Piece>, AllocError>
        ensures { IfOk result (λ made. made ≡ v.Items none ∷ []) }
    {
        let mut pieces = Stack::new(alloc);
        let trees = TreeList::new(alloc);
        let tree = Some(Items { trees });
        pieces.push(Piece::Items(Kept { tree, nesting: 0 }))?;
        Ok(pieces)
    }

    /// Takes the last piece; `Nothing` where there is none.
    pub(crate) fn take(&mut self) -> Piece
        ensures { (result ≡ first self.old) × (self.new ≡ rest self.old) }
    {
        match self.pop() {
            Some(piece) => piece,
            None => Piece::Nothing,
        }
    }

    /// A part that is left out.
    pub fn nothing(&mut self) -> Result<(), AllocError>
        ensures { IfOk result (λ done. self.new ≡ v.Nothing ∷ self.old) }
    {
        self.put_empty(Empty::Nothing)
    }

    /// Lets all pieces go.
    pub fn let_go(self) {
        lose(self)
    }

    /// Lets the last value go.
    pub fn forget(&mut self)
        ensures { self.new ≡ rest self.old }
    {
        lose_piece(self.take());
    }

    // What the last expression is, but for its tree.
    fn standing(&self) -> Standing
        ensures at { result.at ≡ (part_in (first self.now)).at }
        ensures level { result.level ≡ (part_in (first self.now)).level }
        ensures target { result.is_target ≡ (part_in (first self.now)).is_target }
        ensures nullish { result.is_nullish ≡ (part_in (first self.now)).is_nullish }
        ensures bare_new { result.is_bare_new ≡ (part_in (first self.now)).is_bare_new }
        ensures call { result.has_call ≡ (part_in (first self.now)).has_call }
    {
        match self.top() {
            Some(Piece::Part(part)) => Standing {
                at: part.at,
                level: part.level,
                is_target: part.is_target,
                is_nullish: part.is_nullish,
                is_bare_new: part.is_bare_new,
                has_call: part.has_call,
            },
            _ => Standing {
                at: 0,
                level: 0,
                is_target: false,
                is_nullish: false,
                is_bare_new: false,
                has_call: false,
            },
        }
    }

    /// The place where the last expression begins.
    pub fn at(&self) -> u32
        ensures { result ≡ (part_in (first self.now)).at }
    {
        self.standing().at
    }

    /// The level of the last expression.
    pub fn level(&self) -> u8
        ensures { result ≡ (part_in (first self.now)).level }
    {
        self.standing().level
    }

    /// Whether the last expression may be assigned to.
    pub fn is_target(&self) -> bool
        ensures { result ≡ (part_in (first self.now)).is_target }
    {
        self.standing().is_target
    }

    /// Whether the last expression is a call or has one in it.
    pub(crate) fn has_call(&self) -> bool
        ensures { result ≡ (part_in (first self.now)).has_call }
    {
        self.standing().has_call
    }

    /// Whether the last expression may be the left operand of an operator.
    pub fn is_left_of(&self, operator: Infix) -> bool
        ensures { result ≡ asks.is_left_of operator (part_in (first self.now)) }
    {
        let left = self.standing();
        match operator {
            Infix::Binary(operator) => left_level(operator) <= left.level,
            Infix::In => left.level >= 10,
            Infix::InstanceOf => left.level >= 10,
            Infix::And => left.level >= 5,
            Infix::Or => left.level >= 4 && !left.is_nullish,
            Infix::Nullish => left.is_nullish || left.level >= 6,
            Infix::Comma => left.level >= 1,
        }
    }

    /// Whether the last expression may be what a call or a member form is made of.
    pub fn is_base(&self) -> bool
        ensures { result ≡ asks.is_base (part_in (first self.now)) }
    {
        let part = self.standing();
        part.level >= 17 && !part.is_bare_new
    }

    /// Whether the last expression may be the callee of a `new`.
    pub fn is_new_callee(&self) -> bool
        ensures { result ≡ asks.is_new_callee (part_in (first self.now)) }
    {
        let part = self.standing();
        part.level >= 17 && !part.has_call
    }

    /// Takes the names that the last expression is the head of an arrow with; false where it is none, and
    /// the expression is dropped.
    pub fn take_head(&mut self) -> Result<bool, AllocError>
        ensures { IfOk result (λ found. Finds found (asks.head_of (part_in (first self.old)).heading) self.old self.new) }
    {
        match self.take_heading() {
            Heading::Name(one) => self.put_found(one),
            Heading::Head(names) => {
                self.put_names(names)?;
                Ok(true)
            }
            other => {
                lose(other);
                Ok(false)
            }
        }
    }

    /// Takes the names that the last expression lists; false where it lists none, and the expression is
    /// dropped.
    pub fn take_list(&mut self) -> Result<bool, AllocError>
        ensures { IfOk result (λ found. Finds found (asks.list_of (part_in (first self.old)).heading) self.old self.new) }
    {
        match self.take_heading() {
            Heading::Name(one) => self.put_found(one),
            Heading::Names(names) => {
                self.put_names(names)?;
                Ok(true)
            }
            other => {
                lose(other);
                Ok(false)
            }
        }
    }

    // What the last expression is as the head of an arrow; the expression is dropped.
    fn take_heading(&mut self) -> Heading
        ensures { (result ≡ (part_in (first self.old)).heading) × (self.new ≡ rest self.old) }
    {
        let Part { of, heading, .. } = self.take_part();
        lose(of);
        heading
    }

    // A name that was found, as the list of it alone.
    fn put_found(&mut self, one: Identifier) -> Result<bool, AllocError>
        ensures { IfOk result (λ found. (found ≡ true) × (self.new ≡ v.Names (one ∷ []) ∷ self.old)) }
    {
        let mut names = TreeList::new(self.alloc());
        names.push(one)?;
        self.put_names(names)?;
        Ok(true)
    }

    /// What has nothing in it.
    pub(crate) fn put_empty(&mut self, of: Empty) -> Result<(), AllocError>
        ensures { IfOk result (λ done. self.new ≡ shapes.empty of ∷ self.old) }
    {
        let alloc = self.alloc();
        let piece = match of {
            Empty::Nothing => Piece::Nothing,
            Empty::Expressions => Piece::Expressions(flat(Expressions {
                trees: TreeList::new(alloc),
            })),
            Empty::Statements => Piece::Statements(flat(Statements {
                trees: TreeList::new(alloc),
            })),
            Empty::Members => Piece::Members(flat(Members {
                trees: TreeList::new(alloc),
            })),
            Empty::Declarators => Piece::Declarators(flat(Declarators {
                trees: TreeList::new(alloc),
            })),
            Empty::Cases => Piece::Cases(flat(Cases {
                trees: TreeList::new(alloc),
            })),
            Empty::Head => Piece::Head(flat(HeadTree {
                tree: Head::Nothing,
            })),
        };
        self.push(piece)
    }

    /// The module that was read, unless it is nested deeper than 64.
    pub fn module(&mut self) -> Option<Module>
        ensures { result ≡ (items_in (first self.old)).tree }
    {
        let Kept { tree, nesting: _ } = self.take_items();
        match tree {
            Some(items) => Some(Module { items: items.trees }),
            None => None,
        }
    }
}
