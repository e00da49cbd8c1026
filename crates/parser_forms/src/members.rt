//! Keys and members (ECMA-262, 13.2.5 and 15.7).

ghost use Rattle.std.specs.Prelude.{◌∷◌, None, false, true, ◌≡◌, IfOk};
ghost use Rattle.es_model.specs.Levels as levels;
ghost use Rattle.es_model.specs.Tree as t;
ghost use Rattle.es_model.specs.View.{key_of};
ghost use Rattle.es_model.specs.declared.kinds.MemberKind.TheVariants as member;
ghost use Rattle.parser_forms.specs.Shapes as shapes;
ghost use Rattle.parser_forms.specs.Kept.{none, and_then};
ghost use Rattle.parser_forms.specs.Parts as p;
ghost use Rattle.parser_forms.specs.Pieces.{first, fourth, key_in, members_in, name_in, names_in, part_in, rest, second, statements_in, third};
ghost use Rattle.parser_forms.specs.declared.pieces.Piece.TheVariants as v;

use crate::functions::function;
use crate::keeping::{both, box_beside, flat, push};
use crate::parts::{Kept, KeyPart};
use crate::pieces::Piece;
use crate::shapes::Empty;
use crate::stack::Stack;
use crate::texts::{copy_of, is_text};
use crate::trees::{KeyTree, MemberTree, Members};
use es_model::{FunctionKind, Identifier, Key, Member, MemberKind};
use js_value::Units;
use std::alloc::AllocError;

fn is_constructor_key(key: &Key) -> bool
    ensures { result ≡ levels.is_constructor_key (key_of key.now) }
{
    match key {
        Key::Word(text) => is_text(text.as_slice(), b"constructor"),
        Key::String(text) => is_text(text.as_slice(), b"constructor"),
        Key::Number(_) => false,
        Key::Computed(_) => false,
    }
}

// The kind of the function of a member of a class.
fn method_kind(kind: MemberKind, fixed: bool, constructor: bool, derived: bool) -> FunctionKind
    ensures { result ≡ p.method_kind kind fixed constructor derived }
{
    match kind {
        MemberKind::Getter => FunctionKind::Getter,
        MemberKind::Setter => FunctionKind::Setter,
        _ => plain_kind(fixed, constructor, derived),
    }
}

// The kind of a method.
fn plain_kind(fixed: bool, constructor: bool, derived: bool) -> FunctionKind
    ensures { result ≡ p.method_kind member.Method fixed constructor derived }
{
    if fixed || !constructor {
        FunctionKind::Method
    } else if derived {
        FunctionKind::Derived
    } else {
        FunctionKind::Base
    }
}

// The kind of the function of a member of a class or an object literal.
fn own_kind(kind: MemberKind, fixed: bool, derived: Option<bool>, constructor: bool) -> FunctionKind
    ensures { result ≡ shapes.own_kind kind fixed derived constructor }
{
    match derived {
        Some(derived) => method_kind(kind, fixed, constructor, derived),
        None => method_kind(kind, true, false, false),
    }
}

impl Stack<Piece> {
    /// No members.
    pub fn no_members(&mut self) -> Result<(), AllocError>
        ensures { IfOk result (λ done. self.new ≡ v.Members none ∷ self.old) }
    {
        self.put_empty(Empty::Members)
    }

    /// A key that is a name or a keyword.
    pub fn word_key(&mut self, name: Units) -> Result<(), AllocError>
        ensures { IfOk result (λ done. self.new ≡ v.Key (p.key (t.KeyWord name)) ∷ self.old) }
    {
        self.put_key(Key::Word(name))
    }

    /// A key that is a string.
    pub fn string_key(&mut self, text: &Units) -> Result<(), AllocError>
        ensures { IfOk result (λ done. self.new ≡ v.Key (p.key (t.KeyString text.now)) ∷ self.old) }
    {
        let text = copy_of(self.alloc(), text)?;
        self.put_key(Key::String(text))
    }

    /// A key that is a number.
    pub fn number_key(&mut self, number: i64) -> Result<(), AllocError>
        ensures { IfOk result (λ done. self.new ≡ v.Key (p.key (t.KeyNumber number)) ∷ self.old) }
    {
        self.put_key(Key::Number(number))
    }

    /// A key that is a name, and the name, which may stand alone.
    pub fn name_key(&mut self, at: u32, text: &Units) -> Result<(), AllocError>
        ensures { IfOk result (λ done. self.new ≡ v.Name (record { at = at; name = text.now }) ∷ v.Key (p.key (t.KeyWord text.now)) ∷ self.old) }
    {
        let alloc = self.alloc();
        let name = copy_of(alloc, text)?;
        self.word_key(copy_of(alloc, text)?)?;
        self.put_name(Identifier { at, name })
    }

    /// The name before as a key, and the name on top, which may stand alone.
    pub fn as_name_key(&mut self) -> Result<(), AllocError>
        ensures { IfOk result (λ done. self.new ≡ v.Name (name_in (first self.old)) ∷ v.Key (p.key (t.KeyWord (name_in (first self.old)).name)) ∷ rest self.old) }
    {
        let name = self.take_name();
        self.word_key(copy_of(self.alloc(), &name.name)?)?;
        self.put_name(name)
    }

    /// A computed key.
    pub fn computed_key(&mut self) -> Result<(), AllocError>
        ensures { IfOk result (λ done. self.new ≡ v.Key (p.computed_key (part_in (first self.old))) ∷ rest self.old) }
    {
        let Kept { tree, nesting } = self.take_boxed_expression()?;
        let tree = match tree {
            Some(of) => Some(KeyTree {
                tree: Key::Computed(of),
            }),
            None => None,
        };
        self.push(Piece::Key(KeyPart {
            of: Kept { tree, nesting },
            is_constructor: false,
        }))
    }

    /// The list of members, and `key: value` behind it.
    pub fn and_value_member(&mut self, at: u32) -> Result<(), AllocError>
        ensures { IfOk result (λ done. self.new ≡ v.Members (and_then (members_in (third self.old)) (p.value_member at (key_in (second self.old)) (part_in (first self.old)))) ∷ rest (rest (rest self.old))) }
    {
        let value = self.take_expression();
        let Kept { tree, nesting } = both(self.take_key().of, value);
        let tree = match tree {
            Some((key, value)) => {
                let (value, key) = box_beside(self.alloc(), value, key)?;
                Some(MemberTree {
                    tree: Member {
                        at,
                        fixed: false,
                        kind: MemberKind::Value,
                        key: key.tree,
                        value: Some(value),
                        function: None,
                    },
                })
            }
            None => None,
        };
        self.and_member(Kept { tree, nesting })
    }

    /// The list of members, and a name alone behind it, whose key is dropped.
    pub fn and_short_member(&mut self) -> Result<(), AllocError>
        ensures { IfOk result (λ done. self.new ≡ v.Members (and_then (members_in (third self.old)) (p.short_member (name_in (first self.old)))) ∷ rest (rest (rest self.old))) }
    {
        let Identifier { at, name } = self.take_name();
        self.forget();
        let tree = MemberTree {
            tree: Member {
                at,
                fixed: false,
                kind: MemberKind::Short,
                key: Key::Word(name),
                value: None,
                function: None,
            },
        };
        self.and_member(flat(tree))
    }

    /// The list of members of an object literal, and a method or an accessor behind it.
    pub fn and_object_method(
        &mut self,
        at: u32,
        fixed: bool,
        kind: MemberKind,
    ) -> Result<(), AllocError>
        ensures { IfOk result (λ done. self.new ≡ v.Members (and_then (members_in (fourth self.old)) (p.function_member at fixed kind (key_in (third self.old)) (p.function at None (p.method_kind kind true false false) (names_in (second self.old)) (statements_in (first self.old))))) ∷ rest (rest (rest (rest self.old)))) }
    {
        self.and_method(at, fixed, kind, None)
    }

    /// The list of members of a class, which may be a derived one, and a method or an accessor behind it.
    pub fn and_class_method(
        &mut self,
        at: u32,
        fixed: bool,
        kind: MemberKind,
        derived: bool,
    ) -> Result<(), AllocError>
        ensures { IfOk result (λ done. self.new ≡ v.Members (and_then (members_in (fourth self.old)) (p.function_member at fixed kind (key_in (third self.old)) (p.function at None (p.method_kind kind fixed (key_in (third self.old)).is_constructor derived) (names_in (second self.old)) (statements_in (first self.old))))) ∷ rest (rest (rest (rest self.old)))) }
    {
        self.and_method(at, fixed, kind, Some(derived))
    }

    // A key that is written.
    fn put_key(&mut self, tree: Key) -> Result<(), AllocError>
        ensures { IfOk result (λ done. self.new ≡ v.Key (p.key (key_of tree)) ∷ self.old) }
    {
        let is_constructor = is_constructor_key(&tree);
        let of = flat(KeyTree { tree });
        self.push(Piece::Key(KeyPart { of, is_constructor }))
    }

    // The list of members, and one more behind it.
    #[tactic(auto, using(crate::proofs::ListLaws::mapped_last))]
    fn and_member(&mut self, last: Kept<MemberTree>) -> Result<(), AllocError>
        ensures { IfOk result (λ done. self.new ≡ v.Members (and_then (members_in (first self.old)) last) ∷ rest self.old) }
    {
        let Kept { tree, nesting } = both(self.take_members(), last);
        let tree = match tree {
            Some((list, last)) => {
                let trees = push(list.trees, last.tree)?;
                Some(Members { trees })
            }
            None => None,
        };
        self.push(Piece::Members(Kept { tree, nesting }))
    }

    // The list of members, and a method or an accessor behind it; of a class it is said whether it is a
    // derived one.
    fn and_method(
        &mut self,
        at: u32,
        fixed: bool,
        kind: MemberKind,
        derived: Option<bool>,
    ) -> Result<(), AllocError>
        ensures { IfOk result (λ done. self.new ≡ v.Members (and_then (members_in (fourth self.old)) (p.function_member at fixed kind (key_in (third self.old)) (p.function at None (shapes.own_kind kind fixed derived (key_in (third self.old)).is_constructor) (names_in (second self.old)) (statements_in (first self.old))))) ∷ rest (rest (rest (rest self.old)))) }
    {
        let statements = self.take_statements();
        let parameters = self.take_names();
        let KeyPart { of, is_constructor } = self.take_key();
        let own = own_kind(kind, fixed, derived, is_constructor);
        let function = function(at, None, own, parameters, statements);
        let Kept { tree, nesting } = both(of, function);
        let tree = match tree {
            Some((key, function)) => {
                let (function, key) = box_beside(self.alloc(), function.tree, key)?;
                Some(MemberTree {
                    tree: Member {
                        at,
                        fixed,
                        kind,
                        key: key.tree,
                        value: None,
                        function: Some(function),
                    },
                })
            }
            None => None,
        };
        self.and_member(Kept { tree, nesting })
    }
}
