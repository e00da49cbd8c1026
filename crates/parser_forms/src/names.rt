//! Names, texts and pairs of names (ECMA-262, 13.1 and 16.2).

ghost use Rattle.std.specs.Prelude.{◌∷◌, ◌++◌, [], codes, ◌≡◌, IfOk};
ghost use Rattle.parser_forms.specs.Pieces.{first, name_in, names_in, pairs_in, rest, second};
ghost use Rattle.parser_forms.specs.declared.pieces.Piece.TheVariants as v;

use crate::pieces::Piece;
use crate::stack::Stack;
use crate::texts::{copy_of, same_name, text_of};
use es_model::{Identifier, Pair, TreeList};
use js_value::Units;
use std::alloc::AllocError;

impl Stack<Piece> {
    /// A name, where it begins.
    pub fn name_at(&mut self, at: u32, text: &Units) -> Result<(), AllocError>
        ensures { IfOk result (λ done. self.new ≡ v.Name (record { at = at; name = text.now }) ∷ self.old) }
    {
        let name = copy_of(self.alloc(), text)?;
        self.put_name(Identifier { at, name })
    }

    /// The name `default`, where its word or what has it begins.
    pub fn default_name(&mut self, at: u32) -> Result<(), AllocError>
        ensures { IfOk result (λ done. self.new ≡ v.Name (record { at = at; name = codes "default" }) ∷ self.old) }
    {
        let name = text_of(self.alloc(), "default")?;
        self.put_name(Identifier { at, name })
    }

    /// A text.
    pub fn text(&mut self, text: &Units) -> Result<(), AllocError>
        ensures { IfOk result (λ done. self.new ≡ v.Text text.now ∷ self.old) }
    {
        let text = copy_of(self.alloc(), text)?;
        self.push(Piece::Text(text))
    }

    /// No names.
    pub fn no_names(&mut self) -> Result<(), AllocError>
        ensures { IfOk result (λ done. self.new ≡ v.Names [] ∷ self.old) }
    {
        self.put_names(TreeList::new(self.alloc()))
    }

    /// The list of names, and one more behind it.
    pub fn and_name(&mut self, at: u32, text: &Units) -> Result<(), AllocError>
        ensures { IfOk result (λ done. self.new ≡ v.Names (names_in (first self.old) ++ record { at = at; name = text.now } ∷ []) ∷ rest self.old) }
    {
        let name = copy_of(self.alloc(), text)?;
        let mut names = self.take_names();
        names.push(Identifier { at, name })?;
        self.put_names(names)
    }

    /// No pairs of names.
    pub fn no_pairs(&mut self) -> Result<(), AllocError>
        ensures { IfOk result (λ done. self.new ≡ v.Pairs [] ∷ self.old) }
    {
        self.put_pairs(TreeList::new(self.alloc()))
    }

    /// The list of pairs, and behind it the name before as both names of a pair.
    pub fn and_both_names(&mut self) -> Result<(), AllocError>
        ensures { IfOk result (λ done. self.new ≡ v.Pairs (pairs_in (second self.old) ++ record { taken = name_in (first self.old); given = name_in (first self.old) } ∷ []) ∷ rest (rest self.old)) }
    {
        let taken = self.take_name();
        let given = same_name(self.alloc(), &taken)?;
        self.put_pair(taken, given)
    }

    /// The list of pairs, and behind it the name before as one that is taken, with the name that it is given.
    pub fn and_pair(&mut self, at: u32, text: &Units) -> Result<(), AllocError>
        ensures { IfOk result (λ done. self.new ≡ v.Pairs (pairs_in (second self.old) ++ record { taken = name_in (first self.old); given = record { at = at; name = text.now } } ∷ []) ∷ rest (rest self.old)) }
    {
        let name = copy_of(self.alloc(), text)?;
        let taken = self.take_name();
        self.put_pair(taken, Identifier { at, name })
    }

    /// The same, where the name that is given is `default`.
    pub fn and_default_pair(&mut self, at: u32) -> Result<(), AllocError>
        ensures { IfOk result (λ done. self.new ≡ v.Pairs (pairs_in (second self.old) ++ record { taken = name_in (first self.old); given = record { at = at; name = codes "default" } } ∷ []) ∷ rest (rest self.old)) }
    {
        let name = text_of(self.alloc(), "default")?;
        let taken = self.take_name();
        self.put_pair(taken, Identifier { at, name })
    }

    /// The pairs of an import that has a name alone: `default` is taken, at the place of the name.
    pub fn default_import(&mut self, at: u32, text: &Units) -> Result<(), AllocError>
        ensures { IfOk result (λ done. self.new ≡ v.Pairs (record { taken = record { at = at; name = codes "default" }; given = record { at = at; name = text.now } } ∷ []) ∷ self.old) }
    {
        let alloc = self.alloc();
        let taken = text_of(alloc, "default")?;
        let given = copy_of(alloc, text)?;
        self.put_pairs(TreeList::new(alloc))?;
        let taken = Identifier { at, name: taken };
        self.put_pair(taken, Identifier { at, name: given })
    }

    pub(crate) fn put_name(&mut self, name: Identifier) -> Result<(), AllocError>
        ensures { IfOk result (λ done. self.new ≡ v.Name name ∷ self.old) }
    {
        self.push(Piece::Name(name))
    }

    pub(crate) fn put_names(&mut self, names: TreeList<Identifier>) -> Result<(), AllocError>
        ensures { IfOk result (λ done. self.new ≡ v.Names names ∷ self.old) }
    {
        self.push(Piece::Names(names))
    }

    fn put_pairs(&mut self, pairs: TreeList<Pair>) -> Result<(), AllocError>
        ensures { IfOk result (λ done. self.new ≡ v.Pairs pairs ∷ self.old) }
    {
        self.push(Piece::Pairs(pairs))
    }

    // The list of pairs, and one more behind it.
    fn put_pair(&mut self, taken: Identifier, given: Identifier) -> Result<(), AllocError>
        ensures { IfOk result (λ done. self.new ≡ v.Pairs (pairs_in (first self.old) ++ record { taken = taken; given = given } ∷ []) ∷ rest self.old) }
    {
        let mut pairs = self.take_pairs();
        pairs.push(Pair { taken, given })?;
        self.put_pairs(pairs)
    }
}
