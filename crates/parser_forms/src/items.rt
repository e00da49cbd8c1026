//! The items of a module, form by form (ECMA-262, 16.2).

ghost use Rattle.std.specs.Prelude.{◌∷◌, ◌≡◌, IfOk};
ghost use Rattle.es_model.specs.Tree as t;
ghost use Rattle.parser_forms.specs.Kept.{and_then, around};
ghost use Rattle.parser_forms.specs.Parts as p;
ghost use Rattle.parser_forms.specs.Shapes as shapes;
ghost use Rattle.parser_forms.specs.Pieces.{first, items_in, pairs_in, part_in, rest, second, statement_in, text_in, third};
ghost use Rattle.parser_forms.specs.declared.pieces.Piece.TheVariants as v;

use crate::keeping::{both, flat, push};
use crate::parts::Kept;
use crate::pieces::Piece;
use crate::shapes::{Paired, Stated};
use crate::stack::Stack;
use crate::trees::{ItemTree, Items};
use es_model::{Default, Item, Semi};
use std::alloc::AllocError;

impl Stack<Piece> {
    /// The list of items, and the statement before behind it.
    pub fn and_plain_item(&mut self) -> Result<(), AllocError>
        ensures { IfOk result (λ done. self.new ≡ v.Items (and_then (items_in (second self.old)) (p.plain_item (statement_in (first self.old)))) ∷ rest (rest self.old)) }
    {
        self.and_statement_item(Stated::Plain)
    }

    /// The list of items, and behind it `export` before a declaration.
    pub fn and_exported_item(&mut self) -> Result<(), AllocError>
        ensures { IfOk result (λ done. self.new ≡ v.Items (and_then (items_in (second self.old)) (p.exported_item (statement_in (first self.old)))) ∷ rest (rest self.old)) }
    {
        self.and_statement_item(Stated::Exported)
    }

    /// The list of items, and behind it `export default` before a value.
    pub fn and_default_value(&mut self, at: u32, semi: Semi) -> Result<(), AllocError>
        ensures { IfOk result (λ done. self.new ≡ v.Items (and_then (items_in (second self.old)) (p.default_value at (part_in (first self.old)).of semi)) ∷ rest (rest self.old)) }
    {
        let Kept { tree, nesting } = self.take_expression();
        let tree = match tree {
            Some(of) => {
                let value = Default::Value(of);
                let tree = Item::ExportDefault { at, value, semi };
                Some(ItemTree { tree })
            }
            None => None,
        };
        self.and_item(Kept { tree, nesting })
    }

    /// The list of items, and behind it an import of pairs from a module.
    pub fn and_import(&mut self, semi: Semi) -> Result<(), AllocError>
        ensures { IfOk result (λ done. self.new ≡ v.Items (and_then (items_in (third self.old)) (p.bare_item (t.Import (text_in (first self.old)) (pairs_in (second self.old)) semi))) ∷ rest (rest (rest self.old))) }
    {
        let from = self.take_text();
        self.and_pairs_item(Paired::Import(from), semi)
    }

    /// The list of items, and behind it an export of pairs from a module.
    pub fn and_export_from(&mut self, semi: Semi) -> Result<(), AllocError>
        ensures { IfOk result (λ done. self.new ≡ v.Items (and_then (items_in (third self.old)) (p.bare_item (t.ExportFrom (text_in (first self.old)) (pairs_in (second self.old)) semi))) ∷ rest (rest (rest self.old))) }
    {
        let from = self.take_text();
        self.and_pairs_item(Paired::ExportFrom(from), semi)
    }

    /// The list of items, and behind it an export of pairs.
    pub fn and_export_names(&mut self, semi: Semi) -> Result<(), AllocError>
        ensures { IfOk result (λ done. self.new ≡ v.Items (and_then (items_in (second self.old)) (p.bare_item (t.ExportNames (pairs_in (first self.old)) semi))) ∷ rest (rest self.old)) }
    {
        self.and_pairs_item(Paired::ExportNames, semi)
    }

    // The list of items, and behind it one that is the statement before.
    fn and_statement_item(&mut self, form: Stated) -> Result<(), AllocError>
        ensures { IfOk result (λ done. self.new ≡ v.Items (and_then (items_in (second self.old)) (around (shapes.stated form) (statement_in (first self.old)))) ∷ rest (rest self.old)) }
    {
        let Kept { tree, nesting } = self.take_statement();
        let tree = match tree {
            Some(statement) => {
                let tree = match form {
                    Stated::Plain => Item::Plain { statement },
                    Stated::Exported => Item::ExportDeclaration { statement },
                };
                Some(ItemTree { tree })
            }
            None => None,
        };
        self.and_item(Kept { tree, nesting })
    }

    // The list of items, and behind it one of the pairs before.
    fn and_pairs_item(&mut self, form: Paired, semi: Semi) -> Result<(), AllocError>
        ensures { IfOk result (λ done. self.new ≡ v.Items (and_then (items_in (second self.old)) (p.bare_item (shapes.paired form (pairs_in (first self.old)) semi))) ∷ rest (rest self.old)) }
    {
        let names = self.take_pairs();
        let tree = match form {
            Paired::Import(from) => Item::Import { from, names, semi },
            Paired::ExportFrom(from) => Item::ExportFrom { from, names, semi },
            Paired::ExportNames => Item::ExportNames { names, semi },
        };
        self.and_item(flat(ItemTree { tree }))
    }

    // The list of items, and one more behind it.
    #[tactic(auto, using(crate::proofs::ListLaws::mapped_last))]
    pub(crate) fn and_item(&mut self, last: Kept<ItemTree>) -> Result<(), AllocError>
        ensures { IfOk result (λ done. self.new ≡ v.Items (and_then (items_in (first self.old)) last) ∷ rest self.old) }
    {
        let Kept { tree, nesting } = both(self.take_items(), last);
        let tree = match tree {
            Some((list, last)) => {
                let trees = push(list.trees, last.tree)?;
                Some(Items { trees })
            }
            None => None,
        };
        self.push(Piece::Items(Kept { tree, nesting }))
    }
}
