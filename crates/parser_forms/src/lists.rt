//! Declared names, cases of a switch, and what stands first in the parentheses of a `for`
//! (ECMA-262, 14.3, 14.7 and 14.12).

ghost use Rattle.std.specs.Prelude.{◌∷◌, Some, None, ◌≡◌, IfOk};
ghost use Rattle.parser_forms.specs.Kept.{and_then, none};
ghost use Rattle.parser_forms.specs.Parts as p;
ghost use Rattle.parser_forms.specs.Pieces.{cases_in, declarators_in, first, name_in, parent_in, part_in, rest, second, statements_in, third, under_parent};
ghost use Rattle.parser_forms.specs.declared.pieces.Piece.TheVariants as v;

use crate::keeping::{both, box_beside, counted, lose, push};
use crate::parts::Kept;
use crate::pieces::Piece;
use crate::readers::boxed_beside;
use crate::shapes::Empty;
use crate::stack::Stack;
use crate::trees::{Cases, Declarators, HeadTree};
use es_model::{Case, Declarator, Head, Statement, StatementForm};
use std::alloc::AllocError;

impl Stack<Piece> {
    /// No declared names.
    pub fn no_declarators(&mut self) -> Result<(), AllocError>
        ensures { IfOk result (λ done. self.new ≡ v.Declarators none ∷ self.old) }
    {
        self.put_empty(Empty::Declarators)
    }

    /// The list of declared names, and behind it a name with its initialiser.
    pub fn and_declarator(&mut self) -> Result<(), AllocError>
        ensures { IfOk result (λ done. self.new ≡ v.Declarators (and_then (declarators_in (third self.old)) (p.declarator (name_in (second self.old)) (Some (part_in (first self.old)).of))) ∷ rest (rest (rest self.old))) }
    {
        self.put_declarator(true)
    }

    /// The list of declared names, and behind it a name without one.
    pub fn and_bare_declarator(&mut self) -> Result<(), AllocError>
        ensures { IfOk result (λ done. self.new ≡ v.Declarators (and_then (declarators_in (second self.old)) (p.declarator (name_in (first self.old)) None)) ∷ rest (rest self.old)) }
    {
        self.put_declarator(false)
    }

    /// No cases of a switch.
    pub fn no_cases(&mut self) -> Result<(), AllocError>
        ensures { IfOk result (λ done. self.new ≡ v.Cases none ∷ self.old) }
    {
        self.put_empty(Empty::Cases)
    }

    /// The list of cases, and behind it one with its test and its statements.
    pub fn and_case(&mut self) -> Result<(), AllocError>
        ensures { IfOk result (λ done. self.new ≡ v.Cases (and_then (cases_in (third self.old)) (p.case (Some (part_in (second self.old)).of) (statements_in (first self.old)))) ∷ rest (rest (rest self.old))) }
    {
        self.put_case(true)
    }

    /// The list of cases, and behind it the default with its statements.
    pub fn and_default_case(&mut self) -> Result<(), AllocError>
        ensures { IfOk result (λ done. self.new ≡ v.Cases (and_then (cases_in (second self.old)) (p.case None (statements_in (first self.old)))) ∷ rest (rest self.old)) }
    {
        self.put_case(false)
    }

    /// A switch.
    pub fn switch(&mut self) -> Result<(), AllocError>
        ensures { IfOk result (λ done. self.new ≡ v.Statement (p.switch (part_in (second self.old)).of (cases_in (first self.old))) ∷ rest (rest self.old)) }
    {
        let cases = self.take_cases();
        let Kept { tree, nesting } = counted(both(self.take_expression(), cases));
        let tree = match tree {
            Some((value, cases)) => {
                let (value, cases) = box_beside(self.alloc(), value, cases)?;
                let cases = cases.trees;
                let form = StatementForm::Switch { value, cases };
                Some(Statement { form })
            }
            None => None,
        };
        self.push(Piece::Statement(Kept { tree, nesting }))
    }

    /// What stands first in the parentheses of a `for`, where nothing does.
    pub fn head_nothing(&mut self) -> Result<(), AllocError>
        ensures { IfOk result (λ done. self.new ≡ v.Head p.head_nothing ∷ self.old) }
    {
        self.put_empty(Empty::Head)
    }

    /// An expression first in the parentheses of a `for`.
    pub fn head_value(&mut self) -> Result<(), AllocError>
        ensures { IfOk result (λ done. self.new ≡ v.Head (p.head_value (part_in (first self.old)).of) ∷ rest self.old) }
    {
        let Kept { tree, nesting } = self.take_boxed_expression()?;
        let tree = match tree {
            Some(of) => {
                let tree = Head::Value(of);
                Some(HeadTree { tree })
            }
            None => None,
        };
        self.push(Piece::Head(Kept { tree, nesting }))
    }

    /// Declared names first in the parentheses of a `for`.
    pub fn head_declare(&mut self, constant: bool) -> Result<(), AllocError>
        ensures { IfOk result (λ done. self.new ≡ v.Head (p.head_declare constant (declarators_in (first self.old))) ∷ rest self.old) }
    {
        let Kept { tree, nesting } = self.take_declarators();
        let tree = match tree {
            Some(names) => {
                let names = names.trees;
                let tree = Head::Declare { constant, names };
                Some(HeadTree { tree })
            }
            None => None,
        };
        self.push(Piece::Head(Kept { tree, nesting }))
    }

    // The list of declared names, and one more behind it, which may have an initialiser.
    #[tactic(auto, using(crate::proofs::ListLaws::mapped_last))]
    fn put_declarator(&mut self, initialised: bool) -> Result<(), AllocError>
        ensures { IfOk result (λ done. self.new ≡ v.Declarators (and_then (declarators_in (second (under_parent initialised self.old))) (p.declarator (name_in (first (under_parent initialised self.old))) (parent_in initialised self.old))) ∷ rest (rest (under_parent initialised self.old))) }
    {
        let value = self.take_expression_if(initialised);
        let own = self.take_name();
        let Kept { tree, nesting } = both(self.take_declarators(), value);
        let tree = match tree {
            Some((list, value)) => {
                let (value, (name, list)) = boxed_beside(self.alloc(), value, (own, list))?;
                let trees = push(list.trees, Declarator { name, value })?;
                Some(Declarators { trees })
            }
            None => {
                lose(own);
                None
            }
        };
        self.push(Piece::Declarators(Kept { tree, nesting }))
    }

    // The list of cases, and one more behind it, which may have a test.
    #[tactic(auto, using(crate::proofs::ListLaws::mapped_last))]
    fn put_case(&mut self, tested: bool) -> Result<(), AllocError>
        ensures { IfOk result (λ done. self.new ≡ v.Cases (and_then (cases_in (first (under_parent tested (rest self.old)))) (p.case (parent_in tested (rest self.old)) (statements_in (first self.old)))) ∷ rest (under_parent tested (rest self.old))) }
    {
        let body = self.take_statements();
        let case = both(self.take_expression_if(tested), body);
        let Kept { tree, nesting } = both(self.take_cases(), case);
        let tree = match tree {
            Some((list, (test, body))) => {
                let (test, (body, list)) = boxed_beside(self.alloc(), test, (body, list))?;
                let body = body.trees;
                let trees = push(list.trees, Case { test, body })?;
                Some(Cases { trees })
            }
            None => None,
        };
        self.push(Piece::Cases(Kept { tree, nesting }))
    }
}
