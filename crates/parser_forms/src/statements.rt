//! Statements, form by form (ECMA-262, 14).

ghost use Rattle.std.specs.Prelude.{◌∷◌, Some, None, ◌≡◌, IfOk};
ghost use Rattle.es_model.specs.Tree as t;
ghost use Rattle.parser_forms.specs.Kept.{and_then, around, both as side_by_side, counted as one_more, none};
ghost use Rattle.parser_forms.specs.Shapes as shapes;
ghost use Rattle.parser_forms.specs.Parts as p;
ghost use Rattle.parser_forms.specs.Pieces.{declarators_in, first, fourth, given_expression, given_name, given_statements, head_in, name_in, part_in, rest, second, statement_in, statements_in, third};
ghost use Rattle.parser_forms.specs.declared.pieces.Piece.TheVariants as v;

use crate::keeping::{both, box_beside, counted, lose, push, three_boxes, two_boxes};
use crate::kinds::Bare;
use crate::parts::Kept;
use crate::pieces::Piece;
use crate::readers::boxed_beside;
use crate::shapes::{Bodied, Empty, Valued};
use crate::stack::Stack;
use crate::trees::{HeadTree, OptionalExpression, Statements};
use es_model::{Semi, Statement, StatementForm};
use std::alloc::{AllocError, Global};

fn for_tree(
    alloc: Global,
    head: HeadTree,
    test: OptionalExpression,
    step: OptionalExpression,
    body: Statement,
) -> Result<Statement, AllocError>
    ensures { IfOk result (λ made. made ≡ t.For head test step body) }
{
    let (head, (test, (step, body))) = box_beside(alloc, head.tree, (test, (step, body)))?;
    let (body, (head, (test, step))) = box_beside(alloc, body, (head, (test, step)))?;
    let (test, (head, (step, body))) = boxed_beside(alloc, test, (head, (step, body)))?;
    let (step, (head, (test, body))) = boxed_beside(alloc, step, (head, (test, body)))?;
    let form = StatementForm::For {
        head,
        test,
        step,
        body,
    };
    Ok(Statement { form })
}

impl Stack<Piece> {
    /// No statements.
    pub fn no_statements(&mut self) -> Result<(), AllocError>
        ensures { IfOk result (λ done. self.new ≡ v.Statements none ∷ self.old) }
    {
        self.put_empty(Empty::Statements)
    }

    /// The list of statements, and the statement before behind it.
    #[tactic(auto, using(crate::proofs::ListLaws::listed_last))]
    pub fn and_statement(&mut self) -> Result<(), AllocError>
        ensures { IfOk result (λ done. self.new ≡ v.Statements (and_then (statements_in (second self.old)) (statement_in (first self.old))) ∷ rest (rest self.old)) }
    {
        let last = self.take_statement();
        let Kept { tree, nesting } = both(self.take_statements(), last);
        let tree = match tree {
            Some((list, last)) => {
                let trees = push(list.trees, last)?;
                Some(Statements { trees })
            }
            None => None,
        };
        self.push(Piece::Statements(Kept { tree, nesting }))
    }

    /// A statement with nothing in it.
    pub fn bare(&mut self, of: Bare) -> Result<(), AllocError>
        ensures { IfOk result (λ done. self.new ≡ v.Statement (p.bare (p.bare_tree of)) ∷ self.old) }
    {
        let form = match of {
            Bare::Empty => StatementForm::Empty,
            Bare::Break { at, semi } => StatementForm::Break { at, semi },
            Bare::Continue { at, semi } => StatementForm::Continue { at, semi },
        };
        let tree = Some(Statement { form });
        self.push(Piece::Statement(Kept { tree, nesting: 1 }))
    }

    /// An expression as a statement.
    pub fn value(&mut self, semi: Semi) -> Result<(), AllocError>
        ensures { IfOk result (λ done. self.new ≡ v.Statement (p.value (part_in (first self.old)).of semi) ∷ rest self.old) }
    {
        self.put_valued(Valued::Value { semi })
    }

    /// `let` or `const` with its names.
    pub fn declare(&mut self, constant: bool, semi: Semi) -> Result<(), AllocError>
        ensures { IfOk result (λ done. self.new ≡ v.Statement (p.declare constant (declarators_in (first self.old)) semi) ∷ rest self.old) }
    {
        let Kept { tree, nesting } = counted(self.take_declarators());
        let tree = match tree {
            Some(names) => {
                let names = names.trees;
                let form = StatementForm::Declare {
                    constant,
                    names,
                    semi,
                };
                Some(Statement { form })
            }
            None => None,
        };
        self.push(Piece::Statement(Kept { tree, nesting }))
    }

    /// A block.
    pub fn block(&mut self) -> Result<(), AllocError>
        ensures { IfOk result (λ done. self.new ≡ v.Statement (p.block (statements_in (first self.old))) ∷ rest self.old) }
    {
        let Kept { tree, nesting } = counted(self.take_statements());
        let tree = match tree {
            Some(statements) => {
                let form = StatementForm::Block(statements.trees);
                Some(Statement { form })
            }
            None => None,
        };
        self.push(Piece::Statement(Kept { tree, nesting }))
    }

    /// `if` without `else`.
    pub fn choice(&mut self) -> Result<(), AllocError>
        ensures { IfOk result (λ done. self.new ≡ v.Statement (p.choice (part_in (second self.old)).of (statement_in (first self.old)) None) ∷ rest (rest self.old)) }
    {
        self.put_bodied(Bodied::If)
    }

    /// `if` with `else`.
    pub fn choice_else(&mut self) -> Result<(), AllocError>
        ensures { IfOk result (λ done. self.new ≡ v.Statement (p.choice (part_in (third self.old)).of (statement_in (second self.old)) (Some (statement_in (first self.old)))) ∷ rest (rest (rest self.old))) }
    {
        let other = self.take_statement();
        let first = self.take_statement();
        let arms = both(self.take_expression(), first);
        let Kept { tree, nesting } = counted(both(arms, other));
        let tree = match tree {
            Some(((test, yes), other)) => {
                let (test, yes, other) = three_boxes(self.alloc(), test, yes, other)?;
                let other = Some(other);
                let form = StatementForm::If { test, yes, other };
                Some(Statement { form })
            }
            None => None,
        };
        self.push(Piece::Statement(Kept { tree, nesting }))
    }

    /// `for`.
    pub fn for_loop(&mut self) -> Result<(), AllocError>
        ensures { IfOk result (λ done. self.new ≡ v.Statement (p.for_loop (head_in (fourth self.old)) (given_expression (third self.old)) (given_expression (second self.old)) (statement_in (first self.old))) ∷ rest (rest (rest (rest self.old)))) }
    {
        let body = self.take_statement();
        let step = self.take_given_expression();
        let test = self.take_given_expression();
        let first = both(self.take_head_tree(), test);
        let Kept { tree, nesting } = counted(both(both(first, step), body));
        let tree = match tree {
            Some((((head, test), step), body)) => Some(for_tree(
                self.alloc(),
                head,
                test,
                step,
                body,
            )?),
            None => None,
        };
        self.push(Piece::Statement(Kept { tree, nesting }))
    }

    /// `while`.
    pub fn while_loop(&mut self) -> Result<(), AllocError>
        ensures { IfOk result (λ done. self.new ≡ v.Statement (p.while_loop (part_in (second self.old)).of (statement_in (first self.old))) ∷ rest (rest self.old)) }
    {
        self.put_bodied(Bodied::While)
    }

    /// `do` and `while`.
    pub fn do_loop(&mut self, semi: Semi) -> Result<(), AllocError>
        ensures { IfOk result (λ done. self.new ≡ v.Statement (p.do_loop (statement_in (second self.old)) (part_in (first self.old)).of semi) ∷ rest (rest self.old)) }
    {
        let test = self.take_expression();
        let Kept { tree, nesting } = counted(both(self.take_statement(), test));
        let tree = match tree {
            Some((body, test)) => {
                let (body, test) = two_boxes(self.alloc(), body, test)?;
                let form = StatementForm::DoWhile { body, test, semi };
                Some(Statement { form })
            }
            None => None,
        };
        self.push(Piece::Statement(Kept { tree, nesting }))
    }

    /// `return` with a value.
    pub fn return_value(&mut self, at: u32, semi: Semi) -> Result<(), AllocError>
        ensures { IfOk result (λ done. self.new ≡ v.Statement (p.return at (Some (part_in (first self.old)).of) semi) ∷ rest self.old) }
    {
        self.put_valued(Valued::Return { at, semi })
    }

    /// `return` without a value.
    pub fn return_nothing(&mut self, at: u32, semi: Semi) -> Result<(), AllocError>
        ensures { IfOk result (λ done. self.new ≡ v.Statement (p.return at None semi) ∷ self.old) }
    {
        let value = None;
        let form = StatementForm::Return { at, value, semi };
        let tree = Some(Statement { form });
        self.push(Piece::Statement(Kept { tree, nesting: 1 }))
    }

    /// `throw`.
    pub fn throw(&mut self, semi: Semi) -> Result<(), AllocError>
        ensures { IfOk result (λ done. self.new ≡ v.Statement (p.throw (part_in (first self.old)).of semi) ∷ rest self.old) }
    {
        self.put_valued(Valued::Throw { semi })
    }

    /// `try` with `catch` and without `finally`.
    pub fn guarded(&mut self) -> Result<(), AllocError>
        ensures { IfOk result (λ done. self.new ≡ v.Statement (p.guarded (statements_in (third self.old)) (given_name (second self.old)) (Some (statements_in (first self.old))) None) ∷ rest (rest (rest self.old))) }
    {
        self.given_statements()?;
        self.nothing()?;
        self.put_guarded()
    }

    /// `try` with `finally`, and perhaps with `catch`.
    pub fn guarded_finally(&mut self) -> Result<(), AllocError>
        ensures { IfOk result (λ done. self.new ≡ v.Statement (p.guarded (statements_in (fourth self.old)) (given_name (third self.old)) (given_statements (second self.old)) (Some (statements_in (first self.old)))) ∷ rest (rest (rest (rest self.old)))) }
    {
        self.given_statements()?;
        self.put_guarded()
    }

    // A statement round the expression before.
    fn put_valued(&mut self, form: Valued) -> Result<(), AllocError>
        ensures { IfOk result (λ done. self.new ≡ v.Statement (one_more (around (shapes.valued form) (part_in (first self.old)).of)) ∷ rest self.old) }
    {
        let Kept { tree, nesting } = self.take_counted_expression()?;
        let tree = match tree {
            Some(value) => {
                let form = match form {
                    Valued::Value { semi } => StatementForm::Value { value, semi },
                    Valued::Return { at, semi } => StatementForm::Return {
                        at,
                        value: Some(value),
                        semi,
                    },
                    Valued::Throw { semi } => StatementForm::Throw { value, semi },
                };
                Some(Statement { form })
            }
            None => None,
        };
        self.push(Piece::Statement(Kept { tree, nesting }))
    }

    // A statement round an expression and the statement behind it.
    fn put_bodied(&mut self, form: Bodied) -> Result<(), AllocError>
        ensures { IfOk result (λ done. self.new ≡ v.Statement (one_more (side_by_side (shapes.bodied form) (part_in (second self.old)).of (statement_in (first self.old)))) ∷ rest (rest self.old)) }
    {
        let body = self.take_statement();
        let Kept { tree, nesting } = counted(both(self.take_expression(), body));
        let tree = match tree {
            Some((test, body)) => {
                let (test, body) = two_boxes(self.alloc(), test, body)?;
                let form = match form {
                    Bodied::While => StatementForm::While { test, body },
                    Bodied::If => StatementForm::If {
                        test,
                        yes: body,
                        other: None,
                    },
                };
                Some(Statement { form })
            }
            None => None,
        };
        self.push(Piece::Statement(Kept { tree, nesting }))
    }

    // `try` with what follows its block, of which each may be left out.
    fn put_guarded(&mut self) -> Result<(), AllocError>
        ensures { IfOk result (λ done. self.new ≡ v.Statement (p.guarded (statements_in (fourth self.old)) (given_name (third self.old)) (given_statements (second self.old)) (given_statements (first self.old))) ∷ rest (rest (rest (rest self.old)))) }
    {
        let finally = self.take_given_statements();
        let catch = self.take_given_statements();
        let caught = self.take_given_name();
        let block = both(self.take_statements(), catch);
        let Kept { tree, nesting } = counted(both(block, finally));
        let tree = match tree {
            Some(((block, catch), finally)) => {
                let form = StatementForm::Try {
                    block: block.trees,
                    name: caught,
                    catch: catch.trees,
                    finally: finally.trees,
                };
                Some(Statement { form })
            }
            None => {
                lose(caught);
                None
            }
        };
        self.push(Piece::Statement(Kept { tree, nesting }))
    }

    /// The expression before, as one that isn't left out.
    pub fn given_expression(&mut self) -> Result<(), AllocError>
        ensures { IfOk result (λ done. self.new ≡ v.Part (part_in (first self.old)) ∷ rest self.old) }
    {
        let part = self.take_part();
        self.push(Piece::Part(part))
    }

    /// The list of statements before, as one that isn't left out.
    pub fn given_statements(&mut self) -> Result<(), AllocError>
        ensures { IfOk result (λ done. self.new ≡ v.Statements (statements_in (first self.old)) ∷ rest self.old) }
    {
        let list = self.take_statements();
        self.push(Piece::Statements(list))
    }

    /// The name before, as one that isn't left out.
    pub fn given_name(&mut self) -> Result<(), AllocError>
        ensures { IfOk result (λ done. self.new ≡ v.Name (name_in (first self.old)) ∷ rest self.old) }
    {
        let name = self.take_name();
        self.push(Piece::Name(name))
    }
}
