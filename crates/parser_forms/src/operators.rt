//! Expressions with operators, form by form (ECMA-262, 13.4 to 13.16).

ghost use Rattle.std.specs.Prelude.{◌∷◌, [], ◌++◌, ◌≡◌, IfOk, false};
ghost use Rattle.parser_forms.specs.Kept.{both as side_by_side, counted as one_more};
ghost use Rattle.parser_forms.specs.Parts as p;
ghost use Rattle.parser_forms.specs.Shapes as shapes;
ghost use Rattle.parser_forms.specs.declared.kinds.Infix.TheVariants as infixes;
ghost use Rattle.parser_forms.specs.declared.parts.Heading.TheVariants as headings;
ghost use Rattle.parser_forms.specs.Pieces.{first, part_in, rest, second, third};
ghost use Rattle.parser_forms.specs.declared.pieces.Piece.TheVariants as v;

use crate::keeping::{both, counted, lose, push, three_boxes, two_boxes};
use crate::kinds::{Infix, Prefix, infix_level};
use crate::parts::{Heading, Kept, Part};
use crate::pieces::Piece;
use crate::shapes::{Joining, Standing, Wrapping};
use crate::stack::Stack;
use es_model::{BinaryOperator, Expression, ExpressionForm, Identifier, TreeList};
use std::alloc::{AllocError, Global};

fn joined(
    alloc: Global,
    form: Joining,
    left: Kept<Expression>,
    right: Kept<Expression>,
) -> Result<Kept<Expression>, AllocError>
    ensures { IfOk result (λ made. made ≡ one_more (side_by_side (shapes.joined form) left right)) }
{
    let Kept { tree, nesting } = counted(both(left, right));
    let tree = match tree {
        Some((left, right)) => {
            let (left, right) = two_boxes(alloc, left, right)?;
            let form = match form {
                Joining::Index => ExpressionForm::Index {
                    of: left,
                    key: right,
                },
                Joining::Assign { at, operator } => ExpressionForm::Assign {
                    at,
                    target: left,
                    operator,
                    value: right,
                },
                Joining::Operation(operator) => match operator {
                    Infix::Binary(operator) => ExpressionForm::Binary {
                        operator,
                        left,
                        right,
                    },
                    Infix::In => ExpressionForm::In { left, right },
                    Infix::InstanceOf => ExpressionForm::InstanceOf { left, right },
                    Infix::And => ExpressionForm::And { left, right },
                    Infix::Or => ExpressionForm::Or { left, right },
                    Infix::Nullish => ExpressionForm::Nullish { left, right },
                    Infix::Comma => ExpressionForm::Comma { left, right },
                },
            };
            Some(Expression { form })
        }
        None => None,
    };
    Ok(Kept { tree, nesting })
}

// Two names are a list of names.
fn name_beside(alloc: Global, first: Identifier, right: Heading) -> Result<Heading, AllocError>
    ensures { IfOk result (λ made. made ≡ p.listed_names (headings.Name first) right) }
{
    match right {
        Heading::Name(last) => {
            let names = push(TreeList::new(alloc), first)?;
            Ok(Heading::Names(push(names, last)?))
        }
        other => {
            lose(other);
            lose(first);
            Ok(Heading::Nothing)
        }
    }
}

// A list of names goes on with a name.
fn names_beside(names: TreeList<Identifier>, right: Heading) -> Result<Heading, AllocError>
    ensures { IfOk result (λ made. made ≡ p.listed_names (headings.Names names) right) }
{
    match right {
        Heading::Name(last) => Ok(Heading::Names(push(names, last)?)),
        other => {
            lose(other);
            lose(names);
            Ok(Heading::Nothing)
        }
    }
}

// Names with a comma between are a list of names.
fn listed_names(alloc: Global, left: Heading, right: Heading) -> Result<Heading, AllocError>
    ensures { IfOk result (λ made. made ≡ p.listed_names left right) }
{
    match left {
        Heading::Name(first) => name_beside(alloc, first, right),
        Heading::Names(names) => names_beside(names, right),
        other => {
            lose(other);
            lose(right);
            Ok(Heading::Nothing)
        }
    }
}

impl Stack<Piece> {
    /// `++` or `--` before its operand.
    pub fn update_before(&mut self, at: u32, up: bool) -> Result<(), AllocError>
        ensures { IfOk result (λ done. self.new ≡ v.Part (p.update_before at up (part_in (first self.old))) ∷ rest self.old) }
    {
        let form = Wrapping::Update {
            at,
            up,
            prefix: true,
        };
        self.wrap(form, Standing::plain(at, 16))
    }

    /// `++` or `--` behind its operand.
    pub fn update_behind(&mut self, up: bool) -> Result<(), AllocError>
        ensures { IfOk result (λ done. self.new ≡ v.Part (p.update_behind up (part_in (first self.old))) ∷ rest self.old) }
    {
        let at = self.at();
        let form = Wrapping::Update {
            at,
            up,
            prefix: false,
        };
        self.wrap(form, Standing::plain(at, 16))
    }

    /// An operator before its operand.
    pub fn prefix_form(&mut self, operator: Prefix, at: u32) -> Result<(), AllocError>
        ensures { IfOk result (λ done. self.new ≡ v.Part (p.prefix_form operator at (part_in (first self.old))) ∷ rest self.old) }
    {
        self.wrap(Wrapping::Before { operator, at }, Standing::plain(at, 15))
    }

    /// An operator between its operands.
    pub fn operation(&mut self, operator: Infix) -> Result<(), AllocError>
        ensures { IfOk result (λ done. self.new ≡ v.Part (p.operation operator (part_in (second self.old)) (part_in (first self.old))) ∷ rest (rest self.old)) }
    {
        match operator {
            Infix::Comma => self.comma(),
            _ => {
                let right = self.take_expression();
                let standing = Standing {
                    at: self.at(),
                    level: infix_level(operator),
                    is_target: false,
                    is_nullish: matches!(operator, Infix::Nullish),
                    is_bare_new: false,
                    has_call: false,
                };
                let left = self.take_expression();
                self.join(Joining::Operation(operator), left, right, standing)
            }
        }
    }

    /// A test with `?` and `:`.
    pub fn conditional(&mut self) -> Result<(), AllocError>
        ensures { IfOk result (λ done. self.new ≡ v.Part (p.conditional (part_in (third self.old)) (part_in (second self.old)) (part_in (first self.old))) ∷ rest (rest (rest self.old))) }
    {
        let other = self.take_expression();
        let first = self.take_expression();
        let at = self.at();
        let arms = both(self.take_expression(), first);
        let Kept { tree, nesting } = counted(both(arms, other));
        let tree = match tree {
            Some(((test, first), other)) => {
                let (test, yes, no) = three_boxes(self.alloc(), test, first, other)?;
                let form = ExpressionForm::Conditional { test, yes, no };
                Some(Expression { form })
            }
            None => None,
        };
        self.put_part(Kept { tree, nesting }, Standing::plain(at, 3))
    }

    /// An assignment: `=`, or the compound one of an operator.
    pub fn assign(&mut self, operator: Option<BinaryOperator>) -> Result<(), AllocError>
        ensures { IfOk result (λ done. self.new ≡ v.Part (p.assign (part_in (second self.old)) operator (part_in (first self.old))) ∷ rest (rest self.old)) }
    {
        let value = self.take_expression();
        let at = self.at();
        let target = self.take_expression();
        let form = Joining::Assign { at, operator };
        self.join(form, target, value, Standing::plain(at, 2))
    }

    // An expression round two.
    pub(crate) fn join(
        &mut self,
        form: Joining,
        left: Kept<Expression>,
        right: Kept<Expression>,
        standing: Standing,
    ) -> Result<(), AllocError>
        ensures { IfOk result (λ done. self.new ≡ v.Part (shapes.standing (one_more (side_by_side (shapes.joined form) left right)) standing) ∷ self.old) }
    {
        let of = joined(self.alloc(), form, left, right)?;
        self.put_part(of, standing)
    }

    // Two expressions with a comma between.
    fn comma(&mut self) -> Result<(), AllocError>
        ensures { IfOk result (λ done. self.new ≡ v.Part (p.operation infixes.Comma (part_in (second self.old)) (part_in (first self.old))) ∷ rest (rest self.old)) }
    {
        let alloc = self.alloc();
        let Part {
            of: right,
            heading: last,
            ..
        } = self.take_part();
        let at = self.at();
        let Part {
            of: left,
            heading: first,
            ..
        } = self.take_part();
        match joined(alloc, Joining::Operation(Infix::Comma), left, right) {
            Ok(of) => self.put_comma(at, of, first, last),
            Err(error) => {
                lose(first);
                lose(last);
                Err(error)
            }
        }
    }

    fn put_comma(
        &mut self,
        at: u32,
        of: Kept<Expression>,
        first: Heading,
        last: Heading,
    ) -> Result<(), AllocError>
        ensures { IfOk result (λ done. self.new ≡ v.Part (record { of = of; at = at; level = 1; is_target = false; is_nullish = false; is_bare_new = false; has_call = false; heading = p.listed_names first last }) ∷ self.old) }
    {
        match listed_names(self.alloc(), first, last) {
            Ok(heading) => self.push(Piece::Part(Part {
                of,
                at,
                level: 1,
                is_target: false,
                is_nullish: false,
                is_bare_new: false,
                has_call: false,
                heading,
            })),
            Err(error) => {
                lose(of);
                Err(error)
            }
        }
    }
}
