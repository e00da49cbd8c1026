//! Operands, form by form (ECMA-262, 13.2 and 13.3). Each call takes the parts of a form from the store,
//! and puts there what they make. A tree is made only where its nesting is at most 64; else the trees of
//! its parts are dropped. The one error is want of memory.

ghost use Rattle.std.specs.Prelude.{◌∷◌, ◌++◌, [], ◌≡◌, IfOk, false};
ghost use Rattle.parser_forms.specs.Kept.{and_then, around, counted as one_more, none};
ghost use Rattle.es_model.specs.Tree as t;
ghost use Rattle.parser_forms.specs.Shapes as shapes;
ghost use Rattle.parser_forms.specs.Parts as p;
ghost use Rattle.parser_forms.specs.Pieces.{expressions_in, first, members_in, part_in, rest, second, texts_in, third};
ghost use Rattle.parser_forms.specs.declared.pieces.Piece.TheVariants as v;

use crate::keeping::{both, box_beside, counted, counted_box, lose, push};
use crate::kinds::Prefix;
use crate::parts::{Heading, Kept, Literal, Part};
use crate::pieces::Piece;
use crate::shapes::{Empty, Joining, Standing, Wrapping};
use crate::stack::Stack;
use crate::texts::copy_of;
use crate::trees::Expressions;
use es_model::{Expression, ExpressionForm, Identifier, TreeList};
use js_value::Units;
use std::alloc::{AllocError, Global};

// A name in parentheses is an arrow's head, and so are names with commas between.
fn enclosed(alloc: Global, heading: Heading) -> Result<Heading, AllocError>
    ensures { IfOk result (λ made. made ≡ p.enclosed heading) }
{
    match heading {
        Heading::Name(one) => Ok(Heading::Head(push(TreeList::new(alloc), one)?)),
        Heading::Names(names) => Ok(Heading::Head(names)),
        Heading::Head(_names) => Ok(Heading::Nothing),
        Heading::Nothing => Ok(Heading::Nothing),
    }
}

fn paren_tree(alloc: Global, of: Kept<Expression>) -> Result<Kept<Expression>, AllocError>
    ensures { IfOk result (λ made. made ≡ one_more (around t.Paren of)) }
{
    let Kept { tree, nesting } = counted_box(alloc, of)?;
    let tree = match tree {
        Some(of) => Some(Expression {
            form: ExpressionForm::Paren(of),
        }),
        None => None,
    };
    Ok(Kept { tree, nesting })
}

impl Stack<Piece> {
    /// An expression that is one token, and no name.
    pub fn literal(&mut self, literal: Literal, at: u32) -> Result<(), AllocError>
        ensures { IfOk result (λ done. self.new ≡ v.Part (p.literal literal at) ∷ self.old) }
    {
        let form = match literal {
            Literal::This => ExpressionForm::This,
            Literal::Null => ExpressionForm::Null,
            Literal::True => ExpressionForm::True,
            Literal::False => ExpressionForm::False,
            Literal::Number(number) => ExpressionForm::Number(number),
            Literal::String(text) => ExpressionForm::String(text),
        };
        let tree = Some(Expression { form });
        self.put_part(Kept { tree, nesting: 1 }, Standing::plain(at, 18))
    }

    /// A name as an expression.
    pub fn name(&mut self, at: u32, text: &Units) -> Result<(), AllocError>
        ensures { IfOk result (λ done. self.new ≡ v.Part (p.name (record { at = at; name = text.now })) ∷ self.old) }
    {
        let alloc = self.alloc();
        let name = copy_of(alloc, text)?;
        let again = copy_of(alloc, text)?;
        let form = ExpressionForm::Name(Identifier { at, name });
        self.push(Piece::Part(Part {
            of: Kept {
                tree: Some(Expression { form }),
                nesting: 1,
            },
            at,
            level: 18,
            is_target: true,
            is_nullish: false,
            is_bare_new: false,
            has_call: false,
            heading: Heading::Name(Identifier { at, name: again }),
        }))
    }

    /// No expressions.
    pub fn no_expressions(&mut self) -> Result<(), AllocError>
        ensures { IfOk result (λ done. self.new ≡ v.Expressions none ∷ self.old) }
    {
        self.put_empty(Empty::Expressions)
    }

    /// The list of expressions, and the expression before behind it.
    pub fn and_expression(&mut self) -> Result<(), AllocError>
        ensures { IfOk result (λ done. self.new ≡ v.Expressions (and_then (expressions_in (second self.old)) (part_in (first self.old)).of) ∷ rest (rest self.old)) }
    {
        let last = self.take_expression();
        let list = self.take_expressions();
        self.put_expressions(list, last)
    }

    /// A template that is one text.
    pub fn plain_template(&mut self, at: u32, text: &Units) -> Result<(), AllocError>
        ensures { IfOk result (λ done. self.new ≡ v.Part (p.template at (text.now ∷ []) none) ∷ self.old) }
    {
        self.template_start(text)?;
        self.template(at)
    }

    /// A template up to its first `${`.
    pub fn template_start(&mut self, text: &Units) -> Result<(), AllocError>
        ensures { IfOk result (λ done. self.new ≡ v.Texts (text.now ∷ []) ∷ v.Expressions none ∷ self.old) }
    {
        let alloc = self.alloc();
        self.put_empty(Empty::Expressions)?;
        let texts = push(TreeList::new(alloc), copy_of(alloc, text)?)?;
        self.put_texts(texts)
    }

    /// A template with the expression before, and the text behind it.
    pub fn and_template(&mut self, text: &Units) -> Result<(), AllocError>
        ensures { IfOk result (λ done. self.new ≡ v.Texts (texts_in (second self.old) ++ text.now ∷ []) ∷ v.Expressions (and_then (expressions_in (third self.old)) (part_in (first self.old)).of) ∷ rest (rest (rest self.old))) }
    {
        let text = copy_of(self.alloc(), text)?;
        let last = self.take_expression();
        let mut texts = self.take_texts();
        texts.push(text)?;
        let list = self.take_expressions();
        self.put_expressions(list, last)?;
        self.put_texts(texts)
    }

    /// A template with its texts and what stands between them.
    pub fn template(&mut self, at: u32) -> Result<(), AllocError>
        ensures { IfOk result (λ done. self.new ≡ v.Part (p.template at (texts_in (first self.old)) (expressions_in (second self.old))) ∷ rest (rest self.old)) }
    {
        let texts = self.take_texts();
        let Kept { tree, nesting } = counted(self.take_expressions());
        let tree = match tree {
            Some(values) => {
                let values = values.trees;
                let form = ExpressionForm::Template { texts, values };
                Some(Expression { form })
            }
            None => {
                lose(texts);
                None
            }
        };
        self.put_part(Kept { tree, nesting }, Standing::plain(at, 18))
    }

    /// An array literal.
    pub fn array(&mut self, at: u32) -> Result<(), AllocError>
        ensures { IfOk result (λ done. self.new ≡ v.Part (p.array at (expressions_in (first self.old))) ∷ rest self.old) }
    {
        let Kept { tree, nesting } = counted(self.take_expressions());
        let tree = match tree {
            Some(items) => {
                let form = ExpressionForm::Array(items.trees);
                Some(Expression { form })
            }
            None => None,
        };
        self.put_part(Kept { tree, nesting }, Standing::plain(at, 18))
    }

    /// An object literal.
    pub fn object(&mut self, at: u32) -> Result<(), AllocError>
        ensures { IfOk result (λ done. self.new ≡ v.Part (p.object at (members_in (first self.old))) ∷ rest self.old) }
    {
        let Kept { tree, nesting } = counted(self.take_members());
        let tree = match tree {
            Some(members) => {
                let form = ExpressionForm::Object(members.trees);
                Some(Expression { form })
            }
            None => None,
        };
        self.put_part(Kept { tree, nesting }, Standing::plain(at, 18))
    }

    /// An expression in parentheses, which begin at a place.
    pub fn paren(&mut self, at: u32) -> Result<(), AllocError>
        ensures { IfOk result (λ done. self.new ≡ v.Part (p.paren at (part_in (first self.old))) ∷ rest self.old) }
    {
        let alloc = self.alloc();
        let is_target = self.is_target();
        let Part { of, heading, .. } = self.take_part();
        match paren_tree(alloc, of) {
            Ok(of) => self.put_paren(at, is_target, of, heading),
            Err(error) => {
                lose(heading);
                Err(error)
            }
        }
    }

    /// A member by its name.
    pub fn dot(&mut self, name: Units) -> Result<(), AllocError>
        ensures { IfOk result (λ done. self.new ≡ v.Part (p.dot (part_in (first self.old)) name) ∷ rest self.old) }
    {
        let standing = Standing::target(self.at(), self.has_call());
        let Kept { tree, nesting } = self.take_counted_expression()?;
        let tree = match tree {
            Some(of) => {
                let form = ExpressionForm::Dot { of, name };
                Some(Expression { form })
            }
            None => {
                lose(name);
                None
            }
        };
        self.put_part(Kept { tree, nesting }, standing)
    }

    /// A member by its key.
    pub fn index(&mut self) -> Result<(), AllocError>
        ensures { IfOk result (λ done. self.new ≡ v.Part (p.index (part_in (second self.old)) (part_in (first self.old))) ∷ rest (rest self.old)) }
    {
        let key = self.take_expression();
        let standing = Standing::target(self.at(), self.has_call());
        let of = self.take_expression();
        self.join(Joining::Index, of, key, standing)
    }

    /// A member of `super` by its name.
    pub fn super_dot(&mut self, at: u32, name: Units) -> Result<(), AllocError>
        ensures { IfOk result (λ done. self.new ≡ v.Part (p.super_dot at name) ∷ self.old) }
    {
        let form = ExpressionForm::SuperDot { at, name };
        let tree = Some(Expression { form });
        self.put_part(Kept { tree, nesting: 1 }, Standing::target(at, false))
    }

    /// A member of `super` by its key.
    pub fn super_index(&mut self, at: u32) -> Result<(), AllocError>
        ensures { IfOk result (λ done. self.new ≡ v.Part (p.super_index at (part_in (first self.old))) ∷ rest self.old) }
    {
        self.wrap(Wrapping::SuperIndex { at }, Standing::target(at, false))
    }

    /// A call.
    pub fn call(&mut self) -> Result<(), AllocError>
        ensures { IfOk result (λ done. self.new ≡ v.Part (p.call (part_in (second self.old)) (expressions_in (first self.old))) ∷ rest (rest self.old)) }
    {
        let arguments = self.take_expressions();
        let at = self.at();
        let Kept { tree, nesting } = counted(both(self.take_expression(), arguments));
        let tree = match tree {
            Some((callee, arguments)) => {
                let (callee, arguments) = box_beside(self.alloc(), callee, arguments)?;
                let arguments = arguments.trees;
                let form = ExpressionForm::Call { callee, arguments };
                Some(Expression { form })
            }
            None => None,
        };
        self.put_part(Kept { tree, nesting }, Standing::call(at))
    }

    /// `super` with arguments.
    pub fn super_call(&mut self, at: u32) -> Result<(), AllocError>
        ensures { IfOk result (λ done. self.new ≡ v.Part (p.super_call at (expressions_in (first self.old))) ∷ rest self.old) }
    {
        let Kept { tree, nesting } = counted(self.take_expressions());
        let tree = match tree {
            Some(arguments) => {
                let arguments = arguments.trees;
                let form = ExpressionForm::SuperCall { at, arguments };
                Some(Expression { form })
            }
            None => None,
        };
        self.put_part(Kept { tree, nesting }, Standing::call(at))
    }

    /// `new` with arguments.
    pub fn new_call(&mut self, at: u32) -> Result<(), AllocError>
        ensures { IfOk result (λ done. self.new ≡ v.Part (p.new_call at (part_in (second self.old)) (expressions_in (first self.old))) ∷ rest (rest self.old)) }
    {
        let arguments = self.take_expressions();
        let Kept { tree, nesting } = counted(both(self.take_expression(), arguments));
        let tree = match tree {
            Some((callee, arguments)) => {
                let (callee, arguments) = box_beside(self.alloc(), callee, arguments)?;
                let arguments = Some(arguments.trees);
                let form = ExpressionForm::New { callee, arguments };
                Some(Expression { form })
            }
            None => None,
        };
        self.put_part(Kept { tree, nesting }, Standing::plain(at, 17))
    }

    /// `new` without arguments.
    pub fn bare_new(&mut self, at: u32) -> Result<(), AllocError>
        ensures { IfOk result (λ done. self.new ≡ v.Part (p.bare_new at (part_in (first self.old))) ∷ rest self.old) }
    {
        let standing = Standing {
            at,
            level: 17,
            is_target: false,
            is_nullish: false,
            is_bare_new: true,
            has_call: false,
        };
        self.wrap(Wrapping::BareNew, standing)
    }

    // An expression that is no head of an arrow.
    pub(crate) fn put_part(
        &mut self,
        of: Kept<Expression>,
        standing: Standing,
    ) -> Result<(), AllocError>
        ensures { IfOk result (λ done. self.new ≡ v.Part (shapes.standing of standing) ∷ self.old) }
    {
        self.push(Piece::Part(Part {
            of,
            at: standing.at,
            level: standing.level,
            is_target: standing.is_target,
            is_nullish: standing.is_nullish,
            is_bare_new: standing.is_bare_new,
            has_call: standing.has_call,
            heading: Heading::Nothing,
        }))
    }

    // A list of expressions, and one more behind it.
    #[tactic(auto, using(crate::proofs::ListLaws::listed_last))]
    fn put_expressions(
        &mut self,
        list: Kept<Expressions>,
        last: Kept<Expression>,
    ) -> Result<(), AllocError>
        ensures { IfOk result (λ done. self.new ≡ v.Expressions (and_then list last) ∷ self.old) }
    {
        let Kept { tree, nesting } = both(list, last);
        let tree = match tree {
            Some((list, last)) => {
                let trees = push(list.trees, last)?;
                Some(Expressions { trees })
            }
            None => None,
        };
        self.push(Piece::Expressions(Kept { tree, nesting }))
    }

    // An expression round the one before.
    pub(crate) fn wrap(&mut self, form: Wrapping, standing: Standing) -> Result<(), AllocError>
        ensures { IfOk result (λ done. self.new ≡ v.Part (shapes.standing (one_more (around (shapes.wrapped form) (part_in (first self.old)).of)) standing) ∷ rest self.old) }
    {
        let Kept { tree, nesting } = self.take_counted_expression()?;
        let tree = match tree {
            Some(of) => {
                let form = match form {
                    Wrapping::SuperIndex { at } => ExpressionForm::SuperIndex { at, key: of },
                    Wrapping::BareNew => ExpressionForm::New {
                        callee: of,
                        arguments: None,
                    },
                    Wrapping::Update { at, up, prefix } => ExpressionForm::Update {
                        at,
                        up,
                        prefix,
                        target: of,
                    },
                    Wrapping::Before { operator, at } => match operator {
                        Prefix::Unary(operator) => ExpressionForm::Unary { operator, of },
                        Prefix::Typeof => ExpressionForm::Typeof(of),
                        Prefix::Void => ExpressionForm::Void(of),
                        Prefix::Delete => ExpressionForm::Delete { at, of },
                    },
                };
                Some(Expression { form })
            }
            None => None,
        };
        self.put_part(Kept { tree, nesting }, standing)
    }

    fn put_texts(&mut self, texts: TreeList<Units>) -> Result<(), AllocError>
        ensures { IfOk result (λ done. self.new ≡ v.Texts texts ∷ self.old) }
    {
        self.push(Piece::Texts(texts))
    }

    // An expression in parentheses.
    fn put_paren(
        &mut self,
        at: u32,
        is_target: bool,
        of: Kept<Expression>,
        heading: Heading,
    ) -> Result<(), AllocError>
        ensures { IfOk result (λ done. self.new ≡ v.Part (record { of = of; at = at; level = 18; is_target = is_target; is_nullish = false; is_bare_new = false; has_call = false; heading = p.enclosed heading }) ∷ self.old) }
    {
        match enclosed(self.alloc(), heading) {
            Ok(heading) => self.push(Piece::Part(Part {
                of,
                at,
                level: 18,
                is_target,
                is_nullish: false,
                is_bare_new: false,
                has_call: false,
                heading,
            })),
            Err(error) => {
                lose(of);
                Err(error)
            }
        }
    }
}
