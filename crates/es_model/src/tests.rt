//! Each call once, with values from the lists of words and from the rules of nesting.

use crate::{
    Case, Class, Default, Expression, ExpressionForm, Function, FunctionBody, FunctionKind, Item,
    Key, Member, MemberKind, Module, Semi, Statement, StatementForm, Token, TokenKind, Tokens,
    TreeList, Words, function_count, keyword_text, nesting, sign_text,
};
use std::alloc::{AllocError, Global};
use std::test::Fail;

// `await`, `yield`, `if` and `async` with the places of keywords.
const KEYWORDS: [(&[u16], Option<u8>); 4] = [
    (&[0x61, 0x77, 0x61, 0x69, 0x74], Some(0)),
    (&[0x79, 0x69, 0x65, 0x6C, 0x64], Some(45)),
    (&[0x69, 0x66], Some(19)),
    (&[0x61, 0x73, 0x79, 0x6E, 0x63], None),
];

// `{`, `=>`, `>>>=`, `?.` and the empty text with the places of signs.
const SIGNS: [(&[u16], Option<u8>); 5] = [
    (&[0x7B], Some(0)),
    (&[0x3D, 0x3E], Some(51)),
    (&[0x3E, 0x3E, 0x3E, 0x3D], Some(47)),
    (&[0x3F, 0x2E], None),
    (&[], None),
];

#[test]
fn keywords_by_text(rt: HostRuntime) {
    let words = Words::new();
    for (text, place) in KEYWORDS {
        assert_eq!(rt; words.keyword(text), place);
    }
}

#[test]
fn signs_by_text(rt: HostRuntime) {
    let words = Words::new();
    for (text, place) in SIGNS {
        assert_eq!(rt; words.sign(text), place);
    }
}

#[test]
fn texts_by_place(rt: HostRuntime) {
    assert_eq!(rt; (keyword_text(18), sign_text(35)), ("function", "??"));
}

#[test]
fn tokens_in_order(rt: HostRuntime) -> Result<(), AllocError> {
    let mut tokens = Tokens::new(rt.alloc());
    tokens.push(token(TokenKind::Number(7), 2))?;
    tokens.push(token(TokenKind::End, 3))?;
    let places = match tokens.as_slice() {
        [first, last] => Some((first.at, last.at)),
        _ => None,
    };
    assert_eq!(rt; places, Some((2, 3)));
    Ok(())
}

fn token(kind: TokenKind, at: u32) -> Token {
    Token {
        kind,
        at,
        line_before: false,
    }
}

#[test]
fn items_in_order(rt: HostRuntime) -> Result<(), AllocError> {
    let mut list = TreeList::new(rt.alloc());
    list.push(5u32)?;
    list.push(4)?;
    assert_eq!(rt; list.as_slice(), [5, 4].as_slice());
    Ok(())
}

// export default function () { switch (1) { default: ({ 1() { class {} } }); } }
//
// In each other stand the function, the switch, the statement in its case, the parentheses, the object,
// the method, the class statement and the class. The functions are the body, the function, the method
// and the class's constructor.
#[test]
fn counts_of_a_module(rt: HostRuntime) -> Result<(), AllocError> {
    let module = module(rt.alloc())?;
    assert_eq!(rt; (nesting(&module), function_count(&module)), (8, 4));
    Ok(())
}

fn module(alloc: Global) -> Result<Module, AllocError> {
    let function = function(alloc, FunctionKind::Plain, switch(alloc)?)?;
    let item = Item::ExportDefault {
        at: 0,
        value: Default::Function(function),
        semi: Semi::Missing,
    };
    Ok(Module {
        items: single(alloc, item)?,
    })
}

fn switch(alloc: Global) -> Result<Statement, AllocError> {
    let cases = single(alloc, case(alloc)?)?;
    let value = Expression {
        form: ExpressionForm::Number(1),
    };
    Ok(Statement {
        form: StatementForm::Switch {
            value: Box::new(alloc, value)?,
            cases,
        },
    })
}

fn case(alloc: Global) -> Result<Case, AllocError> {
    Ok(Case {
        test: None,
        body: single(alloc, value(alloc)?)?,
    })
}

fn value(alloc: Global) -> Result<Statement, AllocError> {
    Ok(Statement {
        form: StatementForm::Value {
            value: Box::new(alloc, object(alloc)?)?,
            semi: Semi::Written,
        },
    })
}

fn object(alloc: Global) -> Result<Expression, AllocError> {
    let object = Expression {
        form: ExpressionForm::Object(single(alloc, method(alloc)?)?),
    };
    Ok(Expression {
        form: ExpressionForm::Paren(Box::new(alloc, object)?),
    })
}

fn method(alloc: Global) -> Result<Member, AllocError> {
    let function = function(alloc, FunctionKind::Method, class(alloc)?)?;
    Ok(Member {
        at: 0,
        fixed: false,
        kind: MemberKind::Method,
        key: Key::Number(1),
        value: None,
        function: Some(Box::new(alloc, function)?),
    })
}

fn class(alloc: Global) -> Result<Statement, AllocError> {
    let class = Class {
        at: 0,
        name: None,
        parent: None,
        members: TreeList::new(alloc),
    };
    Ok(Statement {
        form: StatementForm::Class(Box::new(alloc, class)?),
    })
}

fn function(
    alloc: Global,
    kind: FunctionKind,
    statement: Statement,
) -> Result<Function, AllocError> {
    Ok(Function {
        at: 0,
        name: None,
        kind,
        parameters: TreeList::new(alloc),
        body: FunctionBody::Statements(single(alloc, statement)?),
    })
}

fn single<T: Drop>(alloc: Global, item: T) -> Result<TreeList<T>, AllocError> {
    let mut list = TreeList::new(alloc);
    list.push(item)?;
    Ok(list)
}
