//! Texts through the lexer and the parser: the module, or the place of the first token that no module goes on
//! with, as worked out from the grammar by hand.

ghost use Rattle.std.specs.Prelude.{◌≤◌, length};

use crate::parsed;
use es_model::{Item, Module, Semi, StatementForm, nesting};
use std::alloc::{AllocError, Global};
use std::test::Fail;

// At most as many bytes as a text may have.
fn front(text: &[u8]) -> &[u8]
    ensures { length result.now ≤ 268435456 }
{
    &text[..text.len().min(268_435_456)]
}

fn shown(alloc: Global, text: &[u8]) -> Result<String, AllocError> {
    match parsed(alloc, front(text)) {
        Err(fault) => format!(in alloc; "{fault:?}"),
        Ok(Err(fault)) => format!(in alloc; "{fault:?}"),
        Ok(Ok(module)) => format!(in alloc; "nesting {}", nesting(&module)),
    }
}

// The first row of a table at whose place the parser doesn't fail.
fn missed(alloc: Global, rows: &[(&'static str, u32)]) -> Result<Option<&'static str>, AllocError> {
    for (text, place) in rows {
        let wanted = format!(in alloc; "Syntax({})", *place)?;
        if shown(alloc, text.as_bytes())?.as_str() != wanted.as_str() {
            return Ok(Some(*text));
        }
    }
    Ok(None)
}

// The first text that is no module.
fn refused(alloc: Global, texts: &[&'static str]) -> Option<&'static str> {
    for text in texts {
        if !matches!(parsed(alloc, front(text.as_bytes())), Ok(Ok(_))) {
            return Some(*text);
        }
    }
    None
}

fn push_often(text: &mut Vec<u8>, part: u8, times: usize) -> Result<(), AllocError> {
    for _ in 0..times {
        text.push(part)?;
    }
    Ok(())
}

// A number in so many parentheses.
fn enclosed(alloc: Global, times: usize) -> Result<Vec<u8>, AllocError> {
    let mut text = Vec::new(alloc);
    push_often(&mut text, b'(', times)?;
    text.push(b'1')?;
    push_often(&mut text, b')', times)?;
    text.push(b';')?;
    Ok(text)
}

#[test]
fn parentheses(rt: HostRuntime) -> Result<(), Fail> {
    let deepest = enclosed(rt.alloc(), 62)?;
    let deeper = enclosed(rt.alloc(), 63)?;
    let far_deeper = enclosed(rt.alloc(), 100_000)?;
    let mut open = Vec::new(rt.alloc());
    push_often(&mut open, b'(', 100_000)?;
    assert_eq!(rt;
        shown(rt.alloc(), deepest.as_slice())?.as_str(),
        "nesting 64"
    );
    assert_eq!(rt; shown(rt.alloc(), deeper.as_slice())?.as_str(), "TooDeep");
    assert_eq!(rt;
        shown(rt.alloc(), far_deeper.as_slice())?.as_str(),
        "TooDeep"
    );
    assert_eq!(rt;
        shown(rt.alloc(), open.as_slice())?.as_str(),
        "Syntax(100000)"
    );
    Ok(())
}

// The marks of the module's statements that are values.
fn marks(module: &Module) -> (Option<bool>, Option<bool>) {
    match module.items.as_slice() {
        [first, second] => (is_missing(first), is_missing(second)),
        _ => (None, None),
    }
}

fn is_missing(item: &Item) -> Option<bool> {
    match item {
        Item::Plain { statement } => match &statement.form {
            StatementForm::Value { value: _, semi } => Some(*semi == Semi::Missing),
            _ => None,
        },
        _ => None,
    }
}

// `a`, line feed, `++b` is two statements.
#[test]
fn increment_on_the_next_line(rt: HostRuntime) -> Result<(), Fail> {
    let marks = match parsed(rt.alloc(), front(b"a\n++b;")) {
        Ok(Ok(module)) => marks(&module),
        _ => (None, None),
    };
    assert_eq!(rt; marks, (Some(true), Some(false)));
    Ok(())
}

#[test]
fn expressions_missed(rt: HostRuntime) -> Result<(), Fail> {
    let rows = [
        ("-2 ** 2", 2),
        ("1 ?? 2 || 3", 3),
        ("-2 ** 2;", 2),
        ("1 || 2 ?? 3;", 3),
        ("a ? b;", 3),
        ("1 = 2;", 1),
        ("++a ++;", 2),
        ("a b;", 1),
        ("* a;", 0),
        ("()\n=> 1;", 2),
        ("1 + () => a;", 3),
        ("(a + b) => 1;", 5),
        ("a => {} + 1;", 4),
        ("a => ;", 2),
        ("new ++a;", 1),
        ("new a(;", 3),
        ("a[b,];", 4),
        ("[, a];", 1),
        ("f(, a);", 2),
        ("a ? (b);", 5),
        ("a ?? = b;", 2),
        ("`a${}b`;", 1),
        ("await a;", 0),
        ("new.target;", 1),
        ("enum A {}", 0),
        ("(", 1),
        ("(a];", 2),
        ("in a;", 0),
        ("\"a\" = 1;", 1),
        ("`a` = 1;", 1),
        ("f(...a);", 2),
        ("[...a];", 1),
        ("[a,, b];", 3),
        ("[a] = b;", 3),
        ("({a} = b);", 4),
        ("a?.b;", 2),
        ("a &&= b;", 2),
        ("a`b`;", 1),
        ("a = /b/;", 2),
        ("a = import(b);", 2),
        ("import.meta;", 1),
        ("yield a;", 0),
        ("async a => b;", 1),
    ];
    assert_eq!(rt; missed(rt.alloc(), &rows)?, None);
    Ok(())
}

#[test]
fn members_missed(rt: HostRuntime) -> Result<(), Fail> {
    let rows = [
        ("({a b});", 3),
        ("({a,, b});", 4),
        ("({\"a\"});", 3),
        ("({a;", 3),
        ("({get a});", 4),
        ("({a() {}; b() {}});", 7),
        ("({async a() {}});", 3),
        ("({set a(b, c) {}});", 6),
        ("function () {}", 1),
        ("function f(a b) {}", 4),
        ("function f();", 4),
        ("function f({a}) {}", 3),
        ("(function () {};", 6),
        ("(a = 1) => a;", 5),
        ("class if {}", 1),
        ("class A extends ++a {}", 3),
        ("class A extends a + b {}", 4),
        ("class A { a() {}, b() {} }", 8),
        ("class A { a; }", 4),
        ("class A { static a; }", 5),
        ("class A {", 3),
        ("class A { get set a() {} }", 5),
        ("function* f() {}", 1),
        ("({* a() {}});", 2),
        ("function f(...a) {}", 3),
        ("function f(a = 1) {}", 4),
        ("class A { a = 1; }", 4),
        ("class A { static {} }", 4),
    ];
    assert_eq!(rt; missed(rt.alloc(), &rows)?, None);
    Ok(())
}

#[test]
fn statements_missed(rt: HostRuntime) -> Result<(), Fail> {
    let rows = [
        ("var a;", 0),
        ("for (a in b) ;", 5),
        ("let [a] = b;", 1),
        ("throw\na;", 1),
        ("let a = 1 b;", 4),
        ("let a\n+ b;", 2),
        ("a {}", 1),
        ("do ; while a;", 3),
        ("if (a) b else c;", 5),
        ("if (a) else ;", 4),
        ("while (a) class A {}", 4),
        ("while a ;", 1),
        ("try a;", 1),
        ("try {} finally {} catch {}", 6),
        ("try {} catch ({a}) {}", 5),
        ("switch (a) { case : }", 6),
        ("switch (a) case b:", 4),
        ("switch (a) { default: ; case 1: ; default: }", 12),
        ("for (;;;) ;", 4),
        ("for (a\nb;;) ;", 3),
        ("for (;;)", 5),
        ("let;", 1),
        ("let 1;", 1),
        ("{", 1),
        ("{ import \"m\"; }", 1),
        ("if (a) import \"m\";", 4),
        ("a: b;", 1),
        ("for (let a in b) ;", 4),
        ("for (const a of b) ;", 4),
        ("for await (a of b) ;", 1),
        ("async function f() {}", 1),
        ("let {a} = b;", 1),
        ("debugger;", 0),
        ("with (a) b;", 0),
    ];
    assert_eq!(rt; missed(rt.alloc(), &rows)?, None);
    Ok(())
}

#[test]
fn items_missed(rt: HostRuntime) -> Result<(), Fail> {
    let rows = [
        ("import a;", 2),
        ("import {a b} from \"m\";", 3),
        ("import {a as default} from \"m\";", 4),
        ("import;", 1),
        ("import {\"a\" as b} from \"m\";", 2),
        ("import \"m\" a;", 2),
        ("import a from b;", 3),
        ("import {if} from \"m\";", 2),
        ("import {,} from \"m\";", 2),
        ("import {a;", 3),
        ("export {a as \"b\"};", 4),
        ("export {default as a};", 6),
        ("export default a, b;", 3),
        ("export default const a = 1;", 2),
        ("export if (a) ;", 1),
        ("export {a}\nfrom;", 5),
        ("export {a}\n(b);", 4),
        ("export default async function f() {}", 3),
        ("export class {}", 2),
        ("export export {};", 1),
        ("import * as a from \"m\";", 1),
        ("export * from \"m\";", 1),
        ("import \"m\" with {};", 2),
        ("import(a);", 1),
    ];
    assert_eq!(rt; missed(rt.alloc(), &rows)?, None);
    Ok(())
}

#[test]
fn expressions_read(rt: HostRuntime) {
    let texts = [
        "1;",
        "a + b * c - d % 2 ** 3 ** 4;",
        "a < b == c >= d !== e in f instanceof g;",
        "a ?? b | c ?? d;",
        "! - + ~ typeof void delete a.b;",
        "++a; a++; --a.b; (a)--;",
        "a = b += c[d] **= 2;",
        "a.b[c].d(e, f,)(g).if;",
        "[]; [1]; [1, \"s\", null,];",
        "`a`; `a${b}c${d, e}`;",
        "a => b; () => {}; (a) => 1; (a, b,) => a;",
        "if (a) b; if (a) b; else if (c) d; else { }",
        "let a \n { b } \n c",
        "a || b && c; a && b || c;",
        "a == b < c; a < b == c;",
        "a - b - c;",
        "a ^ b ^ c;",
        "a <= b <= c;",
        "a ** b ** c;",
        "a < b in c < d;",
        "a ** -b;",
        "!a.b(c); typeof a[b];",
        "a\n--\nb",
        "a = b || c;",
        "a += b;",
        "a |= b;",
        "a => b;",
        "(a, b) => c;",
        "a => {};",
        "a => b = c;",
        "a ? b => c : d => e;",
        "[a => b];",
        "(a => b)(c);",
        "new a.b;",
        "new new a(b);",
        "new class {}();",
        "new a\n(b)",
        "a()()[b]().c;",
        "`a${`b${c}`}d`;",
    ];
    assert_eq!(rt; refused(rt.alloc(), &texts), None);
}

#[test]
fn statements_read(rt: HostRuntime) {
    let texts = [
        "({get, set});",
        "({get: a, set: b});",
        "({get \"a\"() {}, get 1() {}, set [b](c) {}, get if() {}});",
        "({a: b, \"c\": d, 1: e, [f]: g, h});",
        "({a(b, c,) { return b; }});",
        "class A { ; a() {} ; ; b() {} ; }",
        "class A { a() {} b() {} }",
        "class A extends B { static constructor() {} }",
        "class A { get constructor() {} }",
        "class A { \"a\"() {} 1() {} [b]() {} if() {} get() {} }",
        "class A extends {} {}",
        "(class {}); (class A {}); (class extends B {});",
        "function f() {} function g(a) {} function h(a, b,) {}",
        "a",
        "a\n!b",
        "a\n+ b\n- c",
        "a\nin b",
        "{ break }",
        "return a\nb",
        "do a\nwhile (b)",
        "if (a) { if (b) c; } else d;",
        "if (a) b\nelse c",
        "for (a, b; c, d; e, f) ;",
        "for (let a\n;\n;\n) ;",
        "try {} catch (a) {} finally {}",
        "switch (a) { default: case b: }",
        "import \"m\";",
        "import {} from \"m\"",
        "import a, {b, c as d, default as e,} from \"m\";",
        "import from from \"m\";",
        "import {as} from \"m\"; import {as as as} from \"m\";",
        "export {a, b as c, d as default,};",
        "export {a}\nb",
        "export {a, default, default as b, c as default} from \"m\";",
        "export default a = b;",
        "export default {};",
        "export default () => {}",
        "export default function () {};",
        "export default (class {}).a;",
    ];
    assert_eq!(rt; refused(rt.alloc(), &texts), None);
}
