//! Texts through the lexer: the tokens with their places, or the fault, as worked out from the lexical grammar by hand.

ghost use Rattle.std.specs.Prelude.{◌≤◌, length};

use es_model::{Token, TokenKind};
use js_lexer::tokens;
use std::alloc::{AllocError, Global};
use std::test::Fail;

// Letters, digits and other ASCII as they are, other units in hexadecimal.
fn push_units(shown: &mut String, alloc: Global, units: &[u16]) -> Result<(), AllocError> {
    for unit in units {
        if *unit >= 0x20 && *unit < 0x7F {
            shown.push(char::from(*unit as u8))?;
        } else {
            shown.push_str(format!(in alloc; "<{:x}>", *unit)?.as_str())?;
        }
    }
    Ok(())
}

fn sign(mark: bool) -> char {
    if mark { '+' } else { '-' }
}

// N a name, K a keyword, # a number, Q a string, T a template with marks for first and last, S a sign, E the
// end; then the place, and `!` after a line break.
fn push_token(shown: &mut String, alloc: Global, token: &Token) -> Result<(), AllocError> {
    match &token.kind {
        TokenKind::Name(text) => {
            shown.push('N')?;
            push_units(shown, alloc, text.as_slice())?;
        }
        TokenKind::Keyword(place) => shown.push_str(format!(in alloc; "K{}", *place)?.as_str())?,
        TokenKind::Number(value) => shown.push_str(format!(in alloc; "#{}", *value)?.as_str())?,
        TokenKind::String(text) => {
            shown.push('Q')?;
            push_units(shown, alloc, text.as_slice())?;
        }
        TokenKind::Template { text, first, last } => {
            shown.push('T')?;
            shown.push(sign(*first))?;
            shown.push(sign(*last))?;
            push_units(shown, alloc, text.as_slice())?;
        }
        TokenKind::Sign(place) => shown.push_str(format!(in alloc; "S{}", *place)?.as_str())?,
        TokenKind::End => shown.push('E')?,
    }
    shown.push_str(format!(in alloc; "@{}", token.at)?.as_str())?;
    if token.line_before {
        shown.push('!')?;
    }
    Ok(())
}

// At most as many bytes as a text may have.
fn front(text: &[u8]) -> &[u8]
    ensures { length result.now ≤ 268435456 }
{
    &text[..text.len().min(268_435_456)]
}

fn shown(alloc: Global, text: &[u8]) -> Result<String, AllocError> {
    match tokens(alloc, front(text)) {
        Ok(tokens) => {
            let mut shown = String::new(alloc);
            for token in tokens.as_slice() {
                if !shown.is_empty() {
                    shown.push(' ')?;
                }
                push_token(&mut shown, alloc, token)?;
            }
            Ok(shown)
        }
        Err(fault) => format!(in alloc; "{fault:?}"),
    }
}

// The first row of a table that is not as it says.
fn wrong(
    alloc: Global,
    rows: &[(&'static str, &'static str)],
) -> Result<Option<&'static str>, AllocError> {
    for (text, want) in rows {
        if shown(alloc, text.as_bytes())?.as_str() != *want {
            return Ok(Some(*text));
        }
    }
    Ok(None)
}

#[test]
fn gaps_and_words(rt: HostRuntime) -> Result<(), Fail> {
    let rows = [
        ("", "E@0"),
        (" \t\u{B}\u{C}\u{A0}\u{FEFF}\u{1680}\u{3000};", "S6@15 E@16"),
        ("\n;", "S6@1! E@2"),
        ("\r\n;", "S6@2! E@3"),
        ("\u{2028};\u{2029};", "S6@3! S6@7! E@8"),
        ("a\n", "Na@0 E@2!"),
        ("a//x\nb", "Na@0 Nb@5! E@6"),
        ("a//x\u{2028}b", "Na@0 Nb@7! E@8"),
        ("a/*x*/b", "Na@0 Nb@6 E@7"),
        ("a/*\r\n*/b", "Na@0 Nb@7! E@8"),
        ("a/*\u{2029}*/b", "Na@0 Nb@8! E@9"),
        ("/*\n*/", "E@5!"),
        ("/***/;", "S6@5 E@6"),
        ("//", "E@2"),
        ("/*/", "OpenComment(0)"),
        ("a /* *", "OpenComment(2)"),
        ("let a;", "K25@0 Na@4 S6@5 E@6"),
        ("lets", "Nlets@0 E@4"),
        ("$_1", "N$_1@0 E@3"),
        ("\u{E9}a", "N<e9>a@0 E@3"),
        ("a\u{200D}b", "Na<200d>b@0 E@5"),
        ("\u{200D}", "BadCharacter(0)"),
        ("\u{10400}", "N<d801><dc00>@0 E@4"),
        ("a\u{301}", "Na<301>@0 E@3"),
        ("\u{301}", "BadCharacter(0)"),
        ("a.if", "Na@0 S8@1 K19@2 E@4"),
        (
            "of get from as async",
            "Nof@0 Nget@3 Nfrom@7 Nas@12 Nasync@15 E@20",
        ),
        ("yield await", "K45@0 K0@6 E@11"),
        ("#", "BadCharacter(0)"),
        ("#!x", "BadCharacter(0)"),
        ("a.#b", "BadCharacter(2)"),
        ("a @", "BadCharacter(2)"),
        ("\\u0061", "BadCharacter(0)"),
        ("\u{1F600}", "BadCharacter(0)"),
        ("\0", "BadCharacter(0)"),
    ];
    assert_eq!(rt; wrong(rt.alloc(), &rows)?, None);
    Ok(())
}

#[test]
fn signs_and_numbers(rt: HostRuntime) -> Result<(), Fail> {
    let rows = [
        ("/", "S20@0 E@1"),
        ("/=", "S42@0 E@2"),
        ("a/b", "Na@0 S20@1 Nb@2 E@3"),
        ("a>>>=b", "Na@0 S47@1 Nb@5 E@6"),
        (">>>>", "S27@0 S10@3 E@4"),
        ("===!==", "S15@0 S16@3 E@6"),
        ("====", "S15@0 S38@3 E@4"),
        ("**==", "S44@0 S38@3 E@4"),
        ("***", "S22@0 S19@2 E@3"),
        ("<<=<=<", "S45@0 S11@3 S9@5 E@6"),
        ("&&=", "S33@0 S38@2 E@3"),
        ("||=", "S34@0 S38@2 E@3"),
        ("??=", "S35@0 S38@2 E@3"),
        ("?.a", "S36@0 S8@1 Na@2 E@3"),
        ("...", "S8@0 S8@1 S8@2 E@3"),
        ("=>=", "S51@0 S38@2 E@3"),
        ("+++", "S23@0 S17@2 E@3"),
        ("--->", "S24@0 S18@2 S10@3 E@4"),
        ("!~^%", "S31@0 S32@1 S30@2 S21@3 E@4"),
        ("^=|=&=%=", "S50@0 S49@2 S48@4 S43@6 E@8"),
        ("<\u{E9}", "S9@0 N<e9>@1 E@3"),
        ("0", "#0@0 E@1"),
        ("120", "#120@0 E@3"),
        (
            "0xfF 0XFF 0o17 0O17 0b101 0B1",
            "#255@0 #255@5 #15@10 #15@15 #5@20 #1@26 E@29",
        ),
        ("9007199254740991", "#9007199254740991@0 E@16"),
        ("0x1fffffffffffff", "#9007199254740991@0 E@16"),
        ("1/2", "#1@0 S20@1 #2@2 E@3"),
        ("1 .a", "#1@0 S8@2 Na@3 E@4"),
        ("-1", "S18@0 #1@1 E@2"),
        ("9007199254740992", "NumberTooLarge(0)"),
        ("0x20000000000000;", "NumberTooLarge(0)"),
        ("a 99999999999999999999999", "NumberTooLarge(2)"),
        ("9007199254740992x", "NumberForm(0)"),
        ("1.5", "NumberForm(0)"),
        ("1.", "NumberForm(0)"),
        ("0.a", "NumberForm(0)"),
        (".5", "NumberForm(0)"),
        ("a.5", "NumberForm(1)"),
        ("x = 08", "NumberForm(4)"),
        ("00", "NumberForm(0)"),
        ("1e5", "NumberForm(0)"),
        ("1n", "NumberForm(0)"),
        ("1_0", "NumberForm(0)"),
        ("1\u{E9}", "NumberForm(0)"),
        ("3in", "NumberForm(0)"),
        ("0x", "NumberForm(0)"),
        ("0xg", "NumberForm(0)"),
        ("0b2", "NumberForm(0)"),
        ("0b12", "NumberForm(0)"),
        ("0o8", "NumberForm(0)"),
        ("0x1.a", "NumberForm(0)"),
    ];
    assert_eq!(rt; wrong(rt.alloc(), &rows)?, None);
    Ok(())
}

#[test]
fn strings_and_escapes(rt: HostRuntime) -> Result<(), Fail> {
    let rows = [
        ("\"a b\"", "Qa b@0 E@5"),
        ("'\"'", "Q\"@0 E@3"),
        ("\"'\"", "Q'@0 E@3"),
        ("''", "Q@0 E@2"),
        ("\"\u{2028}\"", "Q<2028>@0 E@5"),
        ("\"\u{1F600}\"", "Q<d83d><de00>@0 E@6"),
        (
            "'\\b\\t\\n\\v\\f\\r\\0\\q\\\\\\''",
            "Q<8><9><a><b><c><d><0>q\\'@0 E@22",
        ),
        (
            "'\\x41\\u0042\\u{43}\\u{1F600}\\u{000041}'",
            "QABC<d83d><de00>A@0 E@37",
        ),
        ("'\\uD800\\uDC00\\uDFFF'", "Q<d800><dc00><dfff>@0 E@20"),
        ("'\\u{D800}'", "Q<d800>@0 E@10"),
        ("'\\u{10FFFF}'", "Q<dbff><dfff>@0 E@12"),
        ("'\\0a'", "Q<0>a@0 E@5"),
        ("'\\\u{E9}'", "Q<e9>@0 E@5"),
        ("'a\\\r\nb'", "Qab@0 E@7"),
        ("'a\\\nb'", "Qab@0 E@6"),
        ("'a\\\u{2028}b'", "Qab@0 E@8"),
        ("'\\\r'", "Q@0 E@4"),
        ("'\\\r\n\n'", "OpenString(0)"),
        ("'\\u{110000}'", "BadEscape(1)"),
        ("'\\u{}'", "BadEscape(1)"),
        ("'\\u{41'", "BadEscape(1)"),
        ("'\\u{g}'", "BadEscape(1)"),
        ("'\\u004'", "BadEscape(1)"),
        ("'\\x4'", "BadEscape(1)"),
        ("'\\xg0'", "BadEscape(1)"),
        ("'\\1'", "BadEscape(1)"),
        ("'\\8'", "BadEscape(1)"),
        ("'\\00'", "BadEscape(1)"),
        ("'a\\", "BadEscape(2)"),
        ("'\\x", "BadEscape(1)"),
        ("'\n\\x", "OpenString(0)"),
        ("a 'b", "OpenString(2)"),
        ("'b\n'", "OpenString(0)"),
        ("'b\r'", "OpenString(0)"),
        ("\"a", "OpenString(0)"),
        ("\"'", "OpenString(0)"),
    ];
    assert_eq!(rt; wrong(rt.alloc(), &rows)?, None);
    Ok(())
}

#[test]
fn templates(rt: HostRuntime) -> Result<(), Fail> {
    let rows = [
        ("``", "T++@0 E@2"),
        ("`a\r\nb\rc\nd`", "T++a<a>b<a>c<a>d@0 E@10"),
        ("`a${b}c`", "T+-a@0 Nb@4 T-+c@5 E@8"),
        ("`${{}}`", "T+-@0 S0@3 S1@4 T-+@5 E@7"),
        ("`${`x`}`", "T+-@0 T++x@3 T-+@6 E@8"),
        ("`a${1}b${2}c`", "T+-a@0 #1@4 T--b@5 #2@9 T-+c@10 E@13"),
        ("`$`", "T++$@0 E@3"),
        ("`$$`", "T++$$@0 E@4"),
        ("`{}`", "T++{}@0 E@4"),
        ("`$ {`", "T++$ {@0 E@5"),
        ("`\\${`", "T++${@0 E@5"),
        ("`\\``", "T++`@0 E@4"),
        ("`\n`;", "T++<a>@0 S6@3 E@4"),
        ("}", "S1@0 E@1"),
        ("}`a`", "S1@0 T++a@1 E@4"),
        ("{}}", "S0@0 S1@1 S1@2 E@3"),
        ("`${a}`}", "T+-@0 Na@3 T-+@4 S1@6 E@7"),
        ("`a", "OpenTemplate(0)"),
        ("`${", "OpenTemplate(0)"),
        ("`${a}", "OpenTemplate(0)"),
        ("`${`${{", "OpenTemplate(3)"),
        ("`${{`", "OpenTemplate(4)"),
        ("`${`x`", "OpenTemplate(0)"),
        ("`${ 1.5", "NumberForm(4)"),
        ("`${#", "BadCharacter(3)"),
        ("`\\x", "BadEscape(1)"),
        ("`${`\\1", "BadEscape(4)"),
        ("`${a}\\x", "BadEscape(5)"),
        ("`${'\\x", "BadEscape(4)"),
        ("`${'a", "OpenString(3)"),
        ("`${/*", "OpenComment(3)"),
        ("`${9007199254740992", "NumberTooLarge(3)"),
    ];
    assert_eq!(rt; wrong(rt.alloc(), &rows)?, None);
    Ok(())
}

#[test]
fn bytes_of_no_sequence(rt: HostRuntime) -> Result<(), Fail> {
    let rows = [
        (b"#\xC3(".as_slice(), "NotUtf8(1)"),
        (b"\x80", "NotUtf8(0)"),
        (b"ab\xFF", "NotUtf8(2)"),
        (b"\xE2\x80", "NotUtf8(0)"),
        (b"\xED\xA0\x80", "NotUtf8(0)"),
        (b"\xF4\x90\x80\x80", "NotUtf8(0)"),
        (b"\xC0\xAF", "NotUtf8(0)"),
        (b"'\xE9'", "NotUtf8(1)"),
        (b"\xC3\xA9\xC3", "NotUtf8(2)"),
        (b"`\xC3`", "NotUtf8(1)"),
        (b"`${\xC3}`", "NotUtf8(3)"),
        (b"`${a}\xFF`", "NotUtf8(5)"),
    ];
    for (text, want) in rows {
        assert_eq!(rt; shown(rt.alloc(), text)?.as_str(), want);
    }
    Ok(())
}

// The number of tokens, or nothing where there is a fault.
fn count(alloc: Global, text: &[u8]) -> Option<usize> {
    match tokens(alloc, front(text)) {
        Ok(tokens) => Some(tokens.as_slice().len()),
        Err(_) => None,
    }
}

fn push_often(text: &mut Vec<u8>, part: &[u8], times: u32) -> Result<(), AllocError> {
    for _ in 0..times {
        text.extend_from_slice(part)?;
    }
    Ok(())
}

// No length is taken for a want of memory.
#[test]
fn long_elements(rt: HostRuntime) -> Result<(), Fail> {
    let rows = [
        ("", "a", "", 2),
        ("'", "\u{E9}", "'", 2),
        ("`", "\u{1F600}", "`", 2),
        ("/*", "\n", "*/", 1),
        ("//", " ", "", 1),
        ("0x", "0", "1", 2),
    ];
    for (begin, part, end, tokens) in rows {
        let mut text = Vec::new(rt.alloc());
        push_often(&mut text, begin.as_bytes(), 1)?;
        push_often(&mut text, part.as_bytes(), 70_000)?;
        push_often(&mut text, end.as_bytes(), 1)?;
        assert_eq!(rt; count(rt.alloc(), text.as_slice()), Some(tokens));
    }
    Ok(())
}

#[test]
fn deep_and_long(rt: HostRuntime) -> Result<(), Fail> {
    let mut nested = Vec::new(rt.alloc());
    push_often(&mut nested, b"`${", 100_000)?;
    let open = shown(rt.alloc(), nested.as_slice())?;
    push_often(&mut nested, b"}`", 100_000)?;
    let mut long = Vec::new(rt.alloc());
    push_often(&mut long, b"a = b + 1;\n", 100_000)?;
    let counts = (
        count(rt.alloc(), nested.as_slice()),
        count(rt.alloc(), long.as_slice()),
    );
    assert_eq!(rt; open.as_str(), "OpenTemplate(299997)");
    assert_eq!(rt; counts, (Some(200_001), Some(600_001)));
    Ok(())
}
