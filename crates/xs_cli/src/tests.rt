use crate::top::xs;
use std::alloc::{AllocError, Global};
use std::test::Fail;
use xs_base::{Fail as FailingCall, Fails, MemFiles, MemLines, MemSink};

/// What a call left: its status, and what `out` and `err` hold.
#[derive(Drop)]
struct Left {
    status: u8,
    out: MemSink,
    err: MemSink,
}

/// How the outside fails in a call.
#[derive(Clone, Copy)]
enum Failing {
    Nothing,
    Read,
    Write { call: u64, stands: Option<u32> },
    Err,
}

fn no_fails(alloc: Global) -> Fails {
    Fails::new(alloc)
}

fn fails_at(alloc: Global, call: u64, stands: Option<u32>) -> Result<Fails, AllocError> {
    let mut fails = Fails::new(alloc);
    fails.push(FailingCall { call, stands })?;
    Ok(fails)
}

fn strings(rt: &HostRuntime, words: &[&str]) -> Result<Vec<String>, AllocError> {
    let mut strings = Vec::new(rt.alloc());
    for word in words {
        strings.push(String::from_str(rt.alloc(), word)?)?;
    }
    Ok(strings)
}

fn call(
    rt: &HostRuntime,
    words: &[&str],
    text: &[u8],
    failing: Failing,
) -> Result<Left, AllocError> {
    let words = strings(rt, words)?;
    let read = match failing {
        Failing::Read => fails_at(rt.alloc(), 1, None)?,
        _ => no_fails(rt.alloc()),
    };
    let write = match failing {
        Failing::Write { call, stands } => fails_at(rt.alloc(), call, stands)?,
        _ => no_fails(rt.alloc()),
    };
    let tell = match failing {
        Failing::Err => fails_at(rt.alloc(), 1, Some(2))?,
        _ => no_fails(rt.alloc()),
    };
    let mut files = MemFiles::new(rt.alloc(), 20_000, 2, read)?;
    let _ = files.put("main.js", text);
    let mut input = MemLines::new(rt.alloc(), b"left alone\n", no_fails(rt.alloc()))?;
    let mut out = MemSink::new(rt.alloc(), 20_000, write)?;
    let mut err = MemSink::new(rt.alloc(), 100, tell)?;
    let status = xs(
        rt.alloc(),
        &words,
        &mut files,
        &mut input,
        &mut out,
        &mut err,
    );
    Ok(Left { status, out, err })
}

fn is_left(left: &Left, status: u8, out: &[u8], err: &[u8]) -> bool {
    left.status == status && left.out.written() == out && left.err.written() == err
}

/// A text, and the status, the bytes on `out` and the line on `err` that its evaluation gives.
type Row = (&'static [u8], u8, &'static [u8], &'static [u8]);

fn is_row(
    rt: &HostRuntime,
    text: &[u8],
    status: u8,
    out: &[u8],
    err: &[u8],
) -> Result<bool, AllocError> {
    let left = call(rt, &["eval", "main.js"], text, Failing::Nothing)?;
    Ok(is_left(&left, status, out, err))
}

/// The number of the first row that isn't met, from 0, or the number of rows.
fn rows_met(rt: &HostRuntime, rows: &[Row]) -> Result<usize, AllocError> {
    for (number, (text, status, out, err)) in rows.iter().enumerate() {
        if !is_row(rt, text, *status, out, err)? {
            return Ok(number);
        }
    }
    Ok(rows.len())
}

const THIN: [Row; 6] = [
    (
        b"import { print } from \"host\"; print(\"hi\");",
        0,
        b"hi\n",
        b"",
    ),
    (b"", 0, b"", b""),
    (b" \n\n ", 0, b"", b""),
    (
        b"import { print } from \"host\"; print(\"a\"); print(\"b c\");",
        0,
        b"a\nb c\n",
        b"",
    ),
    (
        b"import{print}from\"host\";print(\"\");\nprint\n( \"~ ! '`\" ) ;\n",
        0,
        b"\n~ ! '`\n",
        b"",
    ),
    (b"import { print } from \"host\";", 0, b"", b""),
];

#[test]
fn thin_texts(rt: HostRuntime) -> Result<(), Fail> {
    assert_eq!(rt; rows_met(&rt, &THIN)?, 6);
    Ok(())
}

const OTHER: [Row; 10] = [
    (
        b"import { print } from \"host\"; print(1);",
        3,
        b"",
        b"P0 main\n",
    ),
    (b"let a;", 3, b"", b"P0 main\n"),
    (b"// nothing", 3, b"", b"P0 main\n"),
    (b"im port { print } from \"host\";", 3, b"", b"P0 main\n"),
    (b"import { print } from \"hosts\";", 3, b"", b"P0 main\n"),
    (
        b"import { print } from \"host\"; print(\"a\")",
        3,
        b"",
        b"P0 main\n",
    ),
    (
        b"import { print } from \"host\"; print(\"a\\n\");",
        3,
        b"",
        b"P0 main\n",
    ),
    (
        b"import { print } from \"host\"; print(\"a\tb\");",
        3,
        b"",
        b"P0 main\n",
    ),
    (
        b"import { print } from \"host\"; print(\"\xC3\xA9\");",
        3,
        b"",
        b"P0 main\n",
    ),
    (b"\xFF", 3, b"", b"P0 main\n"),
];

#[test]
fn other_texts(rt: HostRuntime) -> Result<(), Fail> {
    assert_eq!(rt; rows_met(&rt, &OTHER)?, 10);
    Ok(())
}

/// An import, a call that prints `length` times the letter x, and blanks up to `size` bytes.
fn printing(rt: &HostRuntime, length: usize, size: usize) -> Result<Vec<u8>, AllocError> {
    let mut text = Vec::new(rt.alloc());
    text.extend_from_slice(b"import { print } from \"host\"; print(\"")?;
    for _ in 0..length {
        text.push(b'x')?;
    }
    text.extend_from_slice(b"\");")?;
    for _ in text.len()..size {
        text.push(b' ')?;
    }
    Ok(text)
}

fn letters(rt: &HostRuntime, length: usize, end: &[u8]) -> Result<Vec<u8>, AllocError> {
    let mut line = Vec::new(rt.alloc());
    for _ in 0..length {
        line.push(b'x')?;
    }
    line.extend_from_slice(end)?;
    Ok(line)
}

/// Whether a string of so many letters is printed.
fn is_printed(rt: &HostRuntime, length: usize) -> Result<bool, AllocError> {
    is_row(
        rt,
        &printing(rt, length, 0)?,
        0,
        &letters(rt, length, b"\n")?,
        b"",
    )
}

#[test]
fn pieces(rt: HostRuntime) -> Result<(), Fail> {
    for length in [63, 64, 65, 129] {
        assert!(rt; is_printed(&rt, length)?);
    }
    Ok(())
}

/// The status where a string of so many letters is printed and the second write fails, and what is left.
fn cut_at_second(rt: &HostRuntime, length: usize) -> Result<Left, AllocError> {
    let second = Failing::Write {
        call: 2,
        stands: None,
    };
    call(rt, &["eval", "main.js"], &printing(rt, length, 0)?, second)
}

// 63 letters and the line feed are one piece; with 64 letters the line feed is a second one.
#[test]
fn a_piece_of_64_bytes(rt: HostRuntime) -> Result<(), Fail> {
    let whole = letters(&rt, 63, b"\n")?;
    assert!(rt; is_left(&cut_at_second(&rt, 63)?, 0, &whole, b""));
    let front = letters(&rt, 64, b"")?;
    assert!(rt; is_left(&cut_at_second(&rt, 64)?, 6, &front, b"write\n"));
    Ok(())
}

#[test]
fn the_longest_thin_text(rt: HostRuntime) -> Result<(), Fail> {
    assert!(rt; is_row(&rt, &printing(&rt, 1, 16_000)?, 0, b"x\n", b"")?);
    assert!(rt; is_row(&rt, &printing(&rt, 1, 16_001)?, 3, b"", b"P0 main\n")?);
    Ok(())
}

const USAGE: &[u8] = b"usage: xs eval, boot, link, mod, run, resume or make\n";

fn is_usage(rt: &HostRuntime, words: &[&str]) -> Result<bool, AllocError> {
    let left = call(rt, words, b"", Failing::Nothing)?;
    Ok(is_left(&left, 2, b"", USAGE))
}

#[test]
fn words_of_no_command(rt: HostRuntime) -> Result<(), Fail> {
    assert!(rt; is_usage(&rt, &[])?);
    assert!(rt; is_usage(&rt, &["eval"])?);
    assert!(rt; is_usage(&rt, &["eval", ""])?);
    assert!(rt; is_usage(&rt, &["eval", "-x"])?);
    assert!(rt; is_usage(&rt, &["run", "main.js"])?);
    assert!(rt; is_usage(&rt, &["eval", "main.js", "main.js"])?);
    Ok(())
}

#[test]
fn a_name_that_holds_nothing(rt: HostRuntime) -> Result<(), Fail> {
    let left = call(&rt, &["eval", "other.js"], b"", Failing::Nothing)?;
    assert!(rt; is_left(&left, 6, b"", b"no file other.js\n"));
    Ok(())
}

const TWO_LINES: &[u8] = b"import { print } from \"host\"; print(\"a\"); print(\"bc\");";

#[test]
fn a_read_that_fails(rt: HostRuntime) -> Result<(), Fail> {
    let left = call(&rt, &["eval", "main.js"], TWO_LINES, Failing::Read)?;
    assert!(rt; is_left(&left, 6, b"", b"file main.js\n"));
    Ok(())
}

/// A write that fails, how many of its bytes stand, and what `out` holds then.
type Cut = (u64, Option<u32>, &'static [u8]);

const CUTS: [Cut; 6] = [
    (1, None, b""),
    (1, Some(1), b"a"),
    (1, Some(9), b"a\n"),
    (2, None, b"a\n"),
    (2, Some(2), b"a\nbc"),
    (2, Some(9), b"a\nbc\n"),
];

fn cuts_met(rt: &HostRuntime) -> Result<usize, AllocError> {
    for (place, (number, stands, out)) in CUTS.iter().enumerate() {
        let failing = Failing::Write {
            call: *number,
            stands: *stands,
        };
        let left = call(rt, &["eval", "main.js"], TWO_LINES, failing)?;
        if !is_left(&left, 6, out, b"write\n") {
            return Ok(place);
        }
    }
    Ok(CUTS.len())
}

#[test]
fn writes_that_fail(rt: HostRuntime) -> Result<(), Fail> {
    assert_eq!(rt; cuts_met(&rt)?, 6);
    Ok(())
}

#[test]
fn a_fault_of_err_changes_nothing(rt: HostRuntime) -> Result<(), Fail> {
    let left = call(&rt, &["eval", "main.js"], b"let a;", Failing::Err)?;
    assert!(rt; is_left(&left, 3, b"", b"P0"));
    Ok(())
}
