//! The program as one call over the outside.

ghost use Rattle.std.specs.Prelude.{◌≡◌, ◌≢◌, ◌⊎◌, ◌↔◌, ◌≤◌, ◌++◌, ◌∷◌, [], ℕ, List, Option, Some, None, length, codes, option_map};
ghost use Rattle.xs_base.specs.Outside.{HasCause, Receives, Rose};
ghost use Rattle.xs_cli.specs.Answer.{file_of, is_plain_word};
ghost use Rattle.xs_cli.specs.Prints.{PrintsTexts};
ghost use Rattle.xs_cli.specs.Ends.{Ended, EndsText, IsAnswered, IsCutShort, LineTold, Outside, line_of, name_of, status_of, words_of};

use crate::code::compile;
use crate::machine::stack::Stack;
use crate::machine::{self, run};
use crate::texts::Texts;
use crate::thin;
use std::alloc::Global;
use xs_base::{FileFault, Files, Lines, Sink, WriteFault};

/// How a call of the program ended.
#[derive(Clone, Copy, Debug, PartialEq, Eq, Drop)]
pub enum End {
    Done,
    Usage,
    NotThin,
    NoFile,
    FileFailed,
    WriteFailed,
    Memory,
}

/// The file of `eval FILE`.
fn file_of_words(words: &[String]) -> Option<&str>
    ensures { option_map (λ file. file.now) result ≡ file_of (words_of words.now) }
{
    match words {
        [command, file] => {
            let file = file.as_str();
            if command.as_str() == "eval" && is_plain_word(file) {
                Some(file)
            } else {
                None
            }
        }
        _ => None,
    }
}

fn is_plain_word(word: &str) -> bool
    ensures { result ≡ is_plain_word word.now }
{
    match word.as_bytes() {
        [] => false,
        [first, ..] => *first != b'-',
    }
}

/// Evaluates a text as the one module of a boot.
fn eval_text<O: Sink>(alloc: Global, text: &[u8], out: &mut O) -> End
    ensures { EndsText text.now (O.written out.old) (O.written out.new) (O.faults out.old) (O.faults out.new) result }
{
    match thin::strings(alloc, text) {
        Ok(texts) => print_texts(alloc, &texts, out),
        Err(thin::Fault::NotThin) => End::NotThin,
        Err(thin::Fault::Memory) => End::Memory,
    }
}

/// Compiles a module that prints these texts, and runs it. All memory is taken before its first instruction.
fn print_texts<O: Sink>(alloc: Global, texts: &Texts, out: &mut O) -> End
    requires { length texts.now ≤ 16001 }
    ensures { PrintsTexts texts.now (O.written out.old) (O.written out.new) (O.faults out.old) (O.faults out.new) result }
{
    let Ok(program) = compile(alloc, texts) else {
        return End::Memory;
    };
    let Ok(mut stack) = Stack::new(alloc) else {
        return End::Memory;
    };
    match run(&program, &mut stack, out) {
        Ok(()) => End::Done,
        Err(machine::Fault::Write) => End::WriteFailed,
        Err(machine::Fault::Stuck) => unreachable!(),
    }
}

fn eval<F: Files, O: Sink>(alloc: Global, words: &[String], files: &mut F, out: &mut O) -> End
    ensures ended { Ended (words_of words.now)
        (record { holds = F.holds files.old; written = O.written out.old; files = F.faults files.old; missed = F.missed files.old; out = O.faults out.old })
        (record { holds = F.holds files.new; written = O.written out.new; files = F.faults files.new; missed = F.missed files.new; out = O.faults out.new })
        result }
    ensures kept { F.holds files.new ≡ F.holds files.old }
{
    let Some(file) = file_of_words(words) else {
        return End::Usage;
    };
    match files.read(alloc, file) {
        Ok(text) => eval_text(alloc, text.as_slice(), out),
        Err(FileFault::Absent) => End::NoFile,
        Err(FileFault::Failed) => End::FileFailed,
        Err(FileFault::Memory) => End::Memory,
    }
}

fn send<E: Sink>(err: &mut E, front: &[u8], middle: &[u8]) -> Result<(), WriteFault>
    ensures bytes { Receives (E.written err.old) (E.written err.new) result (front.now ++ middle.now ++ 10 ∷ []) }
    ensures cause { HasCause (E.faults err.old) (E.faults err.new) result }
{
    err.write(front)?;
    err.write(middle)?;
    err.write(b"\n")
}

fn name_in(words: &[String]) -> &str
    ensures { result.now ≡ name_of (words_of words.now) }
{
    match file_of_words(words) {
        Some(file) => file,
        None => "",
    }
}

/// Writes the one line on `err`.
fn tell<E: Sink>(words: &[String], end: End, err: &mut E) -> Result<(), WriteFault>
    ensures bytes { Receives (E.written err.old) (E.written err.new) result (line_of (words_of words.now) end) }
    ensures cause { HasCause (E.faults err.old) (E.faults err.new) result }
{
    match end {
        End::Done => Ok(()),
        End::Usage => err.write(b"usage: xs eval, boot, link, mod, run, resume or make\n"),
        End::NotThin => err.write(b"P0 main\n"),
        End::NoFile => send(err, b"no file ", name_in(words).as_bytes()),
        End::FileFailed => send(err, b"file ", name_in(words).as_bytes()),
        End::WriteFailed => err.write(b"write\n"),
        End::Memory => err.write(b"no memory\n"),
    }
}

fn status(end: End) -> u8
    ensures { result ≡ status_of end }
{
    match end {
        End::Done => 0,
        End::Usage => 2,
        End::NotThin => 3,
        End::NoFile | End::FileFailed | End::WriteFailed => 6,
        End::Memory => 7,
    }
}

/// The program: its words in, its status out.
///
/// `eval FILE` reads the file, and writes to `out` what its one module prints. `input` isn't read, and no
/// file is written. Where the call ends otherwise than done, one line on `err` says why: 2 the usage line,
/// 3 `P0 main` (a text that isn't thin), 6 `no file NAME`, `file NAME` or `write`, 7 `no memory`. A fault of
/// `err` itself changes nothing. It takes memory for the text, its strings and its code, all of it before
/// anything is written. Own rules.
pub fn xs<F: Files, I: Lines, O: Sink, E: Sink>(
    alloc: Global,
    words: &[String],
    files: &mut F,
    input: &mut I,
    out: &mut O,
    err: &mut E,
) -> u8
    // Each end has its cause, and its line on `err`.
    ensures ends { (end : End) × (result ≡ status_of end) × Ended (words_of words.now)
        (record { holds = F.holds files.old; written = O.written out.old; files = F.faults files.old; missed = F.missed files.old; out = O.faults out.old })
        (record { holds = F.holds files.new; written = O.written out.new; files = F.faults files.new; missed = F.missed files.new; out = O.faults out.new })
        end
        × LineTold (E.written err.old) (E.written err.new) (E.faults err.old) (E.faults err.new) (line_of (words_of words.now) end) }

    // Where no fault came and memory was there, the status and the bytes are the answer's.
    ensures answered { result ≢ 6 → result ≢ 7 → IsAnswered (words_of words.now)
        (record { holds = F.holds files.old; written = O.written out.old; files = F.faults files.old; missed = F.missed files.old; out = O.faults out.old })
        (record { holds = F.holds files.new; written = O.written out.new; files = F.faults files.new; missed = F.missed files.new; out = O.faults out.new })
        result }

    ensures usage { result ≡ 2 ↔ (file_of (words_of words.now) ≡ None) }
    ensures fault { result ≡ 6 → Rose (F.faults files.old) (F.faults files.new) ⊎ Rose (O.faults out.old) (O.faults out.new) }
    ensures counted { result ≢ 6 → (F.faults files.new ≡ F.faults files.old) × (O.faults out.new ≡ O.faults out.old) }
    ensures cut_short { result ≡ 6 → IsCutShort (words_of words.now)
        (record { holds = F.holds files.old; written = O.written out.old; files = F.faults files.old; missed = F.missed files.old; out = O.faults out.old })
        (record { holds = F.holds files.new; written = O.written out.new; files = F.faults files.new; missed = F.missed files.new; out = O.faults out.new }) }
    ensures unread { (I.left input.new ≡ I.left input.old) × (I.faults input.new ≡ I.faults input.old) }
    ensures unwritten { F.holds files.new ≡ F.holds files.old }
{
    let end = eval(alloc, words, files, out);
    let _ = tell(words, end, err);
    status(end)
}
