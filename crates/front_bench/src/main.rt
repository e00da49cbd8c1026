//! Runs a layer of the front end many times over a file, so that its time can be measured.
#![tactic(auto)]

mod task;
#[cfg(test)]
mod tests;
#[cfg(test)]
mod token_tests;

ghost use Rattle.std.specs.Prelude.{◌≤◌, length};

use es_model::{LexFault, Module};
use js_lexer::tokens;
use js_parser::{ParseFault, module};
use std::alloc::Global;
use std::io::ErrorKind;
use std::process::ExitCode;
use std::{env, io};
use task::{Layer, Task};
use xs_base::{Files, RealFiles, RealSink, Sink, WriteFault};

/// The words behind the program's name.
fn words(rt: &HostRuntime) -> io::Result<Vec<String>> {
    let mut words = Vec::new(rt.alloc());
    for word in env::args(rt)?.skip(1) {
        if words.push(word).is_err() {
            return Err(io::Error::from(ErrorKind::OutOfMemory));
        }
    }
    Ok(words)
}

/// How many tokens a text has; None where it has a fault.
fn count_tokens(alloc: Global, text: &[u8]) -> Option<usize>
    requires { length text.now ≤ 268435456 }
{
    let tokens = tokens(alloc, text).ok()?;
    Some(tokens.as_slice().len())
}

/// The module of a text or the fault of its parser, or the fault of its lexer.
fn parsed(alloc: Global, text: &[u8]) -> Result<Result<Module, ParseFault>, LexFault>
    requires { length text.now ≤ 268435456 }
{
    let tokens = tokens(alloc, text)?;
    Ok(module(alloc, &tokens))
}

/// How many items the module of a text has; None where it has a fault.
fn count_items(alloc: Global, text: &[u8]) -> Option<usize>
    requires { length text.now ≤ 268435456 }
{
    let module = parsed(alloc, text).ok()?.ok()?;
    Some(module.items.as_slice().len())
}

/// What a layer counts in a text, which it reads so many times; 0 is the answer where that is never.
fn count(alloc: Global, layer: Layer, text: &[u8], runs: u32) -> Option<usize>
    requires { length text.now ≤ 268435456 }
{
    let mut count = 0;
    for _ in 0..runs {
        count = match layer {
            Layer::Tokens => count_tokens(alloc, text)?,
            Layer::Module => count_items(alloc, text)?,
        };
    }
    Some(count)
}

/// Writes a number as a line. Nothing is written behind a write that failed.
fn write_count<O: Sink>(count: usize, out: &mut O) -> Result<(), WriteFault> {
    let mut digits = itoa::Buffer::new();
    out.write(digits.format(count).as_bytes())?;
    out.write(b"\n")
}

/// Does a task, and writes the number of tokens or items. The answer is the program's status: 1 where the file can't
/// be read, the text has a fault or the output fails.
fn run<F: Files, O: Sink>(alloc: Global, task: &Task, files: &mut F, out: &mut O) -> u8 {
    let Ok(text) = files.read(alloc, task.file) else {
        return 1;
    };
    let Some(count) = count(alloc, task.layer, text.as_slice(), task.runs) else {
        return 1;
    };
    match write_count(count, out) {
        Ok(()) => 0,
        Err(_) => 1,
    }
}

fn main(rt: HostRuntime) -> ExitCode {
    let mut files = RealFiles::new(&rt);
    let mut out = RealSink::new(rt.stdout());
    let mut err = RealSink::new(rt.stderr());
    let words = match words(&rt) {
        Ok(words) => words,
        Err(error) => {
            if error.kind() == ErrorKind::OutOfMemory {
                let _ = err.write(b"no memory\n");
                return ExitCode::from(7);
            }
            // A word that is no text is in no task.
            Vec::new(rt.alloc())
        }
    };
    match task::task_of(&words) {
        Some(task) => ExitCode::from(run(rt.alloc(), &task, &mut files, &mut out)),
        None => {
            let _ = err.write(b"usage: front_bench tokens FILE N, or module FILE N\n");
            ExitCode::from(2)
        }
    }
}
