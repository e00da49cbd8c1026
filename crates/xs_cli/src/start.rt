//! How the program is started: its words, as the runtime gives them, and the call.

ghost use Rattle.std.specs.Prelude.{◌≡◌, ◌≢◌, ◌↔◌, ◌+◌, ℕ, List, [], drop, IfOk, IfErr, OnErr, MatchResult, codes};
ghost use Rattle.std.specs.Vec.Iter.{into_iter_items};
ghost use Rattle.xs_cli.specs.Ends.{IsAnswered, words_of};
ghost use Rattle.xs_cli.specs.Started.{IsTold, Starts, words_given};

use crate::top::xs;
use std::alloc::{AllocError, Global};
use std::env::Args;
use std::io;
use std::io::ErrorKind;
use xs_base::{Files, Lines, Sink};

/// The words behind the program's name.
fn behind_name(alloc: Global, mut given: Args) -> Result<Vec<String>, AllocError>
    ensures { IfOk result (λ words. words.items ≡ drop 1 (into_iter_items given)) }
{
    let _name = given.next();
    let mut words = Vec::new(alloc);
    while let Some(word) = given.next() {
        words.push(word)?;
    }
    Ok(words)
}

/// The words of a call. One that is no text is in no command, and neither are the others then.
fn words(alloc: Global, given: io::Result<Args>) -> Result<Vec<String>, AllocError>
    ensures { IfOk result (λ words. words_of words.items ≡ words_given given) }
{
    match given {
        Ok(given) => behind_name(alloc, given),
        Err(error) if error.kind() == ErrorKind::OutOfMemory => Err(AllocError),
        Err(_) => Ok(Vec::new(alloc)),
    }
}

/// The end where memory is wanting before the words are known: its one line, and its status.
pub fn refuse<E: Sink>(err: &mut E) -> u8
    ensures status { result ≡ 7 }
    ensures line { IsTold (record { written = E.written err.old; faults = E.faults err.old }) (record { written = E.written err.new; faults = E.faults err.new }) (codes "no memory\n") }
{
    let _ = err.write(b"no memory\n");
    7
}

/// The program over any outside: `given` are its words with its name in front, as the runtime gives them. The
/// answer is the status. It takes memory for the words, and what `xs` takes.
pub fn start<F: Files, I: Lines, O: Sink, E: Sink>(
    alloc: Global,
    given: io::Result<Args>,
    files: &mut F,
    input: &mut I,
    out: &mut O,
    err: &mut E,
) -> u8
    ensures ends { Starts (words_given given)
        (record { holds = F.holds files.old; written = O.written out.old; files = F.faults files.old; missed = F.missed files.old; out = O.faults out.old })
        (record { holds = F.holds files.new; written = O.written out.new; files = F.faults files.new; missed = F.missed files.new; out = O.faults out.new })
        (record { written = E.written err.old; faults = E.faults err.old })
        (record { written = E.written err.new; faults = E.faults err.new })
        result }
    ensures answered { result ≢ 6 → result ≢ 7 → IsAnswered (words_given given)
        (record { holds = F.holds files.old; written = O.written out.old; files = F.faults files.old; missed = F.missed files.old; out = O.faults out.old })
        (record { holds = F.holds files.new; written = O.written out.new; files = F.faults files.new; missed = F.missed files.new; out = O.faults out.new })
        result }
    ensures unread { (I.left input.new ≡ I.left input.old) × (I.faults input.new ≡ I.faults input.old) }
    ensures unwritten { F.holds files.new ≡ F.holds files.old }
{
    match words(alloc, given) {
        Ok(words) => xs(alloc, &words, files, input, out, err),
        Err(AllocError) => refuse(err),
    }
}
