ghost use Rattle.std.specs.Prelude.{◌≡◌, ◌≢◌, true, false, Ok, [], IfOk};
ghost use Rattle.std.specs.Result.{is_err};
ghost use Rattle.std.specs.Io.KnownBytes.{prepend_known};
ghost use Rattle.xs_base.specs.Outside.{HasCause};
ghost use Rattle.xs_base.specs.Line.{GivesLine, IsLine};
ghost use Rattle.xs_base.specs.Failing.{counted_if};
ghost use Rattle.xs_base.specs.Reading.{FillsLine, GivesByte};

use crate::{LineBuffer, Lines, ReadFault};
use std::alloc::{AllocError, Global};
use std::io::{ErrorKind, Read};
use std::marker::Model;

/// An input over any reader of std. It tells its bytes where the reader tells what remains of it, as slices,
/// cursors and queues do, and what reads through them; a terminal and a file tell nothing. (Own rule.)
///
/// It reads byte by byte, so that it takes no more than a line: give it a reader with a buffer. What is
/// interrupted is tried again. A reader that gives nothing is at its end. Where a read fails in the middle of
/// a line, the bytes before it are held back, and the next line begins with them.
#[derive(Drop)]
pub struct RealLines<R: Read> {
    inner: R,
    held: LineBuffer,
    faults: u64,
}

impl<R: Read> Model for RealLines<R> {
    ghost use Rattle.std.specs.Io.KnownBytes.{prepend_known};
    ghost use Rattle.xs_base.specs.Line.{IsLine};
    ghost use Rattle.xs_base.specs.Reading.{LinesOverReader};

    ghost Value = { LinesOverReader };

    ghost view = { λ a. record { left = prepend_known a.held (R.remaining a.inner); faults = a.faults } };

    ghost invariant = { λ a. IsLine a.held };
}

impl<R: Read> RealLines<R> {
    /// An input that reads from this reader. Takes memory for one line.
    pub fn new(alloc: Global, inner: R) -> Result<RealLines<R>, AllocError>
    where
        R: Drop,
        ensures { IfOk result (λ lines. lines ≡ record { left = R.remaining inner; faults = 0 }) }
    {
        Ok(RealLines {
            inner,
            held: LineBuffer::new(alloc)?,
            faults: 0,
        })
    }
}

// The next byte, where there is one.
fn next_byte<R: Read>(from: &mut R) -> Result<Option<u8>, ReadFault>
    ensures { GivesByte (R.remaining from.old) (R.remaining from.new) result }
{
    for _ in 0..u64::MAX {
        let mut byte = [0];
        match from.read(&mut byte) {
            Ok(0) => return Ok(None),
            Ok(_) => return Ok(Some(byte[0])),
            Err(error) if error.kind() == ErrorKind::Interrupted => {}
            Err(_) => return Err(ReadFault),
        }
    }
    Err(ReadFault)
}

// Fills up a line that is begun, and says whether there is one.
fn fill<R: Read>(from: &mut R, line: &mut LineBuffer) -> Result<bool, ReadFault>
    requires { IsLine line.old }
    ensures line { FillsLine (prepend_known line.old (R.remaining from.old)) (R.remaining from.new) result line.new }
    ensures shape { IsLine line.new }
    ensures none { result ≡ Ok false → line.new ≡ [] }
{
    while !line.is_full() {
        match next_byte(from)? {
            None => return Ok(!line.bytes().is_empty()),
            Some(b'\n') => return Ok(true),
            Some(byte) => line.push(byte),
        }
    }
    Ok(true)
}

impl<R: Read> Lines for RealLines<R> {
    ghost left = { λ lines. lines.left };

    ghost faults = { λ lines. lines.faults };

    fn line(&mut self, into: &mut LineBuffer) -> Result<bool, ReadFault>
        ensures line { GivesLine self.old.left self.new.left result into.new }
        ensures shape { result ≡ Ok true → IsLine into.new }
        ensures cause { HasCause self.old.faults self.new.faults result }
        ensures buffer { result ≢ Ok true → into.new ≡ into.old }
        ensures count { self.new.faults ≡ counted_if (is_err result) self.old.faults }
    {
        let result = fill(&mut self.inner, &mut self.held);
        match result {
            Ok(true) => {
                into.set(self.held.bytes());
                self.held.clear();
            }
            Ok(false) => {}
            Err(ReadFault) => self.faults = self.faults.saturating_add(1),
        }
        result
    }
}
