ghost use Rattle.std.specs.Prelude.{◌≡◌};
ghost use Rattle.std.specs.Result.{is_err};
ghost use Rattle.std.specs.Io.KnownBytes.{Keeps};
ghost use Rattle.xs_base.specs.Outside.{HasCause, Receives};
ghost use Rattle.xs_base.specs.Failing.{counted_if};

use crate::{Sink, WriteFault};
use std::io::{ErrorKind, Write};
use std::marker::Model;

/// A sink over any writer of std. It tells its bytes where the writer tells what it holds, as vectors and
/// queues do, and what writes through them; a terminal and a file tell nothing. (Own rule.)
///
/// Each write is passed on whole and flushed; what is interrupted is tried again. A writer that takes
/// nothing of a piece that isn't empty is a fault.
#[derive(Drop)]
pub struct RealSink<W: Write> {
    inner: W,
    faults: u64,
}

impl<W: Write> Model for RealSink<W> {
    ghost use Rattle.xs_base.specs.Writing.{SinkOverWriter};

    ghost Value = { SinkOverWriter };

    ghost view = { λ a. record { written = W.contents a.inner; faults = a.faults } };
}

impl<W: Write> RealSink<W> {
    /// A sink that hands on to this writer. Takes no memory.
    pub fn new(inner: W) -> RealSink<W>
        ensures { result ≡ record { written = W.contents inner; faults = 0 } }
    {
        RealSink { inner, faults: 0 }
    }
}

/// Writes the bytes piece by piece, as many at a time as are taken, and has them flushed.
pub fn send<W: Write>(to: &mut W, bytes: &[u8]) -> Result<(), WriteFault>
    ensures { Receives (W.contents to.old) (W.contents to.new) result bytes.now }
{
    let mut rest = bytes;
    for _ in 0..u64::MAX {
        if rest.is_empty() {
            return flush(to);
        }
        match to.write(rest) {
            Ok(0) => return Err(WriteFault),
            Ok(taken) => {
                let (_, left) = rest.split_at(taken);
                rest = left;
            }
            Err(error) if error.kind() == ErrorKind::Interrupted => {}
            Err(_) => return Err(WriteFault),
        }
    }
    Err(WriteFault)
}

fn flush<W: Write>(to: &mut W) -> Result<(), WriteFault>
    ensures { Keeps (W.contents to.old) (W.contents to.new) }
{
    match to.flush() {
        Ok(()) => Ok(()),
        Err(_) => Err(WriteFault),
    }
}

impl<W: Write> Sink for RealSink<W> {
    ghost written = { λ sink. sink.written };

    ghost faults = { λ sink. sink.faults };

    fn write(&mut self, bytes: &[u8]) -> Result<(), WriteFault>
        ensures bytes { Receives self.old.written self.new.written result bytes.now }
        ensures cause { HasCause self.old.faults self.new.faults result }
        ensures count { self.new.faults ≡ counted_if (is_err result) self.old.faults }
    {
        let result = send(&mut self.inner, bytes);
        if result.is_err() {
            self.faults = self.faults.saturating_add(1);
        }
        result
    }
}
