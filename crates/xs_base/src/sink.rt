ghost use Rattle.std.specs.Prelude.{ℕ, List, Option};
ghost use Rattle.xs_base.specs.Outside.{HasCause, Receives};

/// A write failed. How much was received before is not said. (Own rule.)
#[derive(Clone, Copy, Debug, PartialEq, Eq)]
pub struct WriteFault;

/// Takes bytes, in order. (Own rule.)
///
/// Implementations that know what was received tell it by `written`. Each call that answers
/// `WriteFault` raises `faults`, and no other call does.
pub trait Sink {
    /// The bytes received so far, where the sink tells them.
    ghost written: { Self → Option (List ℕ) };

    /// How often a call has failed. It never falls.
    ghost faults: { Self → ℕ };

    /// Writes all of the bytes. After `WriteFault` a front of them is written, maybe none or all.
    /// Takes no memory.
    fn write(&mut self, bytes: &[u8]) -> Result<(), WriteFault>
        ensures bytes { Receives (written self.old) (written self.new) result bytes.now }
        ensures cause { HasCause (faults self.old) (faults self.new) result };
}
