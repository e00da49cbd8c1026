ghost use Rattle.std.specs.Prelude.{◌≡◌, ◌≤◌, ◌++◌, ◌∷◌, [], ℕ, List, length, Option, IfOk, IfErr, OnOk, OnErr};
ghost use Rattle.xs_base.specs.Held.{Contents, HasFileCause, Gives, IsAbsentExactly, Puts, PutsInPart};

use std::alloc::{AllocError, Global};
use std::marker::Model;

/// Why a file was not read or not written. (Own rule.)
#[derive(Clone, Copy, Debug, PartialEq, Eq)]
pub enum FileFault {
    /// The name holds nothing.
    Absent,
    /// The outside failed.
    Failed,
    /// Memory for the content was wanting.
    Memory,
}

/// The bytes of a file. Contracts see them as a list of numbers.
#[derive(Drop)]
pub struct FileBytes {
    bytes: Vec<u8>,
}

impl Model for FileBytes {
    ghost Value = { List ℕ };

    ghost view = { λ a. a.bytes.items };
}

impl FileBytes {
    /// No bytes. Takes no memory.
    pub fn new(alloc: Global) -> FileBytes
        ensures { result ≡ [] }
    {
        FileBytes {
            bytes: Vec::new(alloc),
        }
    }

    /// One byte more, at the end. Where memory for it is wanting, all stays as before.
    pub fn push(&mut self, byte: u8) -> Result<(), AllocError>
        ensures ok { OnOk result (self.new ≡ self.old ++ byte ∷ []) }
        ensures err { OnErr result (self.new ≡ self.old) }
    {
        self.bytes.push(byte)?;
        Ok(())
    }

    pub(crate) fn from_vec(bytes: Vec<u8>) -> FileBytes
        ensures { result ≡ bytes.items }
    {
        FileBytes { bytes }
    }

    /// All of the bytes. Takes no memory.
    pub fn as_slice(&self) -> &[u8]
        ensures { result.now ≡ self.now }
    {
        &self.bytes
    }
}

/// Files by name. (Own rule.)
///
/// Each call that answers `Failed` or `Absent` raises `faults`, and no other call does. `Absent` alone
/// raises `missed` too.
pub trait Files {
    /// What each name holds, where that is told.
    ghost holds: { Self → Option Contents };

    /// How often a call has failed or found nothing. It never falls.
    ghost faults: { Self → ℕ };

    /// How often a name held nothing.
    ghost missed: { Self → ℕ };

    /// The whole content under the name, of at most 268,435,456 bytes: a longer file answers `Failed`.
    /// What the names hold stays, whatever is answered. Takes memory for the content.
    fn read(&mut self, alloc: Global, name: &str) -> Result<FileBytes, FileFault>
        ensures content { IfOk result (Gives (holds self.old) name.now) }
        ensures size { IfOk result (λ bytes. length bytes ≤ 268435456) }
        ensures stays { holds self.new ≡ holds self.old }
        ensures absent { IsAbsentExactly (holds self.old) name.now result }
        ensures cause { HasFileCause (faults self.old) (faults self.new) (missed self.old) (missed self.new) result };

    /// Puts the bytes under the name. After `Failed` the name holds its old bytes or a front of the new
    /// ones. The other names stay. `Failed` is its one error. Takes no memory.
    fn write(&mut self, name: &str, bytes: &[u8]) -> Result<(), FileFault>
        ensures ok { OnOk result (Puts (holds self.old) (holds self.new) name.now bytes.now) }
        ensures part { OnErr result (PutsInPart (holds self.old) (holds self.new) name.now bytes.now) }
        ensures only { IfErr result (λ fault. fault ≡ FileFault.Failed) }
        ensures cause { HasFileCause (faults self.old) (faults self.new) (missed self.old) (missed self.new) result };
}
