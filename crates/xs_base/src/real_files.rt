ghost use Rattle.std.specs.Prelude.{◌≡◌, ◌≤◌, ℕ, List, Bool, Result, length, None, IfOk, IfErr, OnOk, OnErr};
ghost use Rattle.std.specs.Result.{is_ok};
ghost use Rattle.xs_base.specs.Held.{HasFileCause, Gives, IsAbsentExactly, Puts, PutsInPart};
ghost use Rattle.xs_base.specs.RealFiles.{answer_of, counts_after};
ghost use Rattle.xs_base.specs.declared.files.FileFault.{FileFault};

use crate::{Disk, FileBytes, FileFault, Files};
use std::alloc::Global;
use std::marker::Model;

/// How many bytes a file that is read has at most.
const MOST: usize = 268435456;

/// The files of the runtime. It tells no content; contracts see what holds the files, and the counts of faults and
/// of names that held nothing. (Own rule.)
///
/// A name is a path. Where nothing is found there, `read` answers `Absent`, and for no other cause. It stops one
/// byte past the limit, so that a file that is too long takes no more memory than one at the limit.
#[derive(Drop)]
pub struct RealFiles<D: Disk> {
    disk: D,
    faults: u64,
    missed: u64,
}

impl<D: Disk> Model for RealFiles<D> {
    ghost use Rattle.xs_base.specs.RealFiles.{FilesOf};

    ghost Value = { FilesOf D };

    ghost view = { λ a. record { disk = a.disk; faults = a.faults; missed = a.missed } };
}

impl<D: Disk> RealFiles<D> {
    /// The files of this runtime. Takes no memory.
    pub fn new(disk: D) -> RealFiles<D>
        ensures { result ≡ record { disk = disk; faults = 0; missed = 0 } }
    {
        RealFiles {
            disk,
            faults: 0,
            missed: 0,
        }
    }
}

// A file that is too long is a fault.
fn answer(loaded: Result<FileBytes, FileFault>) -> Result<FileBytes, FileFault>
    ensures { result ≡ answer_of loaded }
{
    match loaded {
        Ok(bytes) => {
            if bytes.as_slice().len() <= MOST {
                Ok(bytes)
            } else {
                Err(FileFault::Failed)
            }
        }
        Err(fault) => Err(fault),
    }
}

impl<D: Disk> Files for RealFiles<D> {
    ghost holds = { λ _. None };

    ghost faults = { λ files. files.faults };

    ghost missed = { λ files. files.missed };

    fn read(&mut self, alloc: Global, name: &str) -> Result<FileBytes, FileFault>
        ensures content { IfOk result (Gives None name.now) }
        ensures size { IfOk result (λ bytes. length bytes ≤ 268435456) }
        ensures absent { IsAbsentExactly None name.now result }
        ensures cause { HasFileCause self.old.faults self.new.faults self.old.missed self.new.missed result }
        ensures outside { (loaded : Result (List ℕ) FileFault) × D.loads self.old.disk name.now loaded × (result ≡ answer_of loaded) }
        ensures counts { self.new ≡ counts_after self.old result }
    {
        let result = answer(self.disk.load(alloc, name));
        match &result {
            Ok(_) | Err(FileFault::Memory) => {}
            Err(FileFault::Failed) => self.faults = self.faults.saturating_add(1),
            Err(FileFault::Absent) => {
                self.faults = self.faults.saturating_add(1);
                self.missed = self.missed.saturating_add(1);
            }
        }
        result
    }

    fn write(&mut self, name: &str, bytes: &[u8]) -> Result<(), FileFault>
        ensures ok { OnOk result (Puts None None name.now bytes.now) }
        ensures part { OnErr result (PutsInPart None None name.now bytes.now) }
        ensures only { IfErr result (λ fault. fault ≡ FileFault.Failed) }
        ensures cause { HasFileCause self.old.faults self.new.faults self.old.missed self.new.missed result }
        ensures outside { D.stores self.old.disk name.now bytes.now (is_ok result) }
        ensures counts { self.new ≡ counts_after self.old result }
    {
        if self.disk.store(name, bytes) {
            return Ok(());
        }
        self.faults = self.faults.saturating_add(1);
        Err(FileFault::Failed)
    }
}
