ghost use Rattle.std.specs.Prelude.{◌≡◌, ◌≤◌, length, Some, IfOk, IfErr, IsTrue, OnOk, OnErr, MatchOption};
ghost use Rattle.std.specs.FinMap as map;
ghost use Rattle.std.specs.Option.{option_copied};
ghost use Rattle.std.specs.Result.{is_err};
ghost use Rattle.xs_base.specs.Held.{HasFileCause, Gives, IsAbsentExactly, Puts, PutsInPart, held};
ghost use Rattle.xs_base.specs.Table.{fits};
ghost use Rattle.xs_base.specs.MemFiles.{after_put, after_read, after_write, is_refused, read_fault, standing, with_content};

use crate::file_table::FileTable;
use crate::{Fail, Fails, FileBytes, FileFault, Files};
use std::alloc::{AllocError, Global};
use std::marker::Model;

/// How many bytes a file that is read has at most.
const MOST: usize = 268435456;

/// Files in memory, whose listed calls fail. (Own rule.)
///
/// There is room for so many names, and for so many bytes of names and contents together; `new` reserves
/// all of it, and no later call takes memory but for what `read` answers. Contracts see what the names
/// hold, the two limits, the listed calls, and the counts of calls, of faults and of names that held nothing.
#[derive(Drop)]
pub struct MemFiles {
    table: FileTable,
    fails: Fails,
    calls: u64,
    faults: u64,
    missed: u64,
}

impl Model for MemFiles {
    ghost use Rattle.std.specs.Coded.{codes};
    ghost use Rattle.xs_base.specs.contracts.fails.Fail as fail;
    ghost use Rattle.xs_base.specs.Table.{table_code};
    ghost use Rattle.xs_base.specs.MemFiles.{FilesInMemory};

    ghost Value = { FilesInMemory };

    ghost coded = { Prim.hlevel (codes, table_code, fail.the_row.coded) };

    ghost view = { λ a. record { table = a.table; fails = a.fails; calls = a.calls; faults = a.faults; missed = a.missed } };
}

impl MemFiles {
    /// No files, with room for so many bytes of names and contents together and for so many names.
    pub fn new(alloc: Global, room: u32, names: u32, fails: Fails) -> Result<MemFiles, AllocError>
        ensures { IfOk result (λ files. files ≡ record { table = record { contents = map.empty; room = room; names = names }; fails = fails; calls = 0; faults = 0; missed = 0 }) }
    {
        Ok(MemFiles {
            table: FileTable::new(alloc, room as usize, names as usize)?,
            fails,
            calls: 0,
            faults: 0,
            missed: 0,
        })
    }

    /// Places a file, without counting as a call. False exactly where a limit would be passed, and nothing
    /// changes then. Takes no memory.
    pub fn put(&mut self, name: &str, bytes: &[u8]) -> bool
        ensures fits { result ≡ fits self.old.table name.now bytes.now }
        ensures after { self.new ≡ after_put self.old name.now bytes.now }
    {
        let fits = self.table.fits(name.as_bytes(), bytes);
        if fits {
            self.table.put(name.as_bytes(), bytes);
        }
        fits
    }

    /// What the name holds. `None` exactly where it holds nothing. Takes no memory.
    pub fn get(&self, name: &str) -> Option<&[u8]>
        ensures { option_copied result ≡ held self.now.table.contents name.now }
    {
        self.table.get(name.as_bytes())
    }
}

// What comes under the name by a write that fits, where anything does.
fn standing_part(fail: Option<Fail>, bytes: &[u8]) -> Option<&[u8]>
    ensures part { option_copied result ≡ standing fail bytes.now }
{
    let Some(fail) = fail else {
        return Some(bytes);
    };
    let count = fail.stands?;
    let (front, _) = bytes.split_at(bytes.len().min(count as usize));
    Some(front)
}

fn put_standing(table: &mut FileTable, fail: Option<Fail>, name: &[u8], bytes: &[u8])
    requires { IsTrue (fits table.old name.now bytes.now) }
    ensures { table.new ≡ with_content table.old name.now (standing fail bytes.now) }
{
    if let Some(part) = standing_part(fail, bytes) {
        table.put(name, part);
    }
}

impl Files for MemFiles {
    ghost holds = { λ files. Some files.table.contents };

    ghost faults = { λ files. files.faults };

    ghost missed = { λ files. files.missed };

    /// `Absent` exactly where the name holds nothing, also where the call is listed. `Failed` exactly where
    /// it holds something and the call is listed, or it holds more than 268,435,456 bytes.
    fn read(&mut self, alloc: Global, name: &str) -> Result<FileBytes, FileFault>
        ensures content { IfOk result (Gives (Some self.old.table.contents) name.now) }
        ensures size { IfOk result (λ bytes. length bytes ≤ 268435456) }
        ensures stays { Some self.new.table.contents ≡ Some self.old.table.contents }
        ensures absent { IsAbsentExactly (Some self.old.table.contents) name.now result }
        ensures cause { HasFileCause self.old.faults self.new.faults self.old.missed self.new.missed result }
        ensures fault { MatchOption (read_fault self.old name.now) (IfErr result (λ fault. fault ≡ FileFault.Memory)) (λ fault. result ≡ Err fault) }
        ensures after { self.new ≡ after_read self.old name.now }
    {
        self.calls = self.calls.saturating_add(1);
        let listed = self.fails.at(self.calls).is_some();
        let Some(bytes) = self.table.get(name.as_bytes()) else {
            self.faults = self.faults.saturating_add(1);
            self.missed = self.missed.saturating_add(1);
            return Err(FileFault::Absent);
        };
        if listed || bytes.len() > MOST {
            self.faults = self.faults.saturating_add(1);
            return Err(FileFault::Failed);
        }
        match Vec::from_slice(alloc, bytes) {
            Ok(copy) => Ok(FileBytes::from_vec(copy)),
            Err(_) => Err(FileFault::Memory),
        }
    }

    /// Fails exactly where the call is listed or a limit would be passed. In the latter case nothing
    /// changes, also where the call is listed. Takes no memory.
    fn write(&mut self, name: &str, bytes: &[u8]) -> Result<(), FileFault>
        ensures ok { OnOk result (Puts (Some self.old.table.contents) (Some self.new.table.contents) name.now bytes.now) }
        ensures part { OnErr result (PutsInPart (Some self.old.table.contents) (Some self.new.table.contents) name.now bytes.now) }
        ensures only { IfErr result (λ fault. fault ≡ FileFault.Failed) }
        ensures cause { HasFileCause self.old.faults self.new.faults self.old.missed self.new.missed result }
        ensures fault { is_err result ≡ is_refused self.old name.now bytes.now }
        ensures after { self.new ≡ after_write self.old name.now bytes.now }
    {
        self.calls = self.calls.saturating_add(1);
        let fail = self.fails.at(self.calls);
        if !self.table.fits(name.as_bytes(), bytes) {
            self.faults = self.faults.saturating_add(1);
            return Err(FileFault::Failed);
        }
        put_standing(&mut self.table, fail, name.as_bytes(), bytes);
        if fail.is_none() {
            return Ok(());
        }
        self.faults = self.faults.saturating_add(1);
        Err(FileFault::Failed)
    }
}
