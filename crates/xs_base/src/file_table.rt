ghost use Rattle.std.specs.Prelude.{◌≡◌, IfOk, IsTrue};
ghost use Rattle.std.specs.FinMap as map;
ghost use Rattle.std.specs.Option.{option_copied};
ghost use Rattle.xs_base.specs.Held.{held};
ghost use Rattle.xs_base.specs.Table.{fits};

use crate::extent::Extent;
use crate::packed::{exchange, find};
use std::alloc::{AllocError, Global};
use std::marker::Model;

/// Files by name, with room for so many bytes of names and contents together, and for so many names.
///
/// The files lie one after another in one run of bytes, each as its name and then its content. All of the
/// room is reserved by `new`, and no later call takes memory.
#[derive(Drop)]
pub struct FileTable {
    extents: Vec<Extent>,
    bytes: Vec<u8>,
    room: usize,
    names: usize,
}

impl Model for FileTable {
    ghost use Rattle.xs_base.specs.Table.{Table, table_code};

    ghost Value = { Table };

    ghost coded = { table_code };

    ghost use Rattle.xs_base.specs.Packed.{contents_of};
    ghost use Rattle.xs_base.specs.TableInside.{IsTable};

    ghost view = { λ a. record { contents = contents_of a.extents.items a.bytes.items; room = a.room; names = a.names } };

    ghost invariant = { IsTable };
}

impl FileTable {
    /// An empty table, with all the memory that it ever takes: so many bytes for names and contents together, and so
    /// many names. The one error is want of memory.
    pub fn new(alloc: Global, room: usize, names: usize) -> Result<FileTable, AllocError>
        ensures { IfOk result (λ table. table ≡ record { contents = map.empty; room = room; names = names }) }
    {
        Ok(FileTable {
            extents: Vec::with_capacity(alloc, names)?,
            bytes: Vec::with_capacity(alloc, room)?,
            room,
            names,
        })
    }

    /// The content that a name holds; None where it holds none.
    pub fn get(&self, name: &[u8]) -> Option<&[u8]>
        ensures { option_copied result ≡ held self.now.contents name.now }
    {
        let place = find(&self.extents, &self.bytes, name)?;
        let (front, _) = self.bytes.split_at(place.end);
        let (_, content) = front.split_at(place.start);
        Some(content)
    }

    /// Whether a name may hold a content, in place of what it holds: there is room for its bytes, and for one more name
    /// where it holds nothing.
    pub fn fits(&self, name: &[u8], content: &[u8]) -> bool
        ensures { result ≡ fits self.now name.now content.now }
    {
        let spare = self.room - self.bytes.len();
        match find(&self.extents, &self.bytes, name) {
            Some(place) => content.len() <= spare + (place.end - place.start),
            None => self.extents.len() < self.names && name.len() + content.len() <= spare,
        }
    }

    /// Has a name hold a content, in place of what it held. Takes no memory.
    pub fn put(&mut self, name: &[u8], content: &[u8])
        requires { IsTrue (fits self.old name.now content.now) }
        ensures { self.new ≡ record self.old { contents = map.insert self.old.contents name.now content.now } }
    {
        match find(&self.extents, &self.bytes, name) {
            Some(place) => {
                let extent = &mut self.extents[place.at];
                extent.content = content.len();
                exchange(&mut self.bytes, place.start, place.end, content);
            }
            None => {
                self.extents.push_reserved(Extent {
                    name: name.len(),
                    content: content.len(),
                });
                let _ = self.bytes.extend_from_slice(name);
                let _ = self.bytes.extend_from_slice(content);
            }
        }
    }
}
