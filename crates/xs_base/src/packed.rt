ghost use Rattle.std.specs.Prelude.{◌≡◌, ◌≤◌, ◌+◌, ◌-◌, ◌++◌, length, take, drop, None, MatchOption, vec_len, vec_capacity};
ghost use Rattle.xs_base.specs.Held.{held};
ghost use Rattle.xs_base.specs.Packed.{IsPacked, IsPlace, contents_of};

use crate::extent::{Extent, Place};

/// Where the content of a name lies, among files that lie one after another.
pub fn find(extents: &[Extent], bytes: &[u8], name: &[u8]) -> Option<Place>
    requires { IsPacked extents.now bytes.now }
    ensures { MatchOption result (held (contents_of extents.now bytes.now) name.now ≡ None) (IsPlace extents.now bytes.now name.now) }
{
    let mut start = 0;
    for (at, extent) in extents.iter().enumerate() {
        let (_, rest) = bytes.split_at(start);
        let (found, _) = rest.split_at(extent.name);
        let content = start + extent.name;
        let end = content + extent.content;
        if found == name {
            return Some(Place {
                at,
                start: content,
                end,
            });
        }
        start = end;
    }
    None
}

/// Puts other bytes in the place of those from `start` to `end`, within what is reserved: what is behind
/// them goes to the front, they go, the new ones come last, and the front goes behind them again.
pub fn exchange(bytes: &mut Vec<u8>, start: usize, end: usize, new: &[u8])
    requires order { start ≤ end }
    requires within { end ≤ vec_len bytes.old }
    requires room { vec_len bytes.old - (end - start) + length new.now ≤ vec_capacity bytes.old }
    ensures items { bytes.new.items ≡ take start bytes.old.items ++ (new.now ++ drop end bytes.old.items) }
    ensures capacity { vec_capacity bytes.old ≤ vec_capacity bytes.new }
{
    let behind = bytes.len() - end;
    bytes.rotate_left(end);
    bytes.truncate(behind + start);
    let _ = bytes.extend_from_slice(new);
    bytes.rotate_left(behind);
}
