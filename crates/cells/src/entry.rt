// The i-th entry of a run of them: 4 address bytes, then a block.
ghost use Rattle.std.specs.Prelude.{◌≡◌, ◌+◌, ◌*◌, ◌≤◌, length};
ghost use Rattle.cells.specs.Entry.{block_bytes, entry_bytes, entry_at, set_entry};
ghost use Rattle.cells.specs.Part.{view_of, part_of};

use crate::bytes::copy;
use crate::number::{read_u32, write_u32};
use crate::{ADDRESS, BLOCK, ENTRY};

// Its address.
pub fn address(s: &[u8], i: usize) -> u32
    requires { entry_bytes * i + entry_bytes ≤ length s.now }
    ensures { result ≡ (entry_at s.now i).address }
{
    read_u32(s, ENTRY * i)
}

// Its block, where it lies.
pub fn block<'a>(s: &'a [u8], i: usize) -> &'a [u8]
    requires { entry_bytes * i + entry_bytes ≤ length s.now }
    ensures { view_of result ≡ part_of s.entry (entry_bytes * i + 4) block_bytes }
{
    let at = ENTRY * i + ADDRESS;
    &s[at..at + BLOCK]
}

// Stores an entry in its place.
pub fn set(s: &mut [u8], i: usize, address: u32, block: &[u8])
    requires entry_bytes_in_bounds { entry_bytes * i + entry_bytes ≤ length s.old }
    requires block_len { length block.now ≡ block_bytes }
    ensures { s.new ≡ set_entry s.old i (record { address = address; block = block.now }) }
{
    let at = ENTRY * i;
    write_u32(s, at, address);
    let from = at + ADDRESS;
    copy(&mut s[from..from + BLOCK], block);
}
