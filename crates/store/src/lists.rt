// The lists of entries: open in work memory, group behind it, and the waiting writes in bytes of their own.
ghost use Rattle.std.specs.Prelude.{◌≡◌, [], ◌+◌, ◌*◌, ◌≤◌, ◌<◌, length};
ghost use Rattle.cells.specs.Entry.{entry_bytes, entry_at, set_entry};
ghost use Rattle.journal.specs.Geometry.{trap};
ghost use Rattle.store.specs.Lists as Lists;
ghost use Rattle.journal.specs.Wanted.{wanted_count};
ghost use Rattle.journal.specs.CodeWanted.{Met};
ghost use Rattle.store.specs.Lists.{listed, addresses_of};
ghost use Rattle.store.specs.Causes.{is_found};
ghost use Rattle.store.specs.Get.{listed_place};

use crate::get_list::MOST_WANTED;
use cells::bytes::copy;
use cells::{ADDRESS, ENTRY, entry};
use journal::SLOTS;
use journal::wanted::Chains;

// The entry at which each starts.
pub const OPEN: usize = 0;

pub const GROUP: usize = SLOTS as usize;

pub const WAITING_FROM: usize = 0;

// The address of the i-th entry of the list that starts at from.
pub(crate) fn address(work: &[u8], from: usize, i: u32) -> u32
    requires { entry_bytes * (from + i) + entry_bytes ≤ length work.now }
    ensures { result ≡ (listed work.now from i).address }
{
    entry::address(work, from + (i as usize))
}

// The byte at which its block starts.
pub(crate) fn place_of(from: usize, i: u32) -> usize
    requires { from + i < trap.slots + trap.slots }
    ensures { result ≡ listed_place from i }
{
    ENTRY * (from + (i as usize)) + ADDRESS
}

// Stays beside the journal's `last_slot`: a line or two each, over other bytes.
// The entry with the address a among its first n.
pub(crate) fn find(work: &[u8], from: usize, n: u32, a: u32) -> Option<u32>
    requires { entry_bytes * (from + n) ≤ length work.now }
    ensures { result ≡ Lists.find work.now from n a }
{
    (0..n).rev().find(|&i| address(work, from, i) == a)
}

// Whether its first n have the address a.
pub(crate) fn holds(work: &[u8], from: usize, n: u32, a: u32) -> bool
    requires { entry_bytes * (from + n) ≤ length work.now }
    ensures { result ≡ is_found (Lists.find work.now from n a) }
{
    find(work, from, n, a).is_some()
}

// Stays beside `Chains::walk`: one loop of a line each, and what is read, as a closure, would need a clause of its own in both.
// Looks for wanted addresses among its first n, as the walk of the descriptor does in the log.
pub(crate) fn look(
    work: &[u8],
    from: usize,
    n: u32,
    chains: &Chains<MOST_WANTED>,
    met: &mut [Option<u32>],
)
    requires n_in_bounds { entry_bytes * (from + n) ≤ length work.now }
    requires met_in_bounds { wanted_count chains.now.list.now ≤ length met.old }
    requires met { Met chains.now.list.now [] met.old }
    ensures { Met chains.now.list.now (addresses_of work.now from n) met.new }
{
    for i in 0..n {
        chains.mark(i, address(work, from, i), met);
    }
}

// Copies one entry of work memory over another, by way of a copy of its own: the two copies have nothing between them, so that the compiler
// makes them one.
pub(crate) fn copy_entry(work: &mut [u8], from: usize, to: usize)
    requires entry_bytes_in_bounds { entry_bytes * from + entry_bytes ≤ length work.old }
    requires entry_bytes_in_bounds_2 { entry_bytes * to + entry_bytes ≤ length work.old }
    ensures { work.new ≡ set_entry work.old to (entry_at work.old from) }
{
    let mut bytes = [0u8; ENTRY];
    let at = ENTRY * from;
    copy(&mut bytes, &work[at..at + ENTRY]);
    let over = ENTRY * to;
    copy(&mut work[over..over + ENTRY], &bytes);
}
