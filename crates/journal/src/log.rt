// The log on the card: the address and the block of each slot, the sum of a list, and when a list is good.
ghost use Rattle.std.specs.Prelude.{◌≡◌, [], ◌∷◌, ◌+◌, ◌*◌, ◌≤◌, ◌<◌};
ghost use Rattle.cells.specs.Entry.{block_bytes};
ghost use Rattle.cells.specs.Part.{view_of, part_of};
ghost use Rattle.fnv.specs.Fnv.{start};
ghost use Rattle.card.specs.Card.{blocks_in};
ghost use Rattle.journal.specs.Geometry.{trap};
ghost use Rattle.journal.specs.Layout.{slot_at, first_data, is_data};
ghost use Rattle.journal.specs.Log as Log;
ghost use Rattle.journal.specs.Log.{slot_address, entries, sum_of, all_data};

use crate::{DESCRIPTOR_AT, FIRST_DATA, FIRST_SLOT};
use card::settled::read;
use cells::ADDRESS;
use cells::number::{read_u32, write_u32};

// Whether an address is that of a data block.
pub fn is_data(blocks: u32, a: u32) -> bool
    ensures { result ≡ is_data trap blocks a }
{
    FIRST_DATA <= a && a < blocks
}

// Stays an argument, here and where the card is read: a view that holds the settled bytes and that they reach the data was tried and proves. It takes a clause
// from each `requires` and lengthens each `ensures`, and who lends the bytes to be written can't hold it.
// The address in slot i.
pub fn slot_address(settled: &[u8], i: u32) -> u32
    requires trap_bound { first_data trap < blocks_in settled.now }
    requires i_lt_slots { i < trap.slots }
    ensures { result ≡ slot_address settled.now i }
{
    read_u32(read(settled, DESCRIPTOR_AT), ADDRESS * (i as usize))
}

// The block of slot i, where it lies.
pub fn slot_block<'a>(settled: &'a [u8], i: u32) -> &'a [u8]
    requires trap_bound { first_data trap < blocks_in settled.now }
    requires i_lt_slots { i < trap.slots }
    ensures { view_of result ≡ part_of settled.entry (block_bytes * slot_at trap i) block_bytes }
{
    read(settled, FIRST_SLOT + i)
}

// The sum, from h on, of one entry: its 4 address bytes, then its block.
pub fn sum_entry(h: u64, address: u32, block: &[u8]) -> u64
    ensures { result ≡ sum_of h (record { address = address; block = block.now } ∷ []) }
{
    let mut bytes = [0u8; ADDRESS];
    write_u32(&mut bytes, 0, address);
    fnv::sum_from(fnv::sum_from(h, &bytes), block)
}

// The sum of the first n entries.
pub fn sum_entries(settled: &[u8], n: u32) -> u64
    requires trap_bound { first_data trap < blocks_in settled.now }
    requires n_le_slots { n ≤ trap.slots }
    ensures { result ≡ sum_of start (entries trap settled.now n) }
{
    (0..n).fold(fnv::START, |sum, i| {
        sum_entry(sum, slot_address(settled, i), slot_block(settled, i))
    })
}

// Whether each of the first n addresses is that of a data block.
// Stays an `&` over all, not `all`, which ends at the first wrong one: so it compiles to vectors.
pub fn all_data(settled: &[u8], blocks: u32, n: u32) -> bool
    requires trap_bound { first_data trap < blocks_in settled.now }
    requires n_le_slots { n ≤ trap.slots }
    ensures { result ≡ all_data trap blocks (entries trap settled.now n) }
{
    (0..n).fold(true, |all, i| {
        all & is_data(blocks, slot_address(settled, i))
    })
}

// Whether the first n entries are good: they have this sum, and each address is that of a data block.
pub fn good(settled: &[u8], blocks: u32, n: u32, sum: u64) -> bool
    requires trap_bound { first_data trap < blocks_in settled.now }
    requires n_le_slots { n ≤ trap.slots }
    ensures { result ≡ Log.good trap blocks (entries trap settled.now n) sum }
{
    sum_entries(settled, n) == sum && all_data(settled, blocks, n)
}
