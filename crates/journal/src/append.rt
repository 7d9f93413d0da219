// Appending a group of entries to the log: log blocks, the descriptor, a header, one flush.
ghost use Rattle.std.specs.Prelude.{◌≡◌, List, [], ◌∷◌, ◌++◌, ℕ, ◌+◌, ◌*◌, ◌≤◌, ◌<◌, leb, length, is_ok};
ghost use Rattle.std.proofs.lemmas.List.Edits.{sets};
ghost use Rattle.cells.specs.Entry.{block_bytes, entry_bytes};
ghost use Rattle.card.specs.Card.{most_places, blocks_in, block_at, run, write};
ghost use Rattle.card.specs.CodeQueue.{card_of, left_queue, Below};
ghost use Rattle.journal.specs.Geometry.{trap};
ghost use Rattle.journal.specs.Layout.{descriptor_at, first_data};
ghost use Rattle.journal.specs.Header.{header};
ghost use Rattle.journal.specs.Log.{group_count, group_entries, sum_of};
ghost use Rattle.journal.specs.Orders as Orders;
ghost use Rattle.journal.specs.Orders.{slot_writes, address_bytes, append_orders};

use crate::header::Header;
use crate::log::sum_entry;
use crate::{DESCRIPTOR_AT, FIRST_SLOT};
use card::queue::{PowerLost, Queue};
use card::settled::read;
use cells::bytes::{copy, zero};
use cells::number::write_u32;
use cells::{ADDRESS, BLOCK, ENTRY, entry};

// The log as it stands: the card's blocks, how many entries, their sum, and the save number of the header to come.
#[derive(Clone, Copy, PartialEq, Eq, Debug)]
pub struct Log {
    pub blocks: u32,
    pub count: u32,
    pub sum: u64,
    pub save: u64,
}

impl Log {
    // The header of a log that is longer than this one: count entries, with their sum.
    fn header(self, count: u32, sum: u64) -> Header
        ensures { result ≡ header self.blocks self.count self.sum count sum self.save }
    {
        Header::new(self.blocks, self.count, self.sum, count, sum, self.save)
    }
}

// Stays beside `wanted::count`: each divides by a length of its own.
// How many entries a group is. Its bytes are its entries, one behind the other.
fn count(group: &[u8]) -> usize
    ensures { result ≡ group_count group.now }
{
    group.len() / ENTRY
}

// The sum, from h on, of a group.
fn sum_group(h: u64, group: &[u8]) -> u64
    ensures { result ≡ sum_of h (group_entries group.now) }
{
    (0..count(group)).fold(h, |sum, i| {
        sum_entry(sum, entry::address(group, i), entry::block(group, i))
    })
}

// Writes a group's addresses into a descriptor, from byte `at` on.
fn list_addresses(block: &mut [u8], at: usize, group: &[u8])
    requires count_in_bounds { at + 4 * group_count group.now ≤ length block.old }
    ensures { block.new ≡ sets block.old at (address_bytes (group_entries group.now)) }
{
    for i in 0..count(group) {
        write_u32(block, at + ADDRESS * i, entry::address(group, i));
    }
}

// Fills a block with the descriptor: n addresses of the old one, then a group's, then zeros.
fn describe(block: &mut [u8], old: &[u8], n: u32, group: &[u8])
    requires block_len { length block.old ≡ block_bytes }
    requires len { length old.now ≡ block_bytes }
    requires count_bound { n + group_count group.now ≤ trap.slots }
    ensures { block.new ≡ Orders.describe old.now n (group_entries group.now) }
{
    zero(block);
    let at = ADDRESS * (n as usize);
    copy(&mut block[..at], &old[..at]);
    list_addresses(block, at, group);
}

// The writes of a group's blocks, to the slots from n on.
fn write_slots(queue: Queue, waiting: &mut [u8], group: &[u8], n: u32) -> Result<Queue, PowerLost>
    requires count_bound { n + group_count group.now ≤ trap.slots }
    requires count_bound_2 { queue.waiting + group_count group.now ≤ most_places }
    requires count_in_bounds { entry_bytes * (queue.waiting + group_count group.now) ≤ length waiting.old }
    ensures happened_value { is_ok result ≡ leb (group_count group.now) queue.power }
    ensures by_index { (s : List ℕ) → card_of s waiting.new (left_queue result) ≡ run (slot_writes trap n (group_entries group.now)) (card_of s waiting.old queue) }
    ensures waiting_bound { (left_queue result).waiting ≤ queue.waiting + group_count group.now }
{
    let mut q = queue;
    for i in 0..count(group) as u32 {
        let block = entry::block(group, i as usize);
        q = q.write(waiting, FIRST_SLOT + (n + i), block)?;
    }
    Ok(q)
}

// The writes of a group's blocks, and of the descriptor that lists them behind n entries.
fn write_list(
    queue: Queue,
    settled: &[u8],
    waiting: &mut [u8],
    group: &[u8],
    n: u32,
) -> Result<Queue, PowerLost>
    requires trap_bound { first_data trap < blocks_in settled.now }
    requires count_bound { n + group_count group.now ≤ trap.slots }
    requires count_bound_2 { queue.waiting + group_count group.now + 1 ≤ most_places }
    requires count_in_bounds { entry_bytes * (queue.waiting + group_count group.now + 1) ≤ length waiting.old }
    ensures happened_value { is_ok result ≡ leb (group_count group.now + 1) queue.power }
    ensures by_index { (s : List ℕ) → card_of s waiting.new (left_queue result) ≡ run (slot_writes trap n (group_entries group.now) ++ (write (record { address = descriptor_at; block = Orders.describe (block_at settled.now descriptor_at) n (group_entries group.now) }) ∷ [])) (card_of s waiting.old queue) }
    ensures waiting_bound { (left_queue result).waiting ≤ queue.waiting + group_count group.now + 1 }
{
    let written = write_slots(queue, waiting, group, n)?;
    let mut block = [0u8; BLOCK];
    describe(&mut block, read(settled, DESCRIPTOR_AT), n, group);
    written.write(waiting, DESCRIPTOR_AT, &block)
}

// The orders of an append, where the longer log's sum is given: the group's blocks in slot order, the descriptor, a header whose
// previous log is the old one, a flush.
fn give_orders(
    queue: Queue,
    settled: &mut [u8],
    waiting: &mut [u8],
    group: &[u8],
    log: Log,
    sum: u64,
) -> Result<Queue, PowerLost>
    requires trap_bound { first_data trap < blocks_in settled.old }
    requires count_bound { log.count + group_count group.now ≤ trap.slots }
    requires count_bound_2 { queue.waiting + group_count group.now + 2 ≤ most_places }
    requires count_in_bounds { entry_bytes * (queue.waiting + group_count group.now + 2) ≤ length waiting.old }
    requires below { Below (blocks_in settled.old) waiting.old queue.waiting }
    requires sum_value { sum ≡ sum_of log.sum (group_entries group.now) }
    ensures happened_value { is_ok result ≡ leb (group_count group.now + 3) queue.power }
    ensures queue_after { card_of settled.new waiting.new (left_queue result) ≡ run (append_orders trap log.blocks settled.old log.count log.sum log.save (group_entries group.now)) (card_of settled.old waiting.old queue) }
{
    let listed = write_list(queue, settled, waiting, group, log.count)?;
    let h = log.header(log.count + count(group) as u32, sum);
    h.order(listed, settled, waiting)
}

// Appends a group to the log. Returns the sum of the longer log, and what its orders came to.
pub fn append(
    queue: Queue,
    settled: &mut [u8],
    waiting: &mut [u8],
    group: &[u8],
    log: Log,
) -> (u64, Result<Queue, PowerLost>)
    requires trap_bound { first_data trap < blocks_in settled.old }
    requires count_bound { log.count + group_count group.now ≤ trap.slots }
    requires count_bound_2 { queue.waiting + group_count group.now + 2 ≤ most_places }
    requires count_in_bounds { entry_bytes * (queue.waiting + group_count group.now + 2) ≤ length waiting.old }
    requires below { Below (blocks_in settled.old) waiting.old queue.waiting }
    ensures done_value { is_ok result.1 ≡ leb (group_count group.now + 3) queue.power }
    ensures queue_after { card_of settled.new waiting.new (left_queue result.1) ≡ run (append_orders trap log.blocks settled.old log.count log.sum log.save (group_entries group.now)) (card_of settled.old waiting.old queue) }
    ensures sum_value { result.0 ≡ sum_of log.sum (group_entries group.now) }
{
    let sum = sum_group(log.sum, group);
    (sum, give_orders(queue, settled, waiting, group, log, sum))
}
