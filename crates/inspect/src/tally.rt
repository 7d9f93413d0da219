// tally: the sum of all data bytes, the log laid over. The home blocks are added up first, then corrected for the log.
ghost use Rattle.std.specs.Prelude.{◌≡◌, true, ◌↔◌, ◌+◌, ◌*◌, ◌^◌, ◌≤◌, ◌<◌, length};
ghost use Rattle.cells.specs.Entry.{block_bytes};
ghost use Rattle.card.specs.Card.{blocks_in, block_at};
ghost use Rattle.journal.specs.Geometry.{trap};
ghost use Rattle.journal.specs.Layout.{slot_at, is_data};
ghost use Rattle.journal.specs.Log.{slot_address};
ghost use Rattle.journal.specs.Lookup.{last_slot};
ghost use Rattle.inspect.specs.Reading.{data_blocks, laid};
ghost use Rattle.inspect.specs.Tally.{sum_bytes, sum_data, tally_of, tally_answer};

use crate::reading::Reading;
use card::settled::read;
use journal::FIRST_DATA;
use journal::log::{is_data, slot_address, slot_block};
use journal::lookup::last_slot;
use refusals::Refusal;

// The bytes of an array of this length are added up sixteen at a time.
const CHUNK: usize = 64;

// The sum of a chunk's bytes.
fn sum_chunk(chunk: &[u8; CHUNK]) -> u32
    ensures value { result ≡ sum_bytes chunk.now }
    ensures upper_bound { result ≤ 255 * 64 }
{
    chunk.iter().map(|&b| b as u32).sum()
}

// The sum of a block's bytes, chunk by chunk.
fn sum_bytes(block: &[u8]) -> u64
    requires { length block.now ≡ block_bytes }
    ensures value { result ≡ sum_bytes block.now }
    ensures upper_bound { result ≤ 255 * block_bytes }
{
    let (chunks, _) = block.as_chunks::<CHUNK>();
    let sum: u32 = chunks.iter().map(sum_chunk).sum();
    sum as u64
}

// The sum of the bytes of the block at an address.
fn sum_block(settled: &[u8], a: u32) -> u64
    requires { a < blocks_in settled.now }
    ensures value { result ≡ sum_bytes (block_at settled.now a) }
    ensures upper_bound { result ≤ 255 * block_bytes }
{
    sum_bytes(read(settled, a))
}

// The sum of all data bytes in the home blocks.
// Stays a function of the bytes and N: tried as a method, and that a byte is below 256, which the upper bound needs, a proof knows of a slice that is an argument, not of a struct's.
fn sum_homes(settled: &[u8], blocks: u32) -> u64
    requires { blocks ≤ blocks_in settled.now }
    ensures value { result ≡ sum_data trap (block_at settled.now) (data_blocks trap blocks) }
    ensures upper_bound { result ≤ 255 * block_bytes * data_blocks trap blocks }
{
    (FIRST_DATA..blocks).map(|a| sum_block(settled, a)).sum()
}

impl Reading<'_> {
    // Whether slot i decides a data block: it is the last slot of the list with the block's address.
    fn decides(&self, i: u32) -> bool
        requires { i < trap.slots }
        ensures { (result ≡ true) ↔ (is_data trap self.now.blocks (slot_address self.now.settled.now i) ≡ true) × (last_slot self.now.settled.now (slot_address self.now.settled.now i) self.now.count ≡ Some i) }
    {
        let a = slot_address(self.settled, i);
        is_data(self.blocks, a) && last_slot(self.settled, a, self.count) == Some(i)
    }

    // A sum once slot i's block is laid over: the bytes of its home off, its own on.
    fn corrected(&self, i: u32, sum: u64) -> u64
        requires i_lt_slots { i < trap.slots }
        requires i_bound { slot_address self.now.settled.now i < self.now.blocks }
        requires i_bound_2 { sum_bytes (block_at self.now.settled.now (slot_address self.now.settled.now i)) ≤ sum }
        requires block_bytes_bound { sum + 255 * block_bytes < 2 ^ 64 }
        ensures i_value { result + sum_bytes (block_at self.now.settled.now (slot_address self.now.settled.now i)) ≡ sum + sum_bytes (block_at self.now.settled.now (slot_at trap i)) }
        ensures upper_bound { result ≤ sum + 255 * block_bytes }
    {
        let home = sum_block(self.settled, slot_address(self.settled, i));
        let own = sum_bytes(slot_block(self.settled, i));
        sum - home + own
    }

    // The sum of all data bytes, the list laid over: that of the home blocks, corrected once for each address.
    fn sum_data(&self) -> u64
        ensures { result ≡ sum_data trap (laid trap self.now.settled.now self.now.count) (data_blocks trap self.now.blocks) }
    {
        let mut sum = sum_homes(self.settled, self.blocks);
        for i in 0..self.count {
            if self.decides(i) {
                sum = self.corrected(i, sum);
            }
        }
        sum
    }
}

// The sum of all data bytes of a card, or its refusal.
pub fn tally(settled: &[u8]) -> Result<u64, Refusal>
    ensures { tally_answer result ≡ tally_of trap settled.now }
{
    let card = Reading::inspect(settled)?;
    Ok(card.sum_data())
}
