// Block 0: format number, N, the previous count p and the count n, the sums of the first p and the first n entries, the save number.
ghost use Rattle.std.specs.Prelude.{◌≡◌, [], ◌∷◌, ◌+◌, ◌*◌, ◌≤◌, ◌<◌, leb, length, is_ok};
ghost use Rattle.cells.specs.Entry.{block_bytes, entry_bytes};
ghost use Rattle.card.specs.Card.{most_places, blocks_in, run, flush};
ghost use Rattle.card.specs.CodeQueue.{card_of, left_queue, Below};
ghost use Rattle.journal.specs.Header.{encode, decode, header, empty_header};
ghost use Rattle.journal.specs.Orders.{header_write};

use crate::HEADER_AT;
use card::queue::{PowerLost, Queue};
use cells::BLOCK;
use cells::bytes::zero;
use cells::number::{read_u32, read_u64, write_u32, write_u64};

// The number of this format.
pub const FORMAT: u32 = 2;

// The largest save number.
pub const LAST_SAVE: u64 = u64::MAX;

#[derive(Clone, Copy, PartialEq, Eq, Debug)]
pub struct Header {
    pub format: u32,
    pub blocks: u32,
    pub previous: u32,
    pub count: u32,
    pub presum: u64,
    pub sum: u64,
    pub save: u64,
}

impl Header {
    // A header of this format: N, p and its sum, n and its sum, the save number.
    pub fn new(blocks: u32, previous: u32, presum: u64, count: u32, sum: u64, save: u64) -> Header
        ensures { result ≡ header blocks previous presum count sum save }
    {
        Header {
            format: FORMAT,
            blocks,
            previous,
            count,
            presum,
            sum,
            save,
        }
    }

    // The header of an empty log.
    pub fn empty(blocks: u32, save: u64) -> Header
        ensures { result ≡ empty_header blocks save }
    {
        Header::new(blocks, 0, fnv::START, 0, fnv::START, save)
    }

    // Stays by hand, as `fill` does: the header's form as bytes is what is promised (`encode`, `decode`).
    // The header that a block holds.
    pub fn read(block: &[u8]) -> Header
        requires { length block.now ≡ block_bytes }
        ensures { result ≡ decode block.now }
    {
        Header {
            format: read_u32(block, 0),
            blocks: read_u32(block, 4),
            previous: read_u32(block, 8),
            count: read_u32(block, 12),
            presum: read_u64(block, 16),
            sum: read_u64(block, 24),
            save: read_u64(block, 32),
        }
    }

    // Fills a block with the header, and zeros behind it.
    pub fn fill(self, block: &mut [u8])
        requires { length block.old ≡ block_bytes }
        ensures { block.new ≡ encode self }
    {
        zero(block);
        write_u32(block, 0, self.format);
        write_u32(block, 4, self.blocks);
        write_u32(block, 8, self.previous);
        write_u32(block, 12, self.count);
        write_u64(block, 16, self.presum);
        write_u64(block, 24, self.sum);
        write_u64(block, 32, self.save);
    }

    // Stays three arguments, queue, settled, waiting, here and where orders are given: the queue goes by value, as the record holds it, and C lends the bytes.
    // The orders that make this the card's header: one write of block 0, then a flush.
    pub fn order(self, q: Queue, settled: &mut [u8], waiting: &mut [u8]) -> Result<Queue, PowerLost>
        requires settled_nonzero { 0 < blocks_in settled.old }
        requires waiting_lt_most_places { q.waiting < most_places }
        requires entry_bytes_in_bounds { entry_bytes * q.waiting + entry_bytes ≤ length waiting.old }
        requires below { Below (blocks_in settled.old) waiting.old q.waiting }
        ensures happened_value { is_ok result ≡ leb 2 q.power }
        ensures queue_after { card_of settled.new waiting.new (left_queue result) ≡ run (header_write self ∷ flush ∷ []) (card_of settled.old waiting.old q) }
    {
        let mut block = [0u8; BLOCK];
        self.fill(&mut block);
        let written = q.write(waiting, HEADER_AT, &block)?;
        written.flush(settled, waiting)
    }
}
