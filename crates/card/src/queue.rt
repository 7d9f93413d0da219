// The queue of waiting writes, and the orders: write, flush, and the cut that ends them.
ghost use Rattle.std.specs.Prelude.{◌≡◌, List, [], ◌∷◌, ℕ, ◌+◌, ◌*◌, ◌-◌, ◌≤◌, ◌<◌, ltb, length, is_ok, IfOk, IfErr};
ghost use Rattle.cells.specs.Upto.{up_to};
ghost use Rattle.cells.specs.Entry.{block_bytes, entry_bytes, entry_at};
ghost use Rattle.card.specs.Card as Card;
ghost use Rattle.card.specs.Card.{most_places, blocks_in, run};
ghost use Rattle.card.specs.CodeQueue.{card_of, left_queue, Below};

use crate::settled::{settle, settle_kept};
use cells::{BLOCK, entry};

// How many writes wait, and how many orders still happen.
#[derive(Clone, Copy)]
pub struct Queue {
    pub waiting: u32,
    pub power: u32,
}

// The power was gone, so the order did not happen: the queue as it is left.
#[derive(Clone, Copy)]
pub struct PowerLost {
    pub queue: Queue,
}

// The address of a waiting write.
// Stays beside `entry::address`: the crates above reach the card through its own calls, a rule of the project.
pub fn address(waiting: &[u8], i: usize) -> u32
    requires { entry_bytes * i + entry_bytes ≤ length waiting.now }
    ensures { result ≡ (entry_at waiting.now i).address }
{
    entry::address(waiting, i)
}

impl Queue {
    // The queue after an order that leaves so many writes waiting. The order takes 1 of the power, and does not happen at power 0.
    fn ordered(self, waiting: u32) -> Result<Queue, PowerLost>
        ensures ok { IfOk result (λ queue. (0 < self.power) × (queue ≡ record { waiting = waiting; power = self.power - 1 })) }
        ensures err { IfErr result (λ lost. (self.power ≡ 0) × (lost ≡ record { queue = self })) }
    {
        if self.power == 0 {
            return Err(PowerLost { queue: self });
        }
        Ok(Queue {
            waiting,
            power: self.power - 1,
        })
    }

    // The order write: one more waiting write, or nothing at power 0.
    pub fn write(self, waiting: &mut [u8], address: u32, block: &[u8]) -> Result<Queue, PowerLost>
        requires entry_bytes_in_bounds { entry_bytes * self.waiting + entry_bytes ≤ length waiting.old }
        requires waiting_lt_most_places { self.waiting < most_places }
        requires block_len { length block.now ≡ block_bytes }
        ensures happened_value { is_ok result ≡ ltb 0 self.power }
        ensures by_index { (s : List ℕ) → card_of s waiting.new (left_queue result) ≡ run (Card.write (record { address = address; block = block.now }) ∷ []) (card_of s waiting.old self) }
        ensures waiting_bound { (left_queue result).waiting ≤ self.waiting + 1 }
    {
        let queue = self.ordered(self.waiting + 1)?;
        entry::set(waiting, self.waiting as usize, address, block);
        Ok(queue)
    }

    // The order flush: all waiting writes settle, oldest first, and the queue is empty; or nothing at power 0.
    pub fn flush(self, settled: &mut [u8], waiting: &[u8]) -> Result<Queue, PowerLost>
        requires waiting_in_bounds { entry_bytes * self.waiting ≤ length waiting.now }
        requires below { Below (blocks_in settled.old) waiting.now self.waiting }
        ensures happened_value { is_ok result ≡ ltb 0 self.power }
        ensures queue_after { card_of settled.new waiting.now (left_queue result) ≡ run (Card.flush ∷ []) (card_of settled.old waiting.now self) }
        ensures waiting_le_waiting { (left_queue result).waiting ≤ self.waiting }
    {
        let queue = self.ordered(0)?;
        settle_all(settled, waiting, self.waiting as usize);
        Ok(queue)
    }

    // The cut: of the waiting writes, oldest first, the bytes settle whose mark is 1, and the queue is empty.
    pub fn cut(self, settled: &mut [u8], waiting: &[u8], marks: &[u8]) -> Queue
        requires waiting_in_bounds { entry_bytes * self.waiting ≤ length waiting.now }
        requires below { Below (blocks_in settled.old) waiting.now self.waiting }
        requires marks_len { length marks.now ≡ block_bytes * self.waiting }
        ensures { card_of settled.new waiting.now result ≡ Card.cut marks.now (card_of settled.old waiting.now self) }
    {
        settle_marked(settled, waiting, marks, self.waiting as usize);
        Queue {
            waiting: 0,
            power: self.power,
        }
    }
}

// Settles the i-th waiting write.
fn settle_one(settled: &mut [u8], waiting: &[u8], i: usize)
    requires entry_bytes_in_bounds { entry_bytes * i + entry_bytes ≤ length waiting.now }
    requires i_bound { (entry_at waiting.now i).address < blocks_in settled.old }
    ensures { settled.new ≡ Card.settle (entry_at waiting.now i ∷ []) settled.old }
{
    settle(
        settled,
        entry::address(waiting, i),
        entry::block(waiting, i),
    );
}

// Settles the bytes of the i-th waiting write that its marks keep.
// Stays beside `settle_one`: the copier is all that differs, and as a closure it would need a clause of its own in each contract.
fn settle_bytes(settled: &mut [u8], waiting: &[u8], marks: &[u8], i: usize)
    requires entry_bytes_in_bounds { entry_bytes * i + entry_bytes ≤ length waiting.now }
    requires i_bound { (entry_at waiting.now i).address < blocks_in settled.old }
    requires block_bytes_in_bounds { block_bytes * i + block_bytes ≤ length marks.now }
    ensures { settled.new ≡ Card.settle_kept marks.now i (entry_at waiting.now i ∷ []) settled.old }
{
    let at = BLOCK * i;
    settle_kept(
        settled,
        entry::address(waiting, i),
        entry::block(waiting, i),
        &marks[at..at + BLOCK],
    );
}

// Settles the first n waiting writes.
fn settle_all(settled: &mut [u8], waiting: &[u8], n: usize)
    requires n_in_bounds { entry_bytes * n ≤ length waiting.now }
    requires below { Below (blocks_in settled.old) waiting.now n }
    ensures { settled.new ≡ Card.settle (up_to (entry_at waiting.now) n) settled.old }
{
    for i in 0..n {
        settle_one(settled, waiting, i);
    }
}

// Settles the bytes of the first n waiting writes that their marks keep.
// Stays beside `settle_all`: one loop with a closure would owe both `Card.settle` and `Card.settle_kept`, which are two recursions.
fn settle_marked(settled: &mut [u8], waiting: &[u8], marks: &[u8], n: usize)
    requires n_in_bounds { entry_bytes * n ≤ length waiting.now }
    requires below { Below (blocks_in settled.old) waiting.now n }
    requires marks_len { length marks.now ≡ block_bytes * n }
    ensures { settled.new ≡ Card.settle_kept marks.now 0 (up_to (entry_at waiting.now) n) settled.old }
{
    for i in 0..n {
        settle_bytes(settled, waiting, marks, i);
    }
}
