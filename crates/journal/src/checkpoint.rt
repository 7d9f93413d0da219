// Checkpointing: the log's blocks are written home and an empty log's header behind them.
ghost use Rattle.std.specs.Prelude.{◌≡◌, List, map, ℕ, ◌+◌, ◌*◌, ◌≤◌, ◌<◌, leb, length, is_ok};
ghost use Rattle.cells.specs.Entry.{entry_bytes};
ghost use Rattle.card.specs.Card.{most_places, blocks_in, run, write};
ghost use Rattle.card.specs.CodeQueue.{card_of, left_queue, Below};
ghost use Rattle.journal.specs.Geometry.{trap};
ghost use Rattle.journal.specs.Layout.{first_data};
ghost use Rattle.journal.specs.Log.{slot_address, entries};
ghost use Rattle.journal.specs.Orders.{checkpoint_orders};

use crate::header::Header;
use crate::log::{slot_address, slot_block};
use card::queue::{PowerLost, Queue};

// Stays beside `append`'s `write_slots`: each promises its own list of writes, which a loop over a closure would say by the closure's `post`.
// The writes of the log's blocks to their home addresses, in slot order.
fn write_homes(queue: Queue, settled: &[u8], waiting: &mut [u8], n: u32) -> Result<Queue, PowerLost>
    requires trap_bound { first_data trap < blocks_in settled.now }
    requires n_le_slots { n ≤ trap.slots }
    requires n_bound { queue.waiting + n ≤ most_places }
    requires n_in_bounds { entry_bytes * (queue.waiting + n) ≤ length waiting.old }
    ensures happened_value { is_ok result ≡ leb n queue.power }
    ensures by_index { (s : List ℕ) → card_of s waiting.new (left_queue result) ≡ run (map write (entries trap settled.now n)) (card_of s waiting.old queue) }
    ensures waiting_bound { (left_queue result).waiting ≤ queue.waiting + n }
{
    let mut q = queue;
    for i in 0..n {
        q = q.write(waiting, slot_address(settled, i), slot_block(settled, i))?;
    }
    Ok(q)
}

// Writes the first n entries home: their blocks in slot order, a flush, an empty log's header with a save number, a flush.
pub fn checkpoint(
    queue: Queue,
    settled: &mut [u8],
    waiting: &mut [u8],
    blocks: u32,
    n: u32,
    save: u64,
) -> Result<Queue, PowerLost>
    requires trap_bound { first_data trap < blocks_in settled.old }
    requires n_le_slots { n ≤ trap.slots }
    requires by_index { (i : ℕ) → i < n → slot_address settled.old i < blocks_in settled.old }
    requires n_bound { queue.waiting + n ≤ most_places }
    requires n_in_bounds { entry_bytes * (queue.waiting + n) ≤ length waiting.old }
    requires entry_bytes_in_bounds { entry_bytes ≤ length waiting.old }
    requires below { Below (blocks_in settled.old) waiting.old queue.waiting }
    ensures happened_value { is_ok result ≡ leb (n + 3) queue.power }
    ensures queue_after { card_of settled.new waiting.new (left_queue result) ≡ run (checkpoint_orders blocks save (entries trap settled.old n)) (card_of settled.old waiting.old queue) }
{
    let written = write_homes(queue, settled, waiting, n)?;
    let flushed = written.flush(settled, waiting)?;
    Header::empty(blocks, save).order(flushed, settled, waiting)
}
