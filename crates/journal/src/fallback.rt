// The fallback to a shorter log: a header alone.
ghost use Rattle.std.specs.Prelude.{◌≡◌, ◌+◌, ◌*◌, ◌≤◌, ◌<◌, leb, length, is_ok};
ghost use Rattle.cells.specs.Entry.{entry_bytes};
ghost use Rattle.card.specs.Card.{most_places, blocks_in, run};
ghost use Rattle.card.specs.CodeQueue.{card_of, left_queue, Below};
ghost use Rattle.journal.specs.Orders.{fallback_orders};

use crate::header::Header;
use card::queue::{PowerLost, Queue};

// Makes the log its first p entries, whose sum and save number are given: a header with both counts p and both sums p's, a flush.
pub fn fallback(
    queue: Queue,
    settled: &mut [u8],
    waiting: &mut [u8],
    blocks: u32,
    p: u32,
    sum: u64,
    save: u64,
) -> Result<Queue, PowerLost>
    requires settled_nonzero { 0 < blocks_in settled.old }
    requires waiting_lt_most_places { queue.waiting < most_places }
    requires entry_bytes_in_bounds { entry_bytes * queue.waiting + entry_bytes ≤ length waiting.old }
    requires below { Below (blocks_in settled.old) waiting.old queue.waiting }
    ensures happened_value { is_ok result ≡ leb 2 queue.power }
    ensures queue_after { card_of settled.new waiting.new (left_queue result) ≡ run (fallback_orders blocks p sum save) (card_of settled.old waiting.old queue) }
{
    Header::new(blocks, p, sum, p, sum, save).order(queue, settled, waiting)
}
