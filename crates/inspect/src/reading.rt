// A card as recover would find it: its size, and the list chosen.
ghost use Rattle.std.specs.Prelude.{◌≡◌, ◌≤◌, ◌<◌};
ghost use Rattle.card.specs.Card.{blocks_in};
ghost use Rattle.journal.specs.Geometry.{trap};
ghost use Rattle.journal.specs.Layout.{first_data, most_blocks};

use card::settled::blocks_in;
use journal::choice::{Choice, choose};
use journal::size::wrong_size;
use refusals::Refusal;

// A card that was read: its settled bytes, N, and the count of the list taken.
#[derive(Clone, Copy)]
pub(crate) struct Reading<'a> {
    pub settled: &'a [u8],
    pub blocks: u32,
    pub count: u32,
    ghost blocks_value: { blocks ≡ blocks_in settled.now },
    ghost trap_bound: { first_data trap < blocks },
    ghost blocks_le_most_blocks: { blocks ≤ most_blocks },
    ghost count_le_slots: { count ≤ trap.slots },
}

impl<'a> Reading<'a> {
    ghost use Rattle.inspect.specs.CodeReading.{Read};

    // Reads a card, which is refused for its size, and where there is no list to take.
    pub(crate) fn inspect(settled: &'a [u8]) -> Result<Reading<'a>, Refusal>
        ensures { Read trap settled.now result }
    {
        if wrong_size(settled) {
            return Err(Refusal::Size);
        }
        let blocks = blocks_in(settled) as u32;
        match choose(settled, blocks) {
            Choice::Whole(count, _, _) | Choice::Fallback(count, _, _) => Ok(Reading {
                settled,
                blocks,
                count,
            }),
            Choice::Foreign => Err(Refusal::Foreign),
            Choice::Neither => Err(Refusal::Unsound),
        }
    }
}
