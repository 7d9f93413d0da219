// alike: whether two cards have the same N, the same log, slot by slot, and the same data blocks, the log laid over.
ghost use Rattle.std.specs.Prelude.{◌≡◌, true, ◌&&◌, ◌<◌};
ghost use Rattle.cells.specs.Same as Same;
ghost use Rattle.journal.specs.Geometry.{trap};
ghost use Rattle.inspect.specs.Reading.{data_blocks, laid};
ghost use Rattle.inspect.specs.Alike.{same_data, same_slot, same_slots, alike_of, alike_answer};

use crate::reading::Reading;
use card::settled::read;
use cells::bytes::same;
use journal::FIRST_DATA;
use journal::log::{slot_address, slot_block};
use journal::lookup::last_slot;
use refusals::Refusal;

impl Reading<'_> {
    // Whether slot i of two cards holds the same entry, address and block.
    fn same_slot(&self, other: &Reading, i: u32) -> bool
        requires { i < trap.slots }
        ensures { result ≡ same_slot trap self.now.settled.now other.now.settled.now i }
    {
        slot_address(self.settled, i) == slot_address(other.settled, i)
            && same(slot_block(self.settled, i), slot_block(other.settled, i))
    }

    // Whether the slots of this card's list hold the same entries on the other.
    fn same_slots(&self, other: &Reading) -> bool
        ensures { result ≡ same_slots trap self.now.settled.now other.now.settled.now self.now.count }
    {
        (0..self.count).all(|i| self.same_slot(other, i))
    }

    // Whether block x is the same on two cards of the same entries: at home, or else by the log, which is searched only then.
    fn same_block(&self, other: &Reading, x: u32) -> bool
        requires x_bound { x < self.now.blocks }
        requires x_bound_2 { x < other.now.blocks }
        requires slots_value { same_slots trap self.now.settled.now other.now.settled.now self.now.count ≡ true }
        ensures { result ≡ Same.same (laid trap self.now.settled.now self.now.count x) (laid trap other.now.settled.now self.now.count x) }
    {
        same(read(self.settled, x), read(other.settled, x))
            || last_slot(self.settled, x, self.count).is_some()
    }

    // Whether all data blocks of two cards of the same N and the same entries are equal.
    fn same_data(&self, other: &Reading) -> bool
        requires blocks_value { self.now.blocks ≡ other.now.blocks }
        requires slots_value { same_slots trap self.now.settled.now other.now.settled.now self.now.count ≡ true }
        ensures { result ≡ same_data trap (laid trap self.now.settled.now self.now.count) (laid trap other.now.settled.now self.now.count) (data_blocks trap self.now.blocks) }
    {
        (FIRST_DATA..self.blocks).all(|x| self.same_block(other, x))
    }

    // Whether two cards of the same N hold the same entries and the same data blocks.
    fn same_contents(&self, other: &Reading) -> bool
        requires { self.now.blocks ≡ other.now.blocks }
        ensures { result ≡ same_slots trap self.now.settled.now other.now.settled.now self.now.count && same_data trap (laid trap self.now.settled.now self.now.count) (laid trap other.now.settled.now self.now.count) (data_blocks trap self.now.blocks) }
    {
        self.same_slots(other) && self.same_data(other)
    }
}

// Whether two cards are alike, or the refusal of the first one, else of the second.
pub fn alike(a: &[u8], b: &[u8]) -> Result<bool, Refusal>
    ensures { alike_answer result ≡ alike_of trap a.now b.now }
{
    let first = Reading::inspect(a)?;
    let second = Reading::inspect(b)?;
    Ok((first.blocks, first.count) == (second.blocks, second.count) && first.same_contents(&second))
}
