// get: the newest of open, group, log, waiting writes, home block, handed out where it lies.
ghost use Rattle.std.specs.Prelude.{◌≡◌, List, ℕ, ◌*◌, ◌≤◌, ◌<◌, length};
ghost use Rattle.cells.specs.Entry.{entry_bytes};
ghost use Rattle.cells.specs.Part.{view_of};
ghost use Rattle.card.specs.Card.{blocks_in};
ghost use Rattle.journal.specs.Geometry.{trap};
ghost use Rattle.journal.specs.Layout.{first_data};
ghost use Rattle.refusals.specs.Numbers.{answer};
ghost use Rattle.store.specs.CodeState.{state_of, HoldsBlock};
ghost use Rattle.store.specs.Request as Request;
ghost use Rattle.store.specs.Causes.{cause, work_bytes};
ghost use Rattle.store.specs.Get as Get;
ghost use Rattle.store.specs.Get.{find_waiting, home_place, waiting_place, get_place, part_at};

use crate::lists::{GROUP, OPEN, WAITING_FROM, find, place_of};
use crate::place::Place;
use crate::record::Record;
use card::settled::{nothing, read};
use cells::{BLOCK, ENTRY, entry};
use journal::FIRST_SLOT;
use journal::log::is_data;
use journal::lookup::last_slot;
use refusals::Refusal;

impl Record {
    // The cause of a get with the same inputs.
    pub fn check_get(
        self,
        settled: &[u8],
        waiting: &[u8],
        work: &[u8],
        address: u32,
    ) -> Result<(), Refusal>
        ensures { answer result ≡ cause trap (Request.get address) (state_of self settled.now waiting.now work.now) }
    {
        self.check_open(settled, waiting, work)?;
        if !is_data(self.blocks, address) {
            return Err(Refusal::Address);
        }
        Ok(())
    }

    // Where a get finds its block.
    pub fn get_place(self, settled: &[u8], waiting: &[u8], work: &[u8], address: u32) -> Place
        ensures { result ≡ get_place trap address (state_of self settled.now waiting.now work.now) }
    {
        if self.check_get(settled, waiting, work, address).is_err() {
            return Place::Nowhere;
        }
        self.newest(settled, waiting, work, address)
    }

    // get: the block, or a part of no bytes where it is refused.
    pub fn get<'a>(
        self,
        settled: &'a [u8],
        waiting: &'a [u8],
        work: &'a [u8],
        address: u32,
    ) -> &'a [u8]
        ensures { view_of result ≡ part_at (get_place trap address (state_of self settled.now waiting.now work.now)) settled.entry waiting.entry work.entry }
    {
        part(
            self.get_place(settled, waiting, work, address),
            settled,
            waiting,
            work,
        )
    }

    // The newest: in open, in the group, in the log's last slot with that address, or outside them.
    fn newest(self, settled: &[u8], waiting: &[u8], work: &[u8], address: u32) -> Place
        requires trap_bound { first_data trap < blocks_in settled.now }
        requires waiting_in_bounds { entry_bytes * self.waiting ≤ length waiting.now }
        requires trap_in_bounds { work_bytes trap ≤ length work.now }
        requires opened_le_slots { (self.opened ≤ trap.slots) × (self.grouped ≤ trap.slots) × (self.logged ≤ trap.slots) × (self.waiting ≤ trap.direct) }
        ensures { result ≡ Get.newest trap address (state_of self settled.now waiting.now work.now) }
    {
        let Some(i) = find(work, OPEN, self.opened, address) else {
            let Some(j) = find(work, GROUP, self.grouped, address) else {
                let Some(k) = last_slot(settled, address, self.logged) else {
                    return self.unlogged(waiting, address);
                };
                return Place::Settled(BLOCK * ((FIRST_SLOT + k) as usize));
            };
            return Place::Work(place_of(GROUP, j));
        };
        Place::Work(place_of(OPEN, i))
    }

    // Outside open, group and log: the newest waiting write to the address, or its home block.
    fn unlogged(self, waiting: &[u8], address: u32) -> Place
        requires waiting_in_bounds { entry_bytes * self.waiting ≤ length waiting.now }
        requires waiting_le_direct { self.waiting ≤ trap.direct }
        ensures { (s k : List ℕ) → result ≡ waiting_place (find_waiting (state_of self s waiting.now k) address) (home_place address) }
    {
        let Some(i) = find(waiting, WAITING_FROM, self.waiting, address) else {
            return Place::Settled(BLOCK * (address as usize));
        };
        Place::Waiting(place_of(WAITING_FROM, i))
    }
}

// The block at a place: through the card, or an entry's. Nowhere is no bytes, at the front of the settled ones.
fn part<'a>(place: Place, settled: &'a [u8], waiting: &'a [u8], work: &'a [u8]) -> &'a [u8]
    requires { HoldsBlock place settled.now waiting.now work.now }
    ensures { view_of result ≡ part_at place settled.entry waiting.entry work.entry }
{
    match place {
        Place::Settled(at) => read(settled, (at / BLOCK) as u32),
        Place::Waiting(at) => entry::block(waiting, at / ENTRY),
        Place::Work(at) => entry::block(work, at / ENTRY),
        Place::Nowhere => nothing(settled),
    }
}
