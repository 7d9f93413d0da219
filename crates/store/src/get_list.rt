// get_list: the blocks of a list of addresses, each as a get finds it, copied out in the order listed. Behind the checks log, waiting
// writes, group and open are each gone through once.
ghost use Rattle.std.specs.Prelude.{◌≡◌, not, List, [], ℕ, ◌+◌, ◌*◌, ◌≤◌, ◌<◌, length};
ghost use Rattle.cells.specs.Entry.{block_bytes, entry_bytes};
ghost use Rattle.card.specs.Card.{blocks_in};
ghost use Rattle.journal.specs.Geometry.{trap};
ghost use Rattle.journal.specs.Layout.{first_data, is_data};
ghost use Rattle.journal.specs.Wanted.{wanted_count, wanted_at, walked};
ghost use Rattle.journal.specs.CodeWanted.{Met};
ghost use Rattle.refusals.specs.Numbers.{answer};
ghost use Rattle.store.specs.declared.record.Record as Held;
ghost use Rattle.store.specs.CodeState.{state_of};
ghost use Rattle.store.specs.Lists.{open_from, group_from, addresses_of};
ghost use Rattle.store.specs.Request as Request;
ghost use Rattle.store.specs.Causes.{cause, some, work_bytes, most_wanted, wrong_list};
ghost use Rattle.store.specs.Get.{waiting_from, home_place, waiting_place, log_place, group_place, open_place, bytes_at};
ghost use Rattle.store.specs.GetList.{Listing, slots_read, newest_blocks, listing};

use crate::lists::{GROUP, OPEN, WAITING_FROM, look};
use crate::record::Record;
use card::settled::read;
use cells::bytes::copy;
use cells::{ADDRESS, BLOCK, entry};
use journal::log::{is_data, slot_block};
use journal::wanted::{Chains, count, wanted};
use refusals::Refusal;

// The most addresses of a list.
pub(crate) const MOST_WANTED: usize = 32;

// Row 1: a list that is no list of addresses, of too many, or a buffer that is not 512 bytes for each.
fn wrong_list(list: &[u8], blocks: &[u8]) -> bool
    ensures { result ≡ wrong_list list.now blocks.now }
{
    list.len() % ADDRESS != 0 || MOST_WANTED < count(list) || blocks.len() != BLOCK * count(list)
}

// Row 6: any address that is not that of a data block, on a card of so many blocks.
fn stray(list: &[u8], size: u32) -> bool
    ensures { result ≡ some (λ i. not (is_data trap size (wanted_at list.now i))) (wanted_count list.now) }
{
    (0..count(list)).any(|i| !is_data(size, wanted(list, i)))
}

// Copies the block of an address outside open, group and log: where it was met among the waiting writes; else from home.
fn copy_unlogged(
    settled: &[u8],
    waiting: &[u8],
    waited: Option<u32>,
    address: u32,
    block: &mut [u8],
)
    requires waited_in_bounds { (i : ℕ) → waited ≡ Some i → (entry_bytes * (i + 1) ≤ length waiting.now) × (i < trap.direct) }
    requires address_bound { address < blocks_in settled.now }
    requires block_len { length block.old ≡ block_bytes }
    ensures { (r : Held.Record) (k : List ℕ) → block.new ≡ bytes_at (waiting_place waited (home_place address)) (state_of r settled.now waiting.now k) }
{
    if let Some(i) = waited {
        copy(block, entry::block(waiting, WAITING_FROM + i as usize));
        return;
    }
    copy(block, read(settled, address));
}

// Copies the newest block of an address: where it was met in open, in the group, in the log; else from outside them.
fn copy_newest(
    settled: &[u8],
    waiting: &[u8],
    work: &[u8],
    opened: Option<u32>,
    grouped: Option<u32>,
    logged: Option<u32>,
    waited: Option<u32>,
    address: u32,
    block: &mut [u8],
)
    requires trap_bound { first_data trap < blocks_in settled.now }
    requires trap_in_bounds { work_bytes trap ≤ length work.now }
    requires opened_lt_slots { (i : ℕ) → opened ≡ Some i → i < trap.slots }
    requires grouped_lt_slots { (i : ℕ) → grouped ≡ Some i → i < trap.slots }
    requires logged_lt_slots { (i : ℕ) → logged ≡ Some i → i < trap.slots }
    requires waited_in_bounds { (i : ℕ) → waited ≡ Some i → (entry_bytes * (i + 1) ≤ length waiting.now) × (i < trap.direct) }
    requires address_bound { address < blocks_in settled.now }
    requires block_len { length block.old ≡ block_bytes }
    ensures { (r : Held.Record) → block.new ≡ bytes_at (open_place opened (group_place trap grouped (log_place trap logged (waiting_place waited (home_place address))))) (state_of r settled.now waiting.now work.now) }
{
    if let Some(i) = opened {
        copy(block, entry::block(work, OPEN + i as usize));
        return;
    }
    if let Some(i) = grouped {
        copy(block, entry::block(work, GROUP + i as usize));
        return;
    }
    if let Some(k) = logged {
        copy(block, slot_block(settled, k));
        return;
    }
    copy_unlogged(settled, waiting, waited, address, block);
}

impl Record {
    // Stays four lists of places: `Chains::mark` writes one at a time.
    // Copies each block from where it was met.
    fn copy_out(
        self,
        settled: &[u8],
        waiting: &[u8],
        work: &[u8],
        list: &[u8],
        opened: &[Option<u32>],
        grouped: &[Option<u32>],
        logged: &[Option<u32>],
        waited: &[Option<u32>],
        blocks: &mut [u8],
    )
        requires trap_bound { (first_data trap < blocks_in settled.now) × (work_bytes trap ≤ length work.now) × (entry_bytes * self.waiting ≤ length waiting.now) }
        requires opened_le_slots { (self.opened ≤ trap.slots) × (self.grouped ≤ trap.slots) × (self.logged ≤ trap.slots) × (self.waiting ≤ trap.direct) }
        requires list_in_bounds { (wanted_count list.now ≤ length opened.now) × (wanted_count list.now ≤ length grouped.now) × (wanted_count list.now ≤ length logged.now) × (wanted_count list.now ≤ length waited.now) }
        requires met { Met list.now (addresses_of work.now open_from self.opened) opened.now × Met list.now (addresses_of work.now (group_from trap) self.grouped) grouped.now }
        requires met_2 { Met list.now (walked settled.now self.logged) logged.now × Met list.now (addresses_of waiting.now waiting_from self.waiting) waited.now }
        requires blocks_len { length blocks.old ≡ block_bytes * wanted_count list.now }
        requires by_index { (i : ℕ) → i < wanted_count list.now → wanted_at list.now i < blocks_in settled.now }
        ensures { blocks.new ≡ newest_blocks trap list.now (state_of self settled.now waiting.now work.now) }
    {
        for i in 0..count(list) {
            let at = BLOCK * i;
            copy_newest(
                settled,
                waiting,
                work,
                opened[i],
                grouped[i],
                logged[i],
                waited[i],
                wanted(list, i),
                &mut blocks[at..at + BLOCK],
            );
        }
    }

    // Looks for the addresses in open and in the group.
    fn look_work(
        self,
        work: &[u8],
        chains: &Chains<MOST_WANTED>,
        opened: &mut [Option<u32>],
        grouped: &mut [Option<u32>],
    )
        requires trap_in_bounds { work_bytes trap ≤ length work.now }
        requires opened_le_slots { (self.opened ≤ trap.slots) × (self.grouped ≤ trap.slots) }
        requires met_in_bounds { (wanted_count chains.now.list.now ≤ length opened.old) × (wanted_count chains.now.list.now ≤ length grouped.old) }
        requires met { Met chains.now.list.now [] opened.old × Met chains.now.list.now [] grouped.old }
        ensures met_2 { Met chains.now.list.now (addresses_of work.now open_from self.opened) opened.new }
        ensures met_3 { Met chains.now.list.now (addresses_of work.now (group_from trap) self.grouped) grouped.new }
    {
        look(work, GROUP, self.grouped, chains, grouped);
        look(work, OPEN, self.opened, chains, opened);
    }

    // Finds each block, and copies it out. Returns the slots read.
    fn show(self, settled: &[u8], waiting: &[u8], work: &[u8], list: &[u8], out: &mut [u8]) -> u32
        requires trap_bound { (first_data trap < blocks_in settled.now) × (work_bytes trap ≤ length work.now) × (entry_bytes * self.waiting ≤ length waiting.now) }
        requires opened_le_slots { (self.opened ≤ trap.slots) × (self.grouped ≤ trap.slots) × (self.logged ≤ trap.slots) × (self.waiting ≤ trap.direct) }
        requires list_bound { (wanted_count list.now ≤ most_wanted) × (length out.old ≡ block_bytes * wanted_count list.now) }
        requires by_index { (i : ℕ) → i < wanted_count list.now → wanted_at list.now i < blocks_in settled.now }
        ensures out_after { out.new ≡ newest_blocks trap list.now (state_of self settled.now waiting.now work.now) }
        ensures value { result ≡ length (walked settled.now self.logged) }
    {
        let chains = Chains::<MOST_WANTED>::of(list);
        let mut logged = [None; MOST_WANTED];
        let slots = chains.walk(settled, self.logged, &mut logged);
        let mut waited = [None; MOST_WANTED];
        look(waiting, WAITING_FROM, self.waiting, &chains, &mut waited);
        let mut opened = [None; MOST_WANTED];
        let mut grouped = [None; MOST_WANTED];
        self.look_work(work, &chains, &mut opened, &mut grouped);
        self.copy_out(
            settled, waiting, work, list, &opened, &grouped, &logged, &waited, out,
        );
        slots
    }

    // The cause of a list.
    fn check_list(
        self,
        settled: &[u8],
        waiting: &[u8],
        work: &[u8],
        list: &[u8],
        blocks: &[u8],
    ) -> Result<(), Refusal>
        ensures { answer result ≡ cause trap (Request.get_list list.now blocks.now) (state_of self settled.now waiting.now work.now) }
    {
        if wrong_list(list, blocks) {
            return Err(Refusal::Size);
        }
        self.check_open(settled, waiting, work)?;
        if stray(list, self.blocks) {
            return Err(Refusal::Address);
        }
        Ok(())
    }

    // get_list: every block of the list, or nothing where it is refused. How many slots were read.
    pub fn get_list(
        self,
        settled: &[u8],
        waiting: &[u8],
        work: &[u8],
        list: &[u8],
        blocks: &mut [u8],
    ) -> Result<u32, Refusal>
        ensures { ◌≡◌ {A = Listing} (record { number = answer result; slots = slots_read result; blocks = blocks.new }) (listing trap list.now blocks.old (state_of self settled.now waiting.now work.now)) }
    {
        self.check_list(settled, waiting, work, list, blocks)?;
        if count(list) == 0 {
            return Ok(0);
        }
        Ok(self.show(settled, waiting, work, list, blocks))
    }
}
