// The table of causes: rows 1 to 4, shared by the calls.
ghost use Rattle.std.specs.Prelude.{◌≡◌, ◌&&◌, List, ℕ, ◌+◌, ◌*◌, ◌≤◌, ◌<◌, length};
ghost use Rattle.cells.specs.Entry.{entry_bytes};
ghost use Rattle.card.specs.Card.{blocks_in};
ghost use Rattle.journal.specs.Geometry.{trap};
ghost use Rattle.journal.specs.Layout.{first_data};
ghost use Rattle.refusals.specs.Numbers.{answer};
ghost use Rattle.store.specs.declared.record.Record as Declared;
ghost use Rattle.store.specs.CodeState.{state_of};
ghost use Rattle.store.specs.Request as Request;
ghost use Rattle.store.specs.Lists as Lists;
ghost use Rattle.store.specs.Causes as Causes;
ghost use Rattle.store.specs.Causes.{is_found, cause, work_bytes};

use crate::lists::{GROUP, OPEN, address, holds};
use crate::record::{CLOSED, DOWN, OPEN_MODE, Record};
use crate::{WAITING, WORK};
use card::settled::blocks_in;
use journal::log::{all_data, is_data};
use journal::size::wrong_size;
use journal::{DIRECT, PLACES, SLOTS};
use refusals::Refusal;

// The buckets that addresses fall into, by their low bits.
const BUCKETS: usize = 128;

// Row 1: the lengths of the lent buffers and N.
pub(crate) fn wrong_sizes(settled: &[u8], waiting: &[u8], work: &[u8]) -> bool
    ensures { (q : Declared.Record) → result ≡ Causes.wrong_sizes trap (state_of q settled.now waiting.now work.now) }
{
    wrong_size(settled) || waiting.len() != WAITING || work.len() != WORK
}

// Row 2, a list in work memory: an address that is not that of a data block.
fn strays(work: &[u8], blocks: u32, from: usize, n: u32) -> bool
    requires { entry_bytes * (from + n) ≤ length work.now }
    ensures { result ≡ Causes.strays trap work.now blocks from n }
{
    (0..n).any(|i| !is_data(blocks, address(work, from, i)))
}

// Whether its first i have the address a; none has where none of them was seen in its bucket.
fn met(seen: bool, work: &[u8], from: usize, i: u32, a: u32) -> bool
    requires { entry_bytes * (from + i) ≤ length work.now }
    ensures { result ≡ (seen && is_found (Lists.find work.now from i a)) }
{
    seen && holds(work, from, i, a)
}

// Row 2, a list in work memory: an address twice. Each address marks its bucket; only where that is marked is the list searched.
// A list of one or none needs no buckets.
fn twice(work: &[u8], from: usize, n: u32) -> bool
    requires { entry_bytes * (from + n) ≤ length work.now }
    ensures { result ≡ Causes.twice work.now from n }
{
    if n < 2 {
        return false;
    }
    let mut seen = [false; BUCKETS];
    for i in 0..n {
        let a = address(work, from, i);
        let bucket = a as usize % BUCKETS;
        if met(seen[bucket], work, from, i, a) {
            return true;
        }
        seen[bucket] = true;
    }
    false
}

impl Record {
    // How many writes may wait, by the mode.
    fn most_waiting(self) -> usize
        ensures { result ≡ Causes.most_waiting trap self.mode }
    {
        match self.mode {
            CLOSED => 0,
            OPEN_MODE => DIRECT as usize,
            _ => PLACES,
        }
    }

    // Row 2: the mode, the counts, and N.
    fn wrong_counts(self, settled: &[u8]) -> bool
        ensures { (w k : List ℕ) → result ≡ Causes.wrong_counts trap (state_of self settled.now w k) }
    {
        DOWN < self.mode
            || SLOTS < self.opened
            || SLOTS < self.grouped
            || SLOTS < self.logged
            || self.most_waiting() < self.waiting as usize
            || self.blocks as usize != blocks_in(settled)
    }

    // Row 2: a waiting address not below N.
    fn wrong_waiting(self, waiting: &[u8]) -> bool
        requires { entry_bytes * self.waiting ≤ length waiting.now }
        ensures { (s k : List ℕ) → result ≡ Causes.wrong_waiting (state_of self s waiting.now k) }
    {
        (0..self.waiting as usize).any(|i| self.blocks <= card::queue::address(waiting, i))
    }

    // Row 2: open, group and log, read when open.
    fn wrong_lists(self, settled: &[u8], work: &[u8]) -> bool
        requires trap_bound { first_data trap < blocks_in settled.now }
        requires trap_in_bounds { work_bytes trap ≤ length work.now }
        requires opened_le_slots { (self.opened ≤ trap.slots) × (self.grouped ≤ trap.slots) × (self.logged ≤ trap.slots) }
        ensures { (w : List ℕ) → result ≡ Causes.wrong_lists trap (state_of self settled.now w work.now) }
    {
        strays(work, self.blocks, OPEN, self.opened)
            || strays(work, self.blocks, GROUP, self.grouped)
            || !all_data(settled, self.blocks, self.logged)
            || twice(work, OPEN, self.opened)
            || twice(work, GROUP, self.grouped)
    }

    // Rows 1 and 2, which are all that power has.
    pub(crate) fn check_record(
        self,
        settled: &[u8],
        waiting: &[u8],
        work: &[u8],
    ) -> Result<(), Refusal>
        ensures { answer result ≡ cause trap (Request.power 0) (state_of self settled.now waiting.now work.now) }
    {
        if wrong_sizes(settled, waiting, work) {
            return Err(Refusal::Size);
        }
        if self.wrong_counts(settled) || self.wrong_waiting(waiting) {
            return Err(Refusal::Record);
        }
        if self.mode == OPEN_MODE && self.wrong_lists(settled, work) {
            return Err(Refusal::Record);
        }
        Ok(())
    }

    // Rows 1 to 4, which are all that abandon has.
    pub(crate) fn check_open(
        self,
        settled: &[u8],
        waiting: &[u8],
        work: &[u8],
    ) -> Result<(), Refusal>
        ensures { answer result ≡ cause trap Request.abandon (state_of self settled.now waiting.now work.now) }
    {
        self.check_record(settled, waiting, work)?;
        match self.mode {
            CLOSED => Err(Refusal::Closed),
            DOWN => Err(Refusal::Down),
            _ => Ok(()),
        }
    }
}
