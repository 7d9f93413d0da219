// sync: the group becomes the end of the log.
ghost use Rattle.std.specs.Prelude.{◌≡◌, ◌≢◌, List, ℕ, ◌+◌, ◌≤◌, ◌<◌, leb, length};
ghost use Rattle.card.specs.Card.{blocks_in};
ghost use Rattle.journal.specs.Geometry.{trap};
ghost use Rattle.journal.specs.Layout.{first_data};
ghost use Rattle.card.specs.CodeQueue.{Below};
ghost use Rattle.journal.specs.Header.{most_save};
ghost use Rattle.journal.specs.Log.{slot_address};
ghost use Rattle.journal.specs.Orders.{barrier};
ghost use Rattle.refusals.specs.Numbers.{answer};
ghost use Rattle.store.specs.State.{open_mode};
ghost use Rattle.store.specs.CodeState.{state_of, ended_as};
ghost use Rattle.store.specs.Request as Request;
ghost use Rattle.store.specs.Causes.{cause, waiting_bytes, work_bytes};
ghost use Rattle.store.specs.Saves.{carried, appending, syncing, sync_call};

use crate::lists::GROUP;
use crate::record::{DOWN, Record};
use crate::saved::{Saved, Stopped};
use cells::ENTRY;
use journal::SLOTS;
use journal::append::{Log, append};
use journal::header::LAST_SAVE;
use refusals::Refusal;

impl Record {
    pub fn sync(self, settled: &mut [u8], waiting: &mut [u8], work: &[u8]) -> Result<Saved, Stopped>
        ensures { ended_as result self settled.new waiting.new work.now ≡ sync_call trap (state_of self settled.old waiting.old work.now) }
    {
        self.check_sync(settled, waiting, work)?;
        self.saved(self.synced(settled, waiting, work))
    }

    // Its cause. Row 12 is tested behind the others: a group that is not empty would have no number.
    pub(crate) fn check_sync(
        self,
        settled: &[u8],
        waiting: &[u8],
        work: &[u8],
    ) -> Result<(), Refusal>
        ensures { answer result ≡ cause trap Request.sync (state_of self settled.now waiting.now work.now) }
    {
        self.check_open(settled, waiting, work)?;
        if self.grouped != 0 && self.save == LAST_SAVE {
            return Err(Refusal::LastSave);
        }
        Ok(())
    }

    // Its orders: for an empty group a flush, if anything waits; an apply first where the log has no room.
    fn synced(self, settled: &mut [u8], waiting: &mut [u8], work: &[u8]) -> Record
        requires trap_bound { first_data trap < blocks_in settled.old }
        requires mode_value { (self.mode ≡ open_mode) × (self.waiting ≤ trap.direct) }
        requires below { Below (blocks_in settled.old) waiting.old self.waiting }
        requires grouped_le_slots { (self.grouped ≤ trap.slots) × (self.logged ≤ trap.slots) }
        requires by_index { (i : ℕ) → i < self.logged → slot_address settled.old i < blocks_in settled.old }
        requires trap_in_bounds { (waiting_bytes trap ≤ length waiting.old) × (work_bytes trap ≤ length work.now) }
        requires save_nonzero { self.grouped ≢ 0 → self.save ≢ most_save }
        ensures { state_of result settled.new waiting.new work.now ≡ (syncing trap (state_of self settled.old waiting.old work.now)).state }
    {
        if self.grouped == 0 {
            return self.flushed(settled, waiting);
        }
        if self.fits() {
            return self.appended(settled, waiting, work);
        }
        let emptied = self.emptied(settled, waiting);
        if emptied.mode == DOWN {
            return emptied;
        }
        emptied.appended(settled, waiting, work)
    }

    // A barrier: what waits is settled. No order where nothing waits.
    fn flushed(self, settled: &mut [u8], waiting: &[u8]) -> Record
        requires waiting_le_direct { self.waiting ≤ trap.direct }
        requires trap_in_bounds { waiting_bytes trap ≤ length waiting.now }
        requires below { Below (blocks_in settled.old) waiting.now self.waiting }
        ensures { (k : List ℕ) → state_of result settled.new waiting.now k ≡ (carried (barrier self.waiting) self self (state_of self settled.old waiting.now k)).state }
    {
        if self.waiting == 0 {
            return self;
        }
        self.after(self.queue().flush(settled, waiting), self)
    }

    // Whether the log has room for the group; if not, an apply comes first.
    pub(crate) fn fits(self) -> bool
        requires { (self.grouped ≤ trap.slots) × (self.logged ≤ trap.slots) }
        ensures { result ≡ leb (self.logged + self.grouped) trap.slots }
    {
        self.logged + self.grouped <= SLOTS
    }

    // Its own part: the group behind the record's log, and the next save number.
    fn appended(self, settled: &mut [u8], waiting: &mut [u8], work: &[u8]) -> Record
        requires trap_bound { first_data trap < blocks_in settled.old }
        requires grouped_bound { self.logged + self.grouped ≤ trap.slots }
        requires waiting_le_direct { self.waiting ≤ trap.direct }
        requires trap_in_bounds { waiting_bytes trap ≤ length waiting.old }
        requires below { Below (blocks_in settled.old) waiting.old self.waiting }
        requires trap_in_bounds_2 { work_bytes trap ≤ length work.now }
        requires save_nonzero { self.save ≢ most_save }
        ensures { state_of result settled.new waiting.new work.now ≡ (appending trap (state_of self settled.old waiting.old work.now)).state }
    {
        let save = self.save + 1;
        let log = Log {
            blocks: self.blocks,
            count: self.logged,
            sum: self.sum,
            save,
        };
        let group = &work[ENTRY * GROUP..ENTRY * (GROUP + self.grouped as usize)];
        let (sum, ordered) = append(self.queue(), settled, waiting, group, log);
        let done = self
            .with_save(save)
            .with_log(self.logged + self.grouped, sum)
            .with_grouped(0);
        self.after(ordered, done)
    }
}
