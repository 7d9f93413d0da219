// apply: the log's blocks are written home, and the log is empty.
ghost use Rattle.std.specs.Prelude.{◌≡◌, List, ℕ, ◌≤◌, ◌<◌, length};
ghost use Rattle.card.specs.Card.{blocks_in};
ghost use Rattle.card.specs.CodeQueue.{Below};
ghost use Rattle.journal.specs.Geometry.{trap};
ghost use Rattle.journal.specs.Layout.{first_data};
ghost use Rattle.journal.specs.Log.{slot_address};
ghost use Rattle.store.specs.CodeState.{state_of, ended_as};
ghost use Rattle.store.specs.Causes.{waiting_bytes};
ghost use Rattle.store.specs.Saves.{emptying, apply_call};

use crate::record::Record;
use crate::saved::{Saved, Stopped};
use journal::checkpoint::checkpoint;

impl Record {
    pub fn apply(
        self,
        settled: &mut [u8],
        waiting: &mut [u8],
        work: &[u8],
    ) -> Result<Saved, Stopped>
        ensures { ended_as result self settled.new waiting.new work.now ≡ apply_call trap (state_of self settled.old waiting.old work.now) }
    {
        self.check_open(settled, waiting, work)?;
        if self.logged == 0 {
            return self.saved(self);
        }
        self.saved(self.emptied(settled, waiting))
    }

    // Its orders, for a log that is not empty. A sync whose group has no room begins with them.
    pub(crate) fn emptied(self, settled: &mut [u8], waiting: &mut [u8]) -> Record
        requires trap_bound { first_data trap < blocks_in settled.old }
        requires logged_le_slots { self.logged ≤ trap.slots }
        requires by_index { (i : ℕ) → i < self.logged → slot_address settled.old i < blocks_in settled.old }
        requires waiting_le_direct { self.waiting ≤ trap.direct }
        requires trap_in_bounds { waiting_bytes trap ≤ length waiting.old }
        requires below { Below (blocks_in settled.old) waiting.old self.waiting }
        ensures { (k : List ℕ) → state_of result settled.new waiting.new k ≡ (emptying trap (state_of self settled.old waiting.old k)).state }
    {
        let ordered = checkpoint(
            self.queue(),
            settled,
            waiting,
            self.blocks,
            self.logged,
            self.save,
        );
        self.after(ordered, self.with_log(0, fnv::START))
    }
}
