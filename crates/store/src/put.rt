// put: replaces the open entry of that address or adds one at the end.
ghost use Rattle.std.specs.Prelude.{◌≡◌, List, ℕ, ◌*◌, ◌≤◌, ◌<◌, length};
ghost use Rattle.cells.specs.Entry.{block_bytes, entry_bytes};
ghost use Rattle.journal.specs.Geometry.{trap};
ghost use Rattle.store.specs.CodeState.{state_of, answered};
ghost use Rattle.store.specs.Lists as Lists;
ghost use Rattle.store.specs.Lists.{open_from};
ghost use Rattle.store.specs.Put.{put_at, put_call};

use crate::lists::{OPEN, find};
use crate::record::Record;
use cells::entry;
use refusals::Refusal;

impl Record {
    pub fn put(
        self,
        settled: &[u8],
        waiting: &[u8],
        work: &mut [u8],
        address: u32,
        block: &[u8],
    ) -> Result<Record, Refusal>
        ensures { answered result self settled.now waiting.now work.new ≡ put_call trap address block.now (state_of self settled.now waiting.now work.old) }
    {
        self.check_put(settled, waiting, work, address, block)?;
        Ok(self.put_entry(work, address, block))
    }

    // The entry itself.
    fn put_entry(self, work: &mut [u8], address: u32, block: &[u8]) -> Record
        requires block_len { length block.now ≡ block_bytes }
        requires slots_in_bounds { entry_bytes * trap.slots ≤ length work.old }
        requires opened_le_slots { self.opened ≤ trap.slots }
        requires opened_lt_slots { Lists.find work.old open_from self.opened address ≡ None → self.opened < trap.slots }
        ensures { (s w : List ℕ) → state_of result s w work.new ≡ put_at (Lists.find work.old open_from self.opened address) (record { address = address; block = block.now }) (state_of self s w work.old) }
    {
        let Some(i) = find(work, OPEN, self.opened, address) else {
            entry::set(work, self.opened as usize, address, block);
            return self.with_opened(self.opened + 1);
        };
        entry::set(work, i as usize, address, block);
        self
    }
}
