// A direct write: one block of a photograph, outside any transaction.
ghost use Rattle.std.specs.Prelude.{◌≡◌, ◌||◌, List, ℕ, ◌≤◌, ◌<◌, leb, length, is_ok};
ghost use Rattle.cells.specs.Entry.{block_bytes};
ghost use Rattle.card.specs.Card.{blocks_in, run};
ghost use Rattle.card.specs.CodeQueue.{card_of, left_queue, Below};
ghost use Rattle.journal.specs.Geometry.{trap};
ghost use Rattle.journal.specs.Layout.{first_data};
ghost use Rattle.journal.specs.Lookup.{last_slot};
ghost use Rattle.refusals.specs.Numbers.{answer};
ghost use Rattle.store.specs.State.{card_in};
ghost use Rattle.store.specs.CodeState.{state_of, ended_as};
ghost use Rattle.store.specs.Lists as Lists;
ghost use Rattle.store.specs.Lists.{open_from, group_from};
ghost use Rattle.store.specs.Request as Request;
ghost use Rattle.store.specs.Causes.{is_found, cause, waiting_bytes, work_bytes};
ghost use Rattle.store.specs.Direct.{direct_orders, directing, direct_call};

use crate::lists::{GROUP, OPEN, holds};
use crate::record::Record;
use crate::saved::{Saved, Stopped};
use card::queue::{PowerLost, Queue};
use cells::BLOCK;
use journal::DIRECT;
use journal::log::is_data;
use journal::lookup::last_slot;
use refusals::Refusal;

impl Record {
    pub fn direct(
        self,
        settled: &mut [u8],
        waiting: &mut [u8],
        work: &[u8],
        address: u32,
        block: &[u8],
    ) -> Result<Saved, Stopped>
        ensures { ended_as result self settled.new waiting.new work.now ≡ direct_call trap address block.now (state_of self settled.old waiting.old work.now) }
    {
        self.check_direct(settled, waiting, work, address, block)?;
        self.saved(self.written(settled, waiting, address, block))
    }

    // Its cause.
    fn check_direct(
        self,
        settled: &[u8],
        waiting: &[u8],
        work: &[u8],
        address: u32,
        block: &[u8],
    ) -> Result<(), Refusal>
        ensures { answer result ≡ cause trap (Request.direct address block.now) (state_of self settled.now waiting.now work.now) }
    {
        if block.len() != BLOCK {
            return Err(Refusal::Size);
        }
        self.check_open(settled, waiting, work)?;
        if !is_data(self.blocks, address) {
            return Err(Refusal::Address);
        }
        if self.lists(settled, work, address) {
            return Err(Refusal::Listed);
        }
        Ok(())
    }

    // Row 14: open, group or log has the address.
    fn lists(self, settled: &[u8], work: &[u8], address: u32) -> bool
        requires trap_bound { first_data trap < blocks_in settled.now }
        requires trap_in_bounds { work_bytes trap ≤ length work.now }
        requires opened_le_slots { (self.opened ≤ trap.slots) × (self.grouped ≤ trap.slots) × (self.logged ≤ trap.slots) }
        ensures { result ≡ is_found (Lists.find work.now open_from self.opened address) || is_found (Lists.find work.now (group_from trap) self.grouped address) || is_found (last_slot settled.now address self.logged) }
    {
        holds(work, OPEN, self.opened, address)
            || holds(work, GROUP, self.grouped, address)
            || last_slot(settled, address, self.logged).is_some()
    }

    // Its orders, and the record that they leave.
    fn written(self, settled: &mut [u8], waiting: &mut [u8], address: u32, block: &[u8]) -> Record
        requires waiting_le_direct { self.waiting ≤ trap.direct }
        requires trap_in_bounds { waiting_bytes trap ≤ length waiting.old }
        requires below { Below (blocks_in settled.old) waiting.old self.waiting }
        requires block_len { length block.now ≡ block_bytes }
        ensures { (k : List ℕ) → state_of result settled.new waiting.new k ≡ (directing trap address block.now (state_of self settled.old waiting.old k)).state }
    {
        self.after(self.give_orders(settled, waiting, address, block), self)
    }

    // The write; with as many waiting as may, a flush first.
    fn give_orders(
        self,
        settled: &mut [u8],
        waiting: &mut [u8],
        address: u32,
        block: &[u8],
    ) -> Result<Queue, PowerLost>
        requires waiting_le_direct { self.waiting ≤ trap.direct }
        requires trap_in_bounds { waiting_bytes trap ≤ length waiting.old }
        requires below { Below (blocks_in settled.old) waiting.old self.waiting }
        requires block_len { length block.now ≡ block_bytes }
        ensures happened_value { (k : List ℕ) → is_ok result ≡ leb (length (direct_orders trap address block.now (state_of self settled.old waiting.old k))) self.power }
        ensures queue_after { (k : List ℕ) → card_of settled.new waiting.new (left_queue result) ≡ run (direct_orders trap address block.now (state_of self settled.old waiting.old k)) (card_in (state_of self settled.old waiting.old k)) }
    {
        if self.waiting < DIRECT {
            return self.queue().write(waiting, address, block);
        }
        let flushed = self.queue().flush(settled, waiting)?;
        flushed.write(waiting, address, block)
    }
}
