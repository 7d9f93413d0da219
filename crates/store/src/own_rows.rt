// The rows of format, put, commit and cut that no other call has, behind those of check.rt.
ghost use Rattle.std.specs.Prelude.{◌≡◌, ◌≤◌, length};
ghost use Rattle.journal.specs.Geometry.{trap};
ghost use Rattle.refusals.specs.Numbers.{answer};
ghost use Rattle.store.specs.declared.record.Record as Declared;
ghost use Rattle.store.specs.CodeState.{state_of};
ghost use Rattle.store.specs.Request as Request;
ghost use Rattle.store.specs.Causes as Causes;
ghost use Rattle.store.specs.Causes.{cause, work_bytes};

use crate::check::wrong_sizes;
use crate::lists::{GROUP, OPEN, address, holds};
use crate::record::Record;
use card::marks::fit;
use card::settled::blocks_in;
use cells::BLOCK;
use journal::SLOTS;
use journal::choice::in_use;
use journal::log::is_data;
use refusals::Refusal;

// The cause of a format, whatever the record holds.
pub(crate) fn check_format(settled: &[u8], waiting: &[u8], work: &[u8]) -> Result<(), Refusal>
    ensures { (q : Declared.Record) → answer result ≡ cause trap Request.format (state_of q settled.now waiting.now work.now) }
{
    if wrong_sizes(settled, waiting, work) {
        return Err(Refusal::Size);
    }
    if in_use(settled, blocks_in(settled) as u32) {
        return Err(Refusal::InUse);
    }
    Ok(())
}

impl Record {
    // The cause of a put.
    pub(crate) fn check_put(
        self,
        settled: &[u8],
        waiting: &[u8],
        work: &[u8],
        address: u32,
        block: &[u8],
    ) -> Result<(), Refusal>
        ensures { answer result ≡ cause trap (Request.put address block.now) (state_of self settled.now waiting.now work.now) }
    {
        if block.len() != BLOCK {
            return Err(Refusal::Size);
        }
        self.check_open(settled, waiting, work)?;
        if !is_data(self.blocks, address) {
            return Err(Refusal::Address);
        }
        if self.opened < SLOTS || holds(work, OPEN, self.opened, address) {
            return Ok(());
        }
        Err(Refusal::Full)
    }

    // The cause of a commit. Row 7 is counted before anything is copied.
    pub(crate) fn check_commit(
        self,
        settled: &[u8],
        waiting: &[u8],
        work: &[u8],
    ) -> Result<(), Refusal>
        ensures { answer result ≡ cause trap Request.commit (state_of self settled.now waiting.now work.now) }
    {
        self.check_open(settled, waiting, work)?;
        if SLOTS < self.grouped + newcomers(work, self.grouped, self.opened) {
            return Err(Refusal::Full);
        }
        Ok(())
    }

    // The cause of a cut.
    pub(crate) fn check_cut(
        self,
        settled: &[u8],
        waiting: &[u8],
        work: &[u8],
        marks: &[u8],
    ) -> Result<(), Refusal>
        ensures { answer result ≡ cause trap (Request.cut marks.now) (state_of self settled.now waiting.now work.now) }
    {
        self.check_record(settled, waiting, work)?;
        if !fit(marks, waiting, self.waiting) {
            return Err(Refusal::Marks);
        }
        Ok(())
    }
}

// How many of the first n open entries have an address that a group of g lacks.
fn newcomers(work: &[u8], g: u32, n: u32) -> u32
    requires trap_in_bounds { work_bytes trap ≤ length work.now }
    requires g_le_slots { (g ≤ trap.slots) × (n ≤ trap.slots) }
    ensures { (result ≡ Causes.newcomers trap work.now g n) × (result ≤ n) }
{
    let mut count = 0;
    for i in 0..n {
        if !holds(work, GROUP, g, address(work, OPEN, i)) {
            count += 1;
        }
    }
    count
}
