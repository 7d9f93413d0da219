// commit: each open entry, in turn, replaces or joins the group; open becomes empty.
ghost use Rattle.std.specs.Prelude.{◌≡◌, ◌+◌, ◌≤◌, ◌<◌, length};
ghost use Rattle.journal.specs.Geometry.{trap};
ghost use Rattle.store.specs.CodeState.{state_of, answered};
ghost use Rattle.store.specs.Lists as Lists;
ghost use Rattle.store.specs.Lists.{open_from, group_from, listed};
ghost use Rattle.store.specs.Causes as Causes;
ghost use Rattle.store.specs.Causes.{work_bytes};
ghost use Rattle.store.specs.Commit as Commit;
ghost use Rattle.store.specs.Commit.{joined, commit_call};

use crate::lists::{GROUP, OPEN, address, copy_entry, find};
use crate::record::Record;
use refusals::Refusal;

impl Record {
    pub fn commit(self, settled: &[u8], waiting: &[u8], work: &mut [u8]) -> Result<Record, Refusal>
        ensures { answered result self settled.now waiting.now work.new ≡ commit_call trap (state_of self settled.now waiting.now work.old) }
    {
        self.check_commit(settled, waiting, work)?;
        let grouped = join_all(work, self.grouped, self.opened);
        Ok(self.with_grouped(grouped).with_opened(0))
    }
}

// The first n open entries, in turn, replace or join a group of g; its new count.
fn join_all(work: &mut [u8], g: u32, n: u32) -> u32
    requires trap_in_bounds { work_bytes trap ≤ length work.old }
    requires g_le_slots { (g ≤ trap.slots) × (n ≤ trap.slots) × (g + Causes.newcomers trap work.old g n ≤ trap.slots) }
    ensures { ◌≡◌ {A = Commit.Group} (record { work = work.exit.now; count = result }) (joined trap n (record { work = work.entry.now; count = g })) }
{
    let mut count = g;
    for i in 0..n {
        count = join(work, count, i);
    }
    count
}

// The i-th open entry replaces the entry of its address in a group of g, or joins at the end; the group's new count.
fn join(work: &mut [u8], g: u32, i: u32) -> u32
    requires trap_in_bounds { work_bytes trap ≤ length work.old }
    requires g_le_slots { (g ≤ trap.slots) × (i < trap.slots) }
    requires g_lt_slots { Lists.find work.old (group_from trap) g (listed work.old open_from i).address ≡ None → g < trap.slots }
    ensures { ◌≡◌ {A = Commit.Group} (record { work = work.exit.now; count = result }) (Commit.join trap (listed work.entry.now open_from i) (record { work = work.entry.now; count = g })) }
{
    let a = address(work, OPEN, i);
    let from = OPEN + (i as usize);
    let Some(j) = find(work, GROUP, g, a) else {
        copy_entry(work, from, GROUP + (g as usize));
        return g + 1;
    };
    copy_entry(work, from, GROUP + (j as usize));
    g
}
