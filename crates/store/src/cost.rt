// What a sync, an apply or a recover will take, asked before it is made. Nothing is written.
ghost use Rattle.std.specs.Prelude.{◌≡◌, leb};
ghost use Rattle.journal.specs.Geometry.{trap};
ghost use Rattle.store.specs.CodeState.{state_of};
ghost use Rattle.store.specs.Save as Save;
ghost use Rattle.store.specs.Cost.{costed, cost_of};

use crate::record::Record;
use journal::DESCRIPTORS;
use journal::choice::{Choice, choose};
use refusals::Refusal;

// Its orders, whether an apply comes first, the most writes that wait at any moment of it, earlier ones included, and whether the power
// count reaches.
#[derive(Clone, Copy)]
pub struct Cost {
    pub orders: u32,
    pub applies: bool,
    pub peak: u32,
    pub reaches: bool,
}

impl Record {
    pub fn sync_cost(self, settled: &[u8], waiting: &[u8], work: &[u8]) -> Result<Cost, Refusal>
        ensures { costed result ≡ cost_of trap Save.sync (state_of self settled.now waiting.now work.now) }
    {
        self.check_sync(settled, waiting, work)?;
        if self.grouped == 0 {
            // A flush, if anything waits.
            if self.waiting == 0 {
                return Ok(self.cost(0, false, 0));
            }
            return Ok(self.cost(1, false, self.waiting));
        }
        // Its own writes: log blocks, descriptor, header.
        let writes = self.grouped + DESCRIPTORS + 1;
        if self.fits() {
            return Ok(self.cost(writes + 1, false, self.waiting + writes));
        }
        // An apply comes first: home blocks, a flush, a header, a flush. So none waits when these begin.
        let peak = writes.max(self.waiting + self.logged);
        Ok(self.cost(self.logged + 3 + (writes + 1), true, peak))
    }

    pub fn apply_cost(self, settled: &[u8], waiting: &[u8], work: &[u8]) -> Result<Cost, Refusal>
        ensures { costed result ≡ cost_of trap Save.apply (state_of self settled.now waiting.now work.now) }
    {
        self.check_open(settled, waiting, work)?;
        if self.logged == 0 {
            return Ok(self.cost(0, false, self.waiting));
        }
        // Home blocks, a flush, a header, a flush.
        Ok(self.cost(self.logged + 3, false, self.waiting + self.logged))
    }

    pub fn recover_cost(self, settled: &[u8], waiting: &[u8], work: &[u8]) -> Result<Cost, Refusal>
        ensures { costed result ≡ cost_of trap Save.recover (state_of self settled.now waiting.now work.now) }
    {
        self.check_closed(settled, waiting, work)?;
        match choose(settled, self.blocks) {
            Choice::Whole(_, _, _) => Ok(self.cost(0, false, self.waiting)),
            // A header, a flush.
            Choice::Fallback(_, _, _) => Ok(self.cost(2, false, self.waiting + 1)),
            Choice::Foreign => Err(Refusal::Foreign),
            Choice::Neither => Err(Refusal::Unsound),
        }
    }

    // The figures of a call.
    fn cost(self, orders: u32, applies: bool, peak: u32) -> Cost
        ensures { result ≡ record { orders = orders; applies = applies; peak = peak; reaches = leb orders self.power } }
    {
        Cost {
            orders,
            applies,
            peak,
            reaches: orders <= self.power,
        }
    }
}
