// power: sets the power count, in any mode.
ghost use Rattle.std.specs.Prelude.{◌≡◌};
ghost use Rattle.journal.specs.Geometry.{trap};
ghost use Rattle.store.specs.CodeState.{state_of, answered};
ghost use Rattle.store.specs.Power.{power_call};

use crate::record::Record;
use card::queue::Queue;
use refusals::Refusal;

impl Record {
    pub fn power(
        self,
        settled: &[u8],
        waiting: &[u8],
        work: &[u8],
        count: u32,
    ) -> Result<Record, Refusal>
        ensures { answered result self settled.now waiting.now work.now ≡ power_call trap count (state_of self settled.now waiting.now work.now) }
    {
        self.check_record(settled, waiting, work)?;
        let queue = Queue {
            waiting: self.waiting,
            power: count,
        };
        Ok(self.with_queue(queue))
    }
}
