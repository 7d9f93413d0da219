// abandon: empties open.
ghost use Rattle.std.specs.Prelude.{◌≡◌};
ghost use Rattle.journal.specs.Geometry.{trap};
ghost use Rattle.store.specs.CodeState.{state_of, answered};
ghost use Rattle.store.specs.Abandon.{abandon_call};

use crate::record::Record;
use refusals::Refusal;

impl Record {
    pub fn abandon(self, settled: &[u8], waiting: &[u8], work: &[u8]) -> Result<Record, Refusal>
        ensures { answered result self settled.now waiting.now work.now ≡ abandon_call trap (state_of self settled.now waiting.now work.now) }
    {
        self.check_open(settled, waiting, work)?;
        Ok(self.with_opened(0))
    }
}
