// cut: of the waiting writes the bytes settle that are marked as kept, and the record is closed.
ghost use Rattle.std.specs.Prelude.{◌≡◌};
ghost use Rattle.journal.specs.Geometry.{trap};
ghost use Rattle.store.specs.CodeState.{state_of, answered};
ghost use Rattle.store.specs.Cut as Cut;
ghost use Rattle.store.specs.Cut.{cut_call};

use crate::record::{CLOSED, Record};
use refusals::Refusal;

impl Record {
    pub fn cut(
        self,
        settled: &mut [u8],
        waiting: &[u8],
        work: &[u8],
        marks: &[u8],
    ) -> Result<Record, Refusal>
        ensures { answered result self settled.new waiting.now work.now ≡ cut_call trap marks.now (state_of self settled.old waiting.now work.now) }
    {
        self.check_cut(settled, waiting, work, marks)?;
        let queue = self.queue().cut(settled, waiting, marks);
        Ok(self.shut().with_queue(queue))
    }

    // The record that it leaves, but for the queue: closed, with no entries, the empty list's sum and no save number.
    fn shut(self) -> Record
        ensures { result ≡ Cut.shut self }
    {
        self.with_save(0)
            .with_log(0, fnv::START)
            .with_grouped(0)
            .with_opened(0)
            .with_mode(CLOSED)
    }
}
