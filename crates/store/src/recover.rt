// recover: a closed record is opened with the log that the card holds.
ghost use Rattle.std.specs.Prelude.{◌≡◌, false, List, [], ◌∷◌, ℕ, ◌≤◌, ◌<◌, length};
ghost use Rattle.card.specs.Card.{blocks_in};
ghost use Rattle.journal.specs.Geometry.{trap};
ghost use Rattle.journal.specs.Layout.{first_data};
ghost use Rattle.journal.specs.Choice.{choice_number};
ghost use Rattle.refusals.specs.Numbers.{answer};
ghost use Rattle.store.specs.CodeState.{state_of, ended_as};
ghost use Rattle.store.specs.Causes.{waiting_bytes, down_row, open_row, of_record, cause_by};
ghost use Rattle.store.specs.Outcomes.{unless};
ghost use Rattle.store.specs.Saves as Saves;
ghost use Rattle.store.specs.Saves.{recovering, recover_call};

use crate::record::{DOWN, OPEN_MODE, Record};
use crate::saved::{Saved, Stopped};
use journal::choice::{Choice, choose};
use journal::fallback::fallback;
use refusals::Refusal;

impl Record {
    pub fn recover(
        self,
        settled: &mut [u8],
        waiting: &mut [u8],
        work: &[u8],
    ) -> Result<Saved, Stopped>
        ensures { ended_as result self settled.new waiting.new work.now ≡ recover_call trap (state_of self settled.old waiting.old work.now) }
    {
        self.check_closed(settled, waiting, work)?;
        let choice = choose(settled, self.blocks);
        self.recovered(choice, settled, waiting)
    }

    // Its cause before the log is read: rows 1, 2, 4 and 5.
    pub(crate) fn check_closed(
        self,
        settled: &[u8],
        waiting: &[u8],
        work: &[u8],
    ) -> Result<(), Refusal>
        ensures { answer result ≡ cause_by trap (of_record false (down_row ∷ open_row ∷ [])) (state_of self settled.now waiting.now work.now) }
    {
        self.check_record(settled, waiting, work)?;
        match self.mode {
            DOWN => Err(Refusal::Down),
            OPEN_MODE => Err(Refusal::Open),
            _ => Ok(()),
        }
    }

    // By the choice that was made.
    fn recovered(
        self,
        choice: Choice,
        settled: &mut [u8],
        waiting: &mut [u8],
    ) -> Result<Saved, Stopped>
        requires trap_bound { first_data trap < blocks_in settled.old }
        requires waiting_value { self.waiting ≡ 0 }
        requires trap_in_bounds { waiting_bytes trap ≤ length waiting.old }
        ensures { (k : List ℕ) → ended_as result self settled.new waiting.new k ≡ unless (choice_number choice) (state_of self settled.old waiting.old k) (recovering choice (state_of self settled.old waiting.old k)) }
    {
        match choice {
            Choice::Whole(n, sum, save) => self.saved(self.reopened(n, sum, save)),
            Choice::Fallback(p, sum, save) => {
                let ordered = fallback(self.queue(), settled, waiting, self.blocks, p, sum, save);
                self.saved(self.after(ordered, self.reopened(p, sum, save)))
            }
            Choice::Foreign => Err(Stopped::Refused(Refusal::Foreign)),
            Choice::Neither => Err(Stopped::Refused(Refusal::Unsound)),
        }
    }

    // The record of a recovery that took a list, with the number of its save.
    fn reopened(self, n: u32, sum: u64, save: u64) -> Record
        ensures { result ≡ Saves.reopened n sum save self }
    {
        self.with_save(save)
            .with_log(n, sum)
            .with_grouped(0)
            .with_opened(0)
            .with_mode(OPEN_MODE)
    }
}
