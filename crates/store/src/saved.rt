// What a call that gives orders hands back: a direct write, sync, apply, recover.
ghost use Rattle.std.specs.Prelude.{◌≡◌, cond, List, ℕ, ◌-◌, ◌≤◌, eqb, is_ok};
ghost use Rattle.card.specs.CodeQueue.{left_queue};
ghost use Rattle.store.specs.State.{down, with_mode, with_queue};
ghost use Rattle.store.specs.CodeState.{outcome_of, ended_as};

use crate::record::{DOWN, Record};
use card::queue::{PowerLost, Queue};
use refusals::Refusal;

// The orders carried out, and the record then.
#[derive(Clone, Copy)]
pub struct Saved {
    pub orders: u32,
    pub rec: Record,
}

// Why a call was not done: refused before any order, or its power gone before the last, which leaves the record down.
#[derive(Clone, Copy)]
pub enum Stopped {
    Refused(Refusal),
    PowerLost(Saved),
}

impl From<Refusal> for Stopped {
    ghost use Rattle.store.specs.declared.saved.Stopped.TheVariants.{Refused};

    ghost from_gives = { λ refusal stopped. stopped ≡ Refused refusal };

    fn from(refusal: Refusal) -> Stopped {
        Stopped::Refused(refusal)
    }
}

impl Record {
    // The record once orders were given: `done` if all of them happened, else down; with the queue that they left.
    pub(crate) fn after(self, ordered: Result<Queue, PowerLost>, done: Record) -> Record
        ensures { result ≡ with_queue (left_queue ordered).waiting (left_queue ordered).power (cond (is_ok ordered) done (with_mode down self)) }
    {
        match ordered {
            Ok(queue) => done.with_queue(queue),
            Err(lost) => self.with_mode(DOWN).with_queue(lost.queue),
        }
    }

    // The end of a call that made `last` of the record: power was gone if it is down. The power used up is the orders carried out.
    pub(crate) fn saved(self, last: Record) -> Result<Saved, Stopped>
        requires { last.power ≤ self.power }
        ensures { (s w k : List ℕ) → ended_as result self s w k ≡ outcome_of (cond (eqb last.mode down) 4 0) (self.power - last.power) last s w k }
    {
        let saved = Saved {
            orders: self.power - last.power,
            rec: last,
        };
        if last.mode == DOWN {
            return Err(Stopped::PowerLost(saved));
        }
        Ok(saved)
    }
}
