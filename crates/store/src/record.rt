// The record: what the store keeps outside the card and work memory.
ghost use Rattle.std.specs.Prelude.{◌≡◌};
ghost use Rattle.store.specs.State.{with_mode, with_opened, with_grouped, with_log, with_save, with_queue};
ghost use Rattle.store.specs.CodeState.{fresh};

use card::queue::Queue;

// The modes.
// Stays numbers: a record from C may hold any, and `check_record` answers 2 for one above these.
pub const CLOSED: u32 = 0;

pub const OPEN_MODE: u32 = 1;

pub const DOWN: u32 = 2;

// The power count of a fresh card.
pub const POWER: u32 = 1000000;

// Stays without an invariant: a record from C may hold any counts. That they are in bounds is what a check has shown, and is asked where it is used.
#[derive(Clone, Copy)]
pub struct Record {
    pub mode: u32,
    pub blocks: u32,
    pub opened: u32,
    pub grouped: u32,
    pub logged: u32,
    pub waiting: u32,
    pub power: u32,
    pub sum: u64,
    pub save: u64,
}

impl Record {
    // The record of a fresh card: open, with power for 1,000,000 orders, no save yet.
    pub fn fresh(blocks: u32) -> Record
        ensures { result ≡ fresh blocks }
    {
        Record {
            mode: OPEN_MODE,
            blocks,
            opened: 0,
            grouped: 0,
            logged: 0,
            waiting: 0,
            power: POWER,
            sum: fnv::START,
            save: 0,
        }
    }

    pub fn with_mode(mut self, mode: u32) -> Record
        ensures { result ≡ with_mode mode self }
    {
        self.mode = mode;
        self
    }

    pub fn with_opened(mut self, opened: u32) -> Record
        ensures { result ≡ with_opened opened self }
    {
        self.opened = opened;
        self
    }

    pub fn with_grouped(mut self, grouped: u32) -> Record
        ensures { result ≡ with_grouped grouped self }
    {
        self.grouped = grouped;
        self
    }

    // The log's count and its sum.
    pub fn with_log(mut self, logged: u32, sum: u64) -> Record
        ensures { result ≡ with_log logged sum self }
    {
        self.logged = logged;
        self.sum = sum;
        self
    }

    // The number of the last save.
    pub fn with_save(mut self, save: u64) -> Record
        ensures { result ≡ with_save save self }
    {
        self.save = save;
        self
    }

    // The card's part: the waiting count and the power count.
    pub fn queue(self) -> Queue
        ensures { result ≡ record { waiting = self.waiting; power = self.power } }
    {
        Queue {
            waiting: self.waiting,
            power: self.power,
        }
    }

    pub fn with_queue(mut self, queue: Queue) -> Record
        ensures { result ≡ with_queue queue.waiting queue.power self }
    {
        self.waiting = queue.waiting;
        self.power = queue.power;
        self
    }
}
