// A card of 65 blocks, with the record and the buffers that the store's calls take. A call that is refused changes nothing.
ghost use Rattle.std.specs.Prelude.{◌≡◌};
ghost use Rattle.journal.specs.Geometry.{trap};
ghost use Rattle.store.specs.Cut.{cut_call};
ghost use Rattle.store.specs.Get.{get_place, bytes_at};
ghost use Rattle.powercut.specs.Device.{state};

use cells::BLOCK;
use store::record::Record;
use store::saved::{Saved, Stopped};
use store::{WAITING, WORK};

pub(crate) const BLOCKS: u32 = 65;

pub(crate) const SETTLED: usize = BLOCK * BLOCKS as usize;

// Stays one that is lent on: it is 100 KB, and a copy in each function's frame took six times the stack.
#[derive(Clone, Copy)]
pub(crate) struct Device {
    pub rec: Record,
    pub settled: [u8; SETTLED],
    pub waiting: [u8; WAITING],
    pub work: [u8; WORK],
}

impl Device {
    // A card of zeros, to be formatted.
    pub(crate) fn zeros() -> Device {
        Device {
            rec: Record::fresh(BLOCKS),
            settled: [0; SETTLED],
            waiting: [0; WAITING],
            work: [0; WORK],
        }
    }

    pub(crate) fn format(&mut self) {
        let formatted = self
            .rec
            .format(&mut self.settled, &mut self.waiting, &mut self.work);
        self.rec = formatted.unwrap_or(self.rec);
    }

    pub(crate) fn put(&mut self, address: u32, block: &[u8]) {
        let put = self.rec.put(&self.settled, &self.waiting, &mut self.work, address, block);
        self.rec = put.unwrap_or(self.rec);
    }

    pub(crate) fn commit(&mut self) {
        let committed = self
            .rec
            .commit(&self.settled, &self.waiting, &mut self.work);
        self.rec = committed.unwrap_or(self.rec);
    }

    pub(crate) fn sync(&mut self) {
        let ended = self
            .rec
            .sync(&mut self.settled, &mut self.waiting, &self.work);
        self.rec = left(self.rec, ended);
    }

    pub(crate) fn apply(&mut self) {
        let ended = self
            .rec
            .apply(&mut self.settled, &mut self.waiting, &self.work);
        self.rec = left(self.rec, ended);
    }

    pub(crate) fn direct(&mut self, address: u32, block: &[u8]) {
        let ended = self.rec.direct(
            &mut self.settled,
            &mut self.waiting,
            &self.work,
            address,
            block,
        );
        self.rec = left(self.rec, ended);
    }

    pub(crate) fn power(&mut self, orders: u32) {
        let powered = self
            .rec
            .power(&self.settled, &self.waiting, &self.work, orders);
        self.rec = powered.unwrap_or(self.rec);
    }

    pub(crate) fn cut(&mut self, marks: &[u8])
        ensures { state self.new ≡ (cut_call trap marks.now (state self.old)).state }
    {
        let cut = self
            .rec
            .cut(&mut self.settled, &self.waiting, &self.work, marks);
        if let Ok(rec) = cut {
            self.rec = rec;
        }
    }

    pub(crate) fn recover(&mut self) {
        let ended = self
            .rec
            .recover(&mut self.settled, &mut self.waiting, &self.work);
        self.rec = left(self.rec, ended);
    }

    pub(crate) fn get(&self, address: u32) -> &[u8]
        ensures { result.now ≡ bytes_at (get_place trap address (state self.now)) (state self.now) }
    {
        self.rec
            .get(&self.settled, &self.waiting, &self.work, address)
    }
}

// The record after a call that gives orders: as it was if refused, else what the call hands back, its power gone or not.
fn left(rec: Record, ended: Result<Saved, Stopped>) -> Record {
    match ended {
        Ok(saved) | Err(Stopped::PowerLost(saved)) => saved.rec,
        Err(Stopped::Refused(_)) => rec,
    }
}
