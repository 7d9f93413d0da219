// Power losses: of the save, and of the recovery that follows. Each experiment starts from the same card, on which the photograph is written.
ghost use Rattle.std.specs.Prelude.{◌≡◌, ◌≤◌, ◌<◌};
ghost use Rattle.store.specs.Cut.{cut_call};
ghost use Rattle.journal.specs.Geometry.{trap};
ghost use Rattle.powercut.specs.Device.{state};
ghost use Rattle.powercut.specs.Tears.{tearable};
ghost use Rattle.powercut.specs.Tries.{try_marks};

use crate::contents::{Scenario, photographed};
use crate::device::Device;
use crate::{tears, tries};
use cells::BLOCK;
use cells::bytes::copy;
use journal::PLACES;

// The orders that happen before it, and the number of the try of its cut.
#[derive(Clone, Copy)]
pub(crate) struct Loss {
    pub orders: u32,
    pub attempt: u32,
}

// The power that suffices for any recovery.
pub(crate) const ENOUGH: u32 = 2;

// A scenario's start: the photograph, then the save with power for so many orders.
pub(crate) fn save(device: &mut Device, scenario: &Scenario, orders: u32) {
    device.rec = scenario.rec;
    let settled = scenario.settled;
    copy(&mut device.settled, settled);
    photographed(device);
    device.power(orders);
    device.sync();
}

// The cut of a try. A card with more waiting writes than there are places stays as it is.
fn cut(device: &mut Device, attempt: u32)
    ensures within { device.old.rec.waiting ≤ trap.places → state device.new ≡ (cut_call trap (try_marks device.old.rec.waiting (tearable device.old.waiting device.old.rec.waiting) attempt) (state device.old)).state }
    ensures beyond { trap.places < device.old.rec.waiting → device.new ≡ device.old }
{
    let n = device.rec.waiting;
    if PLACES < n as usize {
        return;
    }
    let mut marks = [0u8; BLOCK * PLACES];
    tries::marks(n, tears::tearable(&device.waiting, n), attempt, &mut marks);
    let end = BLOCK * (n as usize);
    device.cut(&marks[..end]);
}

// The cut, then a recovery with power for so many orders.
fn boot(device: &mut Device, attempt: u32, orders: u32) {
    cut(device, attempt);
    device.power(orders);
    device.recover();
}

// The save lost, then a recovery with power for so many orders.
pub(crate) fn recover(device: &mut Device, scenario: &Scenario, loss: Loss, orders: u32) {
    save(device, scenario, loss.orders);
    boot(device, loss.attempt, orders);
}

// The save lost, the recovery lost, then a recovery with all its power.
pub(crate) fn recover_again(device: &mut Device, scenario: &Scenario, loss: Loss, again: Loss) {
    recover(device, scenario, loss, again.orders);
    boot(device, again.attempt, ENOUGH);
}
