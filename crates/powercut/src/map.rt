// The map: a line for each power of the save, a character for each try of its cut.
ghost use Rattle.std.specs.Prelude.{◌≡◌, ◌≤◌};
ghost use Rattle.journal.specs.Geometry.{trap};
ghost use Rattle.powercut.specs.Tears.{tearable};
ghost use Rattle.powercut.specs.Tries.{try_count};

use crate::contents::{Scenario, letter, prepare, ready};
use crate::device::Device;
use crate::finding::Finding;
use crate::loss::{ENOUGH, Loss, recover, recover_again, save};
use crate::{tears, tries};
use journal::PLACES;
use std::io;

// How many tries there are of a card's cut. One that can't be cut is tried once, and then found as `?`.
fn tries_of(device: &Device) -> u32
    ensures { device.now.rec.waiting ≤ trap.places → result ≡ try_count device.now.rec.waiting (tearable device.now.waiting device.now.rec.waiting) }
{
    let n = device.rec.waiting;
    if PLACES < n as usize {
        return 1;
    }
    tries::count(n, tears::tearable(&device.waiting, n))
}

// Two findings that should be one.
fn both(one: Finding, other: Finding) -> Finding {
    if one == other { one } else { Finding::Other }
}

// The recovery with power for so many orders, lost with every try of its cut.
fn with_tries(
    device: &mut Device,
    scenario: &Scenario,
    loss: Loss,
    orders: u32,
    before: Finding,
) -> Finding {
    recover(device, scenario, loss, orders);
    let mut found = before;
    for attempt in 0..tries_of(device) {
        recover_again(device, scenario, loss, Loss { orders, attempt });
        found = both(found, letter(device, scenario.saves));
    }
    found
}

// What is found behind a loss: by a recovery with all its power, and by the one behind every cut inside it.
fn found(device: &mut Device, scenario: &Scenario, loss: Loss) -> Finding {
    recover(device, scenario, loss, ENOUGH);
    let mut found = letter(device, scenario.saves);
    for orders in 0..=ENOUGH {
        found = with_tries(device, scenario, loss, orders, found);
    }
    found
}

// The characters of a line, and whether there is no `?`.
fn characters(
    rt: &impl Print,
    device: &mut Device,
    scenario: &Scenario,
    orders: u32,
) -> io::Result<bool> {
    save(device, scenario, orders);
    let mut whole = true;
    for attempt in 0..tries_of(device) {
        let found = found(device, scenario, Loss { orders, attempt });
        rt.write_all(&[found.character()])?;
        whole = whole && found != Finding::Other;
    }
    Ok(whole)
}

fn line(
    rt: &impl Print,
    name: &[u8],
    device: &mut Device,
    scenario: &Scenario,
    orders: u32,
) -> io::Result<bool> {
    rt.write_all(name)?;
    print!(rt; " {orders} ")?;
    let whole = characters(rt, device, scenario, orders)?;
    rt.write_all(b"\n")?;
    Ok(whole)
}

// A scenario: its name, the saves in its log, the orders of its save. Whether there is no `?`.
pub(crate) fn map(rt: &impl Print, name: &[u8], saves: u32, most: u32) -> io::Result<bool>
    requires { (saves ≤ 10) × (most ≤ 39) }
{
    let mut device = Device::zeros();
    prepare(&mut device, saves);
    let start = device.settled;
    let scenario = ready(device.rec, &start, saves);
    let mut whole = true;
    for orders in 0..=most {
        let more = line(rt, name, &mut device, &scenario, orders)?;
        whole = whole && more;
    }
    Ok(whole)
}
