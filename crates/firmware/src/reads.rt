// The calls that change nothing but what they are lent for their answer: get, a list of gets, tally, alike.
ghost use Rattle.std.specs.Prelude.{◌≡◌};
ghost use Rattle.store.specs.GetList.{Listing};
ghost use Rattle.inspect.specs.Tally.{tally_of};
ghost use Rattle.journal.specs.Geometry.{trap};
ghost use Rattle.firmware.specs.Face.{buffer_number, buffer_offset, got_of, got, listed, tallied, compared_of, compared};

use crate::record::decode;
use refusals::number;
use store::place::Place;

// The buffers that a get names.
// Stays numbers: C interface; include/trapcard.h has them.
const NOWHERE: u32 = 0;

const IN_SETTLED: u32 = 1;

const IN_WORK: u32 = 2;

const IN_WAITING: u32 = 3;

// Stays a match: these are numbers of the C interface.
fn buffer_number(place: Place) -> u32
    ensures { result ≡ buffer_number place }
{
    match place {
        Place::Settled(_) => IN_SETTLED,
        Place::Work(_) => IN_WORK,
        Place::Waiting(_) => IN_WAITING,
        Place::Nowhere => NOWHERE,
    }
}

fn buffer_offset(place: Place) -> u64
    ensures { result ≡ buffer_offset place }
{
    match place {
        Place::Settled(at) => at as u64,
        Place::Work(at) => at as u64,
        Place::Waiting(at) => at as u64,
        Place::Nowhere => 0,
    }
}

pub fn trapcard_get(
    rec: &[u8],
    settled: &[u8],
    waiting: &[u8],
    work: &[u8],
    address: u32,
    buffer: &mut u32,
    offset: &mut u64,
) -> u32
    ensures { got_of result buffer.new offset.new ≡ got trap address rec.now settled.now waiting.now work.now }
{
    let held = match decode(rec) {
        Ok(held) => held,
        Err(refusal) => {
            *buffer = NOWHERE;
            *offset = 0;
            return refusal.into();
        }
    };
    let place = held.get_place(settled, waiting, work, address);
    *buffer = buffer_number(place);
    *offset = buffer_offset(place);
    if *buffer != NOWHERE {
        return 0;
    }
    number(held.check_get(settled, waiting, work, address))
}

pub fn trapcard_get_list(
    rec: &[u8],
    settled: &[u8],
    waiting: &[u8],
    work: &[u8],
    addresses: &[u8],
    blocks: &mut [u8],
    slots: &mut u32,
) -> u32
    ensures { ◌≡◌ {A = Listing} (record { number = result; slots = slots.new; blocks = blocks.new }) (listed trap addresses.now blocks.old rec.now settled.now waiting.now work.now) }
{
    let held = match decode(rec) {
        Ok(held) => held,
        Err(refusal) => {
            *slots = 0;
            return refusal.into();
        }
    };
    let listed = held.get_list(settled, waiting, work, addresses, blocks);
    *slots = listed.unwrap_or(0);
    number(listed)
}

pub fn trapcard_tally(settled: &[u8], sum: &mut u64) -> u32
    ensures { tallied result sum.new ≡ tally_of trap settled.now }
{
    let tally = inspect::tally::tally(settled);
    *sum = tally.unwrap_or(0);
    number(tally)
}

pub fn trapcard_alike(a: &[u8], b: &[u8], yes: &mut u32) -> u32
    ensures { compared_of result yes.new ≡ compared trap a.now b.now }
{
    let alike = inspect::alike::alike(a, b);
    *yes = u32::from(alike.unwrap_or(false));
    number(alike)
}
