// The inquiries: what a sync, an apply or a recover will take. They change nothing.
ghost use Rattle.std.specs.Prelude.{◌≡◌};
ghost use Rattle.store.specs.Save as Save;
ghost use Rattle.store.specs.Cost.{costed, cost_of};
ghost use Rattle.journal.specs.Geometry.{trap};
ghost use Rattle.firmware.specs.Face.{Asked, told, asked};

use crate::record::decode;
use refusals::{Refusal, number};
use store::cost::Cost;

// Hands out the figures, 1 for yes; the number.
fn tell(
    said: Result<Cost, Refusal>,
    orders: &mut u32,
    applies: &mut u32,
    peak: &mut u32,
    reaches: &mut u32,
) -> u32
    ensures { ◌≡◌ {A = Asked} (record { number = result; orders = orders.new; applies = applies.new; peak = peak.new; reaches = reaches.new }) (told (costed said)) }
{
    // A refusal has no figures.
    let cost = said.unwrap_or(Cost {
        orders: 0,
        applies: false,
        peak: 0,
        reaches: false,
    });
    *orders = cost.orders;
    *applies = u32::from(cost.applies);
    *peak = cost.peak;
    *reaches = u32::from(cost.reaches);
    number(said)
}

// Stays three alike: each is a function for C.
pub fn trapcard_sync_cost(
    rec: &[u8],
    settled: &[u8],
    waiting: &[u8],
    work: &[u8],
    orders: &mut u32,
    applies: &mut u32,
    peak: &mut u32,
    reaches: &mut u32,
) -> u32
    ensures { ◌≡◌ {A = Asked} (record { number = result; orders = orders.new; applies = applies.new; peak = peak.new; reaches = reaches.new }) (asked (cost_of trap Save.sync) rec.now settled.now waiting.now work.now) }
{
    let sync_cost = decode(rec).and_then(|held| held.sync_cost(settled, waiting, work));
    tell(sync_cost, orders, applies, peak, reaches)
}

pub fn trapcard_apply_cost(
    rec: &[u8],
    settled: &[u8],
    waiting: &[u8],
    work: &[u8],
    orders: &mut u32,
    applies: &mut u32,
    peak: &mut u32,
    reaches: &mut u32,
) -> u32
    ensures { ◌≡◌ {A = Asked} (record { number = result; orders = orders.new; applies = applies.new; peak = peak.new; reaches = reaches.new }) (asked (cost_of trap Save.apply) rec.now settled.now waiting.now work.now) }
{
    let apply_cost = decode(rec).and_then(|held| held.apply_cost(settled, waiting, work));
    tell(apply_cost, orders, applies, peak, reaches)
}

pub fn trapcard_recover_cost(
    rec: &[u8],
    settled: &[u8],
    waiting: &[u8],
    work: &[u8],
    orders: &mut u32,
    applies: &mut u32,
    peak: &mut u32,
    reaches: &mut u32,
) -> u32
    ensures { ◌≡◌ {A = Asked} (record { number = result; orders = orders.new; applies = applies.new; peak = peak.new; reaches = reaches.new }) (asked (cost_of trap Save.recover) rec.now settled.now waiting.now work.now) }
{
    let recover_cost = decode(rec).and_then(|held| held.recover_cost(settled, waiting, work));
    tell(recover_cost, orders, applies, peak, reaches)
}
