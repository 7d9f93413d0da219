// The calls that give orders: sync, apply, recover, a direct write.
ghost use Rattle.std.specs.Prelude.{◌≡◌};
ghost use Rattle.store.specs.Saves.{sync_call, apply_call, recover_call};
ghost use Rattle.store.specs.Direct.{direct_call};
ghost use Rattle.journal.specs.Geometry.{trap};
ghost use Rattle.firmware.specs.Face.{face_of, faced};

use crate::record::decode;
use crate::told::told_orders;

// Stays four alike: each is a function for C. Tried in a model with the call as a closure: search left open what it wrote.

pub fn trapcard_sync(
    rec: &mut [u8],
    settled: &mut [u8],
    waiting: &mut [u8],
    work: &[u8],
    orders: &mut u32,
) -> u32
    ensures { face_of result orders.new rec.new settled.new waiting.new work.now ≡ faced (sync_call trap) rec.old settled.old waiting.old work.now }
{
    let held = match decode(rec) {
        Ok(held) => held,
        Err(refusal) => {
            *orders = 0;
            return refusal.into();
        }
    };
    let synced = held.sync(settled, waiting, work);
    told_orders(rec, orders, held, synced)
}

pub fn trapcard_apply(
    rec: &mut [u8],
    settled: &mut [u8],
    waiting: &mut [u8],
    work: &[u8],
    orders: &mut u32,
) -> u32
    ensures { face_of result orders.new rec.new settled.new waiting.new work.now ≡ faced (apply_call trap) rec.old settled.old waiting.old work.now }
{
    let held = match decode(rec) {
        Ok(held) => held,
        Err(refusal) => {
            *orders = 0;
            return refusal.into();
        }
    };
    let applied = held.apply(settled, waiting, work);
    told_orders(rec, orders, held, applied)
}

pub fn trapcard_recover(
    rec: &mut [u8],
    settled: &mut [u8],
    waiting: &mut [u8],
    work: &[u8],
    orders: &mut u32,
) -> u32
    ensures { face_of result orders.new rec.new settled.new waiting.new work.now ≡ faced (recover_call trap) rec.old settled.old waiting.old work.now }
{
    let held = match decode(rec) {
        Ok(held) => held,
        Err(refusal) => {
            *orders = 0;
            return refusal.into();
        }
    };
    let recovered = held.recover(settled, waiting, work);
    told_orders(rec, orders, held, recovered)
}

pub fn trapcard_direct(
    rec: &mut [u8],
    settled: &mut [u8],
    waiting: &mut [u8],
    work: &[u8],
    address: u32,
    block: &[u8],
    orders: &mut u32,
) -> u32
    ensures { face_of result orders.new rec.new settled.new waiting.new work.now ≡ faced (direct_call trap address block.now) rec.old settled.old waiting.old work.now }
{
    let held = match decode(rec) {
        Ok(held) => held,
        Err(refusal) => {
            *orders = 0;
            return refusal.into();
        }
    };
    let written = held.direct(settled, waiting, work, address, block);
    told_orders(rec, orders, held, written)
}
