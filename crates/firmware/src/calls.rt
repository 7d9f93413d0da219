// The calls that give no orders: format, power, put, commit, abandon, cut.
ghost use Rattle.std.specs.Prelude.{◌≡◌};
ghost use Rattle.store.specs.Format.{format_call};
ghost use Rattle.store.specs.Power.{power_call};
ghost use Rattle.store.specs.Put.{put_call};
ghost use Rattle.store.specs.Abandon.{abandon_call};
ghost use Rattle.store.specs.Commit.{commit_call};
ghost use Rattle.store.specs.Cut.{cut_call};
ghost use Rattle.journal.specs.Geometry.{trap};
ghost use Rattle.firmware.specs.Face.{face_of, faced};

use crate::record::decode;
use crate::told::told;

// Stays six alike: each is a function for C. Tried in a model with the call as a closure: search left open what it wrote.

pub fn trapcard_format(
    rec: &mut [u8],
    settled: &mut [u8],
    waiting: &mut [u8],
    work: &mut [u8],
) -> u32
    ensures { face_of result 0 rec.new settled.new waiting.new work.new ≡ faced (format_call trap) rec.old settled.old waiting.old work.old }
{
    let held = match decode(rec) {
        Ok(held) => held,
        Err(refusal) => return refusal.into(),
    };
    let formatted = held.format(settled, waiting, work);
    told(rec, held, formatted)
}

pub fn trapcard_power(
    rec: &mut [u8],
    settled: &[u8],
    waiting: &[u8],
    work: &[u8],
    count: u32,
) -> u32
    ensures { face_of result 0 rec.new settled.now waiting.now work.now ≡ faced (power_call trap count) rec.old settled.now waiting.now work.now }
{
    let held = match decode(rec) {
        Ok(held) => held,
        Err(refusal) => return refusal.into(),
    };
    let powered = held.power(settled, waiting, work, count);
    told(rec, held, powered)
}

pub fn trapcard_put(
    rec: &mut [u8],
    settled: &[u8],
    waiting: &[u8],
    work: &mut [u8],
    address: u32,
    block: &[u8],
) -> u32
    ensures { face_of result 0 rec.new settled.now waiting.now work.new ≡ faced (put_call trap address block.now) rec.old settled.now waiting.now work.old }
{
    let held = match decode(rec) {
        Ok(held) => held,
        Err(refusal) => return refusal.into(),
    };
    let placed = held.put(settled, waiting, work, address, block);
    told(rec, held, placed)
}

pub fn trapcard_commit(rec: &mut [u8], settled: &[u8], waiting: &[u8], work: &mut [u8]) -> u32
    ensures { face_of result 0 rec.new settled.now waiting.now work.new ≡ faced (commit_call trap) rec.old settled.now waiting.now work.old }
{
    let held = match decode(rec) {
        Ok(held) => held,
        Err(refusal) => return refusal.into(),
    };
    let committed = held.commit(settled, waiting, work);
    told(rec, held, committed)
}

pub fn trapcard_abandon(rec: &mut [u8], settled: &[u8], waiting: &[u8], work: &[u8]) -> u32
    ensures { face_of result 0 rec.new settled.now waiting.now work.now ≡ faced (abandon_call trap) rec.old settled.now waiting.now work.now }
{
    let held = match decode(rec) {
        Ok(held) => held,
        Err(refusal) => return refusal.into(),
    };
    let abandoned = held.abandon(settled, waiting, work);
    told(rec, held, abandoned)
}

pub fn trapcard_cut(
    rec: &mut [u8],
    settled: &mut [u8],
    waiting: &[u8],
    work: &[u8],
    marks: &[u8],
) -> u32
    ensures { face_of result 0 rec.new settled.new waiting.now work.now ≡ faced (cut_call trap marks.now) rec.old settled.old waiting.now work.now }
{
    let held = match decode(rec) {
        Ok(held) => held,
        Err(refusal) => return refusal.into(),
    };
    let cut = held.cut(settled, waiting, work, marks);
    told(rec, held, cut)
}
