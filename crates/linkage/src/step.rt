// Any call of a list, through the functions of `firmware` that `firmware_c` exports.
ghost use Rattle.std.specs.Prelude.{◌≡◌};
ghost use Rattle.firmware.specs.Face.{face_of};
ghost use Rattle.linkage.specs.Step.{call_of, stepped_of, stepped};

use firmware::calls::{
    trapcard_abandon, trapcard_commit, trapcard_cut, trapcard_power, trapcard_put,
};
use firmware::orders::{trapcard_apply, trapcard_direct, trapcard_recover, trapcard_sync};
use firmware::reads::{trapcard_get, trapcard_get_list};

// The calls of a list; the block of a put or a direct write, cut's marks and the two buffers of a list of gets stand beside it.
#[derive(Clone, Copy)]
pub enum Code {
    Power(u32),
    Put(u32),
    Get(u32),
    GetList,
    Commit,
    Abandon,
    Direct(u32),
    Sync,
    Apply,
    Recover,
    Cut,
}

// orders stays 0 for a call that gives none, buffer and offset for one other than get, slots for one other than a list of gets, which alone
// writes blocks.
pub fn step(
    code: Code,
    block: &[u8],
    marks: &[u8],
    addresses: &[u8],
    rec: &mut [u8],
    settled: &mut [u8],
    waiting: &mut [u8],
    work: &mut [u8],
    orders: &mut u32,
    buffer: &mut u32,
    offset: &mut u64,
    blocks: &mut [u8],
    slots: &mut u32,
) -> u32
    ensures { stepped_of (face_of result orders.new rec.new settled.new waiting.new work.new) buffer.new offset.new slots.new blocks.new ≡ stepped (call_of code block.now marks.now addresses.now blocks.old) blocks.old (face_of 0 0 rec.old settled.old waiting.old work.old) }
{
    *orders = 0;
    *buffer = 0;
    *offset = 0;
    *slots = 0;
    // Stays a match: the calls are functions for C, whose parameters differ, so a table of them is no plainer.
    match code {
        Code::Power(count) => trapcard_power(rec, settled, waiting, work, count),
        Code::Put(address) => trapcard_put(rec, settled, waiting, work, address, block),
        Code::Get(address) => trapcard_get(rec, settled, waiting, work, address, buffer, offset),
        Code::GetList => {
            trapcard_get_list(rec, settled, waiting, work, addresses, blocks, slots)
        }
        Code::Commit => trapcard_commit(rec, settled, waiting, work),
        Code::Abandon => trapcard_abandon(rec, settled, waiting, work),
        Code::Direct(address) => {
            trapcard_direct(rec, settled, waiting, work, address, block, orders)
        }
        Code::Sync => trapcard_sync(rec, settled, waiting, work, orders),
        Code::Apply => trapcard_apply(rec, settled, waiting, work, orders),
        Code::Recover => trapcard_recover(rec, settled, waiting, work, orders),
        Code::Cut => trapcard_cut(rec, settled, waiting, work, marks),
    }
}
