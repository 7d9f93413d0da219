// The functions of include/trapcard.h: each is that of `firmware`, whose clauses it has.
#![tactic(auto)]

ghost use Rattle.std.specs.Prelude.{◌≡◌};
ghost use Rattle.store.specs.Format.{format_call};
ghost use Rattle.store.specs.Power.{power_call};
ghost use Rattle.store.specs.Put.{put_call};
ghost use Rattle.store.specs.Abandon.{abandon_call};
ghost use Rattle.store.specs.Commit.{commit_call};
ghost use Rattle.store.specs.Cut.{cut_call};
ghost use Rattle.journal.specs.Geometry.{trap};
ghost use Rattle.firmware.specs.Face.{face_of, faced, got_of, got, listed, tallied, compared_of, compared, Asked, asked};
ghost use Rattle.store.specs.Saves.{sync_call, apply_call, recover_call};
ghost use Rattle.store.specs.Direct.{direct_call};
ghost use Rattle.store.specs.GetList.{Listing};
ghost use Rattle.inspect.specs.Tally.{tally_of};
ghost use Rattle.store.specs.Save as Save;
ghost use Rattle.store.specs.Cost.{cost_of};

#[unsafe(no_mangle)]
pub extern "C" fn trapcard_format(
    rec: &mut [u8],
    settled: &mut [u8],
    waiting: &mut [u8],
    work: &mut [u8],
) -> u32
    ensures { face_of result 0 rec.new settled.new waiting.new work.new ≡ faced (format_call trap) rec.old settled.old waiting.old work.old }
{
    firmware::calls::trapcard_format(rec, settled, waiting, work)
}

#[unsafe(no_mangle)]
pub extern "C" fn trapcard_power(
    rec: &mut [u8],
    settled: &[u8],
    waiting: &[u8],
    work: &[u8],
    count: u32,
) -> u32
    ensures { face_of result 0 rec.new settled.now waiting.now work.now ≡ faced (power_call trap count) rec.old settled.now waiting.now work.now }
{
    firmware::calls::trapcard_power(rec, settled, waiting, work, count)
}

#[unsafe(no_mangle)]
pub extern "C" fn trapcard_put(
    rec: &mut [u8],
    settled: &[u8],
    waiting: &[u8],
    work: &mut [u8],
    address: u32,
    block: &[u8],
) -> u32
    ensures { face_of result 0 rec.new settled.now waiting.now work.new ≡ faced (put_call trap address block.now) rec.old settled.now waiting.now work.old }
{
    firmware::calls::trapcard_put(rec, settled, waiting, work, address, block)
}

#[unsafe(no_mangle)]
pub extern "C" fn trapcard_commit(
    rec: &mut [u8],
    settled: &[u8],
    waiting: &[u8],
    work: &mut [u8],
) -> u32
    ensures { face_of result 0 rec.new settled.now waiting.now work.new ≡ faced (commit_call trap) rec.old settled.now waiting.now work.old }
{
    firmware::calls::trapcard_commit(rec, settled, waiting, work)
}

#[unsafe(no_mangle)]
pub extern "C" fn trapcard_abandon(
    rec: &mut [u8],
    settled: &[u8],
    waiting: &[u8],
    work: &[u8],
) -> u32
    ensures { face_of result 0 rec.new settled.now waiting.now work.now ≡ faced (abandon_call trap) rec.old settled.now waiting.now work.now }
{
    firmware::calls::trapcard_abandon(rec, settled, waiting, work)
}

#[unsafe(no_mangle)]
pub extern "C" fn trapcard_cut(
    rec: &mut [u8],
    settled: &mut [u8],
    waiting: &[u8],
    work: &[u8],
    marks: &[u8],
) -> u32
    ensures { face_of result 0 rec.new settled.new waiting.now work.now ≡ faced (cut_call trap marks.now) rec.old settled.old waiting.now work.now }
{
    firmware::calls::trapcard_cut(rec, settled, waiting, work, marks)
}

#[unsafe(no_mangle)]
pub extern "C" fn trapcard_sync(
    rec: &mut [u8],
    settled: &mut [u8],
    waiting: &mut [u8],
    work: &[u8],
    orders: &mut u32,
) -> u32
    ensures { face_of result orders.new rec.new settled.new waiting.new work.now ≡ faced (sync_call trap) rec.old settled.old waiting.old work.now }
{
    firmware::orders::trapcard_sync(rec, settled, waiting, work, orders)
}

#[unsafe(no_mangle)]
pub extern "C" fn trapcard_apply(
    rec: &mut [u8],
    settled: &mut [u8],
    waiting: &mut [u8],
    work: &[u8],
    orders: &mut u32,
) -> u32
    ensures { face_of result orders.new rec.new settled.new waiting.new work.now ≡ faced (apply_call trap) rec.old settled.old waiting.old work.now }
{
    firmware::orders::trapcard_apply(rec, settled, waiting, work, orders)
}

#[unsafe(no_mangle)]
pub extern "C" fn trapcard_recover(
    rec: &mut [u8],
    settled: &mut [u8],
    waiting: &mut [u8],
    work: &[u8],
    orders: &mut u32,
) -> u32
    ensures { face_of result orders.new rec.new settled.new waiting.new work.now ≡ faced (recover_call trap) rec.old settled.old waiting.old work.now }
{
    firmware::orders::trapcard_recover(rec, settled, waiting, work, orders)
}

#[unsafe(no_mangle)]
pub extern "C" fn trapcard_direct(
    rec: &mut [u8],
    settled: &mut [u8],
    waiting: &mut [u8],
    work: &[u8],
    address: u32,
    block: &[u8],
    orders: &mut u32,
) -> u32
    ensures { face_of result orders.new rec.new settled.new waiting.new work.now ≡ faced (direct_call trap address block.now) rec.old settled.old waiting.old work.now }
{
    firmware::orders::trapcard_direct(rec, settled, waiting, work, address, block, orders)
}

#[unsafe(no_mangle)]
pub extern "C" fn trapcard_get(
    rec: &[u8],
    settled: &[u8],
    waiting: &[u8],
    work: &[u8],
    address: u32,
    buffer: &mut u32,
    offset: &mut u64,
) -> u32
    ensures { got_of result buffer.new offset.new ≡ got trap address rec.now settled.now waiting.now work.now }
{
    firmware::reads::trapcard_get(rec, settled, waiting, work, address, buffer, offset)
}

#[unsafe(no_mangle)]
pub extern "C" fn trapcard_get_list(
    rec: &[u8],
    settled: &[u8],
    waiting: &[u8],
    work: &[u8],
    addresses: &[u8],
    blocks: &mut [u8],
    slots: &mut u32,
) -> u32
    ensures { ◌≡◌ {A = Listing} (record { number = result; slots = slots.new; blocks = blocks.new }) (listed trap addresses.now blocks.old rec.now settled.now waiting.now work.now) }
{
    firmware::reads::trapcard_get_list(rec, settled, waiting, work, addresses, blocks, slots)
}

#[unsafe(no_mangle)]
pub extern "C" fn trapcard_tally(settled: &[u8], sum: &mut u64) -> u32
    ensures { tallied result sum.new ≡ tally_of trap settled.now }
{
    firmware::reads::trapcard_tally(settled, sum)
}

#[unsafe(no_mangle)]
pub extern "C" fn trapcard_alike(a: &[u8], b: &[u8], yes: &mut u32) -> u32
    ensures { compared_of result yes.new ≡ compared trap a.now b.now }
{
    firmware::reads::trapcard_alike(a, b, yes)
}

#[unsafe(no_mangle)]
pub extern "C" fn trapcard_sync_cost(
    rec: &[u8],
    settled: &[u8],
    waiting: &[u8],
    work: &[u8],
    orders: &mut u32,
    applies: &mut u32,
    peak: &mut u32,
    reaches: &mut u32,
) -> u32
    ensures { ◌≡◌ {A = Asked} (record { number = result; orders = orders.new; applies = applies.new; peak = peak.new; reaches = reaches.new }) (asked (cost_of trap Save.sync) rec.now settled.now waiting.now work.now) }
{
    firmware::costs::trapcard_sync_cost(rec, settled, waiting, work, orders, applies, peak, reaches)
}

#[unsafe(no_mangle)]
pub extern "C" fn trapcard_apply_cost(
    rec: &[u8],
    settled: &[u8],
    waiting: &[u8],
    work: &[u8],
    orders: &mut u32,
    applies: &mut u32,
    peak: &mut u32,
    reaches: &mut u32,
) -> u32
    ensures { ◌≡◌ {A = Asked} (record { number = result; orders = orders.new; applies = applies.new; peak = peak.new; reaches = reaches.new }) (asked (cost_of trap Save.apply) rec.now settled.now waiting.now work.now) }
{
    firmware::costs::trapcard_apply_cost(
        rec, settled, waiting, work, orders, applies, peak, reaches,
    )
}

#[unsafe(no_mangle)]
pub extern "C" fn trapcard_recover_cost(
    rec: &[u8],
    settled: &[u8],
    waiting: &[u8],
    work: &[u8],
    orders: &mut u32,
    applies: &mut u32,
    peak: &mut u32,
    reaches: &mut u32,
) -> u32
    ensures { ◌≡◌ {A = Asked} (record { number = result; orders = orders.new; applies = applies.new; peak = peak.new; reaches = reaches.new }) (asked (cost_of trap Save.recover) rec.now settled.now waiting.now work.now) }
{
    firmware::costs::trapcard_recover_cost(
        rec, settled, waiting, work, orders, applies, peak, reaches,
    )
}
