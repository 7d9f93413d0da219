// What a cut of n waiting writes is tried with, by number: the sets of kept writes, then the tears of the first k.
ghost use Rattle.std.specs.Prelude.{◌≡◌, ◌*◌, ◌≤◌, ◌<◌, length, take};
ghost use Rattle.cells.specs.Entry.{block_bytes};
ghost use Rattle.journal.specs.Geometry.{trap_places};
ghost use Rattle.powercut.specs.Tries.{try_count, try_mark, try_marks};

use crate::{sets, tears};
use cells::BLOCK;

// How many marks a write has.
const EACH: u32 = BLOCK as u32;

// How many tries there are.
pub(crate) fn count(n: u32, k: u32) -> u32
    requires { (n ≤ trap_places) × (k ≤ trap_places) }
    ensures { result ≡ try_count n k }
{
    sets::count(n) + tears::count(k)
}

// The mark of byte j of write i.
fn mark(n: u32, k: u32, attempt: u32, i: u32, j: u32) -> u8
    requires { (n ≤ trap_places) × (i < n) }
    ensures { result ≡ try_mark n k attempt i j }
{
    let sets = sets::count(n);
    if attempt < sets {
        return sets::mark(n, attempt, i);
    }
    tears::mark(k, attempt - sets, i, j)
}

// The marks of a try, in front of the buffer.
pub(crate) fn marks(n: u32, k: u32, attempt: u32, to: &mut [u8])
    requires { (n ≤ trap_places) × (block_bytes * n ≤ length to.old) }
    ensures { take (block_bytes * n) to.new ≡ try_marks n k attempt }
{
    for x in 0..EACH * n {
        to[x as usize] = mark(n, k, attempt, x / EACH, x % EACH);
    }
}
