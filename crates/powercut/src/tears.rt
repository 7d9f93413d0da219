// The tears that a cut is tried with, by number. Write i is the i-th waiting one, oldest first, from 0.
//
// The first k of the waiting writes can be torn, all but a header. Tear t tears write t / 3 alone, and all k if t / 3 is k. Of a torn
// write the first half is kept if t % 3 is 0, the second half if it is 1, every other byte if it is 2. What is not torn is kept, a header
// too.
ghost use Rattle.std.specs.Prelude.{◌≡◌, ◌+◌, ◌*◌, ◌≤◌, length};
ghost use Rattle.cells.specs.Entry.{entry_bytes};
ghost use Rattle.journal.specs.Geometry.{trap_places};
ghost use Rattle.powercut.specs.Tears as Tears;

use card::queue::address;
use cells::BLOCK;
use journal::HEADER_AT;

// How many ways there are to tear a write, and the bytes of half of it.
const WAYS: u32 = 3;

const HALF: u32 = BLOCK as u32 / 2;

// How many of the n writes that wait can be torn: all but a header, which waits as the last.
pub(crate) fn tearable(waiting: &[u8], n: u32) -> u32
    requires { entry_bytes * n ≤ length waiting.now }
    ensures { (result ≡ Tears.tearable waiting.now n) × (result ≤ n) }
{
    if n == 0 {
        return 0;
    }
    let last = n - 1;
    if address(waiting, last as usize) == HEADER_AT {
        return last;
    }
    n
}

// How many tears there are where k writes can be torn.
pub(crate) fn count(k: u32) -> u32
    requires { k ≤ trap_places }
    ensures { (result ≡ Tears.tear_count k) × (result ≤ Tears.ways * (trap_places + 1)) }
{
    if k == 0 {
        return 0;
    }
    WAYS * (k + 1)
}

// Whether a tear tears write i.
fn tears(k: u32, tear: u32, i: u32) -> bool
    ensures { result ≡ Tears.tears k tear i }
{
    if tear / WAYS == k {
        return i < k;
    }
    i == tear / WAYS
}

// Whether byte j of a write is kept that is torn in this way.
// Stays a number: the way is what is left of the tear's number, and would be matched twice as an enum.
fn keeps_byte(way: u32, j: u32) -> bool
    ensures { result ≡ Tears.keeps_byte way j }
{
    if way == 0 {
        return j < HALF;
    }
    if way == 1 {
        return HALF <= j;
    }
    j % 2 == 0
}

// The mark of byte j of write i.
pub(crate) fn mark(k: u32, tear: u32, i: u32, j: u32) -> u8
    ensures { result ≡ Tears.torn_mark k tear i j }
{
    u8::from(!tears(k, tear, i) || keeps_byte(tear % WAYS, j))
}
