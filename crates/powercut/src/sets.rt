// The sets of kept writes that a cut is tried with, by number. Each write is kept whole or lost whole. Write i is the i-th waiting one,
// oldest first, from 0.
//
// Up to 6 waiting writes: all sets. Set j keeps write i if bit i of j is 1, so the first keeps none and the last keeps all.
// More than 6, n of them: 0 keeps none; 1 to n keep one alone, oldest first; n + 1 to 2n lose one alone; 2n + 1 keeps all.
ghost use Rattle.std.specs.Prelude.{◌≡◌, ◌+◌, ◌*◌, ◌≤◌, ◌<◌};
ghost use Rattle.journal.specs.Geometry.{trap_places};
ghost use Rattle.powercut.specs.Sets as Sets;

// Up to how many waiting writes all sets are tried.
const FEW: u32 = 6;

// Stays plain numbers with their bounds: a struct of n, a set and i would be built for each mark.
// How many sets there are for n waiting writes.
pub(crate) fn count(n: u32) -> u32
    requires { n ≤ trap_places }
    ensures { (result ≡ Sets.set_count n) × (result ≤ 2 * trap_places + 2) }
{
    if n <= FEW {
        return 1 << n;
    }
    2 * n + 2
}

// Whether a set keeps write i of n.
fn keeps(n: u32, set: u32, i: u32) -> bool
    requires { (n ≤ trap_places) × (i < n) }
    ensures { result ≡ Sets.keeps n set i }
{
    if n <= FEW {
        return (set >> i) % 2 == 1;
    }
    if set <= n {
        return set == i + 1;
    }
    set != n + 1 + i
}

// The mark of each byte of write i.
pub(crate) fn mark(n: u32, set: u32, i: u32) -> u8
    requires { (n ≤ trap_places) × (i < n) }
    ensures { result ≡ Sets.mark n set i }
{
    u8::from(keeps(n, set, i))
}
