// A list of wanted addresses, and the walk of the descriptor that looks for them. The wanted addresses are chained by their low bits, so
// that an address read is compared with those of its bucket alone.
ghost use Rattle.std.specs.Prelude.{◌≡◌, List, [], ◌∷◌, ◌++◌, ℕ, ◌≤◌, ◌<◌, length};
ghost use Rattle.card.specs.Card.{blocks_in};
ghost use Rattle.journal.specs.Geometry.{trap};
ghost use Rattle.journal.specs.Layout.{first_data};
ghost use Rattle.journal.specs.Wanted.{wanted_count, wanted_at, walked};
ghost use Rattle.journal.specs.CodeWanted.{most_chained, Chained, Met};

use crate::log::slot_address;
use cells::ADDRESS;
use cells::number::read_u32;

// The buckets that they fall into.
pub const BUCKETS: usize = 128;

// How many there are.
pub fn count(list: &[u8]) -> usize
    ensures { result ≡ wanted_count list.now }
{
    list.len() / ADDRESS
}

// The i-th.
pub fn wanted(list: &[u8], i: usize) -> u32
    requires { i < wanted_count list.now }
    ensures { result ≡ wanted_at list.now i }
{
    read_u32(list, ADDRESS * i)
}

// Stays numbers of one byte, 0 for none, in the arrays: fixed memory, and `Chained` states them so.
// A list of wanted addresses, of at most PLACES, chained: the last place in each bucket, and before each place the one before it in its
// bucket, as numbers above 0.
#[derive(Drop)]
pub struct Chains<'a, const PLACES: usize> {
    pub list: &'a [u8],
    last: [u8; BUCKETS],
    before: [u8; PLACES],
    ghost few: { wanted_count list.now ≤ PLACES },
    ghost chained: { Chained list.now last before (wanted_count list.now) },
}

impl<'a, const PLACES: usize> Chains<'a, PLACES> {
    // Chains a list, of at most 255: a place is a number of one byte.
    pub fn of(list: &'a [u8]) -> Chains<'a, PLACES>
        requires few { wanted_count list.now ≤ PLACES }
        requires one_byte { wanted_count list.now ≤ most_chained }
        ensures { result.list.now ≡ list.now }
    {
        let mut last = [0; BUCKETS];
        let mut before = [0; PLACES];
        for i in 0..count(list) {
            let bucket = wanted(list, i) as usize % BUCKETS;
            before[i] = last[bucket];
            last[bucket] = (i + 1) as u8;
        }
        Chains { list, last, before }
    }

    // The k-th address read is a: at each place of the list that has it, k is the last met.
    pub fn mark(&self, k: u32, a: u32, met: &mut [Option<u32>])
        requires { wanted_count self.now.list.now ≤ length met.old }
        ensures { (l : List ℕ) → length l ≡ k → Met self.now.list.now l met.old → Met self.now.list.now (l ++ (a ∷ [])) met.new }
    {
        let mut i = self.last[a as usize % BUCKETS] as usize;
        // Stays a `while`: each place leads to the one before it in its bucket, so no index is counted.
        while 0 < i {
            i -= 1;
            if a == wanted(self.list, i) {
                met[i] = Some(k);
            }
            i = self.before[i] as usize;
        }
    }

    // Walks the descriptor once, its first n slots, ascending: the last slot of each wanted address. Returns the slots read.
    pub fn walk(&self, settled: &[u8], n: u32, met: &mut [Option<u32>]) -> u32
        requires trap_bound { first_data trap < blocks_in settled.now }
        requires n_le_slots { n ≤ trap.slots }
        requires met_in_bounds { wanted_count self.now.list.now ≤ length met.old }
        requires met { Met self.now.list.now [] met.old }
        ensures met_2 { Met self.now.list.now (walked settled.now n) met.new }
        ensures value { result ≡ length (walked settled.now n) }
    {
        for k in 0..n {
            self.mark(k, slot_address(settled, k), met);
        }
        n
    }
}
