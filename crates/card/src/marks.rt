// The marks of a cut, 512 for each waiting write: whether they fit the writes that wait, and the copier that takes them.
ghost use Rattle.std.specs.Prelude.{◌≡◌, cond, not, ◌||◌, eqb, ◌+◌, ◌*◌, ◌≤◌, length, replicate};
ghost use Rattle.cells.specs.Same as Same;
ghost use Rattle.cells.specs.Upto.{up_to};
ghost use Rattle.cells.specs.Entry.{block_bytes, entry_bytes, entry_at};
ghost use Rattle.card.specs.Card.{torn};
ghost use Rattle.card.specs.Marks.{over_one, marks_fit, whole_at, whole_block, headers_whole};

use cells::{BLOCK, entry};

// The block that the card settles whole.
const WHOLE: u32 = 0;

// 512 for each waiting write, none over 1, and those of a write to block 0 alike.
pub fn fit(marks: &[u8], waiting: &[u8], count: u32) -> bool
    requires { entry_bytes * count ≤ length waiting.now }
    ensures { result ≡ marks_fit marks.now (up_to (entry_at waiting.now) count) }
{
    let n = count as usize;
    marks.len() == BLOCK * n && !over_one(marks) && headers_whole(marks, waiting, n)
}

// Whether a mark is over 1.
fn over_one(marks: &[u8]) -> bool
    ensures { result ≡ over_one marks.now }
{
    marks.iter().any(|&mark| 1 < mark)
}

// Whether the marks of each write to block 0 are all 0 or all 1.
fn headers_whole(marks: &[u8], waiting: &[u8], n: usize) -> bool
    requires { (entry_bytes * n ≤ length waiting.now) × (block_bytes * n ≡ length marks.now) }
    ensures { result ≡ headers_whole marks.now 0 (up_to (entry_at waiting.now) n) }
{
    (0..n).all(|i| accepts(marks, waiting, i))
}

// Whether the i-th write goes to another block, or its marks are all 1 or all 0.
fn accepts(marks: &[u8], waiting: &[u8], i: usize) -> bool
    requires { (entry_bytes * i + entry_bytes ≤ length waiting.now) × (block_bytes * i + block_bytes ≤ length marks.now) }
    ensures { result ≡ not (eqb (entry_at waiting.now i).address whole_block) || whole_at marks.now i }
{
    entry::address(waiting, i) != WHOLE || whole(marks, i)
}

// Whether the marks of the i-th write are all 1 or all 0.
fn whole(marks: &[u8], i: usize) -> bool
    requires { block_bytes * i + block_bytes ≤ length marks.now }
    ensures { result ≡ whole_at marks.now i }
{
    let at = BLOCK * i;
    let part = &marks[at..at + BLOCK];
    filled(part, 1) || filled(part, 0)
}

// Whether every mark of a part is this one.
fn filled(marks: &[u8], mark: u8) -> bool
    ensures { result ≡ Same.same marks.now (replicate (length marks.now) mark) }
{
    marks.iter().all(|&each| each == mark)
}

// The byte that a mark leaves.
fn left(mark: u8, new: u8, old: u8) -> u8
    ensures { result ≡ cond (eqb mark 1) new old }
{
    if mark == 1 { new } else { old }
}

// Copies the bytes of src whose mark is 1 over dst; all three are as long.
pub fn copy_kept(dst: &mut [u8], src: &[u8], marks: &[u8])
    requires { (length dst.old ≡ length src.now) × (length dst.old ≡ length marks.now) }
    ensures { dst.new ≡ torn marks.now src.now dst.old }
{
    // Stays an index: tried, and a `zip` of `iter_mut` with slices of other lifetimes is not covered by the borrow checker.
    for (i, to) in dst.iter_mut().enumerate() {
        *to = left(marks[i], src[i], *to);
    }
}
