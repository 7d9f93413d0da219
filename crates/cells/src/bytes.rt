// Whole slices: the copier, the fill and the comparison.
// Stays: each is one method of the library, and a public function whose promise stands; `copy` is the copier that the card lends to.
ghost use Rattle.std.specs.Prelude.{◌≡◌, length, replicate};
ghost use Rattle.cells.specs.Same as Same;

// Copies src over dst, which is as long.
pub fn copy(dst: &mut [u8], src: &[u8])
    requires { length dst.old ≡ length src.now }
    ensures { dst.new ≡ src.now }
{
    dst.copy_from_slice(src);
}

// Makes every byte of s this one.
pub fn fill(s: &mut [u8], byte: u8)
    ensures { s.new ≡ replicate (length s.old) byte }
{
    s.fill(byte);
}

// Makes every byte of s zero.
pub fn zero(s: &mut [u8])
    ensures { s.new ≡ replicate (length s.old) 0 }
{
    fill(s, 0);
}

// Whether a and b are the same bytes.
pub fn same(a: &[u8], b: &[u8]) -> bool
    ensures { result ≡ Same.same a.now b.now }
{
    a == b
}
