// Little-endian numbers of 4 and 8 bytes at an offset of a slice.
// Stays twice, for u32 and u64: `from_le_bytes` and `to_le_bytes` are of each type and of no trait, so one generic function would need a
// trait of our own with two impls.
ghost use Rattle.std.specs.Prelude.{◌≡◌, ◌+◌, ◌≤◌, length, take, drop};
ghost use Rattle.std.proofs.lemmas.List.Edits.{sets};
ghost use Rattle.cells.specs.Little.{le, num};

// The 4-byte number at an offset.
pub fn read_u32(s: &[u8], at: usize) -> u32
    requires { at + 4 ≤ length s.now }
    ensures { result ≡ num (take 4 (drop at s.now)) }
{
    u32::from_le_bytes([s[at], s[at + 1], s[at + 2], s[at + 3]])
}

// The 8-byte number at an offset.
pub fn read_u64(s: &[u8], at: usize) -> u64
    requires { at + 8 ≤ length s.now }
    ensures { result ≡ num (take 8 (drop at s.now)) }
{
    u64::from_le_bytes([
        s[at],
        s[at + 1],
        s[at + 2],
        s[at + 3],
        s[at + 4],
        s[at + 5],
        s[at + 6],
        s[at + 7],
    ])
}

// Stores a 4-byte number at an offset.
pub fn write_u32(s: &mut [u8], at: usize, v: u32)
    requires { at + 4 ≤ length s.old }
    ensures { s.new ≡ sets s.old at (le 4 v) }
{
    s[at..at + 4].copy_from_slice(&v.to_le_bytes());
}

// Stores an 8-byte number at an offset.
pub fn write_u64(s: &mut [u8], at: usize, v: u64)
    requires { at + 8 ≤ length s.old }
    ensures { s.new ≡ sets s.old at (le 8 v) }
{
    s[at..at + 8].copy_from_slice(&v.to_le_bytes());
}
