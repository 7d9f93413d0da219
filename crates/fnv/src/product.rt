// Products by the low part of FNV's factor, from a table of its multiples, a half byte at a time. The table is lent on, since a
// constant array is copied wherever it is read.
ghost use Rattle.std.specs.Prelude.{◌≡◌, ◌*◌, ◌%◌, ◌^◌, ◌<◌};
ghost use Rattle.fnv.specs.Fnv.{low, Multiples};

// The multiples of the low part: entry i is 435 * i.
const MULTIPLES: [u16; 16] = [
    0, 435, 870, 1305, 1740, 2175, 2610, 3045, 3480, 3915, 4350, 4785, 5220, 5655, 6090, 6525,
];

// A half byte times the low part.
fn multiple(table: &[u16; 16], digit: u32) -> u32
    requires { Multiples table.now × (digit < 16) }
    ensures { result ≡ digit * low }
{
    table[digit as usize] as u32
}

// 16 bits times the low part: the multiple of each half byte at its place. No lookup waits for another.
fn quarter(table: &[u16; 16], x: u32) -> u32
    requires { Multiples table.now × (x < 2 ^ 16) }
    ensures { result ≡ x * low }
{
    let p0 = multiple(table, x % 16);
    let p1 = multiple(table, x / 16 % 16) << 4;
    let p2 = multiple(table, x / 256 % 16) << 8;
    let p3 = multiple(table, x / 4096) << 12;
    (p0 + p1) + (p2 + p3)
}

// 32 bits times the low part.
fn half(table: &[u16; 16], x: u64) -> u64
    requires { Multiples table.now × (x < 2 ^ 32) }
    ensures { result ≡ x * low }
{
    let q0 = quarter(table, (x % 65536) as u32) as u64;
    let q1 = quarter(table, (x / 65536) as u32) as u64;
    q0 + (q1 << 16)
}

// a times the low part, modulo 2^64, from halves of 32 bits: what the lower one has past bit 31 is carried into the upper one.
pub(crate) fn mul_wrap(a: u64) -> u64
    ensures { result ≡ (a * low) % 2 ^ 64 }
{
    let table = MULTIPLES;
    let h0 = half(&table, a % 4294967296);
    let h1 = half(&table, a / 4294967296);
    h0.wrapping_add(h1 << 32)
}
