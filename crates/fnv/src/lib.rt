// FNV-1a 64, with a product of its own that wraps.
#![tactic(auto)]

mod product;

ghost use Rattle.std.specs.Prelude.{◌≡◌, ◌*◌, ◌%◌, ◌^◌};
ghost use Rattle.fnv.specs.Fnv.{prime, step, sum_from};

// The sum of no bytes.
pub const START: u64 = 14695981039346656037;

// a times the factor, which is 2^40 and the low part, modulo 2^64. The high part is a shift.
fn mul_prime(a: u64) -> u64
    ensures { result ≡ (a * prime) % 2 ^ 64 }
{
    product::mul_wrap(a).wrapping_add(a << 40)
}

// One more byte: xor it in, then multiply.
pub fn step(h: u64, b: u8) -> u64
    ensures { result ≡ step h b }
{
    mul_prime(h ^ (b as u64))
}

// The sum of s from h on: h is START, or the sum of the bytes before s.
pub fn sum_from(h: u64, s: &[u8]) -> u64
    ensures { result ≡ sum_from h s.now }
{
    s.iter().fold(h, |sum, &b| step(sum, b))
}
