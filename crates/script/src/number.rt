// Numbers and marks as digits.
ghost use Rattle.std.specs.Prelude.{◌≡◌, true, ◌-◌, ◌≤◌, length};
ghost use Rattle.script.specs.Numbers.{number_digits, zero_digit, all_digits, value_from, number_of, is_marks, AtMost};

use crate::DIGITS;

// What a digit counts more than the one behind it.
const BASE: u64 = 10;

// Whether every byte is a digit.
fn all_digits(s: &[u8]) -> bool
    ensures { result ≡ all_digits s.now }
{
    s.iter().all(|b| b.is_ascii_digit())
}

// The value of at most 10 digits.
fn value(s: &[u8]) -> u64
    requires { (length s.now ≤ number_digits) × (all_digits s.now ≡ true) }
    ensures { result ≡ value_from 0 s.now }
{
    let mut v = 0;
    for b in s {
        v = BASE * v + u64::from(b - b'0');
    }
    v
}

// A field of 1 to 10 digits as a number of at most `most`.
pub(crate) fn to_number(s: &[u8], most: u32) -> Option<u32>
    ensures { (result ≡ number_of most s.now) × AtMost most result }
{
    if s.is_empty() || DIGITS < s.len() || !all_digits(s) {
        return None;
    }
    u32::try_from(value(s)).ok().filter(|&v| v <= most)
}

// Whether a field is a run of at least one digit.
pub(crate) fn is_marks(s: &[u8]) -> bool
    ensures { result ≡ is_marks s.now }
{
    !s.is_empty() && all_digits(s)
}

// The value of a digit, 0 for a byte below all digits.
pub(crate) fn value_of(b: u8) -> u8
    ensures { result ≡ b - zero_digit }
{
    b.saturating_sub(b'0')
}
