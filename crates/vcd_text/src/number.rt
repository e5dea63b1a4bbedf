//! Numbers as decimal digits spell them.
ghost use Rattle.std.specs.Prelude.{◌≡◌, ◌≤◌, ◌-◌, length, slice_range};
ghost use Rattle.vcd_text.specs.Names.{spelled, spelled_below};

use std::simd::prelude::*;

// What each of eight digits is worth.
const WORTH: [u32; 8] = [10_000_000, 1_000_000, 100_000, 10_000, 1_000, 100, 10, 1];

// Eight bytes that clear a lane, and then eight that keep one.
const KEPT: [u8; 16] = [
    0, 0, 0, 0, 0, 0, 0, 0, 255, 255, 255, 255, 255, 255, 255, 255,
];

/// Returns the number that the `n` decimal digits before offset `to` spell, by a look at the eight
/// bytes before `to`, which have to be there; `n` is at most 8. `None` if one of the `n` bytes is
/// no digit.
#[inline(always)]
fn few_digits(bytes: &[u8], to: usize, n: usize) -> Option<u64>
    requires within { (8 ≤ to) × (to ≤ length bytes.now) }
    requires few { n ≤ 8 }
    ensures { result ≡ spelled (slice_range bytes.now (to - n) to) }
{
    let all = u8x8::from_slice(&bytes[to - 8..]) - u8x8::splat(b'0');
    let digits = all & u8x8::from_slice(&KEPT[n..]);
    if digits.simd_gt(u8x8::splat(9)).to_bitmask() != 0 {
        return None;
    }
    let worth = digits.cast::<u32>().strict_mul(u32x8::from_array(WORTH));
    Some(u64::from(worth.strict_reduce_sum()))
}

/// Returns the number that the decimal digits from offset `from` to `to` (exclusive) spell. `None`
/// if there is no byte, if one is not a digit, or if the number is 2^64 or more.
// At most 16 digits are read in one or two steps of eight bytes. Digit by digit, the times of a
// dump of Icarus Verilog take 28 of 117 instructions for each item of its `check`. For more than
// eight digits no step begins before the first digit, because a turn of a merge begins at its time.
#[inline(always)]
pub fn decimal_at(bytes: &[u8], from: usize, to: usize) -> Option<u64>
    requires { (from ≤ to) × (to ≤ length bytes.now) }
    ensures { result ≡ spelled_below (slice_range bytes.now from to) }
{
    let n = to - from;
    if n == 0 || n > 16 || to < 8 {
        return decimal_of(&bytes[from..to]);
    }
    if n <= 8 {
        return few_digits(bytes, to, n);
    }
    let high = few_digits(bytes, from + 8, 8)?;
    let low = few_digits(bytes, to, n - 8)?;
    // Ten times what the first of the last digits is worth.
    let power = 10 * u64::from(WORTH[16 - n]);
    Some(high * power + low)
}

/// Returns the number that decimal digits spell. `None` if there is no digit, if a byte is not a
/// digit, or if the number is 2^64 or more. Leading zeros are accepted, a sign is not.
#[inline(never)]
pub fn decimal_of(digits: &[u8]) -> Option<u64>
    ensures { result ≡ spelled_below digits.now }
{
    if digits.is_empty() {
        return None;
    }
    let mut number: u64 = 0;
    for digit in digits {
        if !digit.is_ascii_digit() {
            return None;
        }
        number = number
            .checked_mul(10)?
            .checked_add(u64::from(*digit - b'0'))?;
    }
    Some(number)
}
