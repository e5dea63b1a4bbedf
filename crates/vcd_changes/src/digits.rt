//! The digits of a value as numbers.
ghost use Rattle.std.specs.Prelude.{◌≡◌, ◌+◌, ◌-◌, ◌*◌, ◌^◌, ◌<◌, ◌≤◌, cond, length};
ghost use Rattle.vcd_changes.specs.Digits.{digits_of, extend, extension, is_known, last_digits, number_where};

/// The last 64 digits of a value, as numbers.
#[derive(Clone, Copy, PartialEq, Eq)]
pub(crate) struct Digits {
    /// Which digits are 1.
    pub value: u64,
    /// Which digits are 0 or 1.
    pub known: u64,
}

/// Returns whether a digit is `0` or `1`.
fn is_known(digit: u8) -> bool
    ensures { result ≡ is_known digit }
{
    digit == b'0' || digit == b'1'
}

/// Returns the last 64 digits, or all if there are fewer.
fn last_digits(digits: &[u8]) -> &[u8]
    ensures last { result.now ≡ last_digits 64 digits.now }
    ensures most { length result.now ≤ 64 }
{
    &digits[digits.len().saturating_sub(64)..]
}

/// Returns whether a value with these digits is extended on the left by `0` or `1`, and not by x or
/// z; true if there are no digits.
fn extends_known(digits: &[u8]) -> bool
    ensures { result ≡ is_known (extension digits.now) }
{
    match digits.first() {
        Some(first) => is_known(*first),
        None => true,
    }
}

/// Returns a mask for these digits, at most 64, extended on the left to 64: bit k, from the last
/// digit on, is 1 if this digit was added and is `0` or `1`. The bits of the given digits are 0.
fn known_before(digits: &[u8]) -> u64
    requires { length digits.now ≤ 64 }
    ensures { result ≡ cond (is_known (extension digits.now)) (2 ^ 64 - 2 ^ length digits.now) 0 }
{
    if digits.len() < 64 && extends_known(digits) {
        u64::MAX - ((1u64 << digits.len()) - 1)
    } else {
        0
    }
}

/// Returns twice the number, which is below 2^63, and 1 more if `digit` is true: it appends a
/// binary digit.
fn with_digit(number: u64, digit: bool) -> u64
    requires { number < 2 ^ 63 }
    ensures { result ≡ 2 * number + cond digit 1 0 }
{
    if digit { 2 * number + 1 } else { 2 * number }
}

/// Returns a mask for these digits, at most 64, extended on the left to 64: bit k, from the last
/// digit on, is 1 if this digit is `0` or `1`. `known` is the mask for the given digits.
fn known_in_all(digits: &[u8], known: u64) -> u64
    requires most { length digits.now ≤ 64 }
    requires known { known ≡ number_where is_known digits.now }
    ensures { result ≡ number_where is_known (extend digits.now 64) }
{
    known_before(digits) + known
}

/// Returns which of the last 64 digits of a value are `1`, and which are `0` or `1`, as two masks.
/// A value with fewer digits is extended on the left.
pub(crate) fn digits_of(text: &[u8]) -> Digits
    ensures { result ≡ digits_of text.now }
{
    let last = last_digits(text);
    let mut value: u64 = 0;
    let mut known: u64 = 0;
    for digit in last {
        let ones = with_digit(value, *digit == b'1');
        let all = with_digit(known, is_known(*digit));
        value = ones;
        known = all;
    }
    let known = known_in_all(last, known);
    Digits { value, known }
}
