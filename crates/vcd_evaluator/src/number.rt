// Decimal numbers.

// Returns the value of one or more ASCII digits, if it is below 2^64.
pub(crate) fn number_of(text: &[u8]) -> Option<u64> {
    if text.is_empty() {
        return None;
    }
    let mut number: u64 = 0;
    for byte in text {
        let digit = byte.checked_sub(b'0')?;
        if digit > 9 {
            return None;
        }
        number = number.checked_mul(10)?.checked_add(u64::from(digit))?;
    }
    Some(number)
}

// Returns 10 to this power, at most 2^64 - 1.
pub(crate) fn power_of_ten(exponent: u8) -> u64 {
    let mut power: u64 = 1;
    for _ in 0..exponent {
        power = power.saturating_mul(10);
    }
    power
}
