// Tests of whole tokens of a header.
ghost use Rattle.std.specs.Prelude.{◌≡◌, codes, bytes_eq, option_map, pos, ◌≤ℤ◌, ◌+ℤ◌};
ghost use Rattle.vcd_head.specs.Names.{begins_change as changes, exponent_of as exponent_is, is_code_byte, is_command as commands, list_all, power_in, size_in, unit_in};

/// Returns whether the type of a variable is `event`.
#[inline(always)]
pub(crate) fn is_event_type(type_text: &[u8]) -> bool
    ensures { result ≡ bytes_eq (codes "event") type_text.now }
{
    matches!(type_text, [b'e', b'v', b'e', b'n', b't'])
}

/// Returns whether the token could begin a timestamp or a value change: by its first byte.
pub(crate) fn begins_change(token: &[u8]) -> bool
    ensures { result ≡ changes token.now }
{
    token
        .first()
        .is_some_and(|first| b"#01xXzZbBrR".contains(first))
}

/// Returns whether the token has the form of a command: a `$` and one or more bytes after it.
pub(crate) fn is_command(token: &[u8]) -> bool
    ensures { result ≡ commands token.now }
{
    token.len() > 1 && token[0] == b'$'
}

/// Returns the power of ten of the number in a time scale: 0 for `1`, 1 for `10`, 2 for `100`.
/// `None` for any other token.
pub(crate) fn power_of(number: &[u8]) -> Option<i8>
    ensures { result ≡ power_in number.now }
{
    match number {
        [b'1'] => Some(0),
        [b'1', b'0'] => Some(1),
        [b'1', b'0', b'0'] => Some(2),
        _ => None,
    }
}

/// Returns the power of ten, in seconds, of the unit in a time scale: -9 for `ns`. `None` if no
/// unit has this name.
pub(crate) fn unit_of(unit: &[u8]) -> Option<i8>
    ensures { result ≡ unit_in unit.now }
{
    match unit {
        [b's'] => Some(0),
        [b'm', b's'] => Some(-3),
        [b'u', b's'] => Some(-6),
        [b'n', b's'] => Some(-9),
        [b'p', b's'] => Some(-12),
        [b'f', b's'] => Some(-15),
        _ => None,
    }
}

/// Returns the power of ten, in seconds, of a time scale in one token: -8 for `10ns`. `None` if the
/// token is no time scale.
pub(crate) fn exponent_of(scale: &[u8]) -> Option<i8>
    ensures { result ≡ exponent_is scale.now }
{
    if let Some(unit) = scale.strip_prefix(b"100") {
        return raised(unit, 2);
    }
    if let Some(unit) = scale.strip_prefix(b"10") {
        return raised(unit, 1);
    }
    if let Some(unit) = scale.strip_prefix(b"1") {
        return raised(unit, 0);
    }
    None
}

/// Returns the power of ten, in seconds, of a time scale: that of its unit plus `power`, the one of
/// its number (0 to 2). `None` if no unit has this name.
fn raised(unit: &[u8], power: i8) -> Option<i8>
    requires low { pos 0 ≤ℤ power }
    requires high { power ≤ℤ pos 2 }
    ensures { result ≡ option_map (λ e. e +ℤ power) (unit_in unit.now) }
{
    Some(unit_of(unit)? + power)
}

/// Returns the size of a variable that the digits of this token spell. `None` if the token has a
/// byte that is no digit, or no byte, or if the number is not from 1 to 16,777,215.
#[inline(always)]
pub(crate) fn size_of(token: &[u8]) -> Option<usize>
    ensures { result ≡ size_in token.now }
{
    let mut size = 0;
    for digit in token {
        if !digit.is_ascii_digit() {
            return None;
        }
        size = (size * 10 + (*digit - b'0') as usize).min(TOO_WIDE);
    }
    if size == 0 || size == TOO_WIDE {
        return None;
    }
    Some(size)
}

// One more than the greatest size.
const TOO_WIDE: usize = 16_777_216;

/// Returns whether all bytes of the token may be in an identifier code: 33 to 126 (clause 18,
/// identifier code).
#[inline(always)]
pub(crate) fn is_code(token: &[u8]) -> bool
    ensures { result ≡ list_all is_code_byte token.now }
{
    token.iter().all(|byte| 33 <= *byte && *byte <= 126)
}
