// The values of codes.
use crate::header::Code;
use crate::item::{Change, Item};
use crate::text::Text;

// A value as it is written in a dump: digits, or a real text.
#[derive(Clone, Copy)]
pub(crate) enum Value<'t> {
    Digits(&'t [u8]),
    Real(&'t [u8]),
}

// Returns the digit that extends digits to the left: 0 if the first is 0 or 1, otherwise the first
// itself.
fn extension(first: u8) -> u8 {
    match first {
        b'x' | b'X' => b'x',
        b'z' | b'Z' => b'z',
        _ => b'0',
    }
}

// Returns the digit at an index, from the left, of the value of this size that digits extend to, in
// lower case.
fn digit_at(digits: &[u8], size: usize, place: usize) -> u8 {
    let missing = size.saturating_sub(digits.len());
    let inside = place.checked_sub(missing);
    match inside.and_then(|inside| digits.get(inside)) {
        Some(digit) => digit.to_ascii_lowercase(),
        None => extension(digits.first().copied().unwrap_or(b'0')),
    }
}

// Returns whether the digits of a value from an index on extend to all of it.
fn is_extended_from(digits: &[u8], size: usize, place: usize) -> bool {
    let fill = extension(digit_at(digits, size, place));
    (0..place).all(|earlier| digit_at(digits, size, earlier) == fill)
}

// Returns the index at which the shortest digits that extend to a value begin: the last such index.
fn shortest_from(digits: &[u8], size: usize) -> usize {
    for place in (0..size).rev() {
        if is_extended_from(digits, size, place) {
            return place;
        }
    }
    0
}

// Writes the digits of a value from an index on.
pub(crate) fn put_digits(text: &mut Text, digits: &[u8], size: usize, from: usize) {
    for place in from..size {
        text.put_byte(digit_at(digits, size, place));
    }
}

// Writes the shortest digits of a value.
pub(crate) fn put_shortest(text: &mut Text, digits: &[u8], size: usize) {
    put_digits(text, digits, size, shortest_from(digits, size));
}

// Returns whether both are the same value of a code of this size.
pub(crate) fn are_same(one: Value<'_>, other: Value<'_>, size: usize) -> bool {
    match (one, other) {
        (Value::Real(one), Value::Real(other)) => one == other,
        (Value::Digits(one), Value::Digits(other)) => {
            (0..size).all(|place| digit_at(one, size, place) == digit_at(other, size, place))
        }
        _ => false,
    }
}

// Returns the last change of a code whose time is at most this.
pub(crate) fn change_at<'t>(items: &[Item<'t>], code: &Code<'_>, time: u64) -> Option<Change<'t>> {
    for item in items.iter().rev() {
        if let Some(change) = item.change_of(code)
            && item.time <= time
        {
            return Some(change);
        }
    }
    None
}

// Returns the last change of a code whose time is below this.
pub(crate) fn change_before<'t>(
    items: &[Item<'t>],
    code: &Code<'_>,
    time: u64,
) -> Option<Change<'t>> {
    change_at(items, code, time.checked_sub(1)?)
}
