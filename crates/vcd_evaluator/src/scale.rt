// Time scales, each a number and a unit.
use crate::fault::{Fault, Wrong};
use crate::reader::Reader;
use crate::text::Text;
use crate::token::Token;

// A time scale, by its exponent: the power of ten in femtoseconds, 0 to 17.
#[derive(Clone, Copy)]
pub(crate) struct Scale {
    pub(crate) exponent: u8,
}

// The scale of a dump that declares none, if several are merged.
pub(crate) const SECOND: Scale = Scale { exponent: 15 };

// The units and their exponents.
static UNITS: [(&[u8], u8); 6] = [
    (b"s", 15),
    (b"ms", 12),
    (b"us", 9),
    (b"ns", 6),
    (b"ps", 3),
    (b"fs", 0),
];

// Returns the exponent of a unit.
pub(crate) fn unit_of(text: &[u8]) -> Option<u8> {
    for (unit, exponent) in &UNITS {
        if text == *unit {
            return Some(*exponent);
        }
    }
    None
}

// Returns the exponent of a scale's number.
fn factor_of(text: &[u8]) -> Option<u8> {
    if text == b"1".as_slice() {
        Some(0)
    } else if text == b"10".as_slice() {
        Some(1)
    } else if text == b"100".as_slice() {
        Some(2)
    } else {
        None
    }
}

// Returns the digits that a text begins with, and what follows.
pub(crate) fn split_digits(text: &[u8]) -> (&[u8], &[u8]) {
    match text.iter().position(|byte| !byte.is_ascii_digit()) {
        Some(place) => text.split_at(place),
        None => text.split_at(text.len()),
    }
}

fn fit(token: Token<'_>, exponent: Option<u8>) -> Result<u8, Fault> {
    match exponent {
        Some(exponent) => Ok(exponent),
        None => Err(token.fault(Wrong::BadTimescale)),
    }
}

// Reads the exponent of the unit, from the token of the number or from the next one.
fn read_unit(token: Token<'_>, unit: &[u8], reader: &mut Reader<'_>) -> Result<u8, Fault> {
    if unit.is_empty() {
        let next = reader.need()?;
        fit(next, unit_of(next.text))
    } else {
        fit(token, unit_of(unit))
    }
}

// Reads what follows `$timescale`.
pub(crate) fn read_scale(reader: &mut Reader<'_>) -> Result<Scale, Fault> {
    let token = reader.need()?;
    let (digits, unit) = split_digits(token.text);
    let factor = fit(token, factor_of(digits))?;
    let unit = read_unit(token, unit, reader)?;
    reader.need_end(Wrong::BadTimescale)?;
    Ok(Scale {
        exponent: unit.saturating_add(factor),
    })
}

// Returns the unit of a scale.
fn unit_text(scale: Scale) -> &'static [u8] {
    match scale.exponent / 3 {
        0 => b"fs",
        1 => b"ps",
        2 => b"ns",
        3 => b"us",
        4 => b"ms",
        _ => b"s",
    }
}

// Returns the number of a scale.
fn factor_text(scale: Scale) -> &'static [u8] {
    match scale.exponent % 3 {
        0 => b"1",
        1 => b"10",
        _ => b"100",
    }
}

// Writes the three lines of a time scale.
pub(crate) fn put_scale(text: &mut Text, scale: Scale) {
    text.put(b"$timescale\n\t");
    text.put(factor_text(scale));
    text.put(unit_text(scale));
    text.put(b"\n$end\n");
}
