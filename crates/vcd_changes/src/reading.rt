//! Where the next call continues to read changes, and what the last call found.
ghost use Rattle.std.specs.Prelude.{◌≡◌};
ghost use Rattle.vcd_changes.specs.Reading.{place_of, regs_of, section_at, section_number};

use vcd_body::{Regs, Section};
use vcd_text::Offset;

/// Where the next call of `changes` continues, as numbers that a call sets for it. All are 0 before
/// the first call.
#[repr(C)]
#[derive(Clone, Copy, PartialEq, Eq, Debug)]
pub struct Place {
    /// The token limit under which the bytes before it were read; 0 before the first call.
    pub limit: u64,
    /// How many bytes and lines of the dump were read.
    pub offset: Offset,
    /// The last timestamp; 0 if there was none.
    pub time: u64,
    /// 1 if there was a timestamp, otherwise 0.
    pub marked: u64,
    /// The section that is open: 1 to 4 for `$dumpvars`, `$dumpoff`, `$dumpon` and `$dumpall`, 0
    /// for none.
    pub section: u64,
}

/// A reading of the changes of a variable.
#[repr(C)]
#[derive(Clone, Copy, PartialEq, Eq, Debug)]
pub struct Reading {
    /// Where the next call continues.
    pub place: Place,
    /// How many changes the last call found.
    pub count: u64,
    /// The number of the dump's fault, if the status is `FAULT`.
    pub fault: u64,
    /// The line of that fault, from 1.
    pub line: u64,
}

/// Returns the number that `Place::section` has for this open section: 1 to 4; 0 if none is open.
fn section_number(section: Option<Section>) -> u64
    ensures { result ≡ section_number section }
{
    match section {
        None => 0,
        Some(Section::Vars) => 1,
        Some(Section::Off) => 2,
        Some(Section::On) => 3,
        Some(Section::All) => 4,
    }
}

/// Returns the section for which `Place::section` has this number; `None` for 0 and above 4.
fn section_at(number: u64) -> Option<Section>
    ensures { result ≡ section_at number }
{
    match number {
        1 => Some(Section::Vars),
        2 => Some(Section::Off),
        3 => Some(Section::On),
        4 => Some(Section::All),
        _ => None,
    }
}

/// Returns where the next call of `changes` continues: with this token limit, at this offset of the
/// feed, with the registers there.
pub(crate) fn place_of(limit: u64, offset: Offset, regs: Regs) -> Place
    ensures { result ≡ place_of limit offset regs }
{
    Place {
        limit,
        offset,
        time: regs.time,
        marked: u64::from(regs.marked),
        section: section_number(regs.section),
    }
}

/// Returns the registers with which a call of `changes` continues at this place.
pub(crate) fn regs_of(place: Place) -> Regs
    ensures { result ≡ regs_of place }
{
    Regs {
        time: place.time,
        marked: place.marked != 0,
        section: section_at(place.section),
    }
}
