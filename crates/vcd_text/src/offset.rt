//! The position of a feed in its source, as numbers.
ghost use Rattle.std.specs.Prelude.{◌≡◌, ◌+◌, ◌^◌, ◌<◌, ◌≤◌, IsSome, MatchOption, ⊤};
ghost use Rattle.vcd_text.specs.Names.{IsOffset, answer_number, offset_of, phase_at, registers_at};

use crate::answer::Halt;
use crate::registers::{Parked, Phase};

/// The position of a feed in its source. It is only numbers, which a caller may keep outside of the
/// program. Another feed continues there, over the bytes that were not looked at.
#[repr(C)]
#[derive(Clone, Copy, PartialEq, Eq, Debug)]
pub struct Offset {
    /// How many bytes were looked at.
    pub bytes: u64,
    /// How many line feeds are among them.
    pub line_feeds: u64,
    /// The line of the last answer.
    pub line: u64,
    /// What every later call answers: 0 while that is open, 1 for the end, and for a halt 1 more
    /// than the number of its fault.
    pub answer: u64,
}

/// Returns the number that `Offset::answer` has for this phase: 0 if more tokens may come, 1 at the
/// end, and after a halt 1 more than the number of its fault.
fn answer_number(phase: Phase) -> u64
    ensures { result ≡ answer_number phase }
{
    match phase {
        Phase::Going => 0,
        Phase::Ended => 1,
        Phase::Halted(halt) => u64::from(halt.number()) + 1,
    }
}

/// Returns the phase for which `Offset::answer` has this number. `None` if there is none: if the
/// number is not 0, 1, 2, 22 or 32.
fn phase_at(answer: u64) -> Option<Phase>
    ensures { result ≡ phase_at answer }
{
    match answer {
        0 => Some(Phase::Going),
        1 => Some(Phase::Ended),
        2 => Some(Phase::Halted(Halt::TokenTooLong)),
        22 => Some(Phase::Halted(Halt::InputTooLong)),
        32 => Some(Phase::Halted(Halt::ReadFailed)),
        _ => None,
    }
}

/// Returns the position of a feed with these registers, as numbers that a caller may store.
pub(crate) fn offset_of(parked: Parked) -> Offset
    requires counted { parked.base + parked.at < 2 ^ 63 }
    requires few { parked.line_feeds ≤ parked.base + parked.at }
    ensures value { result ≡ offset_of parked }
    ensures comes { IsOffset result }
{
    Offset {
        bytes: parked.base + parked.at as u64,
        line_feeds: parked.line_feeds,
        line: parked.line,
        answer: answer_number(parked.phase),
    }
}

/// Returns the registers of a feed at this offset, with an empty chunk. `None` if the offset is
/// 2^63 bytes or more, has more line feeds than bytes, or an `answer` that `answer_number` never
/// returns.
pub(crate) fn registers_at(offset: Offset) -> Option<Parked>
    ensures registers { MatchOption result ⊤ (λ p. p ≡ registers_at offset) }
    ensures counted { MatchOption result ⊤
        (λ _. (offset.bytes < 2 ^ 63) × (offset.line_feeds ≤ offset.bytes)) }
    ensures comes { IsOffset offset → IsSome result }
{
    if offset.bytes >= 1 << 63 || offset.line_feeds > offset.bytes {
        return None;
    }
    let phase = phase_at(offset.answer)?;
    Some(Parked {
        base: offset.bytes,
        line_feeds: offset.line_feeds,
        line: offset.line,
        phase,
        ..Parked::new()
    })
}
