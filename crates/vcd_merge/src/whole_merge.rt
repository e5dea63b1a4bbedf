//! `merge` over whole inputs.
ghost use Rattle.std.specs.Prelude.{◌≡◌, ℕ, ◌+◌, ◌-◌, ◌^◌, ◌<◌, ◌≤◌, List, length, map, All};
ghost use Rattle.vcd_merge.specs.Names.{AreParts, AreSeated, CountsWrites, EndsAtReadOf, failures_with, Follows, HasPassedOn, HaveNoItems, Header, Lane, MergeIsWithinBound, NamesInput, part_len, SameLengths, ShowHeaders, supply, windows_size};

use crate::merge_state::Merge;
use crate::seat::Seat;
use crate::windows::Windows;
use vcd_body::{Done, Stop};
use vcd_head::Head;
use vcd_text::{Sink, Source};

/// Writes the merge of 1 to 64 inputs, whose headers were read: their changes in one order of time,
/// under one header. Returns `Done::Whole`. `heads`, `sources` and `seats` have one element for
/// each input. Each seat is `Seat::new` of the input's feed, parked after its header. Each of the
/// slices in `windows` has one equal part for each input.
///
/// # Errors
///
/// The first fault of the inputs in the order of time, or a failed read, after the output that
/// comes before it; `Stop::Write` if a write failed, after a prefix.
pub fn merge<S: Source, W: Sink>(
    heads: &[Head],
    sources: &mut [S],
    windows: &mut Windows<'_>,
    seats: &mut [Seat],
    out: &mut W,
) -> Result<Done, Stop>
    requires some { 0 < length heads.now }
    requires many { length heads.now ≤ 64 }
    requires heads { length heads.now ≡ length seats.old }
    requires sources { length sources.old ≡ length seats.old }
    requires parts { AreParts
        (length seats.old) windows.old.chunks.now windows.old.tokens.now windows.old.values.now }
    requires seated { AreSeated windows.old.chunks.now windows.old.tokens.now seats.old }
    requires reads { All (λ s. S.failures s < 2 ^ 64 - 1) sources.old }
    requires out_failures { (W.device out.old).failures < 2 ^ 64 - 1 }
    requires bound { MergeIsWithinBound (part_len (length seats.old) windows.old.tokens.now)
        heads.now (windows_size windows.old) }
    ensures follows { (hs : List Header) (lanes : List Lane) (names : List (List ℕ))
        → ShowHeaders heads.now hs → map (λ (l : Lane). l.header) lanes ≡ hs
        → HaveNoItems S.rest lanes seats.old sources.old windows.old.chunks.now windows.old.tokens.now
        → Follows (part_len (length seats.old) windows.old.tokens.now)
        (part_len (length seats.old) windows.old.chunks.now) lanes names
        (map (supply S.rest S.failures) sources.old)
        (map (supply S.rest S.failures) sources.new)
        (W.device out.old) (W.device out.new) result }
    ensures lengths { SameLengths windows.old windows.new }
    ensures reads { (k : ℕ) × (k < length sources.old)
        × (map S.failures sources.new ≡ failures_with (map S.failures sources.old) k result)
        × NamesInput k result }
    ensures last { EndsAtReadOf (map S.last_failed sources.new) result }
    ensures writes { CountsWrites (W.device out.old) (W.device out.new) result }

    // If a read fails, the sink keeps nothing back of the output that was due before that read.
    ensures passed_on { HasPassedOn (W.kept_back out.new) result }
{
    let mut merge = Merge::start(heads, seats, out)?;
    merge.finish(sources, windows, out)
}
