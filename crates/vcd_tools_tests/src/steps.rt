// Merges that are taken item by item.
ghost use Rattle.std.specs.Prelude.{◌≡◌, ◌-◌, ◌^◌, ◌<◌, ◌≤◌, All, length, true};
ghost use Rattle.vcd_tools.specs.MergeParts.{AreParts, AreSeated, part_len};
ghost use Rattle.vcd_tools.specs.MergeRoom.{MergeIsWithinBound, windows_size};
ghost use Rattle.vcd_tools.specs.MergeStep.{IsReady, is_going, standing_of};
ghost use Rattle.vcd_text.specs.Device.{failures_after};

use vcd_head::Head;
use vcd_text::{Sink, Source};
use vcd_tools::{Done, Merge, More, Seat, Stop, Windows, merge, merge_step};

// Takes all items of a merge, one in each step.
fn take_steps<S: Source, W: Sink>(
    merge: &mut Merge<'_, '_>,
    sources: &mut [S],
    windows: &mut Windows<'_>,
    out: &mut W,
) -> Result<Done, Stop>
    requires reads { All (λ s. S.failures s < 2 ^ 64 - 1) sources.old }
    requires out_failures { (W.device out.old).failures < 2 ^ 64 - 1 }
    requires going { is_going merge.old ≡ true }
    requires ready { IsReady (standing_of merge.old sources.old windows.old) }
    requires bound { MergeIsWithinBound
        (part_len (length merge.old.seats.now) windows.old.tokens.now) merge.old.heads.now
        (windows_size windows.old) }
{
    'items: loop {
        match merge_step(merge, sources, windows, out)? {
            More::Again => {}
            More::Ended(done) => return Ok(done),
        }
    }
}

// Merges these inputs item by item.
fn merge_by_steps<S: Source, W: Sink>(
    heads: &[Head],
    sources: &mut [S],
    windows: &mut Windows<'_>,
    seats: &mut [Seat],
    out: &mut W,
) -> Result<Done, Stop>
    requires some { 0 < length heads.now }
    requires many { length heads.now ≤ 64 }
    requires heads { length heads.now ≡ length seats.old }
    requires sources { length sources.old ≡ length seats.old }
    requires parts { AreParts
        (length seats.old) windows.old.chunks.now windows.old.tokens.now windows.old.values.now }
    requires seated { AreSeated windows.old.chunks.now windows.old.tokens.now seats.old }
    requires reads { All (λ s. S.failures s < 2 ^ 64 - 1) sources.old }
    requires out_failures { (W.device out.old).failures < 2 ^ 64 - 1 }
    requires bound { MergeIsWithinBound (part_len (length seats.old) windows.old.tokens.now)
        heads.now (windows_size windows.old) }
{
    let mut merge = Merge::start(heads, seats, out)?;
    take_steps(&mut merge, sources, windows, out)
}

// Merges these inputs in one call, or item by item.
pub(crate) fn merge_as<S: Source, W: Sink>(
    by_steps: bool,
    heads: &[Head],
    sources: &mut [S],
    windows: &mut Windows<'_>,
    seats: &mut [Seat],
    out: &mut W,
) -> Result<Done, Stop>
    requires some { 0 < length heads.now }
    requires many { length heads.now ≤ 64 }
    requires heads { length heads.now ≡ length seats.old }
    requires sources { length sources.old ≡ length seats.old }
    requires parts { AreParts
        (length seats.old) windows.old.chunks.now windows.old.tokens.now windows.old.values.now }
    requires seated { AreSeated windows.old.chunks.now windows.old.tokens.now seats.old }
    requires reads { All (λ s. S.failures s < 2 ^ 64 - 1) sources.old }
    requires out_failures { (W.device out.old).failures < 2 ^ 64 - 1 }
    requires bound { MergeIsWithinBound (part_len (length seats.old) windows.old.tokens.now)
        heads.now (windows_size windows.old) }
{
    if by_steps {
        return merge_by_steps(heads, sources, windows, seats, out);
    }
    merge(heads, sources, windows, seats, out)
}
