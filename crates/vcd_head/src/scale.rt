// The phrase of a time scale, after its keyword.
ghost use Rattle.std.specs.Prelude.{◌-◌, ◌^◌, ◌<◌};
ghost use Rattle.vcd_head.specs.Names.{Keyword, MovesOn, ReadsScale, ReadsText, source_of};

use crate::draft::Draft;
use crate::fault::HeadFault;
use crate::tokens::{next_end, next_token};
use crate::words::{exponent_of, power_of, unit_of};
use vcd_text::{Feed, Source};
use vcd_view::Scale;

/// Reads the number and the unit of a time scale, in one token or two, and returns the power of ten
/// in seconds: -8 for `10ns`. Fails with `BadTimescale` if the tokens are no time scale, and as
/// `next_token` does if one cannot be read.
fn read_exponent<S: Source>(feed: &mut Feed<'_, '_, '_, '_, S>) -> Result<i8, HeadFault>
    requires { S.failures (source_of feed.old) < 2 ^ 64 - 1 }
    ensures reads { ReadsScale feed.old feed.new result }
    ensures advances { MovesOn S.failures feed.old feed.new result }
{
    next_token(feed)?;
    let Some(power) = power_of(feed.token()) else {
        return match exponent_of(feed.token()) {
            Some(exponent) => Ok(exponent),
            None => Err(HeadFault::BadTimescale),
        };
    };
    next_token(feed)?;
    match unit_of(feed.token()) {
        Some(unit) => Ok(unit + power),
        None => Err(HeadFault::BadTimescale),
    }
}

/// Reads the rest of a `$timescale` into the draft, in place of an earlier one: number and unit, in
/// one token or two, and `$end`. Fails with `BadTimescale` if other tokens come next, and as
/// `next_token` does if one cannot be read.
pub(crate) fn read_timescale<S: Source>(
    feed: &mut Feed<'_, '_, '_, '_, S>,
    draft: &mut Draft,
) -> Result<(), HeadFault>
    requires { S.failures (source_of feed.old) < 2 ^ 64 - 1 }
    ensures reads { ReadsText Keyword.Timescale draft.old feed.old draft.new feed.new result }
    ensures advances { MovesOn S.failures feed.old feed.new result }
{
    let exponent = read_exponent(feed)?;
    draft.scale = Some(Scale { exponent });
    next_end(feed, HeadFault::BadTimescale)
}
