// Phrases that run to the first `$end`.
ghost use Rattle.std.specs.Prelude.{◌≡◌, ◌-◌, ◌^◌, ◌<◌, ◌≤◌, ◌++◌, IfOk, length};
ghost use Rattle.vcd_head.specs.Names.{MovesOn, ReadsToEnd, join_with_byte, source_of, spaced};

use crate::fault::HeadFault;
use crate::tokens::next_ends;
use std::alloc::Global;
use vcd_text::{Feed, Source};

/// Reads tokens up to and with the next `$end`, and ignores them. Fails as `next_token` does if the
/// input ends before `$end`, or if a token cannot be read.
pub(crate) fn skip_to_end<S: Source>(feed: &mut Feed<'_, '_, '_, '_, S>) -> Result<(), HeadFault>
    requires { S.failures (source_of feed.old) < 2 ^ 64 - 1 }
    ensures reads { ReadsToEnd feed.old feed.new (λ _ inner. Unit {0}) result }
    ensures advances { MovesOn S.failures feed.old feed.new result }
{
    'tokens: while !next_ends(feed)? {}
    Ok(())
}

/// Reads tokens up to and with the next `$end`, and appends those before it to the text, a space
/// before each. Fails with `OutOfMemory`, and as `next_token` does if the input ends before `$end`,
/// or if a token cannot be read.
#[inline(always)]
pub(crate) fn append_to_end<S: Source>(
    feed: &mut Feed<'_, '_, '_, '_, S>,
    text: &mut Vec<u8>,
) -> Result<(), HeadFault>
    requires { S.failures (source_of feed.old) < 2 ^ 64 - 1 }
    ensures reads { ReadsToEnd feed.old feed.new
        (λ _ inner. text.new.items ≡ text.old.items ++ spaced inner) result }
    ensures grows { IfOk result (λ _. length text.old.items ≤ length text.new.items) }
    ensures advances { MovesOn S.failures feed.old feed.new result }
{
    'tokens: while !next_ends(feed)? {
        text.push(b' ')?;
        text.extend_from_slice(feed.token())?;
    }
    Ok(())
}

/// Reads tokens up to and with the next `$end`, and returns those before it with a space between:
/// no bytes if there are none. Fails with `OutOfMemory`, and as `next_token` does if the input ends
/// before `$end`, or if a token cannot be read.
pub(crate) fn text_to_end<S: Source>(
    alloc: Global,
    feed: &mut Feed<'_, '_, '_, '_, S>,
) -> Result<Vec<u8>, HeadFault>
    requires { S.failures (source_of feed.old) < 2 ^ 64 - 1 }
    ensures reads { ReadsToEnd feed.old feed.new
        (λ text inner. text.items ≡ join_with_byte 32 inner) result }
    ensures advances { MovesOn S.failures feed.old feed.new result }
{
    let mut text = Vec::new(alloc);
    if next_ends(feed)? {
        return Ok(text);
    }
    text.extend_from_slice(feed.token())?;
    append_to_end(feed, &mut text)?;
    Ok(text)
}
