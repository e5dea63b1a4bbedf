// Phrases that open and close scopes, after their keywords.
ghost use Rattle.std.specs.Prelude.{◌-◌, ◌^◌, ◌<◌};
ghost use Rattle.vcd_head.specs.Names.{Keyword, MovesOn, ReadsPhrase, source_of};

use crate::declarations::{check_start, close_scope, open_scope};
use crate::draft::Draft;
use crate::fault::HeadFault;
use crate::tokens::{next_end, next_word};
use vcd_text::{Feed, Source};
use vcd_view::Kind;

/// Reads the rest of a `$scope` into the draft: type, name and `$end`. Fails with `TooMany` if the
/// draft has `most` declarations, with `TooDeep` if 1,000 scopes are open, with `BadScope` if other
/// tokens come next, with `OutOfMemory`, and as `next_token` does if a token cannot be read.
pub(crate) fn read_scope<S: Source>(
    feed: &mut Feed<'_, '_, '_, '_, S>,
    most: u64,
    draft: &mut Draft,
) -> Result<(), HeadFault>
    requires { S.failures (source_of feed.old) < 2 ^ 64 - 1 }
    ensures reads { ReadsPhrase most Keyword.Scope draft.old feed.old draft.new feed.new result }
    ensures advances { MovesOn S.failures feed.old feed.new result }
{
    check_start(draft, most, Kind::Scope)?;
    next_word(feed, HeadFault::BadScope)?;
    feed.keep();
    next_word(feed, HeadFault::BadScope)?;
    open_scope(draft, feed.value(), feed.token())?;
    next_end(feed, HeadFault::BadScope)
}

/// Reads the rest of an `$upscope` into the draft: `$end`. Fails with `TooMany` if the draft has
/// `most` declarations, with `NoScope` if no scope is open, with `BadScope` if another token comes
/// next, with `OutOfMemory`, and as `next_token` does if no token can be read.
pub(crate) fn read_upscope<S: Source>(
    feed: &mut Feed<'_, '_, '_, '_, S>,
    most: u64,
    draft: &mut Draft,
) -> Result<(), HeadFault>
    requires { S.failures (source_of feed.old) < 2 ^ 64 - 1 }
    ensures reads { ReadsPhrase most Keyword.Upscope draft.old feed.old draft.new feed.new result }
    ensures advances { MovesOn S.failures feed.old feed.new result }
{
    check_start(draft, most, Kind::Up)?;
    close_scope(draft)?;
    next_end(feed, HeadFault::BadScope)
}
