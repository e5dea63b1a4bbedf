// The phrases of a header, one after the other.
ghost use Rattle.std.specs.Prelude.{◌≡◌, ◌-◌, ◌^◌, ◌<◌, OnOk};
ghost use Rattle.vcd_head.specs.Names.{Keyword as Named, MovesOn, ReadsAny, ReadsOther, ReadsRest, goes_on as goes_on_after, seen, source_of};

use crate::draft::Draft;
use crate::fault::HeadFault;
use crate::scale::read_timescale;
use crate::scopes::{read_scope, read_upscope};
use crate::texts::{skip_to_end, text_to_end};
use crate::tokens::{next_end, next_token};
use crate::variable::read_variable;
use crate::words::{begins_change, is_command};
use std::alloc::Global;
use vcd_text::{Feed, Source};
use vcd_view::Keyword;

/// Reads the rest of a command that is no keyword, up to its `$end`, and ignores it; the feed's
/// token is its first one. Fails with `OutOfPlace` if that token could begin a timestamp or a value
/// change, with `UnknownCommand` if it is no command, and as `next_token` does if a later one
/// cannot be read.
fn read_other<S: Source>(feed: &mut Feed<'_, '_, '_, '_, S>) -> Result<(), HeadFault>
    requires { S.failures (source_of feed.old) < 2 ^ 64 - 1 }
    ensures reads { ReadsOther feed.old feed.new result }
    ensures advances { MovesOn S.failures feed.old feed.new result }
{
    if begins_change(feed.token()) {
        return Err(HeadFault::OutOfPlace);
    }
    if !is_command(feed.token()) {
        return Err(HeadFault::UnknownCommand);
    }
    skip_to_end(feed)
}

/// Returns whether other phrases may follow one with this keyword (`None` if it begins with no
/// keyword): true for all but `$enddefinitions`.
fn goes_on(keyword: Option<Keyword>) -> bool
    ensures { result ≡ goes_on_after keyword }
{
    match keyword {
        Some(Keyword::EndDefinitions) => false,
        _ => true,
    }
}

/// Reads the next phrase of a header into the draft, and returns whether more may follow: true for
/// all but `$enddefinitions`. At most `most` declarations are allowed. Fails with the fault of the
/// first token that is not allowed or cannot be read, and with `OutOfMemory`.
pub(crate) fn read_phrase<S: Source>(
    alloc: Global,
    feed: &mut Feed<'_, '_, '_, '_, S>,
    most: u64,
    draft: &mut Draft,
) -> Result<bool, HeadFault>
    requires { S.failures (source_of feed.old) < 2 ^ 64 - 1 }
    ensures reads { ReadsAny most draft.old feed.old draft.new feed.new result }
    ensures advances { MovesOn S.failures feed.old feed.new result }
    ensures progress { OnOk result (2 ^ 63 - seen feed.new < 2 ^ 63 - seen feed.old) }
{
    next_token(feed)?;
    let keyword = Keyword::of(feed.token());
    read_rest(alloc, feed, most, keyword, draft)?;
    Ok(goes_on(keyword))
}

/// Reads the rest of a phrase into the draft; `keyword` is the keyword that was read, or `None` if
/// the token is none. Fails with `OutOfPlace` if the keyword is `$end` or belongs in the body,
/// with the fault of the first other token that is not allowed or cannot be read, and with
/// `OutOfMemory`. At most `most` declarations are allowed.
fn read_rest<S: Source>(
    alloc: Global,
    feed: &mut Feed<'_, '_, '_, '_, S>,
    most: u64,
    keyword: Option<Keyword>,
    draft: &mut Draft,
) -> Result<(), HeadFault>
    requires { S.failures (source_of feed.old) < 2 ^ 64 - 1 }
    ensures reads { ReadsRest most keyword draft.old feed.old draft.new feed.new result }
    ensures advances { MovesOn S.failures feed.old feed.new result }
{
    match keyword {
        Some(Keyword::Comment) => skip_to_end(feed),
        Some(Keyword::Date) => {
            draft.date = text_to_end(alloc, feed)?;
            Ok(())
        }
        Some(Keyword::Version) => {
            draft.version = text_to_end(alloc, feed)?;
            Ok(())
        }
        Some(Keyword::Timescale) => read_timescale(feed, draft),
        Some(Keyword::Scope) => read_scope(feed, most, draft),
        Some(Keyword::Upscope) => read_upscope(feed, most, draft),
        Some(Keyword::Var) => read_variable(alloc, feed, most, draft),
        Some(Keyword::EndDefinitions) => next_end(feed, HeadFault::OutOfPlace),
        Some(Keyword::DumpAll) => Err(HeadFault::OutOfPlace),
        Some(Keyword::DumpOff) => Err(HeadFault::OutOfPlace),
        Some(Keyword::DumpOn) => Err(HeadFault::OutOfPlace),
        Some(Keyword::DumpVars) => Err(HeadFault::OutOfPlace),
        Some(Keyword::End) => Err(HeadFault::OutOfPlace),
        None => read_other(feed),
    }
}
