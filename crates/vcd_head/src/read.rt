// The whole header.
ghost use Rattle.std.specs.Prelude.{◌-◌, ◌^◌, ◌<◌, ◌≤◌};
ghost use Rattle.vcd_head.specs.Names.{MovesOn, ReadsAll, ReadsHead, source_of};

use crate::draft::Draft;
use crate::fault::HeadFault;
use crate::finish::head_of_draft;
use crate::head::Head;
use crate::phrases::read_phrase;
use std::alloc::Global;
use std::hash::{BuildHasher, BuildHasherDefault, FoldHasher};
use vcd_text::{Feed, Source};
use vcd_view::CodeSeed;

/// Reads a header up to the `$end` of `$enddefinitions`, and returns it, or fails, as
/// `read_head_with_hasher` does.
///
/// Codes are hashed with numbers that everybody may know, so codes can be crafted that take long to
/// find. Read dumps that are not trusted with `read_head_with_hasher`.
pub fn read_head<S: Source>(
    alloc: Global,
    feed: &mut Feed<'_, '_, '_, '_, S>,
    most: u64,
) -> Result<Head, HeadFault>
    requires failures { S.failures (source_of feed.old) < 2 ^ 64 - 1 }
    requires most { most ≤ 16777216 }
    ensures { ReadsHead S.failures most feed.old feed.new result }
{
    let hasher: BuildHasherDefault<FoldHasher> = BuildHasherDefault::new();
    read_head_with_hasher(alloc, feed, most, &hasher)
}

/// Reads a header up to the `$end` of `$enddefinitions`, and returns it. The feed must be at the
/// beginning of the dump; afterwards it is right after that token. Fails with the first fault of
/// the header, with `ReadFailed` if a read fails, and with `OutOfMemory` if memory runs out. A
/// header with more than `most` declarations has the fault `TooMany`; `most` must be at most
/// 16,777,216.
///
/// After a fault `Feed::line` returns the line of the fault, and the feed's token is the last one
/// that was read: empty if the input or its source ended the reading, otherwise the one at fault. A
/// type, a name or a code of 4 GiB or more, for which the windows have to be as long, counts as
/// `OutOfMemory`.
///
/// Codes are hashed with numbers that the hasher returns. What is read does not depend on them. If
/// the author of the dump does not know these numbers, as with `RandomState`, no choice of codes
/// takes long to find.
pub fn read_head_with_hasher<S: Source, B: BuildHasher>(
    alloc: Global,
    feed: &mut Feed<'_, '_, '_, '_, S>,
    most: u64,
    hasher: &B,
) -> Result<Head, HeadFault>
    requires failures { S.failures (source_of feed.old) < 2 ^ 64 - 1 }
    requires most { most ≤ 16777216 }
    ensures { ReadsHead S.failures most feed.old feed.new result }
{
    let mut draft = Draft::new(alloc, CodeSeed::of(hasher));
    read_phrases(alloc, feed, most, &mut draft)?;
    head_of_draft(alloc, draft)
}

/// Reads all phrases of a header into the draft, up to `$enddefinitions $end`. At most `most`
/// declarations are allowed. Fails with the fault of the first token that is not allowed or cannot
/// be read, and with `OutOfMemory`.
fn read_phrases<S: Source>(
    alloc: Global,
    feed: &mut Feed<'_, '_, '_, '_, S>,
    most: u64,
    draft: &mut Draft,
) -> Result<(), HeadFault>
    requires { S.failures (source_of feed.old) < 2 ^ 64 - 1 }
    ensures reads { ReadsAll most draft.old feed.old draft.new feed.new result }
    ensures advances { MovesOn S.failures feed.old feed.new result }
{
    'phrases: while read_phrase(alloc, feed, most, draft)? {}
    Ok(())
}
