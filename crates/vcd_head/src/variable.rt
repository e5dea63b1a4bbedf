// The phrase of a variable, after its keyword.
ghost use Rattle.std.specs.Prelude.{◌≡◌, ◌-◌, ◌^◌, ◌<◌, ◌≤◌, IfOk, length};
ghost use Rattle.vcd_head.specs.Names.{Keyword, MovesOn, ReadsCode, ReadsPhrase, ReadsReference, ReadsSize, source_of, value_of};

use crate::code_place::enter_code;
use crate::codes::Codes;
use crate::declarations::check_start;
use crate::draft::Draft;
use crate::fault::HeadFault;
use crate::rows::{WideRow, push};
use crate::texts::append_to_end;
use crate::tokens::{next_token, next_word};
use crate::words::{is_code, is_event_type, size_of};
use std::alloc::Global;
use vcd_text::{Feed, Source};
use vcd_view::Kind;

/// Reads the next token as the size of a variable, in bits, and returns it. Fails with
/// `BadVariable` if the token is not a decimal number from 1 to 16,777,215, and as `next_token`
/// does if none can be read.
#[inline(always)]
fn read_size<S: Source>(feed: &mut Feed<'_, '_, '_, '_, S>) -> Result<usize, HeadFault>
    requires { S.failures (source_of feed.old) < 2 ^ 64 - 1 }
    ensures reads { ReadsSize feed.old feed.new result }
    ensures value { value_of feed.new ≡ value_of feed.old }
    ensures advances { MovesOn S.failures feed.old feed.new result }
{
    next_token(feed)?;
    match size_of(feed.token()) {
        Some(size) => Ok(size),
        None => Err(HeadFault::BadVariable),
    }
}

/// Reads the type, the size and the code of a variable, and returns the index of the code in
/// `known`. The type is then the feed's `value`. A new code is added to `known`, and its bytes to
/// `text`.
///
/// Fails with `BadVariable` if one of these tokens is not allowed, with `CodeDiffers` if the code
/// was declared before with another size, or if only one of the two is an event, with
/// `OutOfMemory`, and as `next_token` does if a token cannot be read.
#[inline(always)]
fn read_code<S: Source>(
    alloc: Global,
    feed: &mut Feed<'_, '_, '_, '_, S>,
    text: &mut Vec<u8>,
    known: &mut Codes,
) -> Result<usize, HeadFault>
    requires { S.failures (source_of feed.old) < 2 ^ 64 - 1 }
    ensures reads { ReadsCode text.old.items known.old feed.old
        text.new.items known.new feed.new result }
    ensures advances { MovesOn S.failures feed.old feed.new result }
{
    next_word(feed, HeadFault::BadVariable)?;
    feed.keep();
    let size = read_size(feed)?;
    next_token(feed)?;
    if !is_code(feed.token()) {
        return Err(HeadFault::BadVariable);
    }
    let event = is_event_type(feed.value());
    match enter_code(alloc, text, known, feed.token(), size, event)? {
        Some(code) => Ok(code),
        None => Err(HeadFault::CodeDiffers),
    }
}

/// Reads the reference of a variable and the `$end` after it. Appends the tokens of the reference
/// to `text`, with a space between, and returns the length of the first one. Fails with
/// `BadVariable` if there is none, with `OutOfMemory`, and as `next_token` does if a token cannot
/// be read.
#[inline(always)]
fn read_reference<S: Source>(
    feed: &mut Feed<'_, '_, '_, '_, S>,
    text: &mut Vec<u8>,
) -> Result<usize, HeadFault>
    requires { S.failures (source_of feed.old) < 2 ^ 64 - 1 }
    ensures reads { ReadsReference text.old.items feed.old text.new.items feed.new result }
    ensures grows { IfOk result (λ _. length text.old.items ≤ length text.new.items) }
    ensures advances { MovesOn S.failures feed.old feed.new result }
{
    next_word(feed, HeadFault::BadVariable)?;
    let name = feed.token().len();
    text.extend_from_slice(feed.token())?;
    append_to_end(feed, text)?;
    Ok(name)
}

/// Reads the rest of a `$var` into the draft: type, size, code, one or more tokens of reference,
/// and `$end`. Fails with `TooMany` if the draft has `most` declarations, with `BadVariable` if a
/// token is not allowed, with `CodeDiffers` if the code was declared before with another size, or
/// if only one of the two is an event, with `OutOfMemory`, and as `next_token` does if a token
/// cannot be read.
pub(crate) fn read_variable<S: Source>(
    alloc: Global,
    feed: &mut Feed<'_, '_, '_, '_, S>,
    most: u64,
    draft: &mut Draft,
) -> Result<(), HeadFault>
    requires { S.failures (source_of feed.old) < 2 ^ 64 - 1 }
    ensures reads { ReadsPhrase most Keyword.Var draft.old feed.old draft.new feed.new result }
    ensures advances { MovesOn S.failures feed.old feed.new result }
{
    check_start(draft, most, Kind::Var)?;
    let code = read_code(alloc, feed, &mut draft.text, &mut draft.codes)?;
    let start = draft.text.len();
    draft.text.extend_from_slice(feed.value())?;
    let name_start = draft.text.len();
    let name = read_reference(feed, &mut draft.text)?;
    let row = WideRow {
        kind: Kind::Var,
        parent: draft.parent(),
        start,
        word: name_start - start,
        name,
        all: draft.text.len() - name_start,
        code,
    };
    push(&mut draft.rows, row)?;
    Ok(())
}
