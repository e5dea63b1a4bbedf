//! The changes of one variable of a dump in memory.
ghost use Rattle.std.specs.Prelude.{◌≡◌, ◌<◌, ◌≤◌, ℕ, IfErr, IfOk, List, Some, drop, length, slice_get, true};
ghost use Rattle.vcd_body.specs.Reads.{GaveItems};
ghost use Rattle.vcd_head.specs.Model.Header.{Header};
ghost use Rattle.vcd_head.specs.Model.Tokens.{Token};
ghost use Rattle.vcd_head.specs.Views.{IsViewOf};
ghost use Rattle.vcd_model.specs.Declarations.{IdCode};
ghost use Rattle.vcd_model.specs.Items.{BodyItem};
ghost use Rattle.vcd_text.specs.Answer.{whole};
ghost use Rattle.vcd_text.specs.Feed.{chunk_len_of, limit_of};
ghost use Rattle.vcd_changes.specs.Reading.{Finds, FindsIn, FindsUnder, GoesOnAt, GoesOnUnder, IsLimitEnough, Refused, StaysAt, status_of};

use crate::reading::{Reading, place_of, regs_of};
use crate::row::ChangeRow;
use crate::rows::{Filled, collect_rows};
use std::alloc::{AllocError, Global};
use std::hash::BuildHasher;
use vcd_body::Regs;
use vcd_head::{HeadFault, HeadView, read_head_with_hasher};
use vcd_text::{Bytes, Feed};
use vcd_view::find;

/// How many bytes a token may have: as many as without `--token-limit`.
const LIMIT: usize = 1_048_576;

/// The limit with which a call reads a dump first, and which is enough if no token is longer. It
/// takes two windows as long as the limit and fills them with zeros. With `LIMIT` that takes longer
/// than reading some hundred rows.
const LOWER_LIMIT: usize = 65_536;

/// How many bytes are read in one call. They are few, since each call of `changes` reads as many of
/// the header and of the body, even if its rows are full long before their end.
const CHUNK: usize = 8_192;

/// How many scopes, variables and `$upscope` a header may have.
const MAX_DECLARATIONS: u64 = 16_777_216;

/// The number of the fault that a token is too long.
const TOKEN_TOO_LONG: u64 = 1;

/// The status if the dump has no further change of the code, and no fault.
pub const DONE: u8 = 0;

/// The status if the dump has a fault.
pub const FAULT: u8 = 1;

/// The status if no variable has the code.
pub const NO_CODE: u8 = 2;

/// The status if memory ran out.
pub const NO_MEMORY: u8 = 3;

/// The status if the rows are full, and the next call continues.
pub const FULL: u8 = 4;

/// The status if no call can have left this `Place`.
pub const BAD_PLACE: u8 = 5;

/// Returns the status of a call of `changes` that has met no fault: `FULL` if all rows that its
/// caller lent were filled, and `DONE` if the dump ended before that.
fn status_of(filled: Filled) -> u8
    ensures { result ≡ status_of filled }
{
    match filled {
        Filled::All => DONE,
        Filled::Full => FULL,
    }
}

/// Fills the rows with the next changes of the code at `index` of the header's codes, and returns
/// the status. Sets `reading.count` to the number of rows that are filled, also if there is a
/// fault.
///
/// With `DONE` and `FULL`, `reading.place` is where the next call continues. With `FAULT`,
/// `reading` has the fault and its line, and `place` stays as it was. `limit` is the token limit of
/// the feed, and `regs` are the registers where the feed is.
fn fill_rows(
    limit: usize,
    feed: &mut Feed<'_, '_, '_, '_, Bytes<'_>>,
    view: HeadView<'_>,
    index: usize,
    regs: Regs,
    reading: &mut Reading,
    rows: &mut [ChangeRow],
) -> u8
    requires some { 0 < limit }
    requires lengths { (limit_of feed.old ≡ limit) × (chunk_len_of feed.old ≡ 8192) }
    ensures finds { (h : Header) (dump : List ℕ) (front : List Token) (items : List BodyItem)
        (code : IdCode) → IsViewOf view.entry h
        → GaveItems h.codes (whole dump) front items feed.old regs
        → slice_get h.codes index ≡ Some code
        → Finds limit h.codes (whole dump) front items code.text reading.new rows.new result }
    ensures most { reading.new.count ≤ length rows.new }
    ensures place { StaysAt reading.old reading.new result }
{
    let mut regs = regs;
    let mut count = 0;
    let ended = collect_rows(feed, view, index, &mut regs, rows, &mut count);
    reading.count = count as u64;
    match ended {
        Ok(filled) => {
            reading.place = place_of(limit as u64, feed.offset(), regs);
            status_of(filled)
        }
        Err(fault) => {
            reading.fault = u64::from(fault.number());
            reading.line = feed.line();
            FAULT
        }
    }
}

/// Returns the bytes of the dump after the first `n`, or no bytes if it has fewer.
fn bytes_after(dump: &[u8], n: u64) -> &[u8]
    ensures { result.now ≡ drop n dump.now }
{
    if n >= dump.len() as u64 {
        return &[];
    }
    &dump[n as usize..]
}

/// Sets `reading` to say that the header has this fault in this line and that no rows are filled,
/// and returns `FAULT`. If memory ran out, it only sets that no rows are filled, and returns
/// `NO_MEMORY`.
fn note_bad_header(fault: HeadFault, line: u64, reading: &mut Reading) -> u8
    ensures refused { Refused fault line reading.new result }
    ensures place { reading.new.place ≡ reading.old.place }
{
    reading.count = 0;
    if fault == HeadFault::OutOfMemory {
        return NO_MEMORY;
    }
    reading.fault = u64::from(fault.number());
    reading.line = line;
    FAULT
}

/// Reads the header of a dump with this token limit, at least 1, fills the rows with the changes of
/// the identifier code `code` from `reading.place` on, sets `reading`, whose `count` is 0 before,
/// and returns the status: `DONE`, `FAULT`, `NO_CODE`, `NO_MEMORY`, `FULL` or `BAD_PLACE`. Fails if
/// there is no memory for the buffers; then `reading` does not change.
fn read_dump<B: BuildHasher>(
    alloc: Global,
    limit: usize,
    dump: &[u8],
    code: &[u8],
    hasher: &B,
    reading: &mut Reading,
    rows: &mut [ChangeRow],
) -> Result<u8, AllocError>
    requires some { 0 < limit }
    requires none { reading.old.count ≡ 0 }
    ensures finds { (items : List BodyItem) → GoesOnUnder limit dump.now items reading.old.place
        → IfOk result (FindsUnder limit dump.now items code.now reading.new rows.new) }
    ensures most { reading.new.count ≤ length rows.new }
    ensures none { IfErr result (λ _. reading.new.count ≡ 0) }
    ensures place { IfOk result (StaysAt reading.old reading.new) }
    ensures stays { IfErr result (λ _. reading.new.place ≡ reading.old.place) }
{
    let mut chunk = vec![in alloc; 0u8; CHUNK]?;
    let mut token = vec![in alloc; 0u8; limit]?;
    let mut value = vec![in alloc; 0u8; limit]?;
    let mut source = Bytes { rest: dump };
    let mut feed = Feed::new(&mut source, &mut chunk, &mut token, &mut value);
    let head = match read_head_with_hasher(alloc, &mut feed, MAX_DECLARATIONS, hasher) {
        Ok(head) => head,
        Err(fault) => return Ok(note_bad_header(fault, feed.line(), reading)),
    };
    let shown = head.view();
    let Some(index) = find(shown, code) else {
        return Ok(NO_CODE);
    };
    let at = reading.place;
    // No call has left a place yet: the changes begin right after the header.
    if at.limit == 0 {
        return Ok(fill_rows(limit, &mut feed, shown, index, Regs::new(), reading, rows));
    }
    // A feed cannot go back or skip bytes, so another one begins at the place.
    source.rest = bytes_after(dump, at.offset.bytes);
    match Feed::at(&mut source, &mut chunk, &mut token, &mut value, at.offset) {
        Some(mut feed) => Ok(fill_rows(limit, &mut feed, shown, index, regs_of(at), reading, rows)),
        None => Ok(BAD_PLACE),
    }
}

/// Fills the rows and sets `reading` as `read_dump` does, with this token limit, at least 1, and
/// returns the status: `DONE`, `FAULT`, `NO_CODE`, `NO_MEMORY`, `FULL` or `BAD_PLACE`.
fn read_with_limit<B: BuildHasher>(
    alloc: Global,
    limit: usize,
    dump: &[u8],
    code: &[u8],
    hasher: &B,
    reading: &mut Reading,
    rows: &mut [ChangeRow],
) -> u8
    requires some { 0 < limit }
    ensures finds { (items : List BodyItem) → GoesOnUnder limit dump.now items reading.old.place
        → FindsUnder limit dump.now items code.now reading.new rows.new result }
    ensures most { reading.new.count ≤ length rows.new }
    ensures place { StaysAt reading.old reading.new result }
{
    reading.count = 0;
    match read_dump(alloc, limit, dump, code, hasher, reading, rows) {
        Ok(status) => status,
        Err(_) => NO_MEMORY,
    }
}

/// Returns whether a call with the lower token limit, which ended with this status and reading,
/// found what a call with the full limit (`LIMIT`) would find: it met no token that is too long. It
/// is false also if the feed had halted at `reading.place`.
fn is_limit_enough(status: u8, reading: Reading) -> bool
    ensures { result ≡ true → IsLimitEnough reading status }
{
    (status != FAULT || reading.fault != TOKEN_TOO_LONG) && reading.place.offset.answer <= 1
}

/// Fills the rows with the changes of the variables of `dump`, a whole dump, with the identifier
/// code `code`, from `reading.place` on, and returns the status: `DONE`, `FAULT`, `NO_CODE`,
/// `NO_MEMORY`, `FULL` or `BAD_PLACE`. For the first call all numbers in `reading.place` are 0.
///
/// Each call reads the header again, and then continues in the body. Identifier codes are hashed
/// with numbers that the hasher returns; the rows do not depend on them. `reading.count` becomes
/// the number of rows that are filled. It is 0 with `NO_CODE`, `NO_MEMORY` and `BAD_PLACE`, and if
/// the header has a fault. `reading.place` moves on only with `DONE` and `FULL`. With `FAULT`,
/// `reading.fault` and `reading.line` say which fault and where.
pub fn changes<B: BuildHasher>(
    alloc: Global,
    dump: &[u8],
    code: &[u8],
    hasher: &B,
    reading: &mut Reading,
    rows: &mut [ChangeRow],
) -> u8
    ensures finds { (items : List BodyItem) → GoesOnAt dump.now items reading.old.place
        → FindsIn dump.now items code.now reading.new rows.new result }
    ensures most { reading.new.count ≤ length rows.new }
    ensures place { StaysAt reading.old reading.new result }
{
    let before = *reading;
    if before.place.limit != 0 && before.place.limit != LOWER_LIMIT as u64 {
        return read_with_limit(alloc, LIMIT, dump, code, hasher, reading, rows);
    }
    let status = read_with_limit(alloc, LOWER_LIMIT, dump, code, hasher, reading, rows);
    if is_limit_enough(status, *reading) {
        return status;
    }
    *reading = before;
    read_with_limit(alloc, LIMIT, dump, code, hasher, reading, rows)
}
