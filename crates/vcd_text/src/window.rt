// The steps of a feed: from the chunk to the token window, and then the next chunk.
ghost use Rattle.std.specs.Prelude.{◌≡◌, ℕ, ◌+◌, ◌-◌, ◌^◌, ◌<◌, ◌≤◌, ◌≢◌, ◌++◌, length, take, slice_range, true, false};
ghost use Rattle.vcd_text.specs.Names.{Collects, Fills, Finishes, Fits, GoesOnIn, Halts, KeepsFit, MayGoOn, Skips, StillFits, TakesShort, is_white_at, looked, stepped_past};

use crate::ahead::run_len;
use crate::answer::{Halt, Next};
use crate::device::Source;
use crate::registers::{Parked, Phase};
use crate::scan::{is_white_space, low_16, lowest, white_len};
use std::simd::prelude::*;

/// How much of a token the chunk had.
#[derive(Clone, Copy)]
pub(crate) enum Collected {
    // The token has ended.
    Whole,
    // All bytes that may be looked at are used up, and the token has not ended.
    Part,
    // The token has more bytes than its window.
    TooLong,
}

/// What a read of the source returned.
#[derive(Clone, Copy)]
pub(crate) enum Filled {
    More,
    End,
    Failed,
}

// How many bytes of an input may be looked at.
const INPUT_LIMIT: u64 = (1 << 63) - 1;

/// If no token has begun, moves `parked` past the white space that comes next in the chunk, counts
/// its line feeds, and sets the line to that of the byte after it. Otherwise nothing changes.
#[inline(always)]
pub(crate) fn skip(chunk: &[u8], parked: &mut Parked)
    requires { MayGoOn (length chunk.now) parked.old }
    ensures begun { 0 < parked.old.size → parked.new ≡ parked.old }
    ensures skips { parked.old.size ≡ 0 → Skips chunk.now parked.old parked.new }
    ensures fits { StillFits (length chunk.now) parked.old parked.new }
    ensures on { GoesOnIn parked.old parked.new }
{
    if parked.size > 0 {
        return;
    }
    let (white, line_feeds) = white_len(&chunk[parked.at..parked.stop]);
    parked.at += white;
    parked.line_feeds += line_feeds;
    parked.line = parked.line_feeds + 1;
}

/// Copies the bytes of a token from the chunk into `token`, after those that earlier calls copied,
/// and moves `parked` past them. If no token has begun, the line is that of the next byte.
///
/// Returns `Whole` if the chunk has the end of the token, and moves past the white byte there too.
/// Returns `Part` if the bytes that may be looked at end first. Returns `TooLong`, and changes
/// nothing, if the token has more bytes than `token`.
// The first token of a line that is indented or comes after CR LF is mostly short. Without
// `collect_short` here, the header of 184,002 codes with CR LF takes 6 % more, and one of Verilator
// 4 %.
#[inline(always)]
pub(crate) fn collect_token(chunk: &[u8], token: &mut [u8], parked: &mut Parked) -> Collected
    requires registers { MayGoOn (length chunk.now) parked.old }
    requires size { parked.old.size ≤ length token.old }
    requires line { parked.old.size ≡ 0 → parked.old.line ≡ parked.old.line_feeds + 1 }
    ensures collects { Collects chunk.now token.old token.new parked.old parked.new result }
    ensures fits { KeepsFit (length chunk.now) (length token.old) parked.old parked.new }
    ensures part { result ≡ Collected.Part → parked.new.at ≡ parked.new.stop }
    ensures whole { result ≡ Collected.Whole
        → looked parked.old + parked.new.size < looked parked.new + parked.old.size }
    ensures on { GoesOnIn parked.old parked.new }
{
    if parked.size == 0 && collect_short(chunk, token, parked) {
        return Collected::Whole;
    }
    collect_any(chunk, token, parked)
}

/// Copies the bytes of a token of any length as `collect_token` does: looks for its end first.
#[inline(always)]
fn collect_any(chunk: &[u8], token: &mut [u8], parked: &mut Parked) -> Collected
    requires registers { MayGoOn (length chunk.now) parked.old }
    requires size { parked.old.size ≤ length token.old }
    ensures collects { Collects chunk.now token.old token.new parked.old parked.new result }
    ensures fits { KeepsFit (length chunk.now) (length token.old) parked.old parked.new }
    ensures part { result ≡ Collected.Part → parked.new.at ≡ parked.new.stop }
    ensures whole { result ≡ Collected.Whole
        → looked parked.old + parked.new.size < looked parked.new + parked.old.size }
    ensures on { GoesOnIn parked.old parked.new }
{
    let at = parked.at;
    let stop = parked.stop;
    let size = parked.size;
    let n = run_len(&chunk[at..stop]);
    if n > token.len() - size {
        return Collected::TooLong;
    }
    let end = at + n;
    append_bytes(token, size, chunk, at, n);
    parked.size = size + n;
    if end == stop {
        parked.at = end;
        return Collected::Part;
    }
    step_past(chunk, end, parked);
    Collected::Whole
}

/// Copies the next token of the chunk to the front of `token`, and moves `parked` past it and the
/// white byte after it, if it begins at the next byte and has at most 15 bytes. Returns whether it
/// did so. It does not if fewer than 16 bytes of the chunk are left, if `token` has fewer than 16
/// bytes, or if the token has a byte below the space (32). Then nothing has changed. The bytes of
/// `token` after those that were copied may change.
// Most tokens of a header are such: without it, the header of 184,002 codes takes 71 % more.
#[inline(always)]
pub(crate) fn collect_short(chunk: &[u8], token: &mut [u8], parked: &mut Parked) -> bool
    requires { MayGoOn (length chunk.now) parked.old }
    ensures takes { result ≡ true → TakesShort chunk.now token.old token.new parked.old parked.new }
    ensures none { result ≡ false → (parked.new ≡ parked.old) × (token.new ≡ token.old) }
{
    let Phase::Going = parked.phase else {
        return false;
    };
    let at = parked.at;
    if parked.stop - at < 16 || token.len() < 16 {
        return false;
    }
    let low = low_16(chunk, at);
    if low == 0 {
        return false;
    }
    let n = lowest(low);
    if n == 0 || !is_white_space(chunk[at + n]) {
        return false;
    }
    copy_16(token, chunk, at);
    parked.size = n;
    parked.line = parked.line_feeds + 1;
    step_past(chunk, at + n, parked);
    true
}

/// Copies the 16 bytes of `from` from offset `at` on to the front of `to`. `from` must have these,
/// and `to` at least 16 bytes.
// One load and one store. With `copy_from_slice` here and in `copy_front`, the header of 184,002
// codes takes 5 % more.
#[inline(always)]
pub(crate) fn copy_16(to: &mut [u8], from: &[u8], at: usize)
    requires to { 16 ≤ length to.old }
    requires from { at + 16 ≤ length from.now }
    ensures copied { take 16 to.new ≡ slice_range from.now at (at + 16) }
    ensures len { length to.new ≡ length to.old }
{
    u8x16::from_slice(&from[at..]).copy_to_slice(to);
}

/// Moves `parked` past the byte of white space at `end` in the chunk, at which a token ends, and
/// counts it if it is a line feed.
#[inline(always)]
fn step_past(chunk: &[u8], end: usize, parked: &mut Parked)
    requires within { end < length chunk.now }
    requires line_feeds { parked.old.line_feeds < 2 ^ 63 }
    ensures { parked.new ≡ stepped_past chunk.now end parked.old }
{
    if chunk[end] == b'\n' {
        parked.line_feeds += 1;
    }
    parked.at = end + 1;
}

/// Copies `n` bytes of the chunk from offset `at` on into `token`, after its first `size` bytes.
/// The chunk has to have them, and `token` room for them.
fn append_bytes(token: &mut [u8], size: usize, chunk: &[u8], at: usize, n: usize)
    requires room { size + n ≤ length token.old }
    requires within { at + n ≤ length chunk.now }
    ensures { take (size + n) token.new ≡ take size token.old ++ slice_range chunk.now at (at + n) }
{
    token[size..size + n].copy_from_slice(&chunk[at..at + n]);
}

/// Reads the next bytes of the source into the front of the chunk. Returns `More` if there were
/// some, `End` if the source has ended, and `Failed` if the read failed. `parked` changes only with
/// `More`: then it is at the first of these bytes. The bytes of the chunk may change in each case.
pub(crate) fn fill_chunk<S: Source>(source: &mut S, chunk: &mut [u8], parked: &mut Parked) -> Filled
    requires failures { S.failures source.old < 2 ^ 64 - 1 }
    requires some { 0 < length chunk.old }
    requires counted { parked.old.base + parked.old.at < 2 ^ 63 }
    ensures fits { StillFits (length chunk.old) parked.old parked.new }
    ensures phase { parked.new.phase ≡ parked.old.phase }
    ensures kept { parked.new.kept ≡ parked.old.kept }
    ensures looked { (looked parked.new ≡ looked parked.old) × (parked.new.size ≡ parked.old.size) }
    ensures more { result ≡ Filled.More → looked parked.old < parked.new.base + parked.new.end }
    ensures fills { Fills (S.rest source.old)
        (S.rest source.new) chunk.new parked.old parked.new result }
    ensures failures { result ≢ Filled.Failed → S.failures source.new ≡ S.failures source.old }
    ensures failed { result ≡ Filled.Failed → S.failures source.new ≡ S.failures source.old + 1 }
    ensures last { result ≡ Filled.Failed → S.last_failed source.new ≡ true }
{
    let Ok(n) = source.read(chunk) else {
        return Filled::Failed;
    };
    if n == 0 {
        return Filled::End;
    }
    parked.base += parked.at as u64;
    parked.at = 0;
    parked.end = n;
    let room = INPUT_LIMIT - parked.base;
    parked.stop = if (n as u64) < room { n } else { room as usize };
    Filled::More
}

/// Halts the feed with these registers for good, and returns `halt`, with which each later call of
/// `Feed::next` fails. The feed has no token then. `Feed::line` becomes 1 plus the line feeds that
/// were looked at; for `TokenTooLong` it stays the line of that token.
pub(crate) fn halted(parked: &mut Parked, halt: Halt) -> Halt
    requires line_feeds { parked.old.line_feeds < 2 ^ 63 }
    ensures result { result ≡ halt }
    ensures kept { parked.new.kept ≡ parked.old.kept }
    ensures halts { Halts halt parked.old parked.new }
    ensures fits { (chunk limit : ℕ) → Fits parked.old chunk limit → Fits parked.new chunk limit }
{
    parked.size = 0;
    if halt != Halt::TokenTooLong {
        parked.line = parked.line_feeds + 1;
    }
    parked.phase = Phase::Halted(halt);
    halt
}

/// Ends the feed with these registers at the end of its source, so that later calls of `Feed::next`
/// return `Finish`. Returns `Token` if a token has begun, which the end then closes. Otherwise
/// returns `Finish`, and `Feed::line` becomes 1 plus the line feeds of the source.
pub(crate) fn end_feed(parked: &mut Parked) -> Next
    requires { parked.old.line_feeds < 2 ^ 63 }
    ensures kept { parked.new.kept ≡ parked.old.kept }
    ensures looked { (looked parked.new ≡ looked parked.old)
        × (result ≡ Next.Token → 0 < parked.old.size) }
    ensures finishes { Finishes parked.old parked.new result }
    ensures fits { (chunk limit : ℕ) → Fits parked.old chunk limit → Fits parked.new chunk limit }
{
    parked.phase = Phase::Ended;
    if parked.size > 0 {
        Next::Token
    } else {
        parked.line = parked.line_feeds + 1;
        Next::Finish
    }
}
