// The phrases of a body, by what they begin with.
ghost use Rattle.std.specs.Prelude.{◌≡◌, ◌≢◌, true, false, ◌-◌, ◌^◌, ◌<◌, ◌≤◌, length, take, drop, Some, None, slice_get, OnOk, IfOk, IfErr, IfSome, ◌||◌, nat_le};
ghost use Rattle.vcd_body.specs.Names.{Advances, AreBinaryIf, AreRegsWith, Begins, CallEnd, ChangeForm, Code, PhraseKind, Form, GoesFurther, HasGoodValue, IsFoundScalar, IsScalar, IsSized, Item, MovesPast, NeedsOneToken, OpensOrRefuses, PassesWords, PassesWordsTo, ReadsCode, ReadsComment, ReadsTimestamp, ReadsRest, RefusesIn, call_end, is_end as ends, is_value_digit, list_all, passed_of, seen, source_of, token_of, value_of};

use crate::fault::BodyFault;
use crate::item::Regs;
use crate::tokens::next_inner;
use crate::words::{after_first, are_binary, are_digits_or_binary, rest_of};
use vcd_text::{Ahead, Feed, Source, decimal_of};
use vcd_view::{Code, Found, HeadView, find_sized, is_end};

/// Returns the time of a timestamp with this token, and sets the last time of `regs` to it. Fails
/// with `BadTime` if it spells no time below 2^64, with `TimeInSection` if a section is open, and
/// with `TimeBack` if the time is less than the last one; then nothing changes.
#[inline(always)]
pub(crate) fn read_timestamp(token: &[u8], regs: &mut Regs) -> Result<u64, BodyFault>
    requires { Begins token.now PhraseKind.Timestamp }
    ensures time { ReadsTimestamp token.now regs.old result }
    ensures regs { AreRegsWith Item.Time regs.old regs.new result }
    ensures own { IfErr result (λ fault. fault ≢ BodyFault.ReadFailed) }
{
    let Some(time) = decimal_of(rest_of(token)) else {
        return Err(BodyFault::BadTime);
    };
    regs.accept_timestamp(time)?;
    Ok(time)
}

/// Returns the index and the size of the code that comes right after the digit in the token of a
/// scalar change. Fails with `BadValue` if there is none, and with `UnknownCode` if the header does
/// not declare it.
#[inline(always)]
pub(crate) fn scalar_code(token: &[u8], view: HeadView<'_>) -> Result<Found, BodyFault>
    requires begins { IsScalar token.now }
    ensures finds { IfOk result (IsFoundScalar view.entry token.now) }
    ensures refuses { IfErr result (RefusesIn view.entry token.now) }
    ensures own { IfErr result (λ fault. fault ≢ BodyFault.ReadFailed) }
{
    let code = after_first(token);
    if code.is_empty() {
        return Err(BodyFault::BadValue);
    }
    match find_sized(view, code) {
        Some(found) => Ok(found),
        None => Err(BodyFault::UnknownCode),
    }
}

/// Returns the digits in the first token of a vector change, after its `b`. Fails with `BadValue`
/// if there are none, or if one of these bytes is no digit of a value. If `binary` is true, all are
/// known to be `0` and `1`, and none is looked at.
#[inline(always)]
pub(crate) fn vector_text(token: &[u8], binary: bool) -> Result<&[u8], BodyFault>
    requires begins { Begins token.now PhraseKind.Vector }
    requires binary { AreBinaryIf binary (drop 1 token.now) }
    ensures opens { OpensOrRefuses token.now result }
    ensures text { IfOk result (λ text. text.now ≡ drop 1 token.now) }
    ensures digits { IfOk result (λ text. (0 < length text.now)
        × (list_all is_value_digit text.now ≡ true)) }
    ensures own { IfErr result (λ fault. fault ≢ BodyFault.ReadFailed) }
{
    let text = after_first(token);
    if !are_digits_or_binary(text, binary) {
        return Err(BodyFault::BadValue);
    }
    Ok(text)
}

/// Returns the text in the first token of a change of a real number, after its `r`. Fails with
/// `BadValue` if it is empty, and with `RealTooLong` if it has more than 64 bytes.
#[inline(always)]
pub(crate) fn real_text(token: &[u8]) -> Result<&[u8], BodyFault>
    requires begins { Begins token.now PhraseKind.Real }
    ensures opens { OpensOrRefuses token.now result }
    ensures text { IfOk result (λ text. text.now ≡ drop 1 token.now) }
    ensures few { IfOk result (λ text. (0 < length text.now) × (length text.now ≤ 64)) }
    ensures own { IfErr result (λ fault. fault ≢ BodyFault.ReadFailed) }
{
    let text = rest_of(token);
    if text.is_empty() {
        return Err(BodyFault::BadValue);
    }
    if text.len() > 64 {
        return Err(BodyFault::RealTooLong);
    }
    Ok(text)
}

/// Returns the next token and moves past it. `None` if it is `$end`, or if `Ahead::next` returns
/// `None`; then nothing has changed.
#[inline(always)]
fn word_ahead<'a>(ahead: &mut Ahead<'a>) -> Option<&'a [u8]>
    ensures takes { IfSome result (λ token. MovesPast ahead.old ahead.new token.now) }
    ensures word { IfSome result (λ token. ends token.now ≡ false) }
    ensures none { result ≡ None → ahead.new ≡ ahead.old }
{
    let mut next = *ahead;
    let token = next.next()?;
    if is_end(token) {
        return None;
    }
    *ahead = next;
    Some(token)
}

/// Returns how many bytes ahead the tokens before the next `$end` take, with the white space before
/// each and one white byte after the last. It counts no further than to a token that does not lie
/// completely in the chunk, where `Ahead::next` returns `None`. `ahead` must be at its first byte.
fn words_len(ahead: Ahead<'_>) -> usize
    requires { passed_of ahead ≡ 0 }
    ensures { PassesWordsTo ahead.entry result }
{
    let mut next = ahead;
    'words: while let Some(_) = word_ahead(&mut next) {}
    next.passed()
}

/// Moves the feed past the tokens that come next and lie completely in its chunk, up to the first
/// `$end`, but not past that. It reads nothing from the source. After it the feed's `token` may be
/// empty.
fn pass_words<S: Source>(feed: &mut Feed<'_, '_, '_, '_, S>)
    ensures passes { PassesWords feed.old feed.new }
    ensures advances { Advances S.failures feed.old feed.new CallEnd.GoesOn }
    ensures bounded { seen feed.new < 2 ^ 63 }
{
    let len = words_len(feed.ahead());
    feed.pass(len);
}

/// Reads the rest of a comment, up to its `$end`, and ignores it. Fails if a token cannot be read,
/// or if the input ends before `$end`.
// Without `pass_words` a comment of tokens of one byte takes 2.4 times as many instructions.
pub(crate) fn skip_comment<S: Source>(feed: &mut Feed<'_, '_, '_, '_, S>) -> Result<(), BodyFault>
    requires { S.failures (source_of feed.old) < 2 ^ 64 - 1 }
    ensures reads { ReadsComment feed.old feed.new result }
    ensures goes { GoesFurther S.failures feed.old feed.new (call_end result) result }
{
    'tokens: loop {
        pass_words(feed);
        next_inner(feed)?;
        if is_end(feed.token()) {
            return Ok(());
        }
    }
}

/// Keeps the feed's token as its `value`, reads the next token, and returns the index and the size
/// of the code that this is. Fails if it cannot be read, and with `UnknownCode` if the header does
/// not declare it.
#[inline(always)]
fn read_code<S: Source>(
    feed: &mut Feed<'_, '_, '_, '_, S>,
    view: HeadView<'_>,
) -> Result<Found, BodyFault>
    requires failures { S.failures (source_of feed.old) < 2 ^ 64 - 1 }
    ensures reads { ReadsCode view.entry feed.old feed.new result }
    ensures ahead { NeedsOneToken feed.old feed.new }
    ensures value { value_of feed.new ≡ (token_of feed.old).bytes }
    ensures sized { IfOk result (IsSized view.entry.codes.now) }
    ensures goes { GoesFurther S.failures feed.old feed.new (call_end result) result }
{
    feed.keep();
    next_inner(feed)?;
    match find_sized(view, feed.token()) {
        Some(found) => Ok(found),
        None => Err(BodyFault::UnknownCode),
    }
}

/// Returns whether a change of the code `found` may have this many digits: whether its size is not
/// less, or its variables are events.
// The size found with it is mostly enough. Only if it is not, the code is read.
#[inline(always)]
pub(crate) fn may_have_digits(codes: &[Code], found: Found, digits: usize) -> bool
    requires { IsSized codes.now found }
    ensures { (code : Code) → slice_get codes.now found.position ≡ Some code
        → result ≡ (code.event || nat_le digits code.size) }
{
    digits <= found.size_or_zero
        || codes[found.position].event
        || digits <= codes[found.position].size
}

/// Reads the rest of a vector change, whose first token (`b` and the digits) the feed has read, and
/// returns the index of its code. After it the feed's `value` is that first token, and its `token`
/// the code. Fails if there are no digits or bad ones, if they are more than the size of the code,
/// if the header does not declare it, or if it cannot be read.
#[inline(always)]
pub(crate) fn read_vector<S: Source>(
    feed: &mut Feed<'_, '_, '_, '_, S>,
    view: HeadView<'_>,
) -> Result<usize, BodyFault>
    requires failures { S.failures (source_of feed.old) < 2 ^ 64 - 1 }
    requires begins { Begins (token_of feed.old).bytes PhraseKind.Vector }
    ensures reads { ReadsRest view.entry ChangeForm.Vector feed.old feed.new result }
    ensures sound { HasGoodValue view.entry Form.Vector feed.new result }
    ensures ahead { NeedsOneToken feed.old feed.new }
    ensures advances { Advances S.failures feed.old feed.new (call_end result) }
    ensures further { OnOk result (seen feed.old < seen feed.new) }
    ensures bounded { seen feed.old < 2 ^ 63 → seen feed.new < 2 ^ 63 }
{
    let token = feed.token();
    vector_text(token, are_binary(rest_of(token)))?;
    let found = read_code(feed, view)?;
    if !may_have_digits(view.codes, found, rest_of(feed.value()).len()) {
        return Err(BodyFault::TooWide);
    }
    Ok(found.position)
}

/// Reads the rest of a change of a real number, whose first token (`r` and the text) the feed has
/// read, and returns the index of its code. After it the feed's `value` is that first token, and
/// its `token` the code. Fails if the text does not have 1 to 64 bytes, or if the header does not
/// declare the code, which may have any size, or it cannot be read.
pub(crate) fn read_real<S: Source>(
    feed: &mut Feed<'_, '_, '_, '_, S>,
    view: HeadView<'_>,
) -> Result<usize, BodyFault>
    requires failures { S.failures (source_of feed.old) < 2 ^ 64 - 1 }
    requires begins { Begins (token_of feed.old).bytes PhraseKind.Real }
    ensures reads { ReadsRest view.entry ChangeForm.RealText feed.old feed.new result }
    ensures sound { HasGoodValue view.entry Form.RealText feed.new result }
    ensures ahead { NeedsOneToken feed.old feed.new }
    ensures advances { Advances S.failures feed.old feed.new (call_end result) }
    ensures further { OnOk result (seen feed.old < seen feed.new) }
    ensures bounded { seen feed.old < 2 ^ 63 → seen feed.new < 2 ^ 63 }
{
    real_text(feed.token())?;
    let found = read_code(feed, view)?;
    Ok(found.position)
}
