// Items that lie completely in the chunk. Most of them are taken without a change of the feed.
ghost use Rattle.std.specs.Prelude.{◌≡◌, ◌⊎◌, ℕ, ◌+◌, ◌-◌, ◌^◌, ◌<◌, ◌≤◌, List, [], drop, length, slice_range, false, true, is_some, None, Some, IfOk, IfSome};
ghost use Rattle.vcd_body.specs.Names.{Advances, AreBinaryIf, AreWhite, Begins, CallEnd, GivesAhead, GivesNoItem, GivesToLast, HasTimestamp, HasTime, HoldsItem, IsChangeBy, IsFound, IsFoundScalar, IsPrompt, IsRun, IsScalar, IsSection, LeavesRegs, MayBe, Opens, OpensVector, Passed, PassesNoItem, Puts, TakesItem, TakesOpened, TakesOpenedAfter, Token, ahead_of, binary_digits, bytes_of, limit_of, lines_of, longest_of, passed_of, seen, source_of};
ghost use Rattle.vcd_body.specs.declared.item.Form.TheVariants as form;
ghost use Rattle.vcd_body.specs.declared.item.Item.TheVariants as item;
ghost use Rattle.vcd_body.specs.declared.words.PhraseKind.TheVariants as kind;

use crate::item::{Form, Item, Regs};
use crate::phrases::{may_have_digits, real_text, scalar_code, vector_text};
use crate::values::bits::Bits;
use crate::words::{
    KeywordUse, PhraseKind, after_first, are_binary_or_known, bits_at, first_byte_of, is_comment,
    keyword_use_of, phrase_kind, phrase_kind_by, rest_of,
};
use vcd_text::{Ahead, Feed, Sink, Source, WriteFailed, decimal_at};
use vcd_view::{Found, HeadView, find_in_entry, find_sized, is_end};

/// An item that was taken ahead, and the bytes of the chunk in which it lies. Only a change has a
/// text, a size and `bits`: of any other item `code_at` is `at`, the offset after its first byte.
#[derive(Clone, Copy)]
pub struct ScannedItem<'a> {
    /// Any item but the end of the body.
    pub item: Item,
    /// The text of a change; none for another item.
    pub text: &'a [u8],
    /// The size in bits of a change's code, which `size` returns. It is 0 for an event, for a size
    /// that 32 bits do not hold, and for any other item.
    pub size_or_zero: usize,
    /// The bytes of the chunk, from the first one on. The offsets below are offsets in them.
    pub bytes: &'a [u8],
    /// Where the item begins: at its digit, at the byte before its text or before the digits of a
    /// timestamp, or at its keyword.
    pub begin: usize,
    /// Where the text of a change begins; where the digits of a timestamp begin, or the word of a
    /// keyword.
    pub at: usize,
    /// Where a change's code begins; it ends one byte before `end`.
    pub code_at: usize,
    /// Where the item ends, with the white byte after its last token: the next one begins there or
    /// later.
    pub end: usize,
    /// The digits of a vector as a number, if they are few, and only `0` and `1`.
    pub bits: Option<Bits>,
    /// Whether the digits of a vector are known to be only `0` and `1`.
    pub binary: bool,
}

impl ScannedItem<'_> {
    /// Returns the size in bits of the code of a change. `None` for an event, for an item that is
    /// no change, and for a size that does not fit into 32 bits or was not found out
    /// (`size_or_zero` is 0).
    #[inline(always)]
    pub fn size(self) -> Option<usize>
        ensures told { IfSome result (λ size. (size ≡ self.entry.size_or_zero) × (0 < size)) }
        ensures none { result ≡ None → self.entry.size_or_zero ≡ 0 }
    {
        if self.size_or_zero == 0 {
            return None;
        }
        Some(self.size_or_zero)
    }
}

/// Where a change lies, as in `ScannedItem`.
#[derive(Clone, Copy)]
struct Places<'a> {
    bytes: &'a [u8],
    begin: usize,
    at: usize,
    code_at: usize,
    end: usize,
}

/// Returns a `ScannedItem` for a change of the code `found`, with this text, at these places.
/// Nothing is known of its digits: `bits` is `None`, and `binary` is false.
#[inline(always)]
fn change_of<'a>(found: Found, form: Form, text: &'a [u8], places: Places<'a>) -> ScannedItem<'a>
    ensures { result ≡ record {
      item = item.Change found.position form;
      text = text.entry;
      size_or_zero = found.size_or_zero;
      bytes = places.entry.bytes;
      begin = places.entry.begin;
      at = places.entry.at;
      code_at = places.entry.code_at;
      end = places.entry.end;
      bits = None;
      binary = false;
    } }
{
    ScannedItem {
        item: Item::Change {
            code: found.position,
            form,
        },
        text,
        size_or_zero: found.size_or_zero,
        bytes: places.bytes,
        begin: places.begin,
        at: places.at,
        code_at: places.code_at,
        end: places.end,
        bits: None,
        binary: false,
    }
}

/// Returns a `ScannedItem` for an item that is no change: its token is the one that `ahead`
/// returned last. It has no text, no size and no `bits`.
#[inline(always)]
fn without_text<'a>(item: Item, token: &[u8], ahead: Ahead<'a>) -> ScannedItem<'a>
    requires { length token.now + 1 ≤ passed_of ahead }
    ensures item { result.item ≡ item }
    ensures text { result.text.now ≡ [] }
    ensures size { result.size_or_zero ≡ 0 }
    ensures bytes { result.bytes.now ≡ bytes_of ahead.entry }
    ensures begin { result.begin ≡ passed_of ahead.entry - 1 - length token.now }
    ensures positions { (result.at ≡ passed_of ahead.entry - 1 - length token.now + 1)
        × (result.end ≡ passed_of ahead.entry) }
    ensures bits { result.bits ≡ None }
    ensures binary { result.binary ≡ false }
{
    let begin = begin_of(token, ahead);
    ScannedItem {
        item,
        text: &[],
        size_or_zero: 0,
        bytes: ahead.bytes(),
        begin,
        at: begin + 1,
        code_at: begin + 1,
        end: ahead.passed(),
        bits: None,
        binary: false,
    }
}

/// Returns the index and the size of the code of a vector change, looked up by the token `code`.
/// `None` if `token` (`b` and digits) has bad digits or none, if the header does not declare the
/// code, or if there are more digits than its size, which an event may have. `binary` says that all
/// digits are known to be `0` and `1`.
#[inline(always)]
fn vector_code(token: &[u8], code: &[u8], view: HeadView<'_>, binary: bool) -> Option<Found>
    requires begins { Begins token.now kind.Vector }
    requires binary { AreBinaryIf binary (drop 1 token.now) }
    ensures { IfSome result (IsFound view.entry form.Vector token.now code.now) }
{
    let Ok(digits) = vector_text(token, binary) else {
        return None;
    };
    let found = find_sized(view, code)?;
    if may_have_digits(view.codes, found, digits.len()) {
        return Some(found);
    }
    None
}

/// Returns the index and the size of the code of a change of a real number, looked up by the token
/// `code`. `None` if the text in `token` (`r` and the text) does not have 1 to 64 bytes, or if the
/// header does not declare the code.
// Not inlined, since real numbers are rare.
#[inline(never)]
fn real_code(token: &[u8], code: &[u8], view: HeadView<'_>) -> Option<Found>
    requires { Begins token.now kind.Real }
    ensures { IfSome result (IsFound view.entry form.RealText token.now code.now) }
{
    let Ok(_) = real_text(token) else {
        return None;
    };
    find_sized(view, code)
}

/// A token that was taken ahead, where a phrase begins.
#[derive(Clone, Copy)]
pub(crate) struct Opening<'a> {
    /// What the token begins.
    pub(crate) kind: PhraseKind,
    pub(crate) token: &'a [u8],
    // Whether `line_timestamp` returned it: in its loop a timestamp is accepted without a call.
    pub(crate) from_lines: bool,
}

/// Returns the next token ahead and the kind of item that it begins, and moves past it. The kind is
/// `PhraseKind::Other` for a section, a comment, and a token that begins no item. `None` if
/// `Ahead::next` returns `None`; then nothing has changed.
// Inlined into each arm of `take_any`, where the compiler knows what the token begins.
#[inline(always)]
pub(crate) fn opening_ahead<'a>(ahead: &mut Ahead<'a>) -> Option<Opening<'a>>
    ensures opens { IfSome result (λ o. Opens ahead.old ahead.new o) }
    ensures stays { result ≡ None → ahead.new ≡ ahead.old }
{
    let token = ahead.next()?;
    Some(Opening {
        kind: phrase_kind_by(token[0]),
        token,
        from_lines: false,
    })
}

/// Returns the next token ahead and the kind of item that it begins, and moves past it, if it is a
/// line of exactly two bytes: `Ahead::next_short` says which bytes have to come before and after
/// it. Otherwise `None`, and nothing has changed.
#[inline(always)]
fn short_opening<'a, const CR_LF: bool>(ahead: &mut Ahead<'a>) -> Option<Opening<'a>>
    ensures opens { IfSome result (λ o. Opens ahead.old ahead.new o) }
    ensures stays { result ≡ None → ahead.new ≡ ahead.old }
{
    let token = ahead.next_short::<CR_LF>()?;
    Some(Opening {
        kind: phrase_kind_by(token[0]),
        token,
        from_lines: false,
    })
}

/// Returns the next token ahead and moves past it, if it begins with `#`, has at most 15 bytes, and
/// is a line of its own: `Ahead::next_in_16` says which bytes have to come before and after it.
/// Otherwise `None`, and nothing has changed; then `opening_ahead` may return one.
#[inline(always)]
pub(crate) fn line_timestamp<'a, const CR_LF: bool>(ahead: &mut Ahead<'a>) -> Option<Opening<'a>>
    ensures opens { IfSome result (λ o. Opens ahead.old ahead.new o) }
    ensures kind { IfSome result (λ o. o.kind ≡ kind.Timestamp) }
    ensures stays { result ≡ None → ahead.new ≡ ahead.old }
{
    let mut next = *ahead;
    let token = next.next_in_16::<CR_LF>()?;
    let kind = phrase_kind_by(token[0]);
    let PhraseKind::Timestamp = kind else {
        return None;
    };
    *ahead = next;
    Some(Opening {
        kind,
        token,
        from_lines: true,
    })
}

/// Returns the offset at which a token begins in the bytes of `ahead`. It must be the token that
/// `ahead` returned last.
#[inline(always)]
fn begin_of(token: &[u8], ahead: Ahead<'_>) -> usize
    requires { length token.now + 1 ≤ passed_of ahead }
    ensures { result ≡ passed_of ahead.entry - 1 - length token.now }
{
    ahead.passed() - 1 - token.len()
}

/// Returns the change that a token of a digit and a code right after it spells. `opening` has the
/// token, which `ahead` returned last. `None` if no code comes after the digit, or if the header
/// does not declare the code.
#[inline(always)]
pub(crate) fn scalar_ahead<'a>(
    opening: Opening<'a>,
    ahead: Ahead<'a>,
    view: HeadView<'_>,
) -> Option<ScannedItem<'a>>
    requires opens { (a : Ahead) × Opens a ahead opening }
    requires kind { (opening.kind ≡ kind.Bit) ⊎ (opening.kind ≡ kind.Scalar) }
    ensures takes { IfSome result (TakesOpened view.entry ahead.entry ahead.entry opening.entry) }
    ensures form { IfSome result (IsChangeBy form.Scalar) }
{
    let token = opening.token;
    let found = scalar_code(token, view).ok()?;
    let text = first_byte_of(token);
    let at = begin_of(token, ahead);
    let places = Places {
        bytes: ahead.bytes(),
        begin: at,
        at,
        code_at: at + 1,
        end: ahead.passed(),
    };
    Some(change_of(found, Form::Scalar, text, places))
}

/// Returns the index and the size of the code after the first byte of the token, by a look at one
/// entry of the header's table. `None` if there is no code, or if that entry is not the code's. The
/// token is not empty.
#[inline(always)]
fn short_code(token: &[u8], view: HeadView<'_>) -> Option<Found>
    requires begins { IsScalar token.now }
    ensures { IfSome result (IsFoundScalar view.entry token.now) }
{
    let code = after_first(token);
    if code.is_empty() {
        return None;
    }
    let found = find_in_entry(view, code, 0)?;
    Some(found)
}

/// Returns the change that comes next and moves past it, if it is a `0` or a `1` with a code of one
/// byte on a line of its own, as `Ahead::next_short` returns it, and a look at one entry finds its
/// code. `None` for any other item; then nothing has changed.
// No call is made, so that a loop over such changes keeps all that it needs in registers.
#[inline(always)]
pub(crate) fn short_ahead<'a, const CR_LF: bool>(
    ahead: &mut Ahead<'a>,
    view: HeadView<'_>,
) -> Option<ScannedItem<'a>>
    ensures takes { IfSome result
        (λ scanned. (r : Regs) → TakesItem view.entry ahead.old ahead.new r scanned) }
    ensures form { IfSome result (IsChangeBy form.Scalar) }
    ensures stays { result ≡ None → ahead.new ≡ ahead.old }
{
    let mut next = *ahead;
    let opening = short_opening::<CR_LF>(&mut next)?;
    let PhraseKind::Bit = opening.kind else {
        return None;
    };
    let token = opening.token;
    let found = short_code(token, view)?;
    let text = first_byte_of(token);
    let at = begin_of(token, next);
    *ahead = next;
    let places = Places {
        bytes: next.bytes(),
        begin: at,
        at,
        code_at: at + 1,
        end: next.passed(),
    };
    Some(change_of(found, Form::Scalar, text, places))
}

/// Returns whether two lines of two bytes come next, both with CR LF or both with LF.
#[inline(always)]
fn two_lines_come<const CR_LF: bool>(ahead: Ahead<'_>) -> bool
    ensures { result ≡ true → (start : ℕ)
        × AreWhite (bytes_of ahead.entry) (passed_of ahead.entry) start
        × IsRun (longest_of ahead.entry) (bytes_of ahead.entry) start 2 }
{
    if !ahead.two_byte_line_comes::<CR_LF>() {
        return false;
    }
    let mut next = ahead;
    let _ = next.next_short::<CR_LF>();
    next.two_byte_line_comes::<CR_LF>()
}

/// Returns whether two lines of two bytes each come next, both with LF or both with CR LF. Then it
/// pays to try `short_ahead` in a loop.
#[inline(always)]
pub(crate) fn two_short_lines_come(ahead: Ahead<'_>) -> bool
    ensures { result ≡ true → (start : ℕ)
        × AreWhite (bytes_of ahead.entry) (passed_of ahead.entry) start
        × IsRun (longest_of ahead.entry) (bytes_of ahead.entry) start 2 }
{
    let bytes = ahead.bytes();
    let at = ahead.passed();
    if at < bytes.len() && bytes[at] == b'\n' {
        return two_lines_come::<true>(ahead);
    }
    two_lines_come::<false>(ahead)
}

/// Returns whether the next item lies completely in the chunk, so that `next_item` reads nothing
/// from the source for it. Before a comment it returns false, since the item comes after the
/// comment. `ahead` must be at its first byte.
// It looks at one byte after the other: it is asked at the end of a chunk, and at comments.
#[inline(never)]
pub fn item_comes(ahead: Ahead<'_>) -> bool
    requires { passed_of ahead ≡ 0 }
    ensures { result ≡ true → HoldsItem (longest_of ahead.entry) (bytes_of ahead.entry) }
{
    let mut next = ahead;
    let Some(token) = next.next_slowly() else {
        return false;
    };
    match phrase_kind(token) {
        PhraseKind::Bit | PhraseKind::Scalar | PhraseKind::Timestamp => true,
        PhraseKind::Vector | PhraseKind::Real => next.next_slowly().is_some(),
        PhraseKind::Other => !is_comment(token),
    }
}

/// Has `out` write what it keeps back to its device (`Sink::pass_on`), unless the next item lies
/// completely in the chunk of the feed (`item_comes`). Call it before `next_item`, which may wait
/// for input. Fails if the sink does.
#[inline(always)]
pub fn pass_on_before_read<S: Source, W: Sink>(
    feed: &Feed<'_, '_, '_, '_, S>,
    out: &mut W,
) -> Result<(), WriteFailed>
    requires { (W.device out.old).failures < 2 ^ 64 - 1 }
    ensures puts { Puts (W.device out.old) (W.device out.new) [] result }
    ensures prompt { IfOk result (λ _. IsPrompt (W.kept_back out.new) feed.now) }
{
    if item_comes(feed.ahead()) {
        return Ok(());
    }
    out.pass_on()
}

/// The two tokens of a vector's change, which were taken ahead: one that begins with `b` or `B`,
/// and the next one. They may still be bad digits, or a code that the header does not have.
#[derive(Clone, Copy)]
pub(crate) struct VectorTokens<'a> {
    pub(crate) token: &'a [u8],
    pub(crate) code: &'a [u8],
    // Where the first token begins, with its `b`: the digits begin one byte later.
    pub(crate) at: usize,
    pub(crate) code_at: usize,
}

/// Returns the two tokens of a vector change: that of `opening`, which `ahead` returned last, and
/// the next one, its code, and moves past that. `None` if `Ahead::next` returns `None`; then
/// nothing has changed.
#[inline(always)]
pub(crate) fn vector_tokens_ahead<'a>(
    opening: Opening<'a>,
    ahead: &mut Ahead<'a>,
) -> Option<VectorTokens<'a>>
    requires opens { (a : Ahead) × Opens a ahead.old opening }
    requires kind { opening.kind ≡ kind.Vector }
    ensures opens { IfSome result (λ tokens. (a : Ahead) → Opens a ahead.old opening.entry
        → OpensVector a ahead.new tokens) }
{
    let token = opening.token;
    let at = begin_of(token, *ahead);
    let code = ahead.next()?;
    let code_at = begin_of(code, *ahead);
    Some(VectorTokens {
        token,
        code,
        at,
        code_at,
    })
}

/// Returns the digits of a vector change as a number, if they are 1 to 32 digits `0` and `1`, and
/// `bytes` has at least 32 bytes from the first digit on. `None` otherwise; the digits may still be
/// correct. `bytes` are those of the look-ahead.
#[inline(always)]
pub(crate) fn vector_bits(tokens: VectorTokens<'_>, bytes: &[u8]) -> Option<Bits>
    requires within { tokens.at + length tokens.token.now ≤ length bytes.now }
    requires position { tokens.token.now
        ≡ slice_range bytes.now tokens.at (tokens.at + length tokens.token.now) }
    requires begins { Begins tokens.token.now kind.Vector }
    ensures { IfSome result (λ b. drop 1 tokens.entry.token.now ≡ binary_digits b.len b.number) }
{
    bits_at(bytes, tokens.at + 1, after_first(tokens.token))
}

/// Returns the change that the two tokens of a vector change spell, which `ahead` returned last.
/// `bits` has its digits as a number, if that is known. `None` if the digits are bad, if the header
/// does not declare the code, or if its size is less than the number of digits.
#[inline(always)]
pub(crate) fn vector_ahead<'a>(
    tokens: VectorTokens<'a>,
    bits: Option<Bits>,
    ahead: Ahead<'a>,
    view: HeadView<'_>,
) -> Option<ScannedItem<'a>>
    requires opens { (a : Ahead) × OpensVector a ahead tokens }
    requires bits { MayBe bits (drop 1 tokens.token.now) }
    ensures takes { IfSome result (λ scanned. (a : Ahead) (r : Regs)
        → OpensVector a ahead.entry tokens.entry → TakesItem view.entry a ahead.entry r scanned) }
    ensures form { IfSome result (IsChangeBy form.Vector) }
{
    let digits = after_first(tokens.token);
    let binary = are_binary_or_known(digits, bits);
    let found = vector_code(tokens.token, tokens.code, view, binary)?;
    let places = Places {
        bytes: ahead.bytes(),
        begin: tokens.at,
        at: tokens.at + 1,
        code_at: tokens.code_at,
        end: ahead.passed(),
    };
    Some(ScannedItem {
        bits,
        binary,
        ..change_of(found, Form::Vector, digits, places)
    })
}

/// Returns the change of a real number: of the token of `opening`, which `ahead` returned last, and
/// of the next token, its code, and moves past that. `None` if there is no next token, if the text
/// does not have 1 to 64 bytes, or if the header does not declare the code; then `ahead` may have
/// moved.
#[inline(always)]
pub(crate) fn real_ahead<'a>(
    opening: Opening<'a>,
    ahead: &mut Ahead<'a>,
    view: HeadView<'_>,
) -> Option<ScannedItem<'a>>
    requires opens { (a : Ahead) × Opens a ahead.old opening }
    requires kind { opening.kind ≡ kind.Real }
    ensures takes { IfSome result (TakesOpened view.entry ahead.old ahead.new opening.entry) }
    ensures form { IfSome result (IsChangeBy form.RealText) }
{
    let token = opening.token;
    let at = begin_of(token, *ahead);
    let code = ahead.next()?;
    let found = real_code(token, code, view)?;
    let code_at = begin_of(code, *ahead);
    let text = rest_of(token);
    let places = Places {
        bytes: ahead.bytes(),
        begin: at,
        at: at + 1,
        code_at,
        end: ahead.passed(),
    };
    Some(change_of(found, Form::RealText, text, places))
}

/// Returns the time that the token of a timestamp spells; `opening` has the token, which `ahead`
/// returned last. `None` if it has other bytes than digits after the `#`, or none, or if the time
/// is 2^64 or more.
#[inline(always)]
pub(crate) fn time_ahead<'a>(opening: Opening<'a>, ahead: Ahead<'a>) -> Option<u64>
    requires opens { (a : Ahead) × Opens a ahead opening }
    ensures time { IfSome result (λ time. HasTime opening.entry time) }
    ensures all { (time : ℕ) → HasTime opening.entry time → result ≡ Some time }
{
    let at = begin_of(opening.token, ahead) + 1;
    decimal_at(ahead.bytes(), at, ahead.passed() - 1)
}

/// Returns the timestamp with this time, which its token spells, and sets the last time of `regs`
/// to it; `opening` has the token, which `ahead` returned last. `None` if it may not come here:
/// inside a section, or if the time is less than the last one. Then nothing has changed.
#[inline(always)]
pub(crate) fn timestamp_ahead<'a>(
    opening: Opening<'a>,
    time: u64,
    ahead: Ahead<'a>,
    regs: &mut Regs,
) -> Option<ScannedItem<'a>>
    requires opens { (a : Ahead) × Opens a ahead opening }
    requires kind { opening.kind ≡ kind.Timestamp }
    requires time { HasTime opening time }
    ensures takes { IfSome result (TakesOpenedAfter ahead.entry regs.old opening.entry) }
    ensures time { IfSome result (λ scanned. scanned.item ≡ item.Time time) }
    ensures none { result ≡ None
        → (is_some regs.old.section ≡ true) ⊎ (time < regs.old.time) }
    ensures regs { LeavesRegs regs.old regs.new result }
{
    match regs.accept_timestamp_by(time, !opening.from_lines) {
        Ok(()) => Some(without_text(Item::Time(time), opening.token, ahead)),
        Err(_) => None,
    }
}

/// Returns the begin or the end of a section, if the token of `opening`, which `ahead` returned
/// last, is such a keyword, and sets the open section of `regs`. `None` if it is anything else, or
/// may not come here; then nothing has changed.
#[inline(always)]
pub(crate) fn section_ahead<'a>(
    opening: Opening<'a>,
    ahead: Ahead<'a>,
    regs: &mut Regs,
) -> Option<ScannedItem<'a>>
    requires { (a : Ahead) × Opens a ahead opening }
    ensures takes { IfSome result (TakesOpenedAfter ahead.entry regs.old opening.entry) }
    ensures section { IfSome result (λ scanned. IsSection scanned.item) }
    ensures regs { LeavesRegs regs.old regs.new result }
{
    match keyword_use_of(opening.token)? {
        KeywordUse::Begin(section) => {
            if regs.section.is_some() {
                return None;
            }
            regs.section = Some(section);
            Some(without_text(Item::Begin(section), opening.token, ahead))
        }
        KeywordUse::End => {
            if regs.section.is_some() {
                regs.section = None;
                return Some(without_text(Item::End, opening.token, ahead));
            }
            None
        }
        KeywordUse::Comment | KeywordUse::OfHeader => None,
    }
}

/// Returns the look-ahead after the `$end` of the comment that comes next. `None` if no comment
/// comes next, or if it does not lie completely in the chunk.
#[inline(always)]
fn comment_ahead<'a>(ahead: Ahead<'a>) -> Option<Ahead<'a>>
    ensures passes { IfSome result (λ past. PassesNoItem ahead.entry past) }
    ensures further { IfSome result (λ past. passed_of ahead.entry < passed_of past) }
{
    let mut next = ahead;
    let token = next.next()?;
    if !is_comment(token) {
        return None;
    }
    'words: loop {
        let word = next.next()?;
        if is_end(word) {
            return Some(next);
        }
    }
}

/// Returns the look-ahead after the comments that come next and lie completely in the chunk:
/// `ahead` itself if there are none.
// Not inlined, and takes a copy, so that the walk keeps its position in registers.
#[inline(never)]
fn past_comments<'a>(ahead: Ahead<'a>) -> Ahead<'a>
    requires { passed_of ahead ≤ length (bytes_of ahead) }
    ensures { PassesNoItem ahead.entry result }
{
    let mut next = ahead;
    'comments: while let Some(past) = comment_ahead(next) {
        next = past;
    }
    next
}

/// Returns the look-ahead after the comments that come next and lie completely in the chunk:
/// `ahead` itself if there are none.
// If neither `$` nor white space comes next, no call is made: nearly each turn of a merge asks this
// before a timestamp that it leaves.
#[inline(always)]
pub(crate) fn after_comments<'a>(ahead: Ahead<'a>) -> Ahead<'a>
    requires { passed_of ahead ≤ length (bytes_of ahead) }
    ensures { PassesNoItem ahead.entry result }
{
    let at = ahead.passed();
    let bytes = ahead.bytes();
    if at < bytes.len() && bytes[at] > b' ' && bytes[at] != b'$' {
        return ahead;
    }
    past_comments(ahead)
}

/// Moves the feed past the comments that come next and lie completely in its chunk. It reads
/// nothing from the source. After it the feed's `token` is empty.
pub(crate) fn pass_comments<S: Source>(feed: &mut Feed<'_, '_, '_, '_, S>)
    ensures gives { GivesNoItem feed.old feed.new }
    ensures advances { Advances S.failures feed.old feed.new CallEnd.GoesOn }
    ensures bounded { seen feed.new < 2 ^ 63 }
{
    let past = after_comments(feed.ahead());
    let bytes = past.passed();
    pass_items(feed, bytes);
}

/// Moves the feed past the next `bytes` bytes of its chunk; afterwards its `token` is empty.
/// `bytes` must be what `passed` of an `Ahead` of this feed returned, so that these are whole
/// tokens. It reads nothing from the source.
pub fn pass_items<S: Source>(feed: &mut Feed<'_, '_, '_, '_, S>, bytes: usize)
    requires { (ts : List Token) × Passed (limit_of feed.old) (lines_of feed.old)
        (ahead_of feed.old) bytes ts }
    ensures gives { GivesAhead bytes feed.old feed.new }
    ensures ends { GivesToLast bytes feed.old feed.new }
    ensures advances { Advances S.failures feed.old feed.new CallEnd.GoesOn }
    ensures bounded { seen feed.new < 2 ^ 63 }
    ensures looked { seen feed.new ≡ seen feed.old + bytes }
    ensures source { source_of feed.new ≡ source_of feed.old }
{
    feed.pass(bytes);
}
