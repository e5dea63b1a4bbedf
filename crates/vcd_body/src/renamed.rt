// Lines that end with a new code, given by its number.
ghost use Rattle.std.specs.Prelude.{◌≡◌, ◌≢◌, ℕ, ◌+◌, ◌-◌, ◌%◌, ◌^◌, ◌<◌, ◌≤◌, ◌++◌, ◌∷◌, [], List, take, false, true, length, IfSome, None};
ghost use Rattle.vcd_body.specs.Names.{AreBinaryIf, Puts, PutsTo, bytes_without, is_value_digit, line_under, new_code, to_ascii_lowercase as lower, HeadView, IsSpelledAs};
ghost use Rattle.vcd_body.specs.declared.item.Item.TheVariants as item;

use crate::ahead::ScannedItem;
use crate::change::put_code_text;
use crate::id::Id;
use crate::item::Form;
use crate::lines::{is_lower, left_out_of_front};
use crate::put_line::{is_bit, put_change};
use vcd_text::{Few, Sink, WriteFailed, put, put_few, put_parts};
use vcd_view::NewCode;

/// Returns the first byte of the code that a merged dump has for this number: its lowest digit in
/// base 94, from `!` on.
#[inline(always)]
fn code_byte(number: u64) -> u8
    ensures { result ≡ 33 + number % 94 }
{
    (number % 94) as u8 + 33
}

/// Returns the first `len` of these bytes, at most 8, by way of one number.
// The compiler then keeps all 8 in one register: without this `merge` of scalars takes 5 % more.
#[inline(always)]
fn few(bytes: [u8; 8], len: usize) -> Few
    requires { len ≤ 8 }
    ensures bytes { result.bytes ≡ bytes }
    ensures len { result.len ≡ len }
{
    Few {
        bytes: u64::from_le_bytes(bytes).to_le_bytes(),
        len,
    }
}

/// Returns the byte `first`, the code that a merged dump has for this number, and a line feed, if
/// the number is below 830,584, so that the code has up to three bytes. `None` for a greater
/// number.
// Eight bytes in a number, so that `write_few` copies them without a length.
#[inline(always)]
fn short_end(first: u8, number: u64) -> Option<Few>
    ensures { IfSome result (λ end.
        take end.len end.bytes ≡ first ∷ new_code number ++ 10 ∷ []) }
{
    if number < 94 {
        let low = number as u8 + 33;
        return Some(few([first, low, b'\n', 0, 0, 0, 0, 0], 3));
    }
    let low = code_byte(number);
    let rest = number / 94;
    if rest < 94 {
        let high = rest as u8 + 33;
        return Some(few([first, low, high, b'\n', 0, 0, 0, 0], 4));
    }
    let high = rest / 94;
    if high < 94 {
        let middle = code_byte(rest);
        let high = high as u8 + 33;
        return Some(few([first, low, middle, high, b'\n', 0, 0, 0], 5));
    }
    None
}

/// Writes the byte `first`, the code that a merged dump has for this number, and a line feed. If a
/// write fails, a prefix was written.
#[cold]
#[inline(never)]
fn put_any_code<W: Sink>(first: u8, number: u64, w: &mut W) -> Result<(), WriteFailed>
    requires { (W.device w.old).failures < 2 ^ 64 - 1 }
    ensures { Puts (W.device w.old) (W.device w.new) (first ∷ new_code number ++ 10 ∷ []) result }
{
    put_code_text(w, first, NewCode::of(number).text())
}

/// Writes the byte `first`, the code that a merged dump has for this number, and a line feed: in
/// one write if the code has up to three bytes. If a write fails, a prefix was written.
#[inline(always)]
pub fn put_code_line<W: Sink>(first: u8, number: u64, w: &mut W) -> Result<(), WriteFailed>
    requires { (W.device w.old).failures < 2 ^ 64 - 1 }
    ensures { Puts (W.device w.old) (W.device w.new) (first ∷ new_code number ++ 10 ∷ []) result }
{
    match short_end(first, number) {
        Some(end) => put_few(w, end),
        None => put_any_code(first, number, w),
    }
}

/// Writes the line of a change under the code that a merged dump has for this number. `size` and
/// `event` are those of the change's own code, and `text` is as `change_text` returns it. For a
/// change of digits that is no event it must not be empty. If a write fails, a prefix was written.
#[inline(always)]
pub fn put_renamed<W: Sink>(
    size: usize,
    event: bool,
    form: Form,
    text: &[u8],
    number: u64,
    w: &mut W,
) -> Result<(), WriteFailed>
    requires failures { (W.device w.old).failures < 2 ^ 64 - 1 }
    requires digits { event ≡ false → form ≢ Form.RealText → 0 < length text.now }
    ensures { PutsTo W.device w.old w.new (line_under (new_code number) size event form text.now) result }
{
    put_change(size, event, form, text, Id::Number(number), w)
}

/// Writes the bytes from `from` up to `end` (exclusive), without the `left_out` bytes after the
/// first one, then a blank, the code that a merged dump has for this number, and a line feed, in
/// several writes. If a write fails, a prefix was written.
#[cold]
#[inline(never)]
fn put_copied_slowly<W: Sink>(
    bytes: &[u8],
    from: usize,
    end: usize,
    left_out: usize,
    number: u64,
    w: &mut W,
) -> Result<(), WriteFailed>
    requires failures { (W.device w.old).failures < 2 ^ 64 - 1 }
    requires few { from + 1 + left_out ≤ end }
    requires within { end ≤ length bytes.now }
    ensures { Puts (W.device w.old) (W.device w.new)
        (bytes_without bytes.now from end left_out ++ (32 ∷ new_code number ++ 10 ∷ [])) result }
{
    put(w, &bytes[from..from + 1])?;
    put(w, &bytes[from + 1 + left_out..end])?;
    put_any_code(b' ', number, w)
}

/// Writes the bytes from `from` up to `end` (exclusive), without the `left_out` bytes after the
/// first one, then a blank, the code that a merged dump has for this number, and a line feed. The
/// sink may read the bytes after `end` too. If a write fails, a prefix was written.
// Mostly one write. With three writes, `merge` of Verilator's takes 58 % more.
#[inline(never)]
fn put_copied<W: Sink>(
    bytes: &[u8],
    from: usize,
    end: usize,
    left_out: usize,
    number: u64,
    w: &mut W,
) -> Result<(), WriteFailed>
    requires failures { (W.device w.old).failures < 2 ^ 64 - 1 }
    requires few { from + 1 + left_out ≤ end }
    requires within { end ≤ length bytes.now }
    ensures { Puts (W.device w.old) (W.device w.new)
        (bytes_without bytes.now from end left_out ++ (32 ∷ new_code number ++ 10 ∷ [])) result }
{
    let Some(code) = short_end(b' ', number) else {
        return put_copied_slowly(bytes, from, end, left_out, number, w);
    };
    let rest = from + 1 + left_out;
    put_parts(w, bytes[from], &bytes[rest..], end - rest, code)
}

/// Returns the digit of a change of this form that was taken ahead, if its line is only this digit,
/// a code and a line feed. `None` if it is no scalar, if the size of its code is not 1, or if its
/// digit is a capital letter.
#[inline(always)]
pub fn only_digit(scanned: ScannedItem<'_>, form: Form) -> Option<u8>
    ensures size { IfSome result (λ _. scanned.entry.size_or_zero ≡ 1) }
    ensures line { IfSome result (λ digit. (id : List ℕ)
        → line_under id scanned.entry.size_or_zero false form scanned.entry.text.now
        ≡ digit ∷ id ++ 10 ∷ []) }
    ensures none { result ≡ None → (digit : ℕ) → scanned.entry.text.now ≡ digit ∷ []
        → is_value_digit digit ≡ true → scanned.entry.size_or_zero ≡ 1 → form ≡ Form.Scalar
        → lower digit ≢ digit }
{
    match scanned.text {
        [digit] if is_bit(scanned.size_or_zero, false, form) && is_lower(*digit) => Some(*digit),
        _ => None,
    }
}

/// Writes the line of a change under the code that a merged dump has for this number. `scanned` is
/// the change, of this form, and is no event. If it is known that its line begins with its bytes in
/// the chunk, or with all but some needless digits, they are copied; otherwise the line is made of
/// its text. If a write fails, a prefix was written.
// Digits are copied and not looked at one by one: without this `merge` of Verilator's takes 40 %
// more.
#[inline(always)]
pub fn put_renamed_ahead<W: Sink>(
    scanned: ScannedItem<'_>,
    form: Form,
    number: u64,
    w: &mut W,
) -> Result<(), WriteFailed>
    requires failures { (W.device w.old).failures < 2 ^ 64 - 1 }
    requires spelled { (v : HeadView) × (code : ℕ) × IsSpelledAs v scanned (item.Change code form) }
    requires digits { form ≢ Form.RealText → 0 < length scanned.text.now }
    requires binary { AreBinaryIf scanned.binary scanned.text.now }
    ensures { Puts (W.device w.old) (W.device w.new)
        (line_under (new_code number) scanned.entry.size_or_zero false form scanned.entry.text.now) result }
{
    let size = scanned.size_or_zero;
    match left_out_of_front(scanned, form) {
        Some(k) => {
            let end = scanned.code_at - 1;
            put_copied(scanned.bytes, scanned.begin, end, k, number, w)
        }
        None => put_renamed(size, false, form, scanned.text, number, w),
    }
}
