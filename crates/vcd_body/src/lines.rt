// Changes whose bytes in the chunk are the line that would be written.
ghost use Rattle.std.specs.Prelude.{◌≡◌, ◌≢◌, ℕ, ◌+◌, ◌-◌, ◌<◌, ◌≤◌, List, true, false, length, slice_range, Some, IfSome};
ghost use Rattle.vcd_body.specs.Names.{AreBinaryIf, BodyItem, HasChange, HasTimestamp, HeadView, Header, IsDigitLine, IsItem, IsNeedless, IsSizedItem, IsSpelled, IsSpelledAs, IsTextLine, IsViewOf, LeavesFront, LeavesLine, LeavesShortest, LeavesText, StandsAt, byte, is_value_digit, is_white_space, item_line, line_without, time_line, to_ascii_lowercase as lower};
ghost use Rattle.vcd_body.specs.declared.item.Item.TheVariants as item;

use crate::ahead::ScannedItem;
use crate::change::needless;
use crate::digits::are_lower;
use crate::item::{Form, Item};
use crate::words::{clear_bits, others_32, others_64};
use std::simd::prelude::*;

/// Returns whether a digit is no capital letter: whether bit 5 is set, as in `0`, `1`, `x` and `z`.
#[inline(always)]
pub(crate) fn is_lower(digit: u8) -> bool
    ensures yes { result ≡ true → lower digit ≡ digit }
    ensures no { result ≡ false → is_value_digit digit ≡ true → lower digit ≢ digit }
{
    digit & 0x20 != 0
}

/// Returns whether a scalar change in the bytes from `from` up to `to` (exclusive) is already as it
/// would be written: whether its digit is in lower case and its code begins right after it, at
/// offset `code_at`.
#[inline(always)]
fn is_bit_line(bytes: &[u8], from: usize, to: usize, code_at: usize) -> bool
    requires { (text code : List ℕ) × HasChange bytes.now from to Form.Scalar text code }
    ensures { result ≡ true → IsDigitLine bytes.now from to code_at }
{
    (from + 1 == code_at) & (bytes[from] & 0x20 != 0)
}

/// Returns whether a change in the bytes from `from` up to `to` (exclusive) begins with the byte
/// `first`, and has exactly one blank between its text, which is `text`, and its code, which begins
/// at offset `code_at`.
#[inline(always)]
fn has_one_blank(
    bytes: &[u8],
    from: usize,
    to: usize,
    first: u8,
    text: &[u8],
    code_at: usize,
) -> bool
    requires spelled { (code : List ℕ) × HasChange bytes.now from to Form.Vector text.now code }
    requires letter { is_white_space first ≡ false }
    ensures position { result ≡ true
        → text.now ≡ slice_range bytes.now (from + 1) (from + 1 + length text.now) }
    ensures line { result ≡ true → IsTextLine bytes.now from to first text.now code_at }
{
    let text_end = from + 1 + text.len();
    (text_end + 1 == code_at) & (bytes[from] == first) & (bytes[text_end] == b' ')
}

/// Returns how many digits on the left can be left out without a change of the value that the rest
/// extends to. `None` if there is no digit, or if one of the rest is a capital letter.
#[inline(never)]
fn needless_before_lower(digits: &[u8]) -> Option<usize>
    ensures { IfSome result (IsNeedless digits.now) }
{
    if digits.is_empty() {
        return None;
    }
    let k = needless(digits);
    if !are_lower(&digits[k..]) {
        return None;
    }
    Some(k)
}

/// Returns how many leading zeros of binary digits can be left out: all of them, but never the last
/// digit. The digits begin at offset `at` in `bytes`. `None` if there are no digits, or if there
/// are at most 32 of them and fewer than 32 bytes are left from `at` on.
// It looks at 32 bytes in one load, or at 64 digits in two: from the number of the digits, `pick`
// of five of 27,505 codes takes 6 % more, and without the arm for 64, `merge` of Verilator's 5 %.
#[inline(always)]
fn left_out_of_binary(bytes: &[u8], at: usize, digits: &[u8]) -> Option<usize>
    requires { StandsAt bytes.now at digits.now }
    ensures { IfSome result (LeavesShortest digits.now true) }
{
    let n = digits.len();
    if n <= 32 {
        if n == 0 || bytes.len() - at < 32 {
            return None;
        }
        return Some(clear_bits(others_32(bytes, at, b'0'), n));
    }
    if n == 64 {
        return Some(clear_bits(others_64(bytes, at, b'0'), 64));
    }
    if digits[0] == b'1' {
        return Some(0);
    }
    Some(needless(digits))
}

/// Returns how many digits on the left can be left out without a change of the value that the rest
/// extends to. The digits begin at offset `at` in `bytes`, and `binary` says that all are known to
/// be `0` and `1`. `None` if there are no digits, if one of the rest may be a capital letter, or if
/// there are at most 32 binary digits and fewer than 32 bytes are left from `at` on.
// Binary digits have no capital letters, so none is looked for: otherwise `pick` of all of wide
// vectors takes 19 % more, and of Verilator's 35 %.
#[inline(always)]
fn left_out_of(bytes: &[u8], at: usize, digits: &[u8], binary: bool) -> Option<usize>
    requires { StandsAt bytes.now at digits.now }
    ensures { IfSome result (LeavesShortest digits.now binary) }
{
    if binary {
        return left_out_of_binary(bytes, at, digits);
    }
    needless_before_lower(digits)
}

/// Returns how many digits after the `b` of a vector change to leave out, so that the rest of its
/// bytes is the line that would be written. The change has the bytes from `from` up to `to`
/// (exclusive), its digits are `digits`, all known to be `0` and `1` if `binary` is true, and its
/// code begins at offset `code_at`. `None` if no such rest is the line, or if that is not known.
#[inline(always)]
fn left_out_of_vector(
    bytes: &[u8],
    from: usize,
    to: usize,
    digits: &[u8],
    binary: bool,
    code_at: usize,
) -> Option<usize>
    requires { (code : List ℕ) × HasChange bytes.now from to Form.Vector digits.now code }
    ensures { IfSome result (LeavesLine bytes.now from to digits.now binary code_at) }
{
    if !has_one_blank(bytes, from, to, b'b', digits, code_at) {
        return None;
    }
    left_out_of(bytes, from + 1, digits, binary)
}

/// Returns how many bytes after the first one of a vector or a real number to leave out, so that
/// the rest of its bytes is the line that would be written. `scanned` is the change, of this form,
/// and its code has this size. `None` if no such rest is the line, or if that is not known.
#[inline(always)]
fn left_out_of_text(scanned: ScannedItem<'_>, form: Form, size: usize) -> Option<usize>
    requires { (code : List ℕ)
        × HasChange scanned.bytes.now scanned.begin scanned.end form scanned.text.now code }
    ensures { IfSome result (LeavesText
        scanned.entry.bytes.now scanned.entry.begin scanned.entry.end size form
        scanned.entry.text.now scanned.entry.binary scanned.entry.code_at) }
{
    let (bytes, text) = (scanned.bytes, scanned.text);
    let (from, to, code_at) = (scanned.begin, scanned.end, scanned.code_at);
    match form {
        Form::Vector if size > 1 => left_out_of_vector(
            bytes,
            from,
            to,
            text,
            scanned.binary,
            code_at,
        ),
        Form::RealText if has_one_blank(bytes, from, to, b'r', text, code_at) => Some(0),
        _ => None,
    }
}

/// Returns how many bytes of a change after its first one to leave out, so that the rest and a line
/// feed are the line that `put_change` would write. `scanned` is the change; the last of its bytes
/// is the one after its code, and does not belong to the rest.
///
/// `None` for an item that is no change, if the size of its code is not known, or if no such rest
/// is the line or that is not known.
#[inline(always)]
pub fn left_out(scanned: ScannedItem<'_>) -> Option<usize>
    requires { (v : HeadView) × (scanned.size_or_zero ≢ 0 → IsSpelled v scanned) }
    ensures within { IfSome result (λ k. (scanned.entry.begin + 2 + k ≤ scanned.entry.end)
        × (scanned.entry.end ≤ length scanned.entry.bytes.now)) }
    ensures line { IfSome result (λ k. (v : HeadView) (h : Header) (x : BodyItem)
        → (scanned.entry.size_or_zero ≢ 0 → IsSpelled v scanned.entry)
        → AreBinaryIf scanned.entry.binary scanned.entry.text.now
        → (scanned.entry.size_or_zero ≢ 0
        → IsSizedItem v.codes.now scanned.entry.item scanned.entry.size_or_zero)
        → IsViewOf v h → IsItem h.codes scanned.entry.text.now scanned.entry.item x
        → line_without scanned.entry.bytes.now scanned.entry.begin scanned.entry.end k
        ≡ item_line x) }
{
    let Item::Change { form, .. } = scanned.item else {
        return None;
    };
    let size = scanned.size()?;
    let (from, to) = (scanned.begin, scanned.end);
    match form {
        Form::Scalar if size == 1 && is_bit_line(scanned.bytes, from, to, scanned.code_at) => {
            Some(0)
        }
        _ => left_out_of_text(scanned, form, size),
    }
}

/// Returns how many bytes after the first one of a vector or a real number to leave out, so that
/// the rest up to the blank before its code is the beginning of its line, whatever its code.
/// `scanned` is the change, of this form. `None` if no such rest is the beginning, or if that is
/// not known.
#[inline(always)]
pub(crate) fn left_out_of_front(scanned: ScannedItem<'_>, form: Form) -> Option<usize>
    requires spelled { (v : HeadView) × (code : ℕ) × IsSpelledAs v scanned (item.Change code form) }
    requires binary { AreBinaryIf scanned.binary scanned.text.now }
    ensures { IfSome result (LeavesFront
        scanned.entry.bytes.now scanned.entry.begin scanned.entry.size_or_zero form
        scanned.entry.text.now scanned.entry.code_at) }
{
    left_out_of_text(scanned, form, scanned.size_or_zero)
}

/// Returns whether a timestamp in these bytes is already as it would be written: whether the byte
/// before offset `at` is `#`, and the digits, from `at` up to `to - 1` (exclusive), have no leading
/// zeros. It does not check that they are digits, and does not look at the byte at `to - 1`, the
/// one after the token.
#[inline(always)]
pub fn is_timestamp_line(bytes: &[u8], at: usize, to: usize) -> bool
    requires { (from time : ℕ) × HasTimestamp bytes.now from to at time }
    ensures { result ≡ true → (from time : ℕ) → HasTimestamp bytes.now from to at time
        → line_without bytes.now (at - 1) to 0 ≡ time_line time }
{
    (bytes[at - 1] == b'#') & ((bytes[at] != b'0') | (to == at + 2))
}
