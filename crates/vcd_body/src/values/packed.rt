// Digits in a share: four to a byte, one of each quarter of them.
ghost use Rattle.std.specs.Prelude.{◌≡◌, ◌≢◌, ◌≤◌, ◌<◌, ◌+◌, ◌-◌, ◌*◌, ◌/◌, ℕ, Some, get_or, length, map, slice_get, false, true};
ghost use Rattle.vcd_body.specs.Names.{ArePacked, AreTwo, HasFour, bit_at, chunk, two_bits_at, two_bits_of, two_bits_or, digit_of, digits_in, packed_byte, held_digit, quarter_of, shifted, str_to_ascii_lowercase};

use crate::words::{are_all_digits, first_marked};
use std::simd::prelude::*;

/// Returns the digit, in lower case, that two bits stand for where digits are packed four to a
/// byte: `0` for 0, `1` for 1, `x` for 3, and `z` for any other number.
#[inline(always)]
fn digit_of(code: u8) -> u8
    ensures { result ≡ digit_of code }
{
    match code {
        0 => b'0',
        1 => b'1',
        3 => b'x',
        _ => b'z',
    }
}

// For each value of a byte's lowest four bits, the digit with these bits as two bits: 0 for `0`, 1
// for `1`, 3 for an x, and 2 for a z and all others.
const TWO_BITS: [u8; 16] = [0, 1, 2, 2, 2, 2, 2, 2, 3, 2, 2, 2, 2, 2, 2, 2];

/// Returns the two bits of each of the 16 digits from offset `at` on, moved to the left by `shift`
/// bits: 0 for `0`, 1 for `1`, 3 for `x` and `X`, and 2 for `z` and `Z`. All 16 bytes have to be
/// there.
// It moves the table, which takes no instruction, since `shift` is known when the program is built.
// With additions that move the codes, `cut` before its window takes 3 % more of wide vectors.
#[inline(always)]
fn two_bits_16(bytes: &[u8], at: usize, shift: u8) -> u8x16
    requires there { at + 16 ≤ length bytes.now }
    requires shift { shift < 8 }
    ensures { result ≡ map (λ d. shifted shift (two_bits_of d)) (chunk at 16 bytes.now) }
{
    let v = u8x16::from_slice(&bytes[at..]);
    let codes = u8x16::from_array(TWO_BITS) << u8x16::splat(shift);
    codes.swizzle_dyn(v & u8x16::splat(15))
}

/// Returns the two bits of a digit: 0 for `0`, 1 for `1`, 3 for `x` and `X`, and 2 for `z` and `Z`.
/// It takes no branch.
#[inline(always)]
fn two_bits_of(digit: u8) -> u8
    ensures { result ≡ two_bits_of digit }
{
    TWO_BITS[usize::from(digit % 16)]
}

/// Returns whether one of the last digits of `bytes`, which are digits packed by `pack`, differs
/// from that of a text at the same place, counted from the last digit. It compares up to eight
/// digits, and no more than a quarter of those that are packed, or than the text has.
#[inline(always)]
pub(crate) fn ends_differ(bytes: &[u8], text: &[u8]) -> bool
    ensures differ { result ≡ true → (len : ℕ) → quarter_of len ≡ length bytes.now
        → AreTwo (digits_in len bytes.now) text.now }
    ensures some { result ≡ true → 1 ≤ length text.now }
{
    for back in 0..bytes.len().min(text.len()).min(8) {
        if bytes[bytes.len() - 1 - back] / 64 != two_bits_of(text[text.len() - 1 - back]) {
            return true;
        }
    }
    false
}

/// Returns 16 bytes of packed digits: byte k has the digits of the text at k bytes after `first`,
/// `second`, `third` and `last`, that after `first` in its lowest two bits. All of these digits
/// have to be there.
// Each byte has one digit from each offset, so four loads and no shuffle give 16 bytes.
#[inline(always)]
fn packed_from(text: &[u8], first: usize, second: usize, third: usize, last: usize) -> u8x16
    requires first { first + 16 ≤ length text.now }
    requires second { second + 16 ≤ length text.now }
    requires third { third + 16 ≤ length text.now }
    requires last { last + 16 ≤ length text.now }
    ensures long { length result ≡ 16 }
    ensures each { (k : ℕ) → k < 16 → get_or result k 0 ≡ two_bits_or text.now (first + k)
        + 4 * two_bits_or text.now (second + k) + 16 * two_bits_or text.now (third + k)
        + 64 * two_bits_or text.now (last + k) }
{
    two_bits_16(text, first, 0)
        + two_bits_16(text, second, 2)
        + two_bits_16(text, third, 4)
        + two_bits_16(text, last, 6)
}

/// Returns 16 bytes of packed digits (`pack`): byte k has those at index `at + k` of each quarter
/// of the text. A quarter has `quarter` digits, at least `at + 16`, and the last one ends where the
/// text ends.
#[inline(always)]
fn packed_16(text: &[u8], quarter: usize, at: usize) -> u8x16
    requires within { at + 16 ≤ quarter }
    requires quarter { 3 * quarter ≤ length text.now }
    ensures long { length result ≡ 16 }
    ensures each { (k : ℕ) → k < 16 → get_or result k 0 ≡ packed_byte text.now quarter (at + k) }
{
    packed_from(
        text,
        at,
        at + quarter,
        at + 2 * quarter,
        at + (text.len() - quarter),
    )
}

/// Copies the first `N` and the last `N` bytes of a text, which together are all of it, to the
/// front of `block`. The other bytes of `block` stay as they are.
#[inline(always)]
fn put_ends<const N: usize>(block: &mut [u8; 64], text: &[u8])
    requires some { N ≤ length text.now }
    requires all { length text.now ≤ 2 * N }
    requires few { length text.now ≤ 64 }
    ensures front { (k : ℕ) → k < length text.now → get_or block.new k 0 ≡ get_or text.now k 0 }
    ensures rest { (k : ℕ) → length text.now ≤ k → get_or block.new k 0 ≡ get_or block.old k 0 }
{
    let last = text.len() - N;
    block[..N].copy_from_slice(&text[..N]);
    block[last..last + N].copy_from_slice(&text[last..]);
}

/// Copies a text of at most 64 bytes to the front of `block`. The other bytes of `block` stay as
/// they are.
// The lengths of all copies but the last are known when the program is built: a copy of an unknown
// length is a call. With calls here and in `copy_packed`, `cut` of `bx0 "` and `b1x "` before its
// window takes 11 % more, and of real dumps at most 2 %.
#[inline(always)]
fn put_text(block: &mut [u8; 64], text: &[u8])
    requires { length text.now ≤ 64 }
    ensures front { (k : ℕ) → k < length text.now → get_or block.new k 0 ≡ get_or text.now k 0 }
    ensures rest { (k : ℕ) → length text.now ≤ k → get_or block.new k 0 ≡ get_or block.old k 0 }
{
    let n = text.len();
    if n >= 32 {
        put_ends::<32>(block, text);
    } else if n >= 16 {
        put_ends::<16>(block, text);
    } else if n >= 8 {
        put_ends::<8>(block, text);
    } else if n >= 4 {
        put_ends::<4>(block, text);
    } else if n >= 2 {
        put_ends::<2>(block, text);
    } else {
        block[..n].copy_from_slice(text);
    }
}

/// Sets `block` to the digits of a text, at most 64, and to the digit `0` for each that is missing
/// after its last.
#[inline(always)]
fn pad(block: &mut [u8; 64], text: &[u8])
    requires { length text.now ≤ 64 }
    ensures { (k : ℕ) → k < 64 → two_bits_or block.new k ≡ two_bits_or text.now k }
{
    *block = [b'0'; 64];
    put_text(block, text);
}

/// Returns the bytes that `pack` writes for a text whose quarters have `quarter` digits, fewer than
/// 16. The bytes from index `quarter` on have no meaning.
#[inline(always)]
fn packed_few(text: &[u8], quarter: usize) -> [u8; 16]
    requires few { quarter < 16 }
    requires quarter { quarter ≡ quarter_of (length text.now) }
    ensures { ArePacked result text.now quarter }
{
    let mut block = [0; 64];
    pad(&mut block, text);
    let last = text.len() - quarter;
    packed_from(&block, 0, quarter, 2 * quarter, last).to_array()
}

/// Packs 16 digits of each quarter of a text, those at the indexes `at` to `at + 15` of the
/// quarter, four to a byte, into the 16 bytes from offset `at` on. A quarter has `quarter` digits,
/// at least `at + 16`. The other bytes stay as they are.
#[inline(always)]
fn pack_16(bytes: &mut [u8], text: &[u8], quarter: usize, at: usize)
    requires within { at + 16 ≤ quarter }
    requires room { quarter ≤ length bytes.old }
    requires quarter { 3 * quarter ≤ length text.now }
    ensures packed { (k : ℕ) → k < 16 → HasFour bytes.new text.now quarter (at + k) }
    ensures before { (index : ℕ) → index < at → get_or bytes.new index 0 ≡ get_or bytes.old index 0 }
{
    packed_16(text, quarter, at).copy_to_slice(&mut bytes[at..]);
}

/// Returns a mask of the 16 bytes from offset `at` on: bit k is set if byte `at + k` is not what
/// `pack_16` writes there. All 16 have to be there.
#[inline(always)]
fn differing_16(bytes: &[u8], text: &[u8], quarter: usize, at: usize) -> u64
    requires within { at + 16 ≤ quarter }
    requires room { quarter ≤ length bytes.now }
    requires quarter { 3 * quarter ≤ length text.now }
    ensures { (k : ℕ) → k < 16 → bit_at result k ≡ 0 → HasFour bytes.now text.now quarter (at + k) }
{
    let packed = packed_16(text, quarter, at);
    u8x16::from_slice(&bytes[at..]).simd_ne(packed).to_bitmask()
}

/// Returns whether the first bytes of `bytes` are what `pack` writes for this text. The quarters of
/// the text have `quarter` digits. It compares 16 bytes in one step.
#[inline(always)]
fn are_packed(bytes: &[u8], text: &[u8], quarter: usize) -> bool
    requires room { quarter ≤ length bytes.now }
    requires quarter { quarter ≡ quarter_of (length text.now) }
    ensures { result ≡ true → ArePacked bytes.now text.now quarter }
{
    if quarter < 16 {
        return bytes[..quarter] == packed_few(text, quarter)[..quarter];
    }
    first_marked::<16, _>(quarter, |at| differing_16(bytes, text, quarter, at)).1 == 0
}

/// Returns whether the text consists of digits of a value, and `bytes` begins with what `pack`
/// writes for it. `X` equals `x`, and `Z` equals `z`. Returns false if `bytes` is too short.
// It compares bytes of the share: digit by digit, `edges` of vectors of 128 bits takes 4.5 times as
// many instructions.
pub(crate) fn holds_packed(bytes: &[u8], text: &[u8]) -> bool
    ensures same { result ≡ true
        → digits_in (length text.now) bytes.now ≡ str_to_ascii_lowercase text.now }
    ensures held { result ≡ true → digits_in (length text.now) bytes.now ≡ map held_digit text.now }
{
    let quarter = text.len().div_ceil(4);
    if bytes.len() < quarter {
        return false;
    }
    if !are_packed(bytes, text, quarter) {
        return false;
    }
    are_all_digits(text)
}

/// Packs the digits of a text into the first bytes of `bytes`, as `pack` says. The quarters of the
/// text have `quarter` digits, at least 16. It packs 16 of each at a time, some of the last 16
/// twice.
fn pack_many(bytes: &mut [u8], text: &[u8], quarter: usize)
    requires room { quarter ≤ length bytes.old }
    requires many { 16 ≤ quarter }
    requires quarter { 3 * quarter ≤ length text.now }
    ensures { ArePacked bytes.new text.now quarter }
{
    let last = quarter - 16;
    let mut at = 0;
    while at < last {
        pack_16(bytes, text, quarter, at);
        at += 16;
    }
    pack_16(bytes, text, quarter, last);
}

/// Copies the first `quarter` bytes of `packed`, fewer than 16, to the front of `bytes`, which must
/// have as many; all 16 if `bytes` has as many.
#[inline(always)]
fn copy_packed(bytes: &mut [u8], packed: [u8; 16], quarter: usize)
    requires few { quarter < 16 }
    requires room { quarter ≤ length bytes.old }
    ensures { (k : ℕ) → k < quarter → get_or bytes.new k 0 ≡ get_or packed k 0 }
{
    if bytes.len() >= 16 {
        u8x16::from_array(packed).copy_to_slice(&mut bytes[0..]);
    } else {
        bytes[..quarter].copy_from_slice(&packed[..quarter]);
    }
}

/// Packs the digits of a text into the first bytes of `bytes`, four to a byte, by two bits each:
/// byte k has digit k of each quarter of the text. `bytes` must have at least as many bytes as a
/// quarter, rounded up, has digits; of those after these, the ones before the 16th may change.
#[inline(always)]
pub(crate) fn pack(bytes: &mut [u8], text: &[u8])
    requires room { length text.now ≤ 4 * length bytes.old }
    ensures { digits_in (length text.now) bytes.new ≡ map held_digit text.now }
{
    let quarter = text.len().div_ceil(4);
    if quarter < 16 {
        copy_packed(bytes, packed_few(text, quarter), quarter);
    } else {
        pack_many(bytes, text, quarter);
    }
}

/// Returns the digit at `index`, counted from the left, in lower case, of `bytes`, which are `len`
/// digits packed by `pack`. `None` after the last.
#[inline(always)]
pub(crate) fn digit_at(bytes: &[u8], len: usize, index: usize) -> Option<u8>
    requires { quarter_of len ≤ length bytes.now }
    ensures { result ≡ slice_get (digits_in len bytes.now) index }
{
    if index >= len {
        return None;
    }
    Some(digit_of(two_bits_at(bytes, len, index)))
}

/// Returns the last digit, in lower case, of `bytes`, which are digits packed by `pack`. There has
/// to be at least one.
#[inline(always)]
pub(crate) fn last_packed(bytes: &[u8]) -> u8
    requires { 1 ≤ length bytes.now }
    ensures { (len : ℕ) → quarter_of len ≡ length bytes.now
        → slice_get (digits_in len bytes.now) (len - 1) ≡ Some result }
{
    digit_of(bytes[bytes.len() - 1] / 64)
}

/// Returns the two bits of the digit at `index`, counted from the left and less than `len`, of
/// `bytes`, which are `len` digits packed by `pack`. The last quarter ends where the digits do, so
/// it may have some digits of the third one again.
#[inline(always)]
fn two_bits_at(bytes: &[u8], len: usize, index: usize) -> u8
    requires there { index < len }
    requires room { quarter_of len ≤ length bytes.now }
    ensures { result ≡ two_bits_at len bytes.now index }
{
    let quarter = len.div_ceil(4);
    let last = len - quarter;
    if index >= last {
        return bytes[index - last] / 64;
    }
    if index < quarter {
        return bytes[index] % 4;
    }
    if index - quarter < quarter {
        return bytes[index - quarter] / 4 % 4;
    }
    bytes[index - quarter - quarter] / 16 % 4
}
