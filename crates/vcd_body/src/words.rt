// What tokens of a body are.
ghost use Rattle.std.specs.Prelude.{◌≡◌, ◌≢◌, slice_index, ℕ, ◌+◌, ◌<◌, ◌≤◌, length, true, List, drop, take, ◌∷◌, ◌^◌, ◌&&◌, not, Some, None, ◌-◌, ◌/◌, ◌%◌, IfSome};
ghost use Rattle.vcd_body.specs.Names.{AreBinary, AreBinaryIf, AreBitsAt, Begins, InClear, IsBinaryAt, IsDigitAt, MayBe, StandsAt, StandsFor, binary_digits, bit_at, bit_in, byte, command_is, is_comment, is_empty, is_value_digit as is_digit, list_all};

use crate::item::Section;
use crate::values::bits::Bits;
use std::simd::prelude::*;
use vcd_view::Keyword;

/// What a phrase begins with, by the token's first byte.
#[derive(Clone, Copy, PartialEq, Eq, Debug)]
pub enum PhraseKind {
    /// `#`: a timestamp.
    Timestamp,
    /// The digit `0` or `1` of a value, with its code right after it.
    Bit,
    /// Another digit of a value, with its code right after it.
    Scalar,
    /// `b` or `B`: the digits of a value.
    Vector,
    /// `r` or `R`: the text of a real number.
    Real,
    /// A command, or what begins no phrase.
    Other,
}

/// A keyword where a phrase begins.
#[derive(Clone, Copy, PartialEq, Eq)]
pub(crate) enum KeywordUse {
    Comment,
    Begin(Section),
    End,
    /// A keyword that belongs in the header.
    OfHeader,
}

/// Returns what kind of phrase the token begins, by its first byte; `PhraseKind::Other` if it is
/// empty.
#[inline(always)]
pub(crate) fn phrase_kind(token: &[u8]) -> PhraseKind
    ensures { Begins token.now result }
{
    match token.split_first() {
        Some((byte, _)) => phrase_kind_by(*byte),
        None => PhraseKind::Other,
    }
}

/// Returns what kind of phrase a token with this first byte begins.
// The most frequent first bytes come first: with `#` and `r` before them, `check` of scalars takes
// 30 % more, and of 27,505 codes 5 %.
#[inline(always)]
pub(crate) fn phrase_kind_by(byte: u8) -> PhraseKind
    ensures { (rest : List ℕ) → Begins (byte ∷ rest) result }
{
    if byte == b'0' || byte == b'1' {
        PhraseKind::Bit
    } else if byte == b'b' || byte == b'B' {
        PhraseKind::Vector
    } else if byte == b'#' {
        PhraseKind::Timestamp
    } else if is_value_digit(byte) {
        PhraseKind::Scalar
    } else if byte == b'r' || byte == b'R' {
        PhraseKind::Real
    } else {
        PhraseKind::Other
    }
}

/// Returns the bytes of the token after the first one. There has to be a first one.
#[inline(always)]
pub(crate) fn after_first(token: &[u8]) -> &[u8]
    requires { 0 < length token.now }
    ensures { result.now ≡ drop 1 token.now }
{
    &token[1..]
}

/// Returns the bytes of the token after the first one; no bytes if the token is empty.
#[inline(always)]
pub(crate) fn rest_of(token: &[u8]) -> &[u8]
    ensures { result.now ≡ drop 1 token.now }
{
    match token.split_first() {
        Some((_, rest)) => rest,
        None => &[],
    }
}

/// Returns only the first byte of a token, as a slice; no bytes if the token is empty.
pub(crate) fn first_byte_of(token: &[u8]) -> &[u8]
    ensures { result.now ≡ take 1 token.now }
{
    &token[..token.len().min(1)]
}

/// Returns whether the token is `$comment`.
pub(crate) fn is_comment(token: &[u8]) -> bool
    ensures { result ≡ is_comment token.now }
{
    token == b"$comment".as_slice()
}

/// Returns what a keyword means at the beginning of a phrase of a body: a comment, the begin of a
/// section, the end of one, or that it belongs only in a header.
fn use_of(keyword: Keyword) -> KeywordUse
    ensures { result ≡ command_is keyword }
{
    match keyword {
        Keyword::Comment => KeywordUse::Comment,
        Keyword::DumpVars => KeywordUse::Begin(Section::Vars),
        Keyword::DumpOff => KeywordUse::Begin(Section::Off),
        Keyword::DumpOn => KeywordUse::Begin(Section::On),
        Keyword::DumpAll => KeywordUse::Begin(Section::All),
        Keyword::End => KeywordUse::End,
        Keyword::Date
        | Keyword::EndDefinitions
        | Keyword::Scope
        | Keyword::Timescale
        | Keyword::Upscope
        | Keyword::Var
        | Keyword::Version => KeywordUse::OfHeader,
    }
}

/// Returns what the token means at the beginning of a phrase of a body, if it is a keyword. `None`
/// if it is none.
#[inline(always)]
pub(crate) fn keyword_use_of(token: &[u8]) -> Option<KeywordUse>
    ensures { StandsFor token.now result }
{
    Some(use_of(Keyword::of(token)?))
}

/// Returns whether the byte is a digit of a value: one of `0`, `1`, `x`, `X`, `z` and `Z`.
#[tactic(auto, unfolding(vcd_model::specs::BodyPhrases::is_value_digit))]
#[inline(always)]
fn is_value_digit(byte: u8) -> bool
    ensures { result ≡ is_digit byte }
{
    byte == b'0' || byte == b'1' || byte == b'x' || byte == b'X' || byte == b'z' || byte == b'Z'
}

/// Returns a mask of the 32 bytes from offset `at` on: bit k is set if byte `at + k` is not `byte`.
/// All 32 have to be there.
#[inline(always)]
pub(crate) fn others_32(bytes: &[u8], at: usize, byte: u8) -> u64
    requires { at + 32 ≤ length bytes.now }
    ensures same { (k : ℕ) → k < 32 → bit_at result k ≡ 0 → slice_index bytes.now (at + k) ≡ byte }
    ensures other { (k : ℕ) → k < 32 → bit_at result k ≡ 1 → slice_index bytes.now (at + k) ≢ byte }
{
    let v = u8x32::from_slice(&bytes[at..]);
    v.simd_ne(u8x32::splat(byte)).to_bitmask()
}

/// Returns a mask of the 64 bytes from offset `at` on: bit k is set if byte `at + k` is not `byte`.
/// All 64 have to be there.
#[inline(always)]
pub(crate) fn others_64(bytes: &[u8], at: usize, byte: u8) -> u64
    requires { at + 64 ≤ length bytes.now }
    ensures same { (k : ℕ) → k < 64 → bit_at result k ≡ 0 → slice_index bytes.now (at + k) ≡ byte }
    ensures other { (k : ℕ) → k < 64 → bit_at result k ≡ 1 → slice_index bytes.now (at + k) ≢ byte }
{
    let v = u8x64::from_slice(&bytes[at..]);
    v.simd_ne(u8x64::splat(byte)).to_bitmask()
}

/// Returns how many bits of a mask, from the lowest on, are clear before the first one that is set,
/// among the lowest `n`; `n - 1` if all of these are clear. `n` has to be 1 to 64.
#[inline(always)]
pub(crate) fn clear_bits(mask: u64, n: usize) -> usize
    requires some { 1 ≤ n }
    requires few { n ≤ 64 }
    ensures less { result < n }
    ensures clear { (k : ℕ) → k < result → bit_at mask k ≡ 0 }
    ensures set { result + 1 < n → bit_at mask result ≡ 1 }
{
    if mask == 0 {
        return n - 1;
    }
    (mask.trailing_zeros() as usize).min(n - 1)
}

/// Returns a mask of the 32 bytes from offset `at` on: bit k is set if byte `at + k` is neither `0`
/// nor `1`. All 32 have to be there.
#[inline(always)]
fn nonbinary_32(bytes: &[u8], at: usize) -> u64
    requires { at + 32 ≤ length bytes.now }
    ensures digits { (k : ℕ) → k < 32 → bit_at result k ≡ 0 → IsDigitAt bytes.now (at + k) }
    ensures binary { (k : ℕ) → k < 32 → bit_at result k ≡ 0 → IsBinaryAt bytes.now (at + k) }
{
    let v = u8x32::from_slice(&bytes[at..]) & u8x32::splat(0xfe);
    v.simd_ne(u8x32::splat(b'0')).to_bitmask()
}

/// Returns a mask of the 32 bytes from offset `at` on: bit k is set if byte `at + k` is none of
/// `x`, `X`, `z` and `Z`. All 32 have to be there.
#[inline(always)]
fn known_32(bytes: &[u8], at: usize) -> u64
    requires { at + 32 ≤ length bytes.now }
    ensures { (k : ℕ) → k < 32 → bit_at result k ≡ 0 → IsDigitAt bytes.now (at + k) }
{
    let v = u8x32::from_slice(&bytes[at..]) & u8x32::splat(0xdd);
    v.simd_ne(u8x32::splat(b'X')).to_bitmask()
}

/// Returns a mask of the 32 bytes from offset `at` on: bit k is set if byte `at + k` is no digit of
/// a value. All 32 have to be there.
#[inline(always)]
fn nondigits_32(bytes: &[u8], at: usize) -> u64
    requires { at + 32 ≤ length bytes.now }
    ensures { (k : ℕ) → k < 32 → bit_at result k ≡ 0 → IsDigitAt bytes.now (at + k) }
{
    nonbinary_32(bytes, at) & known_32(bytes, at)
}

/// Returns whether the `n` bytes from offset `at` on, at most 32, are only `0` and `1`. All 32
/// bytes from there on have to exist.
#[inline(always)]
fn are_binary_at(bytes: &[u8], at: usize, n: usize) -> bool
    requires room { at + 32 ≤ length bytes.now }
    requires few { n ≤ 32 }
    ensures digits { result ≡ true → (k : ℕ) → k < n → IsDigitAt bytes.now (at + k) }
    ensures binary { result ≡ true → AreBitsAt bytes.now at n }
{
    nonbinary_32(bytes, at) & ((1 << n) - 1) == 0
}

/// Returns whether the digits are only `0` and `1`, by a look at each. It is for few digits.
fn are_few_binary(digits: &[u8]) -> bool
    ensures { result ≡ true → AreBinary digits.now }
{
    let mut largest = 0;
    for digit in digits {
        let above = digit.wrapping_sub(b'0');
        largest = if largest < above { above } else { largest };
    }
    largest <= 1
}

/// Returns the offset of the first block of `N` bytes whose mask is not 0, and this mask. If all
/// masks are 0, it returns the offset of the last block, and 0. `marks` returns the mask of the
/// block at an offset. There are `len` bytes, at least `N`, and the last block may begin in the one
/// before it.
#[inline(always)]
pub(crate) fn first_marked<const N: usize, F: Fn(usize) -> u64>(
    len: usize,
    marks: F,
) -> (usize, u64)
    requires some { (1 ≤ N) × (N ≤ len) }
    requires callable { (at : ℕ) → at + N ≤ len → F.pre marks at }
    ensures within { result.0 + N ≤ len }
    ensures marked { F.post marks result.0 result.1 }
    ensures before { (k : ℕ) → k < result.0 → InClear (F.post marks) N k }
    ensures none { result.1 ≡ 0 → (k : ℕ) → k < len → InClear (F.post marks) N k }
{
    let last = len - N;
    let mut at = 0;
    while at < last {
        let mask = marks(at);
        if mask != 0 {
            return (at, mask);
        }
        at += N;
    }
    (last, marks(last))
}

/// Returns whether the digits are only `0` and `1`. It compares 32 in one step if there are as
/// many.
#[inline(never)]
pub(crate) fn are_binary(digits: &[u8]) -> bool
    ensures { result ≡ true → AreBinary digits.now }
{
    if digits.len() < 32 {
        return are_few_binary(digits);
    }
    first_marked::<32, _>(digits.len(), |at| nonbinary_32(digits, at)).1 == 0
}

/// Returns whether there are at least 32 bytes and all are digits of a value: `0`, `1`, `x`, `X`,
/// `z` or `Z`. It returns false for fewer bytes.
fn are_many_digits(digits: &[u8]) -> bool
    ensures { result ≡ true → list_all is_digit digits.now ≡ true }
{
    digits.len() >= 32 && first_marked::<32, _>(digits.len(), |at| nondigits_32(digits, at)).1 == 0
}

/// Returns whether all of these bytes are digits of a value: `0`, `1`, `x`, `X`, `z` or `Z`. It
/// compares 32 in one step: one by one, `check` of wide vectors takes 23 % more.
#[inline(never)]
pub(crate) fn are_all_digits(digits: &[u8]) -> bool
    ensures { result ≡ list_all is_digit digits.now }
{
    are_many_digits(digits) || digits.iter().all(|digit| is_value_digit(*digit))
}

/// Returns whether the digits are only `0` and `1`. If `bits` is `Some`, it has their number, so
/// they are, and none is looked at.
#[inline(always)]
pub(crate) fn are_binary_or_known(digits: &[u8], bits: Option<Bits>) -> bool
    requires { MayBe bits digits.now }
    ensures { result ≡ true → AreBinary digits.now }
{
    bits.is_some() || are_binary(digits)
}

/// Returns whether these are one or more digits of a value: `0`, `1`, `x`, `X`, `z` or `Z`. If
/// `binary` is true, all are known to be `0` and `1`, and none is looked at.
#[inline(always)]
pub(crate) fn are_digits_or_binary(digits: &[u8], binary: bool) -> bool
    requires { AreBinaryIf binary digits.now }
    ensures { result ≡ (not (is_empty digits.now) && list_all is_digit digits.now) }
{
    if digits.is_empty() {
        return false;
    }
    binary || are_all_digits(digits)
}

/// Returns a mask of the 32 bytes from offset `at` on: bit 31 - k is set if byte `at + k` is `1`,
/// so the last byte gives the lowest bit. All 32 have to be there.
#[inline(always)]
fn ones_32(bytes: &[u8], at: usize) -> u64
    requires { at + 32 ≤ length bytes.now }
    ensures few { result < 2 ^ 32 }
    ensures bits { (k : ℕ) → k < 32 → bit_at result (31 - k) ≡ bit_in bytes.now (at + k) }
{
    let v = u8x32::from_slice(&bytes[at..]).reverse();
    v.simd_eq(u8x32::splat(b'1')).to_bitmask()
}

/// Returns the number that the `n` binary digits from offset `at` on write; `n` is at most 32. All
/// 32 bytes from there on have to exist.
#[inline(always)]
fn binary_number_at(bytes: &[u8], at: usize, n: usize) -> usize
    requires room { at + 32 ≤ length bytes.now }
    requires few { n ≤ 32 }
    ensures fits { result < 2 ^ n }
    ensures bits { (k : ℕ) → k < n → result / 2 ^ (n - 1 - k) % 2 ≡ bit_in bytes.now (at + k) }
{
    (ones_32(bytes, at) >> (32 - n)) as usize
}

/// Returns `digits`, which begin at offset `at` in `bytes`, as a binary number. `None` if there are
/// none or more than 32, if one of them is not `0` or `1`, or if fewer than 32 bytes are left from
/// `at` on.
// It looks at 32 bytes, without a branch on how many digits there are.
#[inline(always)]
pub(crate) fn bits_at(bytes: &[u8], at: usize, digits: &[u8]) -> Option<Bits>
    requires { StandsAt bytes.now at digits.now }
    ensures { IfSome result (λ b. digits.now ≡ binary_digits b.len b.number) }
{
    let n = digits.len();
    if 1 <= n && n <= 32 && bytes.len() - at >= 32 && are_binary_at(bytes, at, n) {
        let number = binary_number_at(bytes, at, n);
        return Some(Bits { len: n, number });
    }
    None
}
