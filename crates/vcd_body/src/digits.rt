//! Digits in lower case, of a text or held, and their extension on the left.
ghost use Rattle.std.specs.Prelude.{◌≡◌, ℕ, ◌+◌, ◌-◌, ◌^◌, ◌<◌, ◌≤◌, ◌∷◌, IfSome, List, [], drop, get_or, length, take, true};
ghost use Rattle.vcd_body.specs.Names.{Puts, Serves, extend, extension, short, str_to_ascii_lowercase};

use vcd_text::{Sink, WriteFailed, put};

// How many digits one call writes at most.
pub(crate) const BLOCK: usize = 64;

/// Digits in lower case.
pub(crate) trait Digits: Copy {
    // The digits, from the left.
    ghost digits: { Self → List ℕ };

    /// Returns how many digits there are.
    fn count(self) -> usize
        ensures { result ≡ length (digits self) };

    /// Returns the digit at `index`, counted from the left. It is the byte 0 after the last.
    fn digit(self, index: usize) -> u8
        ensures { result ≡ get_or (digits self) index 0 };

    /// Returns the digits as they lie in memory. `None` if they do not, or if that is not known.
    // Without it `cut` of wide vectors takes 4 % more.
    #[inline(always)]
    fn bytes(&self) -> Option<&[u8]>
        ensures { IfSome result (λ bytes. bytes.now ≡ digits self.now) }
    {
        None
    }
}

/// The digits of a text, in lower case.
#[derive(Clone, Copy)]
pub(crate) struct Lower<'a> {
    pub(crate) text: &'a [u8],
}

impl Digits for Lower<'_> {
    ghost digits = { λ lower. str_to_ascii_lowercase lower.text.now };

    /// Returns how many digits there are.
    #[inline(always)]
    fn count(self) -> usize {
        self.text.len()
    }

    /// Returns the digit at `index`, counted from the left. It is the byte 0 after the last.
    #[inline(always)]
    fn digit(self, index: usize) -> u8 {
        match self.text.get(index) {
            Some(digit) => digit.to_ascii_lowercase(),
            None => 0,
        }
    }

    /// Returns the text if it has no capital letters.
    fn bytes(&self) -> Option<&[u8]> {
        are_lower(self.text).then_some(self.text)
    }
}

/// Returns whether none of these digits can be a capital letter: whether bit 5 is set in all bytes.
/// Capital letters have it clear; `0`, `1`, `x` and `z` have it set.
// With two comparisons of each digit instead, `merge` of wide vectors takes 9 % more.
pub(crate) fn are_lower(digits: &[u8]) -> bool
    ensures { result ≡ true → str_to_ascii_lowercase digits.now ≡ digits.now }
{
    let mut all = 0x20;
    for digit in digits {
        all &= *digit;
    }
    all != 0
}

/// Returns the digit by which a value that begins with `digit` is extended on the left: `0` for a
/// `1`, otherwise the same digit.
fn extension_of(digit: u8) -> u8
    ensures { result ≡ extension (digit ∷ []) }
{
    if digit == b'1' { b'0' } else { digit }
}

/// Returns the digit by which these are extended on the left. It is `0` if there are none.
pub(crate) fn extension<D: Digits>(digits: D) -> u8
    ensures { result ≡ extension (D.digits digits) }
{
    if digits.count() == 0 {
        return b'0';
    }
    extension_of(digits.digit(0))
}

/// Digits that are extended on the left to `size`; if they are more, all of them.
#[derive(Clone, Copy)]
pub(crate) struct Extended<D: Digits> {
    pub(crate) digits: D,
    pub(crate) size: usize,
}

impl<D: Digits> Digits for Extended<D> {
    ghost digits = { λ all. extend (D.digits all.digits) all.size };

    /// Returns how many digits there are.
    #[inline(always)]
    fn count(self) -> usize {
        self.size.max(self.digits.count())
    }

    /// Returns the digit at `index`, counted from the left. It is the byte 0 after the last.
    #[inline(always)]
    fn digit(self, index: usize) -> u8 {
        let missing = self.size.saturating_sub(self.digits.count());
        if index < missing {
            return extension(self.digits);
        }
        self.digits.digit(index - missing)
    }
}

/// Returns the index, counted from the left, of the digit at which the shortest digits begin that
/// extend to the same value. Those before index `least` must not be needed.
pub(crate) fn first_needed<D: Digits>(digits: D, least: usize) -> usize
    requires { Serves least (D.digits digits) }
    ensures within { result < length (D.digits digits) }
    ensures value { (size : ℕ) → drop result (D.digits digits)
        ≡ short (extend (D.digits digits) size) }
{
    let count = digits.count();
    let mut from = least;
    'digits: while from + 1 < count {
        if digits.digit(from) != extension_of(digits.digit(from + 1)) {
            return from;
        }
        from += 1;
    }
    from
}

/// Returns whether there are several digits, and no fewer extend to the same value.
pub(crate) fn are_shortest<D: Digits>(digits: D) -> bool
    ensures { result ≡ true → (size : ℕ)
        → D.digits digits ≡ short (extend (D.digits digits) size) }
{
    if digits.count() < 2 {
        return false;
    }
    digits.digit(0) != extension_of(digits.digit(1))
}

/// Fills `to` with the digits from index `from` on, counted from the left. There have to be at
/// least as many as `to` has bytes.
fn copy_digits<D: Digits>(digits: D, from: usize, to: &mut [u8])
    requires within { from + length to.old ≤ length (D.digits digits) }
    requires few { length (D.digits digits) < 2 ^ 64 }
    ensures { to.new ≡ take (length to.old) (drop from (D.digits digits)) }
{
    for index in 0..to.len() {
        to[index] = digits.digit(from + index);
    }
}

/// Writes the digits from index `from` on, counted from the left, which is not after the last. If a
/// write fails, a prefix was written.
#[inline(never)]
pub(crate) fn put_from<D: Digits, W: Sink>(
    digits: D,
    from: usize,
    w: &mut W,
) -> Result<(), WriteFailed>
    requires failures { (W.device w.old).failures < 2 ^ 64 - 1 }
    requires within { from ≤ length (D.digits digits) }
    ensures { Puts (W.device w.old) (W.device w.new) (drop from (D.digits digits)) result }
{
    if let Some(bytes) = digits.bytes() {
        return put(w, &bytes[from..]);
    }
    let count = digits.count();
    let mut block = [0u8; BLOCK];
    let mut at = from;
    while at < count {
        let some = (count - at).min(BLOCK);
        copy_digits(digits, at, &mut block[..some]);
        put(w, &block[..some])?;
        at += some;
    }
    Ok(())
}
