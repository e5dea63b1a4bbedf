//! Up to 32 binary digits as a number, and how a slot holds them.
ghost use Rattle.std.specs.Prelude.{◌≡◌, ◌-◌, ◌<◌, ◌≤◌, ◌^◌, ◌≢◌, IfSome, None, get_or, length, max, slice_get, true, ℕ};
ghost use Rattle.vcd_body.specs.Stored.{State, binary_digits, count_in, held_bits, is_proper, len_in, len_of, number_in, state_in};

use crate::values::slot::{BITS, Holding, Slot};

/// One to 32 binary digits, as the number that they write.
// A slot holds them, not a share: `edges` of 27,505 vectors takes some 33 % less, of scalars 12 %
// more.
#[derive(Clone, Copy, PartialEq, Eq, Debug)]
pub struct Bits {
    pub(crate) len: usize,
    pub(crate) number: usize,
    ghost some: { 1 ≤ len },
    ghost few: { len ≤ 32 },
    ghost fits: { number < 2 ^ len },
}

impl Bits {
    /// Returns the `len` binary digits of `number`, with zeros on the left. `None` if `len` is 0 or
    /// above 32, or if the number has more than `len` digits.
    #[inline(always)]
    #[tactic(auto, using(crate::proofs::NumberLemmas::small_number, crate::proofs::NumberLemmas::small_rest))]
    pub fn new(len: usize, number: usize) -> Option<Bits>
        ensures same { IfSome result (λ b. (b.len ≡ len) × (b.number ≡ number)) }
        ensures there { 1 ≤ len → len ≤ 32 → number < 2 ^ len → result ≢ None }
    {
        if len == 0 || len > 32 || number >> len != 0 {
            return None;
        }
        Some(Bits { len, number })
    }
}

/// Returns `number` and `tag` of a slot whose value are these binary digits: the number that they
/// write, and 7 (`BITS`) plus how many they are.
#[inline(always)]
#[tactic(auto, using(crate::proofs::StoreLemmas::many_bits))]
pub(crate) fn held_bits(bits: Bits) -> (u32, u8)
    ensures count { (upper : ℕ) → count_in (len_in result.1 result.0 upper) ≡ bits.len }
    ensures number { (upper : ℕ) → number_in (len_in result.1 result.0 upper) ≡ bits.number }
    ensures state { state_in result.1 ≡ State.Bits }
{
    (bits.number as u32, bits.len as u8 + BITS)
}

/// Returns how many binary digits are held, at most 32. Only if the state is `State::Bits` does the
/// result have a meaning.
#[inline(always)]
pub(crate) fn count_in(holding: Holding) -> usize
    ensures { result ≡ count_in (len_of holding) }
{
    (holding.upper as usize).min(32)
}

/// Returns the number that the held binary digits write. Only if the state is `State::Bits` does
/// the result have a meaning.
#[inline(always)]
fn number_in(holding: Holding) -> usize
    ensures { result ≡ number_in (len_of holding) }
{
    holding.lower as usize
}

/// Returns whether at least one binary digit is held, and the held number has no more digits than
/// are held. Only if the state is `State::Bits` does the result have a meaning.
#[inline(always)]
pub(crate) fn is_proper(holding: Holding) -> bool
    ensures { result ≡ is_proper (len_of holding) }
{
    let count = count_in(holding);
    count > 0 && number_in(holding) >> count == 0
}

/// Returns the held binary digit at `index`, counted from the left, as `b'0'` or `b'1'`. `None`
/// after the last. Only if the state is `State::Bits` does the result have a meaning.
#[inline(always)]
pub(crate) fn binary_digit(holding: Holding, index: usize) -> Option<u8>
    ensures { result ≡ slice_get (held_bits holding) index }
{
    let count = count_in(holding);
    if index >= count {
        return None;
    }
    let back = count - 1 - index;
    let digit = (number_in(holding) >> back) % 2;
    Some(b'0' + digit as u8)
}

/// Returns the last of the held binary digits, as `b'0'` or `b'1'`. At least one has to be held, so
/// the result is never `None`. Only if the state is `State::Bits` does it have a meaning.
#[inline(always)]
pub(crate) fn last_binary(holding: Holding) -> Option<u8>
    requires { 1 ≤ count_in (len_of holding) }
    ensures { result ≡ slice_get (held_bits holding) (count_in (len_of holding) - 1) }
{
    binary_digit(holding, count_in(holding) - 1)
}

/// Returns the digit of `bits` at `index`, counted from the left, as `b'0'` or `b'1'`. The index
/// has to be less than the number of digits.
#[inline(always)]
fn digit_of_bits(bits: Bits, index: usize) -> u8
    requires { index < bits.len }
    ensures { result ≡ get_or (binary_digits bits.len bits.number) index 0 }
{
    let back = bits.len - 1 - index;
    let digit = (bits.number >> back) % 2;
    b'0' + digit as u8
}

/// Writes all digits of `bits` into `to`, one byte each, the highest first. `to` must have as many
/// bytes as there are digits.
pub(crate) fn put_digits(bits: Bits, to: &mut [u8])
    requires { length to.old ≡ bits.len }
    ensures { to.new ≡ binary_digits bits.len bits.number }
{
    for index in 0..to.len() {
        to[index] = digit_of_bits(bits, index);
    }
}

/// Returns whether the slot holds binary digits, and neither they nor those of `bits` are more than
/// `size`. Then the old and the new value of a code of this size differ exactly if the two numbers
/// do.
#[inline(always)]
#[tactic(auto, using(crate::proofs::StoreLemmas::many_bits))]
pub(crate) fn is_number_step(slot: &Slot, size: usize, bits: Bits) -> bool
    ensures state { result ≡ true → state_in slot.now.tag ≡ State.Bits }
    ensures long { result ≡ true → (upper : ℕ)
        → max size (count_in (len_in slot.now.tag slot.now.number upper)) ≡ max size bits.len }
{
    slot.tag >= BITS && usize::from(slot.tag - BITS) <= size && bits.len <= size
}
