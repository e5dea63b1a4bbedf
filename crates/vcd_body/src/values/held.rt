// The digits that are held, and those of the value.
ghost use Rattle.std.specs.Prelude.{◌≡◌, ℕ, slice_get};
ghost use Rattle.vcd_body.specs.Names.{digit_in, digits_of, held_in, last_digit_in, value_at_size};

use crate::digits::{Digits, Extended};
use crate::values::bits::{binary_digit, count_in, last_binary};
use crate::values::packed::{digit_at, last_packed};
use crate::values::slot::{HeldValue, State, digit_of_state};

/// Returns the held digit at `index`, counted from the left. `None` after the last, and if no
/// digits are held.
#[inline(always)]
fn digit_held(held: HeldValue<'_>, index: usize) -> Option<u8>
    ensures { result ≡ slice_get (digits_of held.entry) index }
{
    match held.holding.state {
        State::Packed => digit_at(held.bytes, held.holding.len(), index),
        State::Bits => binary_digit(held.holding, index),
        state if index == 0 => digit_of_state(state),
        _ => None,
    }
}

impl Digits for HeldValue<'_> {
    ghost digits = { λ held. digits_of held };

    /// Returns how many digits are held: 0 if there is no value, or if it is a real number.
    #[inline(always)]
    fn count(self) -> usize {
        match self.holding.state {
            State::Unset | State::Real => 0,
            State::Zero | State::One | State::Unknown | State::High => 1,
            State::Packed => self.holding.len(),
            State::Bits => count_in(self.holding),
        }
    }

    /// Returns the held digit at `index`, counted from the left. It is the byte 0 after the last.
    #[inline(always)]
    fn digit(self, index: usize) -> u8 {
        digit_held(self, index).unwrap_or(0)
    }
}

/// Returns the digit at `index`, counted from the left, of a held value that is extended to `size`
/// digits, in lower case. `None` after the last, and if the value has no digits.
#[inline(always)]
pub(crate) fn digit_shown(held: HeldValue<'_>, size: usize, index: usize) -> Option<u8>
    ensures { result ≡ digit_in (value_at_size size (held_in held.entry)) index }
{
    let all = Extended { digits: held, size };
    if held.count() == 0 || index >= all.count() {
        return None;
    }
    Some(all.digit(index))
}

/// Returns the last digit of a held value, in lower case. `None` if there is no value, or if it is
/// a real number.
#[inline(always)]
pub(crate) fn last_held(held: HeldValue<'_>) -> Option<u8>
    ensures { (size : ℕ) → result ≡ last_digit_in (value_at_size size (held_in held.entry)) }
{
    match held.holding.state {
        State::Packed => Some(last_packed(held.bytes)),
        State::Bits => last_binary(held.holding),
        state => digit_of_state(state),
    }
}
