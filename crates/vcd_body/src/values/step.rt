//! The step from one value of a code to the next, by its last digit.
ghost use Rattle.std.specs.Prelude.{◌≡◌, ◌<◌, ◌+◌, ◌%◌, ℕ, ◌==◌, ◌⊎◌, ◌&&◌, cond, false, length, Some};
ghost use Rattle.vcd_body.specs.Names.{goes_from, last_bit, last_digit_in, model_form, value_with};

use crate::item::Form;

/// What became of a value that was set.
#[derive(Clone, Copy, PartialEq, Eq, Debug)]
pub struct Step {
    /// Whether there was a value, and it is another one now.
    pub differs: bool,
    /// Whether the last digit was 0, and is 1.
    pub rises: bool,
    /// Whether the last digit was 1, and is 0.
    pub falls: bool,
}

/// Returns whether the last digit of a value has changed from `from` to `to`. `before` and `after`
/// are the last digits before and after the change, `None` if the value has no digits.
#[inline(always)]
fn is_edge(from: u8, to: u8, before: Option<u8>, after: Option<u8>) -> bool
    ensures { result ≡ goes_from from to before after }
{
    match (before, after) {
        (Some(first), Some(last)) => from == first && to == last,
        _ => false,
    }
}

/// Returns the last digit of a change of this form and text, in lower case; `None` for a real
/// number, and for an empty text.
#[inline(always)]
fn last_digit_of(form: Form, text: &[u8]) -> Option<u8>
    ensures { 0 < length text.now → (size : ℕ)
        → result ≡ last_digit_in (Some (value_with size (model_form form) text.now)) }
{
    match form {
        Form::RealText => None,
        Form::Scalar | Form::Vector => Some(text.last()?.to_ascii_lowercase()),
    }
}

/// Returns how a value changes by a change of this form and text. `before` is its last digit before
/// the change, `None` if it had no digits, and `differs` says whether its new value is another one.
#[inline(always)]
pub(crate) fn step_to_text(differs: bool, before: Option<u8>, form: Form, text: &[u8]) -> Step
    ensures differs { result.differs ≡ differs }
    ensures rises { 0 < length text.now → (size : ℕ) → result.rises ≡ goes_from 48 49 before
        (last_digit_in (Some (value_with size (model_form form) text.now))) }
    ensures falls { 0 < length text.now → (size : ℕ) → result.falls ≡ goes_from 49 48 before
        (last_digit_in (Some (value_with size (model_form form) text.now))) }
{
    let after = last_digit_of(form, text);
    Step {
        differs,
        rises: is_edge(b'0', b'1', before, after),
        falls: is_edge(b'1', b'0', before, after),
    }
}

/// Returns which of the three counters of a slot counts a change of a value: 0 if its last digit
/// falls, 2 if it rises, otherwise 1.
#[inline(always)]
pub(crate) fn way_of(rises: bool, falls: bool) -> usize
    ensures within { result < 3 }
    ensures rises { rises && falls ≡ false → (result == 2) ≡ rises }
    ensures falls { rises && falls ≡ false → (result == 0) ≡ falls }
{
    1 + usize::from(rises) - usize::from(falls)
}

/// Returns which of the three counters of a slot counts a change from the binary number `before` to
/// `after`: 0 if its last digit falls, 2 if it rises, otherwise 1.
#[inline(always)]
pub(crate) fn way_between(before: usize, after: usize) -> usize
    ensures within { result < 3 }
    ensures rises { (result == 2) ≡ goes_from 48 49 (last_bit before) (last_bit after) }
    ensures falls { (result == 0) ≡ goes_from 49 48 (last_bit before) (last_bit after) }
{
    1 + after % 2 - before % 2
}

/// Returns which of the three counters of a slot counts a change to this digit from the other of
/// `0` and `1`: 0 if it falls, 2 if it rises.
#[inline(always)]
pub(crate) fn way_to(digit: u8) -> usize
    requires { (digit ≡ 48) ⊎ (digit ≡ 49) }
    ensures { result ≡ cond (digit == 49) 2 0 }
{
    2 * usize::from(digit - b'0')
}
