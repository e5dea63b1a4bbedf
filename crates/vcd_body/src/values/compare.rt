// Whether the value of a change differs from the one that its code has.
ghost use Rattle.std.specs.Prelude.{◌≡◌, ◌≢◌, ◌≤◌, ℕ, length, max, true};
ghost use Rattle.vcd_body.specs.Names.{AreTwo, Decides, HasDigits, are_two, differs, digits_of, extend, extended, held_in, model_form, value_at_size, value_with};

use crate::digits::{Digits, Extended, Lower, are_shortest};
use crate::item::Form;
use crate::values::held::last_held;
use crate::values::slot::{HeldValue, State};

/// Returns true only if some held digit differs from that of a text at the same place, counted from
/// the last digit. If it returns false, the values may still differ, in digits that only one of
/// them has.
// It extends neither of them, so it takes fewer steps for each digit than `are_same`: without it
// `edges` of a dump of SystemC's types takes 21 % more.
fn places_differ(held: HeldValue<'_>, text: &[u8]) -> bool
    ensures { result ≡ true → AreTwo (digits_of held.entry) text.now }
{
    let count = held.count();
    for back in 0..count.min(text.len()) {
        let digit = text[text.len() - 1 - back].to_ascii_lowercase();
        if held.digit(count - 1 - back) != digit {
            return true;
        }
    }
    false
}

/// Returns true only if there are fewer digits than others, and no fewer than these extend to the
/// same value. Then the values of the two differ at each size that both fit.
// It looks at two digits: a long value that is compared again and again with short ones takes no
// longer than they do.
pub(crate) fn are_too_few<D: Digits, E: Digits>(digits: D, others: E) -> bool
    ensures { result ≡ true → (size : ℕ)
        → max size (length (E.digits others)) ≡ max size (length (D.digits digits))
        → extend (E.digits others) size ≢ extend (D.digits digits) size }
{
    let count = digits.count();
    if count == 0 {
        return false;
    }
    if count >= others.count() {
        return false;
    }
    are_shortest(others)
}

/// Returns whether digits are the same as others, both extended to `size` digits, which is at least
/// their numbers.
pub(crate) fn are_alike<D: Digits, E: Digits>(one: D, other: E, size: usize) -> bool
    requires one_fits { length (D.digits one) ≤ size }
    requires other_fits { length (E.digits other) ≤ size }
    ensures { Decides result (extend (D.digits one) size ≡ extend (E.digits other) size) }
{
    let own = Extended { digits: one, size };
    let its = Extended {
        digits: other,
        size,
    };
    let mut index = size;
    while index > 0 {
        index -= 1;
        if own.digit(index) != its.digit(index) {
            return false;
        }
    }
    true
}

/// Returns whether a held value, which has to be one of digits, and a text of digits are the same,
/// both extended to `size` digits, which is at least their lengths.
fn are_same(held: HeldValue<'_>, text: &[u8], size: usize) -> bool
    requires digits { HasDigits held }
    requires held_fit { length (digits_of held) ≤ size }
    requires text_fits { length text.now ≤ size }
    ensures { Decides result (extend (digits_of held.entry) size ≡ extended text.now size) }
{
    if places_differ(held, text) {
        return false;
    }
    are_alike(held, Lower { text }, size)
}

/// Returns whether the held value, which has to be one of digits, and a text of digits differ once
/// both are extended on the left to `size` digits; a longer one is not cut. A capital letter equals
/// its small one. It is for several digits, held or in the text, and its time grows with their
/// number, not with the size.
#[inline(never)]
fn several_differ(held: HeldValue<'_>, size: usize, text: &[u8]) -> bool
    requires digits { HasDigits held }
    ensures { result ≡ are_two size (digits_of held.entry) text.now }
{
    let count = held.count();
    if size.max(count) != size.max(text.len()) {
        return true;
    }
    !are_same(held, text, count.max(text.len()))
}

/// Returns whether the held value, which has to be one of digits, and a text of digits are
/// different values of a code of this size.
// The last digits come first, since nearly all values that differ do so there.
#[inline(always)]
fn digits_differ(held: HeldValue<'_>, size: usize, text: &[u8]) -> bool
    requires digits { HasDigits held }
    ensures { result ≡ are_two size (digits_of held.entry) text.now }
{
    match (last_held(held), text.last()) {
        (Some(own), Some(digit)) if own != digit.to_ascii_lowercase() => true,
        _ => several_differ(held, size, text),
    }
}

/// Returns whether the held value and that of a change of this form and text are different values
/// of a code of this size; false if the code has no value yet.
#[inline(always)]
pub(crate) fn value_differs(held: HeldValue<'_>, size: usize, form: Form, text: &[u8]) -> bool
    ensures { result ≡ differs (value_at_size size (held_in held.entry))
        (value_with size (model_form form) text.now) }
{
    match held.holding.state {
        State::Unset => false,
        State::Real => form != Form::RealText || held.bytes != text,
        _ => form == Form::RealText || digits_differ(held, size, text),
    }
}
