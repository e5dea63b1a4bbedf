//! Whether two codes have the same value.
ghost use Rattle.std.specs.Prelude.{◌≡◌, ℕ, IfSome, length};
ghost use Rattle.vcd_body.specs.Names.{Decides, HasDigits, IsLaidOut, digits_held, digits_of, extend, held_at, held_in, shown_as, value_at_size};

use crate::digits::Digits;
use crate::values::compare::{are_alike, are_too_few};
use crate::values::slot::{BITS, HIGH, HeldValue, Holding, Shown, State};
use crate::values::table::Table;

/// Returns which kind of value is held.
#[inline(always)]
fn kind_held(held: HeldValue<'_>) -> Shown
    ensures { result ≡ shown_as (held_in held.entry) }
{
    match held.holding.state {
        State::Unset => Shown::Unset,
        State::Real => Shown::Real,
        _ => Shown::Bits,
    }
}

/// Returns whether two held values, which have to be digits, are the same once both are extended on
/// the left to `size` digits; a longer one is not cut. The time grows with their number, not with
/// the size.
// Values that are held alike are compared as bytes, four digits in each.
#[inline(always)]
fn are_same_digits(held: HeldValue<'_>, its: HeldValue<'_>, size: usize) -> bool
    requires one { HasDigits held }
    requires other { HasDigits its }
    ensures { Decides result
        (extend (digits_of held.entry) size ≡ extend (digits_of its.entry) size) }
{
    if held.holding == its.holding && held.bytes == its.bytes {
        return true;
    }
    let (count, its_count) = (held.count(), its.count());
    if size.max(count) != size.max(its_count) {
        return false;
    }
    if are_too_few(its, held) {
        return false;
    }
    if are_too_few(held, its) {
        return false;
    }
    are_alike(held, its, count.max(its_count))
}

/// Returns whether two held values are the same at this size.
#[inline(always)]
fn are_same_values(held: HeldValue<'_>, its: HeldValue<'_>, size: usize) -> bool
    ensures { Decides result (value_at_size size (held_in held.entry)
        ≡ value_at_size size (held_in its.entry)) }
{
    let kind = kind_held(held);
    if kind != kind_held(its) {
        return false;
    }
    match kind {
        Shown::Unset => true,
        Shown::Bits => are_same_digits(held, its, size),
        Shown::Real => held.bytes == its.bytes,
    }
}

impl<'a> Table<'a> {
    /// Returns the value of the code at index `code`, in the form in which it is held. If there is
    /// no such code, it is held as that of a code that has no value.
    #[inline(always)]
    fn held_or_unset(&self, code: usize) -> HeldValue<'_>
        ensures { IsLaidOut self.now → held_at self.now code ≡ held_in result }
    {
        match self.held(code) {
            Some(held) => held,
            None => HeldValue {
                holding: Holding {
                    state: State::Unset,
                    lower: 0,
                    upper: 0,
                },
                bytes: &[],
            },
        }
    }

    /// Returns whether the codes at these indexes have the same value at this size, if their slots
    /// tell it: each has no value or one digit, or both have binary digits, at most 32, and at most
    /// `size`. `None` otherwise.
    // Nearly all values that two codes of one size are given are of these.
    #[inline(always)]
    fn same_in_slots(&self, one: usize, other: usize, size: usize) -> Option<bool>
        ensures { IsLaidOut self.now → IfSome result (λ same. Decides same
            (value_at_size size (held_at self.now one)
            ≡ value_at_size size (held_at self.now other))) }
    {
        if one >= self.slots.len() || other >= self.slots.len() {
            return None;
        }
        let (tag, its_tag) = (self.slots[one].tag, self.slots[other].tag);
        if tag <= HIGH && its_tag <= HIGH {
            return Some(tag == its_tag);
        }
        if tag < BITS || its_tag < BITS {
            return None;
        }
        if usize::from(tag.max(its_tag) - BITS) > size {
            return None;
        }
        Some(self.slots[one].number == self.slots[other].number)
    }

    /// Returns whether the codes at these indexes have the same value at this size, however the two
    /// are held.
    #[cold]
    #[inline(never)]
    fn same_long(&self, one: usize, other: usize, size: usize) -> bool
        ensures { IsLaidOut self.now → Decides result (value_at_size size (held_at self.now one)
            ≡ value_at_size size (held_at self.now other)) }
    {
        are_same_values(self.held_or_unset(one), self.held_or_unset(other), size)
    }

    /// Returns whether the codes at these indexes have the same value, both taken at `size` bits. A
    /// code that does not exist has no value, and two codes without one have the same. The time
    /// grows with the number of digits, or bytes of a text, that the two were set to.
    #[inline(always)]
    pub fn same_value(&self, one: usize, other: usize, size: usize) -> bool
        ensures { IsLaidOut self.now → Decides result (value_at_size size (held_at self.now one)
            ≡ value_at_size size (held_at self.now other)) }
    {
        match self.same_in_slots(one, other, size) {
            Some(same) => same,
            None => self.same_long(one, other, size),
        }
    }

    /// Returns how many digits of the value of the code at index `code` are held: those that it was
    /// last set to. It is 0 if the value has no digits, or if there is no such code.
    #[inline]
    pub fn held_digits(&self, code: usize) -> usize
        ensures { IsLaidOut self.now
            → result ≡ length (digits_held (held_at self.now code)) }
    {
        match self.held(code) {
            Some(held) => held.count(),
            None => 0,
        }
    }
}
