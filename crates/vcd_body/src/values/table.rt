//! The current values of the codes of a header, in lent slices.
ghost use Rattle.std.specs.Prelude.{◌≡◌, ℕ, ◌<◌, ◌≤◌, length, false};
ghost use Rattle.vcd_body.specs.Names.{ChangesCode, ChangesRoomy, GivesShares, GivesText, GivesValue, IsLaidOut, IsStep, KeepsTable, SetsCode, SetsNumber, as_chosen, by_text, bytes_in, codes_in, codes_shown, counts_at, digit_in, held_at, is_chosen, kept_at, model_form, new_at, one_more, real_text, shown_as, value_at_size, value_in, value_with, with_change, with_number_change, with_step, with_text, with_value, with_value_change};

use crate::item::Form;
use crate::values::bits::{Bits, put_digits};
use crate::values::compare::value_differs;
use crate::values::counters::{CARRY, count_more, counts_of};
use crate::values::held::{digit_shown, last_held};
use crate::values::slot::{Share, Shown, Slot, State, state_in, tag_of_digit};
use crate::values::step::{Step, step_to_text, way_of};
use crate::values::store::{
    Stepped, count_in_slot, lay_out, set_bits, set_tag, step_bits_at, step_digit_at,
};
use crate::values::value::Value;
use vcd_view::HeadView;

/// What is kept of the codes of a header, by their indexes: the value of each, as it was last
/// written, three counters, and whether it is chosen. A call changes only what it names. For an
/// index without a code nothing is kept, and nothing changes.
#[derive(Drop)]
pub struct Table<'a> {
    pub(crate) values: &'a mut [u8],
    pub(crate) slots: &'a mut [Slot],
    pub(crate) shares: &'a mut [Share],
}

impl<'a> Table<'a> {
    /// Returns a table of the codes of this header: none has a value or is chosen, and all counters
    /// are 0. A code's value gets a quarter of its size of the bytes of `values`, rounded up, and
    /// at least 64. If there are too few bytes, the last codes get fewer or none. There must be a
    /// slot and a share for each code; more of them, and more bytes, stay as they are.
    pub fn new(
        view: HeadView<'_>,
        values: &'a mut [u8],
        slots: &'a mut [Slot],
        shares: &'a mut [Share],
    ) -> Table<'a>
        requires slots { length view.codes.now ≤ length slots.old }
        requires shares { length view.codes.now ≤ length shares.old }
        ensures laid { IsLaidOut result }
        ensures codes { codes_in result ≡ length view.entry.codes.now }
        ensures bytes { bytes_in result ≤ length values.old }
        ensures kept { (code : ℕ) → kept_at result code
            ≡ new_at view.entry.codes.now (length values.old) code }
        ensures room { GivesShares view.entry.codes.now (length values.old) result }
    {
        let slots = &mut slots[..view.codes.len()];
        let shares = &mut shares[..view.codes.len()];
        let end = lay_out(view.codes, slots, shares, values.len());
        let values = &mut values[..end];
        Table {
            values,
            slots,
            shares,
        }
    }

    /// Sets the value of the code at index `code` by a change of this form and text, as
    /// `change_text` returns it. Nothing changes if there is no such code, or if the text is empty
    /// or does not fit into the code's share. The time grows with the length of the text. A single
    /// digit changes only the slot of its code.
    #[inline(always)]
    pub fn set(&mut self, code: usize, form: Form, text: &[u8])
        ensures sets { SetsCode code (with_text form text.now) self.old self.new }
        ensures value { IsLaidOut self.old → GivesValue form text.now code self.old self.new }
    {
        self.set_value(code, Value::of_text(form, text));
    }

    /// Sets the value of the code at index `code`. Nothing changes if there is no such code, or if
    /// the text is empty or does not fit into the code's share; binary digits always fit. The time
    /// grows with the length of the text. One digit, and binary digits, change only the code's
    /// slot.
    #[inline(always)]
    pub fn set_value(&mut self, code: usize, value: Value<'_>)
        ensures sets { SetsCode code (with_value value.entry) self.old self.new }
        ensures bits { (b : Bits) → value.entry ≡ Value.Bits b
            → SetsNumber code b self.old self.new }
        ensures as_text { ChangesRoomy code (by_text with_text value.entry) self.old self.new }
        ensures value { GivesText value.entry code self.old self.new }
    {
        match value {
            Value::Digits(text) => match text {
                [digit] => set_tag(self.slots, code, tag_of_digit(*digit)),
                _ => self.set_text(code, Form::Vector, text),
            },
            Value::Real(text) => self.set_text(code, Form::RealText, text),
            Value::Bits(bits) => set_bits(self.slots, code, bits),
        }
    }

    /// Sets the value of the code at index `code`, and counts the change if the old value was
    /// another one, both taken at `size` bits: in the first counter, and in the second if the last
    /// digit rises, in the third if it falls. Nothing is counted if there was no value.
    ///
    /// Nothing changes if there is no such code, or if the text is empty. If the text does not fit
    /// into the code's share, the change is counted, but the old value stays.
    // Most changes need only the slot: with `follow_any` for each, `edges` of scalars takes 3.4
    // times as many instructions.
    #[inline(always)]
    pub fn follow(&mut self, code: usize, size: usize, value: Value<'_>)
        ensures sets { SetsCode code (with_value_change size value.entry) self.old self.new }
        ensures as_text { ChangesRoomy code (by_text (with_change size) value.entry) self.old self.new }
        ensures value { GivesText value.entry code self.old self.new }
    {
        match value {
            Value::Digits(text) => self.follow_digits(code, size, text),
            Value::Real(text) => self.follow_any(code, size, Form::RealText, text),
            Value::Bits(bits) => self.follow_bits(code, size, bits),
        }
    }

    /// Sets the value of the code at index `code` to these digits, and counts the change, with its
    /// rise or fall, if the old value was another one, both taken at `size` bits. Nothing changes
    /// if there is no such code, or if the text is empty.
    #[inline(always)]
    fn follow_digits(&mut self, code: usize, size: usize, text: &[u8])
        ensures { SetsCode code (with_change size Form.Vector text.now) self.old self.new }
    {
        match text {
            [digit] => match step_digit_at(self.slots, code, *digit) {
                Stepped::Counted => {}
                Stepped::Uncounted { rises, falls } => self.add_steps(code, CARRY, rises, falls),
                Stepped::Not => self.follow_any(code, size, Form::Vector, text),
            },
            _ => {
                if !self.follow_by_ends(code, text) {
                    self.follow_any(code, size, Form::Vector, text);
                }
            }
        }
    }

    /// Sets the value of the code at index `code` to these binary digits, and counts the change,
    /// with its rise or fall, if the old value was another one, both taken at `size` bits. Nothing
    /// changes if there is no such code.
    #[inline(always)]
    fn follow_bits(&mut self, code: usize, size: usize, bits: Bits)
        ensures { SetsCode code (with_number_change size bits.len bits.number) self.old self.new }
    {
        match step_bits_at(self.slots, code, size, bits) {
            Stepped::Counted => {}
            Stepped::Uncounted { rises, falls } => self.add_steps(code, CARRY, rises, falls),
            Stepped::Not => self.follow_any_bits(code, size, bits),
        }
    }

    /// Sets the value of the code at index `code` by a change of this form and text, and counts the
    /// change, with its rise or fall, if the old value was another one, both taken at `size` bits.
    /// It is for every kind of old value. Nothing changes if there is no such code, or if the text
    /// is empty.
    #[inline(never)]
    fn follow_any(&mut self, code: usize, size: usize, form: Form, text: &[u8])
        ensures { SetsCode code (with_change size form text.now) self.old self.new }
    {
        if text.is_empty() {
            return;
        }
        let step = self.step_to(code, size, form, text);
        self.set(code, form, text);
        if step.differs {
            self.count(code, step.rises, step.falls);
        }
    }

    /// Sets the value of the code at index `code` to these binary digits, and counts the change,
    /// with its rise or fall, if the old value was another one, both taken at `size` bits. It is
    /// for every kind of old value. Nothing changes if there is no such code.
    #[inline(never)]
    fn follow_any_bits(&mut self, code: usize, size: usize, bits: Bits)
        ensures { SetsCode code (with_number_change size bits.len bits.number) self.old self.new }
    {
        let mut block = [0u8; 32];
        let text = &mut block[..bits.len];
        put_digits(bits, text);
        let step = self.step_to(code, size, Form::Vector, text);
        self.set_value(code, Value::Bits(bits));
        if step.differs {
            self.count(code, step.rises, step.falls);
        }
    }

    /// Returns what a change of this form and text, which must not be empty, would do to the code
    /// at index `code`: whether its value would be another one, both extended to `size` digits,
    /// and whether its last digit would rise from 0 to 1 or fall from 1 to 0. None of this is so if
    /// it has no value yet, or if there is no such code.
    #[inline(always)]
    fn step_to(&self, code: usize, size: usize, form: Form, text: &[u8]) -> Step
        ensures { IsLaidOut self.now → 0 < length text.now
            → IsStep result (value_at_size size (held_at self.now code))
            (value_with size (model_form form) text.now) }
    {
        let Some(held) = self.held(code) else {
            return step_to_text(false, None, form, text);
        };
        step_to_text(
            value_differs(held, size, form, text),
            last_held(held),
            form,
            text,
        )
    }

    /// Returns which kind of value the code at index `code` has: digits, a real number, or none. It
    /// is `Unset` too if there is no such code.
    #[inline]
    pub fn get(&self, code: usize) -> Shown
        ensures { result ≡ shown_as (held_at self.now code) }
    {
        if code >= self.slots.len() || code >= self.shares.len() {
            return Shown::Unset;
        }
        match state_in(self.slots[code].tag) {
            State::Unset => Shown::Unset,
            State::Real => Shown::Real,
            _ => Shown::Bits,
        }
    }

    /// Returns the digit at `index`, counted from the left, of the value of the code at index
    /// `code`, extended to the code's size, in lower case. `None` after the last, if the value has
    /// no digits, or if there is no such code. `view` is the header of the table.
    #[inline]
    pub fn digit(&self, view: HeadView<'_>, code: usize, index: usize) -> Option<u8>
        ensures { IsLaidOut self.now
            → result ≡ digit_in (value_in (codes_shown view.entry) self.now code) index }
    {
        let declared = view.code_at(code)?;
        digit_shown(self.held(code)?, declared.size, index)
    }

    /// Returns the text of the real number that is the value of the code at index `code`; an empty
    /// one if there is no such code, or if its value is no real number.
    #[inline]
    pub fn real(&self, code: usize) -> &[u8]
        ensures { IsLaidOut self.now → result.now ≡ real_text (held_at self.now code) }
    {
        match self.held(code) {
            Some(held) if held.holding.state == State::Real => held.bytes,
            _ => &[],
        }
    }

    /// Returns the three counters of the code at index `code`: of the changes that were counted,
    /// and of the rises and the falls among them. `follow` and `count` keep the three in step,
    /// `bump` adds to only one, and `set` counts nothing. Each stops at 2^64 - 1, and is 0 if there
    /// is no such code.
    #[inline]
    pub fn tally(&self, code: usize) -> [u64; 3]
        ensures { result ≡ counts_at self.now code }
    {
        if code < self.slots.len() && code < self.shares.len() {
            counts_of(self.slots[code].steps, self.shares[code].counts)
        } else {
            [0; 3]
        }
    }

    /// Adds 1 to counter `which`, 0 to 2, of the code at index `code`. A counter stops at 2^64 - 1.
    /// Nothing changes if there is no such code, or if `which` is above 2.
    #[inline(always)]
    pub fn bump(&mut self, code: usize, which: usize)
        ensures keeps { KeepsTable self.old self.new }
        ensures changes { ChangesCode code (one_more which) self.old self.new }
    {
        if which == 0 {
            self.count(code, false, false);
        } else if code < self.slots.len() && code < self.shares.len() {
            let shares = &mut *self.shares;
            count_more(&mut shares[code].counts, which, 1);
        }
    }

    /// Adds 1 to the first counter of the code at index `code`, to the second if `rises` is true,
    /// and to the third if `falls` is true. A counter stops at 2^64 - 1. Nothing changes if there
    /// is no such code.
    #[inline(always)]
    pub fn count(&mut self, code: usize, rises: bool, falls: bool)
        ensures keeps { KeepsTable self.old self.new }
        ensures changes { ChangesCode code (with_step rises falls) self.old self.new }
    {
        // No step does both, and a slot has no counter for it.
        if rises & falls {
            self.add_steps(code, 1, rises, falls);
            return;
        }
        if !count_in_slot(self.slots, code, way_of(rises, falls)) {
            self.add_steps(code, CARRY, rises, falls);
        }
    }

    /// Marks the code at index `code` as chosen, so that `chosen` returns true for it. Nothing
    /// changes if there is no such code.
    #[inline]
    pub fn choose(&mut self, code: usize)
        ensures keeps { KeepsTable self.old self.new }
        ensures changes { ChangesCode code as_chosen self.old self.new }
    {
        if code < self.shares.len() {
            self.shares[code].chosen = true;
        }
    }

    /// Returns whether `choose` has marked the code at index `code`; false if there is no such
    /// code. It takes the same time for every table.
    #[inline]
    pub fn chosen(&self, code: usize) -> bool
        ensures { result ≡ is_chosen self.now code }
    {
        if code < self.slots.len() && code < self.shares.len() {
            self.shares[code].chosen
        } else {
            false
        }
    }
}
