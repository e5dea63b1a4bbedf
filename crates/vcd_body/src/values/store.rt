// What is kept of each code, in lent slices: a slot, and a share of the values.
ghost use Rattle.std.specs.Prelude.{◌≡◌, ◌≢◌, ◌==◌, ℕ, max, ◌+◌, ◌-◌, ◌*◌, ◌<◌, ◌≤◌, ◌∷◌, [], true, false, length, take, None, Some, slice_get, Bool};
ghost use Rattle.vcd_body.specs.Names.{ChangesCode, ChangesSlot, Code, Held, IsHeldAs, IsLaidOut, IsUnset, KeepsTable, LeavesNumber, LeavesSteps, LeavesFlip, SetsCode, SlotsKeepLaid, StepsTo, FlipsTo, bytes_in, codes_in, end_at, held_at, held_or, is_proper, text_bytes, len_of, one_digit, set_whole, share_from, some_by, start_of, state_in, used, whole, with_held, with_number, with_step, with_steps, with_text};

use crate::item::Form;
use crate::values::bits::{Bits, held_bits, is_number_step, is_proper};
use crate::values::counters::{count_step, count_steps};
use crate::values::packed::pack;
use crate::values::slot::{
    HeldValue, Holding, Share, Slot, State, UPPER, digit_of_state, flipped, holding_of,
    is_zero_or_one, state_in, tag_of, tag_of_flipped,
};
use crate::values::step::{way_between, way_to};
use crate::values::table::Table;
use vcd_view::Code;

/// Returns how many bytes of its share a value uses: 0 if it is held only in the slot.
#[inline(always)]
fn used_by(holding: Holding) -> usize
    ensures { result ≡ used holding }
{
    match holding.state {
        State::Packed => holding.len().div_ceil(4),
        State::Real => holding.len(),
        State::Unset | State::Zero | State::One | State::Unknown | State::High | State::Bits => 0,
    }
}

/// Returns whether a value is held as its state says: false if the state says that digits are held
/// and there are none, or if a binary number has more digits than are held. In a table that
/// `Table::new` has made it is always true.
#[inline(always)]
fn holds_some(holding: Holding) -> bool
    ensures yes { result ≡ true → 1 ≤ some_by holding.state (len_of holding) }
    ensures no { result ≡ false → some_by holding.state (len_of holding) ≡ 0 }
{
    match holding.state {
        State::Packed => holding.len() > 0,
        State::Bits => is_proper(holding),
        State::Unset | State::Zero | State::One | State::Unknown | State::High | State::Real =>
            true,
    }
}

impl<'a> Table<'a> {
    /// Returns the value of the code at index `code`, in the form in which it is held. If the code
    /// has no value, the state is `State::Unset`. `None` if there is no such code. (In a table that
    /// `Table::new` has not made also if its share does not lie within the values, or if it holds
    /// no digits though its state says so.)
    #[inline(always)]
    pub(crate) fn held(&self, code: usize) -> Option<HeldValue<'_>>
        ensures { IsLaidOut self.now → held_at self.now code ≡ held_or result }
    {
        if code >= self.slots.len() || code >= self.shares.len() {
            return None;
        }
        let share = self.shares[code];
        let holding = holding_of(self.slots[code], share);
        if !holds_some(holding) {
            return None;
        }
        let rest = self.values.get(share.start..)?;
        let bytes = rest.get(..used_by(holding))?;
        Some(HeldValue { holding, bytes })
    }
}

/// Sets the value of the code at index `code` to the digit with this tag, which must be one that
/// `tag_of_digit` returns. It changes only the slot; nothing changes if there is no such code.
#[inline(always)]
pub(crate) fn set_tag(slots: &mut [Slot], code: usize, tag: u8)
    ensures changes { (d : ℕ) → one_digit (state_in tag) ≡ Some d
        → ChangesSlot code (with_held (Held.Digits (d ∷ []))) slots.old slots.new }
    ensures laid { (d : ℕ) → one_digit (state_in tag) ≡ Some d → SlotsKeepLaid slots.old slots.new }
{
    if code < slots.len() {
        slots[code].tag = tag;
    }
}

/// Fills the bytes of a share, which must be long enough, with a text of this form: digits are
/// packed, four to a byte, and the text of a real number is copied as it is. Returns the state that
/// a slot has then.
#[inline(always)]
fn fill_share(bytes: &mut [u8], form: Form, text: &[u8]) -> State
    requires room { text_bytes form (length text.now) ≤ length bytes.old }
    ensures { IsHeldAs form text.now result bytes.new }
{
    match form {
        Form::RealText => {
            copy_text(bytes, text);
            State::Real
        }
        _ => {
            pack(bytes, text);
            State::Packed
        }
    }
}

/// Copies `from` to the first bytes of `to`, which has to be at least as long.
fn copy_text(to: &mut [u8], from: &[u8])
    requires { length from.now ≤ length to.old }
    ensures { take (length from.now) to.new ≡ from.now }
{
    to[..from.len()].copy_from_slice(from);
}

/// Sets slot and share of a code to say that `len` digits, or bytes of a text, are held in the
/// share, in this state, which is not `State::Bits`.
#[inline(always)]
fn hold_text(slot: &mut Slot, share: &mut Share, state: State, len: usize)
    requires text { state ≢ State.Bits }
    ensures { whole slot.new share.new ≡ set_whole state len (whole slot.old share.old) }
{
    slot.tag = tag_of(state);
    slot.number = (len % UPPER) as u32;
    share.upper = (len / UPPER) as u32;
}

/// Returns how many bytes of a share a text of this form and `len` bytes takes: `len` for a real
/// number, a quarter for digits, rounded up.
#[inline(always)]
fn text_bytes(form: Form, len: usize) -> usize
    ensures { result ≡ text_bytes form len }
{
    match form {
        Form::RealText => len,
        Form::Scalar | Form::Vector => len.div_ceil(4),
    }
}

impl<'a> Table<'a> {
    /// Returns the offset in the values at which the share of the code at index `code`, which must
    /// exist, ends: where the next one begins, or all values end. In a table that `Table::new` has
    /// not made it may be any number.
    #[inline(always)]
    pub(crate) fn share_end(&self, code: usize) -> usize
        requires { code < length self.now.shares.now }
        ensures { result ≡ end_at self.now.shares.now (bytes_in self.now) code }
    {
        match self.shares.get(code + 1) {
            Some(next) => next.start,
            None => self.values.len(),
        }
    }

    /// Sets the value of the code at index `code`, which must exist, to the text of a change. Its
    /// share ends at offset `end` of the values (`share_end`). A text of digits must not have
    /// exactly one. Nothing changes if the text is empty or does not fit into the share, or if the
    /// share does not lie within the values.
    #[inline(always)]
    pub(crate) fn set_text_in(&mut self, code: usize, end: usize, form: Form, text: &[u8])
        requires several { form ≢ Form.RealText → length text.now ≢ 1 }
        requires code { code < codes_in self.old }
        requires end { end ≡ end_at self.old.shares.now (bytes_in self.old) code }
        ensures { SetsCode code (with_text form text.now) self.old self.new }
    {
        let start = self.shares[code].start;
        if end < start || self.values.len() < end {
            return;
        }
        if text.is_empty() || text_bytes(form, text.len()) > end - start {
            return;
        }
        let values = &mut *self.values;
        let state = fill_share(&mut values[start..end], form, text);
        let slots = &mut *self.slots;
        let shares = &mut *self.shares;
        hold_text(&mut slots[code], &mut shares[code], state, text.len());
    }

    /// Sets the value of the code at index `code` to the text of a change of this form. A text of
    /// digits must not have exactly one. Nothing changes if there is no such code, or if the text
    /// is empty or does not fit into the code's share.
    #[inline(never)]
    pub(crate) fn set_text(&mut self, code: usize, form: Form, text: &[u8])
        requires { form ≢ Form.RealText → length text.now ≢ 1 }
        ensures { SetsCode code (with_text form text.now) self.old self.new }
    {
        if code < self.slots.len() && code < self.shares.len() {
            self.set_text_in(code, self.share_end(code), form, text);
        }
    }

    /// Adds `more` to the first counter of the code at index `code`, to the second if `rises` is
    /// true, and to the third if `falls` is true: to the part of each that is in the share. A
    /// counter stops at 2^64 - 1. Nothing changes if there is no such code.
    // It takes the whole table, since it is called once in 256 steps: with the shares, `edges` of
    // 27,505 codes takes the same.
    #[cold]
    #[inline(never)]
    pub(crate) fn add_steps(&mut self, code: usize, more: u64, rises: bool, falls: bool)
        ensures keeps { KeepsTable self.old self.new }
        ensures changes { ChangesCode code (with_steps more rises falls) self.old self.new }
    {
        if code < self.shares.len() {
            let shares = &mut *self.shares;
            count_steps(&mut shares[code].counts, more, rises, falls);
        }
    }
}

/// Sets the value of the code at index `code` to these binary digits. It changes only the slot, and
/// does not look at it before; nothing changes if there is no such code.
#[inline(always)]
pub(crate) fn set_bits(slots: &mut [Slot], code: usize, bits: Bits)
    ensures changes { ChangesSlot code (with_number bits.len bits.number) slots.old slots.new }
    ensures laid { SlotsKeepLaid slots.old slots.new }
{
    if code < slots.len() {
        let (number, tag) = held_bits(bits);
        let slot = &mut slots[code];
        slot.number = number;
        slot.tag = tag;
    }
}

/// Adds 1 to a counter in the slot of the code at index `code`, and returns true. `way`, which must
/// be below 3, chooses the counter: 0 that of falls, 2 that of rises, 1 that of other changes of
/// the value. Returns false if the counter was at 255: then it is 0 now, and the caller has to add
/// 256 to the counters of the share (`add_steps`). Returns false too, and changes nothing, if there
/// is no such code.
#[inline(always)]
pub(crate) fn count_in_slot(slots: &mut [Slot], code: usize, way: usize) -> bool
    requires { way < 3 }
    ensures counts { result ≡ true
        → ChangesSlot code (with_step (way == 2) (way == 0)) slots.old slots.new }
    ensures left { result ≡ false → LeavesSteps code (with_step (way == 2) (way == 0)) (way == 2)
        (way == 0) slots.old slots.new }
    ensures laid { SlotsKeepLaid slots.old slots.new }
{
    if code >= slots.len() {
        return false;
    }
    count_step(&mut slots[code].steps, way)
}

/// What became of a change for which the slot of its code may be enough.
#[derive(Clone, Copy, PartialEq, Eq)]
pub(crate) enum Stepped {
    /// The slot is not enough, and nothing changed.
    Not,
    /// The value is set. If it is another one, the slot has counted the step.
    Counted,
    /// The value is set. The slot's counter of such steps was at 255 and is 0 now, so the caller
    /// has to add 256 steps to the counters of the share: as rises if `rises`, as falls if `falls`.
    Uncounted { rises: bool, falls: bool },
}

/// Sets the value of the code at index `code` to `digit`, and counts the change, if that needs only
/// the slot: if the code holds the same digit (`X` is `x`, and `Z` is `z`), or if one of the two is
/// `0` and the other is `1`. Returns `Stepped::Not`, and changes nothing, if there is no such code,
/// or if it holds anything else.
// A digit is a state of the slot, so no byte of values is touched: held as a number of one digit,
// `edges` of scalars takes 31 % more.
#[inline(always)]
pub(crate) fn step_digit_at(slots: &mut [Slot], code: usize, digit: u8) -> Stepped
    ensures counted { result ≡ Stepped.Counted → FlipsTo code digit slots.old slots.new }
    ensures uncounted { (rises falls : Bool) → result ≡ Stepped.Uncounted rises falls
        → LeavesFlip code digit rises falls slots.old slots.new }
    ensures same { result ≡ Stepped.Not → slots.new ≡ slots.old }
    ensures laid { SlotsKeepLaid slots.old slots.new }
{
    if code >= slots.len() {
        return Stepped::Not;
    }
    let before = slots[code].tag;
    if !is_zero_or_one(digit) || before != tag_of_flipped(digit) {
        return if digit_of_state(state_in(before)) == Some(digit.to_ascii_lowercase()) {
            Stepped::Counted
        } else {
            Stepped::Not
        };
    }
    set_tag(slots, code, flipped(before));
    if count_in_slot(slots, code, way_to(digit)) {
        return Stepped::Counted;
    }
    let rises = digit == b'1';
    Stepped::Uncounted {
        rises,
        falls: !rises,
    }
}

/// Sets the value of the code at index `code` to these binary digits, and counts the change, if
/// that needs only the slot: if the code holds binary digits, and neither these nor the new ones
/// are more than `size`. Returns `Stepped::Not`, and changes nothing, if there is no such code, or
/// if that is not so.
#[inline(always)]
pub(crate) fn step_bits_at(slots: &mut [Slot], code: usize, size: usize, bits: Bits) -> Stepped
    ensures counted { result ≡ Stepped.Counted → StepsTo code size bits slots.old slots.new }
    ensures uncounted { (rises falls : Bool) → result ≡ Stepped.Uncounted rises falls
        → LeavesNumber code size bits rises falls slots.old slots.new }
    ensures same { result ≡ Stepped.Not → slots.new ≡ slots.old }
    ensures laid { SlotsKeepLaid slots.old slots.new }
{
    if code >= slots.len() || !is_number_step(&slots[code], size, bits) {
        return Stepped::Not;
    }
    let before = slots[code].number as usize;
    set_bits(slots, code, bits);
    let way = way_between(before, bits.number);
    if before == bits.number || count_in_slot(slots, code, way) {
        return Stepped::Counted;
    }
    Stepped::Uncounted {
        rises: way == 2,
        falls: way == 0,
    }
}

/// Sets the slot and the share of each code to no value and no counts, and gives each code its part
/// of `values` bytes, one after the other. If there are too few bytes, the last codes get fewer or
/// none. Returns where the last part ends. There is a slot and a share for each code.
pub(crate) fn lay_out(
    codes: &[Code],
    slots: &mut [Slot],
    shares: &mut [Share],
    values: usize,
) -> usize
    requires slots { length codes.now ≡ length slots.old }
    requires shares { length codes.now ≡ length shares.old }
    ensures slots { (k : ℕ) (s : Slot) → slice_get slots.new k ≡ Some s → IsUnset s }
    ensures shares { (k : ℕ) (h : Share) → slice_get shares.new k ≡ Some h
        → h ≡ share_from (start_of codes.now values k) }
    ensures end { result ≡ start_of codes.now values (length codes.now) }
{
    let mut at = 0;
    for index in 0..slots.len() {
        slots[index] = Slot::new();
        shares[index] = Share::at(at);
        at = at.saturating_add(codes[index].value_bytes()).min(values);
    }
    at
}
