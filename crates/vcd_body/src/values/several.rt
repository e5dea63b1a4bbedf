// Several digits that are set over several others, if one of the last differs or all are the same.
ghost use Rattle.std.specs.Prelude.{◌≡◌, ◌≢◌, ◌≤◌, ◌<◌, ℕ, IfSome, length, map, true, false};
ghost use Rattle.vcd_body.specs.Names.{Held, IsLaidOut, SetsCode, TellsStep, held_at, held_digit, with_change};

use crate::item::Form;
use crate::values::held::last_held;
use crate::values::packed::{ends_differ, holds_packed};
use crate::values::slot::{State, state_in};
use crate::values::step::{Step, step_to_text};
use crate::values::table::Table;

impl<'a> Table<'a> {
    /// Returns how the value of the code at index `code`, which must exist, would change to the
    /// digits of a text, if several packed digits are held, and either one of the last differs or
    /// all are the same. `None` otherwise.
    // It looks at the state in a copy of the slot first, so that `held` takes no steps for other
    // states: else `edges` of wide vectors takes 3 % more.
    #[inline(always)]
    fn step_by_ends(&self, code: usize, text: &[u8]) -> Option<Step>
        requires { code < length self.now.slots.now }
        ensures some { IfSome result (λ _. 1 ≤ length text.now) }
        ensures same { IfSome result (λ step. step.differs ≡ false → IsLaidOut self.now
            → held_at self.now code ≡ Held.Digits (map held_digit text.now)) }
        ensures step { IsLaidOut self.now → TellsStep (held_at self.now code) text.now result }
    {
        let slot = self.slots[code];
        if state_in(slot.tag) != State::Packed {
            return None;
        }
        let held = self.held(code)?;
        match held.holding.state {
            State::Packed if ends_differ(held.bytes, text) => {
                Some(step_to_text(true, last_held(held), Form::Vector, text))
            }
            State::Packed if held.holding.len() == text.len() && holds_packed(held.bytes, text) => {
                Some(step_to_text(false, last_held(held), Form::Vector, text))
            }
            _ => None,
        }
    }

    /// Sets the value of the code at index `code` to the digits of a text, and counts the change,
    /// if several digits are held, and either one of the last differs or all are the same. Returns
    /// whether this is so. If not, nothing changes, also if there is no such code. The text must
    /// not have exactly one digit.
    // Values that differ mostly do so in their last digits: without it `edges` of wide vectors
    // takes 18 % more. The same digits are not written again: otherwise `edges` of `b1x "` again
    // and again takes about 1.8 times as many instructions.
    #[inline(never)]
    pub(crate) fn follow_by_ends(&mut self, code: usize, text: &[u8]) -> bool
        requires { length text.now ≢ 1 }
        ensures sets { result ≡ true → (size : ℕ)
            → SetsCode code (with_change size Form.Vector text.now) self.old self.new }
        ensures same { result ≡ false → self.new ≡ self.old }
    {
        if code >= self.slots.len() || code >= self.shares.len() {
            return false;
        }
        let Some(step) = self.step_by_ends(code, text) else {
            return false;
        };
        if step.differs {
            self.set_text_in(code, self.share_end(code), Form::Vector, text);
            self.count(code, step.rises, step.falls);
        }
        true
    }
}
