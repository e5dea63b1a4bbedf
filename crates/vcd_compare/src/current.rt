//! The current states of all codes.
ghost use Rattle.std.specs.Prelude.{◌≡◌, Some, slice_get};
ghost use Rattle.vcd_body.specs.Names.{IsLaidOut};
ghost use Rattle.vcd_compare.specs.Comparing.{differs_now, is_triggered_last, triggers_with, values_differ};

use crate::asked::Asked;
use crate::pairs::Pairs;
use crate::values::values_match;
use vcd_body::{Regs, Table};
use vcd_view::{Code, HeadView};

/// What is compared, and the current states of all codes: their values, and when each event was
/// triggered last outside sections.
#[derive(Drop)]
pub(crate) struct Current<'p, 'r> {
    pub view: HeadView<'p>,
    pub pairs: &'p Pairs,
    pub asked: Asked,
    pub table: Table<'r>,
    pub triggers: &'r mut [Option<u64>],
}

/// Notes a change of the code at index `code`, which is declared so, with these registers before
/// it: an event that changes outside sections was triggered last at their time.
#[inline(always)]
pub(crate) fn note_trigger(triggers: &mut [Option<u64>], code: usize, declared: Code, regs: Regs)
    ensures { triggers.new ≡ triggers_with declared.event regs code triggers.old }
{
    if declared.event && regs.section.is_none() && code < triggers.len() {
        triggers[code] = Some(regs.time);
    }
}

impl Current<'_, '_> {
    /// Returns whether the event at index `code` of the codes was triggered last at this time.
    #[inline(always)]
    pub(crate) fn is_triggered(&self, code: usize, at: u64) -> bool
        ensures { result ≡ is_triggered_last self.now code at }
    {
        match self.triggers.get(code) {
            Some(Some(time)) => *time == at,
            Some(None) | None => false,
        }
    }

    /// Returns whether the values of the codes at these indexes, which are declared so, do not
    /// match.
    // Nearly all values are the same, in slots of the table, and this is seen first.
    #[inline(always)]
    fn values_differ(&self, one: usize, other: usize, code: Code, its: Code) -> bool
        requires laid { IsLaidOut self.now.table }
        requires one { slice_get self.now.view.codes.now one ≡ Some code }
        requires other { slice_get self.now.view.codes.now other ≡ Some its }
        ensures { result ≡ values_differ self.now one other }
    {
        if code.size == its.size {
            let same = self.table.same_value(one, other, code.size);
            if same || !(self.asked.x_of_one || self.asked.x_of_other) {
                return !same;
            }
        }
        !values_match(&self.table, self.view, self.asked, one, other)
    }

    /// Returns whether the states of the two codes of a class do not match at this time.
    #[inline(always)]
    pub(crate) fn differs(&self, class: usize, at: u64) -> bool
        requires laid { IsLaidOut self.now.table }
        ensures { result ≡ differs_now self.now class at }
    {
        let Some((one, other)) = self.pairs.codes_of(class) else {
            return false;
        };
        let Some(code) = self.view.code_at(one) else {
            return false;
        };
        let Some(its) = self.view.code_at(other) else {
            return false;
        };
        if code.event {
            return self.is_triggered(one, at) != self.is_triggered(other, at);
        }
        self.values_differ(one, other, code, its)
    }
}
