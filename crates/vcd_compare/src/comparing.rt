//! The comparison between two items of a body.
ghost use Rattle.std.specs.Prelude.{◌≡◌, ◌≢◌, ℕ, Some, length, slice_get, unwrap_or};
ghost use Rattle.vcd_body.specs.Ahead.{HasBits};
ghost use Rattle.vcd_body.specs.Given.{HasGoodText};
ghost use Rattle.vcd_body.specs.declared.item.Item.TheVariants as body_item;
ghost use Rattle.vcd_compare.specs.Comparing.{AreSkips, ComparesOn, Drops, IsEarlierEnd, CanGoOn, SameRequest, Settles, Touches, some_differ};
ghost use Rattle.vcd_compare.specs.Touched.{IsListed};
ghost use Rattle.vcd_compare.specs.declared.comparing.Watched.{Watched};

use crate::current::{Current, note_trigger};
use crate::pairs::{End, Pairs};
use crate::rows::{Links, put_at, take_due};
use crate::touched::{Touched, is_done, take_mark};
use crate::variables::number_at;
use vcd_body::{Bits, Item, Regs, ScannedItem, Visit, set_shortest};
use vcd_run::sort_front;
use vcd_text::{Sink, WriteFailed};
use vcd_view::{Code, HeadView};

/// What a comparison keeps between two items: the current states, which classes are touched, where
/// their rows are, and room for the rows that have a line due.
#[derive(Drop)]
pub(crate) struct Comparison<'p, 'r> {
    pub current: Current<'p, 'r>,
    pub touched: Touched<'r>,
    pub links: Links<'r>,
    pub due: &'r mut [usize],
    /// For each end how much lower than its `earlier` the next end is that is still of use.
    pub skips: &'r mut [usize],
}

/// What a walk keeps in registers.
#[derive(Clone, Copy)]
pub(crate) struct Watched {
    /// The time at which values are compared next: that of the last timestamp, or the first time
    /// that is asked for if that is greater.
    pub at: u64,
}

/// Returns the end at this index; `None` if there is no such index.
#[inline(always)]
fn end_at(ends: &[End], index: usize) -> Option<End>
    ensures { result ≡ slice_get ends.now index }
{
    ends.get(index).copied()
}

/// Returns 1 plus the index of the last end that has the code at index `code`; 0 if there is none.
#[inline(always)]
fn last_end(last: &[usize], code: usize) -> usize
    ensures { result ≡ unwrap_or (slice_get last.now code) 0 }
{
    last.get(code).copied().unwrap_or(0)
}

/// Returns 1 plus the index of the next end before this one, at `index`, that has the same code; 0
/// if there is none. If the class of that one has had its only line, it is left out from now on.
// Without this the time would grow with the changes of a code times the classes that it is in. It
// is not inlined since most codes have one end: that costs 4 % of the instructions of a comparison.
#[inline(never)]
fn earlier_end(ends: &[End], marks: &mut [u8], skips: &mut [usize], index: usize, end: End) -> usize
    ensures same { marks.new ≡ marks.old }
    ensures next { AreSkips ends.now marks.old skips.old → slice_get ends.now index ≡ Some end
        → IsEarlierEnd ends.now marks.old index end.code result }
    ensures skips { AreSkips ends.now marks.old skips.old → slice_get ends.now index ≡ Some end
        → AreSkips ends.now marks.old skips.new }
{
    let next = end.earlier.saturating_sub(number_at(skips, index));
    let Some(before) = next.checked_sub(1) else {
        return 0;
    };
    if !is_done(marks, before / 2) {
        return next;
    }
    let Some(done) = end_at(ends, before) else {
        return next;
    };
    let further = done.earlier.saturating_sub(number_at(skips, before));
    put_at(skips, index, end.earlier.saturating_sub(further));
    further
}

/// Touches all classes of the code at index `code`, but those that have had their only line.
#[inline(always)]
fn touch(pairs: &Pairs, touched: &mut Touched<'_>, skips: &mut [usize], code: usize)
    requires { IsListed touched.old }
    ensures listed { IsListed touched.new }
    ensures many { length touched.new.marks.now ≡ length touched.old.marks.now }
    ensures touches { Touches pairs.now code touched.old.marks.now touched.new.marks.now
        skips.old skips.new }
{
    let mut left = last_end(&pairs.last, code);
    'ends: while let Some(index) = left.checked_sub(1) {
        let Some(end) = end_at(&pairs.ends, index) else {
            return;
        };
        touched.add(index / 2);
        if end.earlier == 0 {
            return;
        }
        left = earlier_end(&pairs.ends, touched.marks, skips, index, end).min(index);
    }
}

impl Comparison<'_, '_> {
    /// Handles an item that is no timestamp: sets the value of a change, and touches the classes of
    /// its code. Any other item changes nothing. `regs` are the registers, `text` is the text of a
    /// change, and `bits` its digits as a number, if that is known.
    #[inline(always)]
    pub(crate) fn take(
        &mut self,
        view: HeadView<'_>,
        regs: Regs,
        item: Item,
        text: &[u8],
        bits: Option<Bits>,
    )
        requires ready { CanGoOn self.old }
        requires sound { HasGoodText view.codes.now text.now item }
        requires bits { HasBits item text.now bits }
        requires other { (time : ℕ) → item ≡ body_item.Time time → ⊥ }
        ensures ready { CanGoOn self.new }
        ensures same { SameRequest self.old self.new }
        ensures on { (w : Watched) → ComparesOn view.entry text.now item regs self.old self.new w w }
    {
        let Item::Change { code, .. } = item else {
            return;
        };
        set_shortest(&mut self.current.table, item, text, bits);
        let Some(declared) = view.code_at(code) else {
            return;
        };
        note_trigger(self.current.triggers, code, declared, regs);
        touch(self.current.pairs, &mut self.touched, self.skips, code);
    }

    /// Returns whether the codes of some class that is touched do not match at this time.
    #[inline(always)]
    pub(crate) fn some_differ(&self, at: u64) -> bool
        requires { CanGoOn self.now }
        ensures { result ≡ some_differ self.now at }
    {
        for index in 0..self.touched.candidates() {
            let class = self.touched.candidate(index);
            if self.touched.is_touched(class) && self.current.differs(class, at) {
                return true;
            }
        }
        false
    }

    /// Sets the mark of each class that is touched to 0 if its codes match at this time.
    fn drop_same(&mut self, at: u64)
        requires { CanGoOn self.old }
        ensures drops { Drops at self.old self.new }
    {
        for index in 0..self.touched.candidates() {
            let class = self.touched.candidate(index);
            if !self.current.differs(class, at) {
                take_mark(self.touched.marks, class, 0);
            }
        }
    }

    /// Finds the rows of the pairs that have a line due at this time, in order, and sets the marks
    /// of their classes to `after`. No class is touched after it. Returns how many rows there are.
    pub(crate) fn settle(&mut self, at: u64, after: u8) -> usize
        requires after { after ≢ 1 }
        requires ready { CanGoOn self.old }
        ensures ready { CanGoOn self.new }
        ensures settles { Settles at after self.old self.new result }
    {
        self.drop_same(at);
        let count = take_due(&mut self.touched, after, &self.links, self.due);
        sort_front(self.due, count);
        count
    }
}

impl<'p, 'r> Visit<Comparison<'p, 'r>> for Watched {
    ghost use Rattle.std.specs.Prelude.{false};
    ghost use Rattle.vcd_compare.specs.Comparing.{ComparesOne, CanGoOn, stops_before};

    ghost stands = { λ _ comparison _ _. CanGoOn comparison };

    ghost takes = { λ view s t result. ComparesOne view s t result };

    ghost stops_before = { λ watched comparison time. stops_before watched comparison time };

    ghost over = { λ _. false };

    /// Returns whether a timestamp of this time ends the run, or settles a time at which lines are
    /// due.
    #[inline(always)]
    fn ends_before(&self, comparison: &Comparison<'p, 'r>, time: u64) -> bool {
        comparison.current.asked.to < time || (self.at < time && comparison.some_differ(self.at))
    }

    /// Returns false: only `ends_before` ends such a walk.
    #[inline(always)]
    fn is_over(&self) -> bool
        ensures { result ≡ false }
    {
        false
    }

    /// Goes on to this time, if it is greater: no class is touched then.
    #[inline(always)]
    fn take_timestamp(
        &mut self,
        comparison: &mut Comparison<'p, 'r>,
        _view: HeadView<'_>,
        _regs: Regs,
        time: u64,
        _timestamp: ScannedItem<'_>,
    ) {
        if time <= self.at {
            return;
        }
        comparison.touched.clear();
        self.at = time;
    }

    /// Sets the value of the change, and touches the classes of its code. It writes nothing, and
    /// never fails.
    #[inline(always)]
    fn take_change<W: Sink>(
        &mut self,
        comparison: &mut Comparison<'p, 'r>,
        view: HeadView<'_>,
        regs: Regs,
        change: ScannedItem<'_>,
        _out: &mut W,
    ) -> Result<(), WriteFailed> {
        comparison.take(view, regs, change.item, change.text, change.bits);
        Ok(())
    }

    /// Does nothing, and never fails.
    #[inline(always)]
    fn take_section<W: Sink>(
        &mut self,
        _comparison: &mut Comparison<'p, 'r>,
        _view: HeadView<'_>,
        _before: Regs,
        _after: Regs,
        _section: ScannedItem<'_>,
        _out: &mut W,
    ) -> Result<(), WriteFailed> {
        Ok(())
    }
}
