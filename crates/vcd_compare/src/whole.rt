//! The whole comparison of two parts of a dump.
ghost use Rattle.std.specs.Prelude.{◌≡◌, ◌-◌, ◌^◌, ◌<◌, ◌≤◌, ℕ, List, length, [], None, replicate, IfOk, false, true};
ghost use Rattle.vcd_body.specs.Answer.{EndsAtRead};
ghost use Rattle.vcd_body.specs.Current.{table_bytes};
ghost use Rattle.vcd_body.specs.Prompt.{HasPassedOn};
ghost use Rattle.vcd_model.specs.Header.{Header};
ghost use Rattle.vcd_model.specs.Input.{Input};
ghost use Rattle.vcd_model.specs.Tokens.{Token};
ghost use Rattle.vcd_model.specs.Within.{Names};
ghost use Rattle.vcd_run.specs.Run.{BodyGives, CountsBoth, ReadsNeeded, SameWindows, left_of};
ghost use Rattle.vcd_text.specs.Advances.{HasNotFailed};
ghost use Rattle.vcd_text.specs.Device.{Counts};
ghost use Rattle.vcd_text.specs.Feed.{HasGiven, chunk_len_of, limit_of, seen, source_of, supply_of};
ghost use Rattle.vcd_view.specs.Views.{IsViewOf};
ghost use Rattle.vcd_compare.specs.Asked.{model_asked, model_extent};
ghost use Rattle.vcd_compare.specs.Comparing.{CanGoOn};
ghost use Rattle.vcd_compare.specs.Pairs.{ArePairs};
ghost use Rattle.vcd_compare.specs.Run.{Answers, HasHandled, LeavesDue, PutsDue, RunStands, SameRun, TakesTime, Tells, done_of, flag_after, is_due_now, plan_within};

use crate::asked::{Asked, Extent};
use crate::comparing::{Comparison, Watched};
use crate::current::Current;
use crate::lines::{has_header_lines, put_header_lines, put_lines};
use crate::pairs::Pairs;
use crate::rows::Links;
use crate::touched::Touched;
use vcd_body::{Done, Item, Regs, Share, Slot, Stop, Table, walk_ahead};
use vcd_run::{AheadEnd, Task, run_to_end};
use vcd_text::{Ahead, Feed, Sink, Source, WriteFailed};
use vcd_view::HeadView;

/// The slices that a comparison works in.
#[derive(Drop)]
pub struct Room<'r> {
    /// Bytes for the values of codes.
    pub values: &'r mut [u8],
    /// A slot for each code.
    pub slots: &'r mut [Slot],
    /// A share for each code.
    pub shares: &'r mut [Share],
    /// `None` for each code.
    pub triggers: &'r mut [Option<u64>],
    /// A 0 for each class of the pairs.
    pub flags: &'r mut [u8],
    /// A number for each class of the pairs, whatever it is.
    pub classes: &'r mut [usize],
    /// A 0 for each class of the pairs.
    pub last: &'r mut [usize],
    /// A number for each pair, whatever it is.
    pub earlier: &'r mut [usize],
    /// A number for each pair, whatever it is.
    pub due: &'r mut [usize],
    /// A 0 for each end of the classes: two for each class of the pairs.
    pub skips: &'r mut [usize],
}

/// How a comparison ended.
#[derive(Clone, Copy, PartialEq, Eq, Debug)]
pub struct Answer {
    /// Whether a line was written.
    pub differs: bool,
    /// Whether the dump was read to its end.
    pub done: Done,
    /// The time of the last item that was read: the last timestamp, or 0 if there was none.
    pub last: u64,
}

impl Pairs {
    /// Returns how many pairs are compared.
    pub fn count(&self) -> usize
        ensures { result ≡ length self.now.rows.items }
    {
        self.rows.len()
    }

    /// Returns how many classes there are: pairs of the same two codes have one.
    pub fn class_count(&self) -> usize
        ensures { result ≡ self.now.classes }
    {
        self.classes
    }

    /// Returns how many ends the classes have: two for each class.
    pub fn end_count(&self) -> usize
        ensures { result ≡ length self.now.ends.items }
    {
        self.ends.len()
    }
}

/// A comparison between two items of a body.
#[derive(Drop)]
pub(crate) struct Run<'p, 'r> {
    comparison: Comparison<'p, 'r>,
    watched: Watched,
    /// Whether a line was written.
    differs: bool,
    /// The time of the last item, once the run has ended.
    last: u64,
}

impl<'p, 'r> Run<'p, 'r> {
    /// Returns a run before the first item of a body. `room` has the lengths that its comments say.
    fn new(view: HeadView<'p>, room: Room<'r>, pairs: &'p Pairs, asked: Asked) -> Run<'p, 'r>
        requires values { table_bytes view ≤ length room.values.now }
        requires slots { length view.codes.now ≤ length room.slots.now }
        requires shares { length view.codes.now ≤ length room.shares.now }
        requires triggers { room.triggers.now ≡ replicate (length view.codes.now) None }
        requires flags { room.flags.now ≡ replicate pairs.now.classes 0 }
        requires last { room.last.now ≡ replicate pairs.now.classes 0 }
        requires earlier { length pairs.now.rows.items ≤ length room.earlier.now }
        requires due { length pairs.now.rows.items ≤ length room.due.now }
        requires skips { room.skips.now ≡ replicate (length pairs.now.ends.items) 0 }
        ensures stands { (h : Header) (exceptions : List (List ℕ)) (ns : List Names)
            → IsViewOf view.entry h → ArePairs pairs.now h (model_asked asked exceptions) ns
            → RunStands h exceptions ns [] result }
        ensures asked { result.comparison.current.asked ≡ asked }
        ensures ready { CanGoOn result.comparison }
    {
        Run {
            comparison: Comparison {
                current: Current {
                    view,
                    pairs,
                    asked,
                    table: Table::new(view, room.values, room.slots, room.shares),
                    triggers: room.triggers,
                },
                touched: Touched {
                    marks: room.flags,
                    classes: room.classes,
                    listed: 0,
                },
                links: Links::new(&pairs.rows, room.last, room.earlier),
                due: room.due,
                skips: room.skips,
            },
            watched: Watched { at: asked.from },
            differs: has_header_lines(pairs),
            last: 0,
        }
    }
}

/// Returns what the mark of a class becomes once its line was written.
fn flag_after(extent: Extent) -> u8
    ensures { result ≡ flag_after (model_extent extent) }
{
    match extent {
        Extent::First | Extent::EachPair => 2,
        Extent::Always => 0,
    }
}

impl Run<'_, '_> {
    /// Returns whether some line is due at the time at which values were compared.
    fn is_due(&self) -> bool
        requires { CanGoOn self.now.comparison }
        ensures { result ≡ is_due_now self.now.watched self.now.comparison }
    {
        let at = self.watched.at;
        at <= self.comparison.current.asked.to && self.comparison.some_differ(at)
    }

    /// Writes the lines that are due at the time at which values are compared, and returns whether
    /// there are some. Then no class is touched any more. Fails if a write does.
    fn put_due<W: Sink>(&mut self, view: HeadView<'_>, out: &mut W) -> Result<bool, WriteFailed>
        requires failures { (W.device out.old).failures < 2 ^ 64 - 1 }
        requires ready { CanGoOn self.old.comparison }
        ensures puts { PutsDue view.entry self.old (W.device out.old) (W.device out.new) result }
        ensures tells { IfOk result
            (λ some. some ≡ is_due_now self.old.watched self.old.comparison) }
        ensures settles { IfOk result (λ some. LeavesDue some self.old self.new) }
        ensures ready { IfOk result (λ _. CanGoOn self.new.comparison) }
        ensures same { SameRun self.old self.new }
        ensures counts { Counts (W.device out.old) (W.device out.new) result }
    {
        if !self.is_due() {
            return Ok(false);
        }
        let at = self.watched.at;
        let after = flag_after(self.comparison.current.asked.extent);
        let count = self.comparison.settle(at, after);
        put_lines(&self.comparison, view, count, at, out)?;
        Ok(true)
    }

    /// Handles a timestamp: writes the lines that it settles, and returns whether it ends the run.
    /// Fails if a write does.
    fn take_time<W: Sink>(
        &mut self,
        view: HeadView<'_>,
        time: u64,
        out: &mut W,
    ) -> Result<bool, WriteFailed>
        requires failures { (W.device out.old).failures < 2 ^ 64 - 1 }
        requires ready { CanGoOn self.old.comparison }
        ensures takes { TakesTime view.entry time self.old self.new
            (W.device out.old) (W.device out.new) result }
        ensures counts { Counts (W.device out.old) (W.device out.new) result }
        ensures ready { IfOk result (λ ended. ended ≡ false → CanGoOn self.new.comparison) }
        ensures same { SameRun self.old self.new }
    {
        let is_past = self.comparison.current.asked.to < time;
        if time <= self.watched.at {
            return Ok(is_past);
        }
        if !self.put_due(view, out)? {
            self.comparison.touched.clear();
            self.watched.at = time;
            return Ok(is_past);
        }
        self.differs = true;
        if let Extent::First = self.comparison.current.asked.extent {
            return Ok(true);
        }
        self.watched.at = time;
        Ok(is_past)
    }
}

impl Task for Run<'_, '_> {
    ghost keeps = { λ run plan h items. HasHandled run plan h items };

    ghost tells = { λ run items text. Tells run.differs run.last items text };

    ghost is_ready = { λ run. CanGoOn run.comparison };

    ghost fixed = { λ _. tt };

    ghost may_end = { λ _. true };

    /// Handles the items that lie completely in the chunk, up to a timestamp that `take` has to
    /// handle. It writes nothing, and never fails.
    #[inline(always)]
    fn take_ahead<W: Sink>(
        &mut self,
        view: HeadView<'_>,
        regs: Regs,
        ahead: Ahead<'_>,
        out: &mut W,
    ) -> AheadEnd {
        let walked = walk_ahead(&mut self.comparison, self.watched, view, regs, ahead, out);
        self.watched = walked.visit;
        AheadEnd {
            passed: walked.ahead.passed(),
            regs: walked.regs,
            written: Ok(()),
        }
    }

    /// Handles an item, and writes the lines that are due with a timestamp. Returns whether it ends
    /// the run. Fails if a write does.
    fn take<W: Sink>(
        &mut self,
        view: HeadView<'_>,
        regs: Regs,
        item: Item,
        text: &[u8],
        out: &mut W,
    ) -> Result<bool, WriteFailed> {
        match item {
            Item::Time(time) => {
                self.last = time;
                self.take_time(view, time, out)
            }
            Item::Change { .. } => {
                self.comparison.take(view, regs, item, text, None);
                Ok(false)
            }
            Item::Begin(_) | Item::End | Item::Finish => Ok(false),
        }
    }

    /// Writes the lines that are due at the end of the body. Fails if a write does.
    fn close<W: Sink>(
        &mut self,
        view: HeadView<'_>,
        regs: Regs,
        out: &mut W,
    ) -> Result<(), WriteFailed> {
        self.last = regs.time;
        if !self.put_due(view, out)? {
            return Ok(());
        }
        self.differs = true;
        Ok(())
    }
}

/// Compares the pairs over the body that follows the header of `view`, and writes the lines about
/// the header and those of values to `out`. Returns whether there was a line, whether the dump was
/// read to its end, and the last time that was read. `room` has the lengths that its comments say.
///
/// # Errors
///
/// The first fault of the body, a failed read, or `Stop::Write` if a write failed.
pub fn compare<S: Source, W: Sink>(
    view: HeadView<'_>,
    feed: &mut Feed<'_, '_, '_, '_, S>,
    room: Room<'_>,
    pairs: &Pairs,
    asked: Asked,
    out: &mut W,
) -> Result<Answer, Stop>
    requires feed_failures { S.failures (source_of feed.old) < 2 ^ 64 - 1 }
    requires out_failures { (W.device out.old).failures < 2 ^ 64 - 1 }
    requires open { HasNotFailed feed.old }
    requires values { table_bytes view ≤ length room.values.now }
    requires slots { length view.codes.now ≤ length room.slots.now }
    requires shares { length view.codes.now ≤ length room.shares.now }
    requires triggers { room.triggers.now ≡ replicate (length view.codes.now) None }
    requires flags { room.flags.now ≡ replicate pairs.now.classes 0 }
    requires last { room.last.now ≡ replicate pairs.now.classes 0 }
    requires earlier { length pairs.now.rows.items ≤ length room.earlier.now }
    requires due { length pairs.now.rows.items ≤ length room.due.now }
    requires skips { room.skips.now ≡ replicate (length pairs.now.ends.items) 0 }
    ensures gives { (h : Header) (exceptions : List (List ℕ)) (ns : List Names) (i : Input)
        (front : List Token) → IsViewOf view.entry h
        → ArePairs pairs.now h (model_asked asked exceptions) ns → HasGiven i front feed.old
        → BodyGives (Answers result) (plan_within (model_asked asked exceptions) h ns) h i front
        (limit_of feed.old) (seen feed.new) (W.device out.old) (W.device out.new)
        (done_of result) }
    ensures needed { (h : Header) (exceptions : List (List ℕ)) (ns : List Names) (i : Input)
        (front : List Token) → IsViewOf view.entry h
        → ArePairs pairs.now h (model_asked asked exceptions) ns → HasGiven i front feed.old
        → ReadsNeeded (plan_within (model_asked asked exceptions) h ns) h (limit_of feed.old)
        (chunk_len_of feed.old) i (left_of i (seen feed.new) result) front
        (supply_of feed.old) (supply_of feed.new) (W.device out.old) (W.device out.new) }

    // A failed read or write is counted, and is the last call of its device. No other is.
    ensures devices { CountsBoth S.failures feed.old feed.new
        (W.device out.old) (W.device out.new) result }
    ensures last { EndsAtRead (S.last_failed (source_of feed.new)) result }
    ensures windows { SameWindows feed.old feed.new }

    // If a read fails, the sink keeps nothing back of the output that was due before that read.
    ensures passed_on { HasPassedOn (W.kept_back out.new) result }
{
    put_header_lines(view, pairs, out)?;
    let mut run = Run::new(view, room, pairs, asked);
    let done = run_to_end(&mut run, view, feed, out)?;
    Ok(Answer {
        differs: run.differs,
        done,
        last: run.last,
    })
}
