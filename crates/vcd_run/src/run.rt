//! A run of any task over the items of a body.
ghost use Rattle.std.specs.Prelude.{◌≡◌, ℕ, ◌-◌, ◌^◌, ◌<◌, IfOk, MatchResult, Ok};
ghost use Rattle.vcd_body.specs.Answer.{EndsAtRead};
ghost use Rattle.vcd_body.specs.Given.{item_text};
ghost use Rattle.vcd_body.specs.Prompt.{HasPassedOn, LeavesSink};
ghost use Rattle.vcd_body.specs.Whole.{HoldsItem};
ghost use Rattle.vcd_body.specs.declared.answer.More.TheVariants as more;
ghost use Rattle.vcd_text.specs.Advances.{Advances, CallEnd, HasNotFailed};
ghost use Rattle.vcd_text.specs.Ahead.{ahead_of};
ghost use Rattle.vcd_text.specs.Device.{Counts};
ghost use Rattle.vcd_text.specs.Feed.{limit_of, seen, source_of};
ghost use Rattle.vcd_run.specs.Run.{CountsBoth, EndsIf, ReadsOn, RunsOn, SameWindows, StepEndsIf, Steps, StepsAhead, StepsOver};

use crate::task::Task;
use vcd_body::{
    Done, Item, More, Regs, Stop, change_text, next_item, pass_items, pass_on_before_read,
};
use vcd_text::{Feed, Sink, Source, WriteFailed};
use vcd_view::HeadView;

/// Returns the text of `item`, which `next_item` returned last.
#[inline(always)]
fn text_of_item<'f, S: Source>(feed: &'f Feed<'_, '_, '_, '_, S>, item: Item) -> &'f [u8]
    ensures { result.now ≡ item_text feed.now item }
{
    match item {
        Item::Change { form, .. } => change_text(feed, form),
        Item::Time(_) | Item::Begin(_) | Item::End | Item::Finish => &[],
    }
}

/// Handles the items that lie completely in the chunk, and moves the feed past them. Fails if a
/// write does.
#[inline(never)]
fn advance_ahead<T: Task, S: Source, W: Sink>(
    task: &mut T,
    view: HeadView<'_>,
    regs: &mut Regs,
    feed: &mut Feed<'_, '_, '_, '_, S>,
    out: &mut W,
) -> Result<(), WriteFailed>
    requires out_failures { (W.device out.old).failures < 2 ^ 64 - 1 }
    requires ready { T.is_ready task.old }
    ensures steps { StepsAhead T.keeps view.entry task.old task.new regs.old regs.new
        feed.old feed.new (W.device out.old) (W.device out.new) result }
    ensures advances { Advances S.failures feed.old feed.new CallEnd.GoesOn }
    ensures bounded { seen feed.new < 2 ^ 63 }
    ensures source { source_of feed.new ≡ source_of feed.old }
    ensures counts { Counts (W.device out.old) (W.device out.new) result }
    ensures ready { IfOk result (λ _. T.is_ready task.new) }
    ensures fixed { T.fixed task.new ≡ T.fixed task.old }
{
    let taken = task.take_ahead(view, *regs, feed.ahead(), out);
    *regs = taken.regs;
    pass_items(feed, taken.passed);
    taken.written
}

/// Handles the next item of the feed, and writes its output, or that at the end of the body.
/// Returns `Again` if the run goes on, otherwise what ended it. Fails at a fault of the body, at a
/// failed read, and at a failed write.
#[inline(always)]
pub fn step<T: Task, S: Source, W: Sink>(
    task: &mut T,
    view: HeadView<'_>,
    regs: &mut Regs,
    feed: &mut Feed<'_, '_, '_, '_, S>,
    out: &mut W,
) -> Result<More, Stop>
    requires feed_failures { S.failures (source_of feed.old) < 2 ^ 64 - 1 }
    requires out_failures { (W.device out.old).failures < 2 ^ 64 - 1 }
    requires ready { T.is_ready task.old }
    ensures steps { Steps T.keeps T.tells view.entry task.old task.new regs.old regs.new
        feed.old feed.new (W.device out.old) (W.device out.new) result }
    ensures over { StepsOver S.failures feed.old feed.new
        (W.device out.old) (W.device out.new) result }
    ensures ahead { HoldsItem (limit_of feed.old) (ahead_of feed.old)
        → source_of feed.new ≡ source_of feed.old }
    ensures sink { LeavesSink out.old out.new result }
    ensures ready { result ≡ Ok more.Again → T.is_ready task.new }
    ensures fixed { T.fixed task.new ≡ T.fixed task.old }
    ensures early { StepEndsIf (T.may_end (T.fixed task.old)) result }
{
    let item = match next_item(feed, view, regs) {
        Ok(item) => item,
        Err(fault) => return Err(Stop::of_body(fault, 0, feed.line())),
    };
    if item == Item::Finish {
        task.close(view, *regs, out)?;
        return Ok(More::Ended(Done::Whole));
    }
    let text = text_of_item(feed, item);
    match task.take(view, *regs, item, text, out) {
        Ok(false) => Ok(More::Again),
        Ok(true) => Ok(More::Ended(Done::Early)),
        Err(failed) => Err(failed.into()),
    }
}

/// Has the task handle all items of the body, up to one that ends the run. Returns whether the body
/// was read to its end.
///
/// # Errors
///
/// The first fault of the body, a failed read, or `Stop::Write` if a write failed.
pub fn run_to_end<T: Task, S: Source, W: Sink>(
    task: &mut T,
    view: HeadView<'_>,
    feed: &mut Feed<'_, '_, '_, '_, S>,
    out: &mut W,
) -> Result<Done, Stop>
    requires feed_failures { S.failures (source_of feed.old) < 2 ^ 64 - 1 }
    requires out_failures { (W.device out.old).failures < 2 ^ 64 - 1 }
    requires ready { T.is_ready task.old }
    requires open { HasNotFailed feed.old }
    ensures runs { RunsOn T.keeps T.tells view.entry task.old task.new feed.old feed.new
        (W.device out.old) (W.device out.new) result }
    ensures needed { ReadsOn T.keeps view.entry task.old feed.old feed.new
        (W.device out.old) (W.device out.new) result }
    ensures devices { CountsBoth S.failures feed.old feed.new
        (W.device out.old) (W.device out.new) result }
    ensures early { EndsIf (T.may_end (T.fixed task.old)) result }
    ensures fixed { T.fixed task.new ≡ T.fixed task.old }
    ensures last { EndsAtRead (S.last_failed (source_of feed.new)) result }
    ensures windows { SameWindows feed.old feed.new }
    ensures passed_on { HasPassedOn (W.kept_back out.new) result }
{
    let mut regs = Regs::new();
    'items: loop {
        advance_ahead(task, view, &mut regs, feed, out)?;
        pass_on_before_read(feed, out)?;
        match step(task, view, &mut regs, feed, out)? {
            More::Again => {}
            More::Ended(done) => return Ok(done),
        }
    }
}
