//! The items that lie completely in a feed's chunk, as a task handles them, and those that
//! `next_item` returned.
ghost use Rattle.std.specs.Prelude.{◌≡◌, ℕ, ◌-◌, ◌^◌, ◌<◌, ◌≤◌, Bool, List, [], length, false, true, IfOk};
ghost use Rattle.vcd_text.specs.Ahead.{bytes_of, passed_of};
ghost use Rattle.vcd_text.specs.Device.{Counts};
ghost use Rattle.vcd_body.specs.Spelled.{HasTimestamp};
ghost use Rattle.vcd_body.specs.Given.{HasGoodText};
ghost use Rattle.vcd_body.specs.declared.item.Regs.{Regs};
ghost use Rattle.vcd_engine.specs.Ahead.{RunsOver};
ghost use Rattle.vcd_view.specs.declared.view.HeadView.{HeadView};
ghost use Rattle.vcd_engine.specs.Cut.{IsNoTimestamp};
ghost use Rattle.vcd_engine.specs.Engine.{Keeps, TakesEach, request_in};
ghost use Rattle.vcd_engine.specs.Next.{PutsItem, TakesTimestamp};
ghost use Rattle.vcd_engine.specs.PendingCopy.{IsNextItem, IsLine, IsPart};
ghost use Rattle.vcd_engine.specs.Room.{SameTask};
ghost use Rattle.vcd_engine.specs.declared.task_state.TaskState.{TaskState};
ghost use Rattle.vcd_engine.specs.declared.pending.PendingCopy.{PendingCopy};

use crate::pending::PendingCopy;
use vcd_body::{Item, Regs, ScannedItem, Visit, is_timestamp_line, walk_ahead};
use vcd_run::AheadEnd;
use vcd_text::{Ahead, Sink, WriteFailed};
use vcd_view::HeadView;

/// Returns what a walk over the chunk has left that ended at `ahead`, with these registers and this
/// result of its writes.
#[inline(always)]
fn ended_at(ahead: Ahead<'_>, regs: Regs, written: Result<(), WriteFailed>) -> AheadEnd
    ensures passed { result.passed ≡ passed_of ahead.entry }
    ensures regs { result.regs ≡ regs }
    ensures written { result.written ≡ written }
{
    AheadEnd {
        passed: ahead.passed(),
        regs,
        written,
    }
}

/// What a loop remembers of the last timestamp's line in the chunk.
pub(crate) trait LineMemory: Copy {
    // The offsets in the chunk where that line begins and ends. Its last byte there may be another
    // white byte than the line feed. An empty part says nothing.
    ghost line: { Self → ℕ × ℕ };

    /// Returns what is remembered before all items of a chunk: no line of a timestamp.
    fn new() -> Self
        ensures { (bytes : List ℕ) (time : ℕ) → IsLine bytes (line result) time };

    /// Returns what is remembered after a timestamp in the chunk `bytes`, whose digits are at the
    /// offsets from `at` up to `to - 1` (exclusive).
    fn after_timestamp(bytes: &[u8], at: usize, to: usize) -> Self
        requires { (from time : ℕ) × HasTimestamp bytes.now from to at time }
        ensures { (from time : ℕ) → HasTimestamp bytes.now from to at time
            → IsLine bytes.now (line result) time };
}

/// No line is remembered: the loop of a task that counts changes or sets values, and writes
/// nothing.
// Against a loop that carries the line, `edges` takes 2.8 instructions an item of scalars less.
#[derive(Clone, Copy)]
pub(crate) struct NoLine;

impl LineMemory for NoLine {
    ghost line = { λ _. (0, 0) };

    /// Returns the only value of this type.
    #[inline(always)]
    fn new() -> NoLine {
        NoLine
    }

    /// Returns the only value of this type.
    #[inline(always)]
    fn after_timestamp(_bytes: &[u8], _at: usize, _to: usize) -> NoLine {
        NoLine
    }
}

/// The line is remembered: the loop of a task that copies changes from the chunk. The last
/// timestamp's line has the bytes from `from` up to the last one before `to`, and a line feed; if
/// these offsets are equal, the chunk is not known to have it.
// It saves `pick` of five scalars 12 % of its instructions, and costs `cut` nothing.
#[derive(Clone, Copy)]
pub(crate) struct KnownLine {
    pub(crate) from: usize,
    pub(crate) to: usize,
}

impl LineMemory for KnownLine {
    ghost line = { λ kind. (kind.from, kind.to) };

    /// Returns a `KnownLine` that says nothing: the chunk is not known to have the line of a
    /// timestamp.
    #[inline(always)]
    fn new() -> KnownLine {
        KnownLine { from: 0, to: 0 }
    }

    /// Returns where the chunk has the line of a timestamp whose digits are at the offsets from
    /// `at` up to `to - 1` (exclusive). If they are not as they would be written, the chunk is not
    /// known to have its line.
    #[inline(always)]
    fn after_timestamp(bytes: &[u8], at: usize, to: usize) -> KnownLine {
        if is_timestamp_line(bytes, at, to) {
            return KnownLine { from: at - 1, to };
        }
        KnownLine { from: to, to }
    }
}

/// What a task does with the items that do not end the run, whether they lie completely in the
/// chunk or come from `next_item`.
pub(crate) trait AheadTask<L: LineMemory> {
    ghost use Rattle.vcd_engine.specs.declared.task_state.TaskState.{TaskState};

    // The task's state, as the case of the enum.
    ghost task_state: { Self → TaskState };

    // Whether it may run in a loop of this kind.
    ghost is_ready: { Self → Bool };

    // Whether a timestamp of this time is left to `TaskState::take`.
    ghost stops_before: { Self → ℕ → Bool };

    /// Returns whether a walk over the chunk has to stop before a timestamp of this time, so that
    /// `TaskState::take` handles it: it ends the run, or has output of its own.
    fn ends_before(&self, time: u64) -> bool
        ensures { result ≡ stops_before self.now time };

    /// Handles a timestamp of this time for which `ends_before` is false: it does not end the run,
    /// and has no output.
    fn note_time(&mut self, time: u64)
        requires ready { is_ready self.old ≡ true }
        requires no_stop { stops_before self.old time ≡ false }
        ensures takes { TakesTimestamp time (task_state self.old) (task_state self.new) }
        ensures ready { is_ready self.new ≡ true }
        ensures same { SameTask (task_state self.old) (task_state self.new) };

    /// Handles an item that is no timestamp. Its output is added to `pending`, or written to `out`
    /// after all that is pending. `regs` are the registers after the item; `line` says where the
    /// chunk has the last timestamp's line, if that is known. Fails if a write does.
    fn take_item<W: Sink>(
        &mut self,
        view: HeadView<'_>,
        regs: Regs,
        scanned: ScannedItem<'_>,
        line: &L,
        pending: &mut PendingCopy,
        out: &mut W,
    ) -> Result<(), WriteFailed>
        requires failures { (W.device out.old).failures < 2 ^ 64 - 1 }
        requires ready { is_ready self.old ≡ true }
        requires next { IsNextItem view scanned }
        requires line { IsLine scanned.bytes.now (L.line line.now) regs.time }
        requires part { IsPart scanned.bytes.now pending.old }
        ensures takes { PutsItem view.entry regs scanned.entry pending.old pending.new
            (W.device out.old) (W.device out.new) (task_state self.old) (task_state self.new) result }
        ensures counts { Counts (W.device out.old) (W.device out.new) result }
        ensures part { IfOk result (λ _. IsPart scanned.entry.bytes.now pending.new) }
        ensures ready { is_ready self.new ≡ true }
        ensures same { SameTask (task_state self.old) (task_state self.new) };
}

/// What a walk keeps besides its task: the pending text, and where the last timestamp's line is.
#[derive(Drop)]
struct WalkState<L> {
    pending: PendingCopy,
    line: L,
}

impl<L: LineMemory, C: AheadTask<L>> Visit<C> for WalkState<L> {
    ghost use Rattle.std.specs.Prelude.{false};
    ghost use Rattle.vcd_engine.specs.Walks.{CanTake, TakesByTask};

    ghost stands = { λ state command bytes regs. CanTake L.line C.is_ready state command bytes regs };

    ghost takes = { λ view s t result. TakesByTask L.line C.task_state view s t result };

    ghost stops_before = { λ _ command time. C.stops_before command time };

    ghost over = { λ _. false };

    /// Returns whether the task leaves a timestamp of this time to `TaskState::take`.
    #[inline(always)]
    fn ends_before(&self, command: &C, time: u64) -> bool {
        command.ends_before(time)
    }

    /// Returns false: only `ends_before` ends such a walk.
    #[inline(always)]
    fn is_over(&self) -> bool {
        false
    }

    /// Remembers where the chunk has the line of this timestamp, and has the task note the time.
    #[inline(always)]
    fn take_timestamp(
        &mut self,
        command: &mut C,
        _view: HeadView<'_>,
        _regs: Regs,
        time: u64,
        timestamp: ScannedItem<'_>,
    ) {
        self.line = L::after_timestamp(timestamp.bytes, timestamp.at, timestamp.end);
        command.note_time(time);
    }

    /// Has the task handle a change. Fails if a write does.
    #[inline(always)]
    fn take_change<W: Sink>(
        &mut self,
        command: &mut C,
        view: HeadView<'_>,
        regs: Regs,
        change: ScannedItem<'_>,
        out: &mut W,
    ) -> Result<(), WriteFailed> {
        command.take_item(view, regs, change, &self.line, &mut self.pending, out)
    }

    /// Has the task handle the begin or the end of a section. Fails if a write does.
    #[inline(always)]
    fn take_section<W: Sink>(
        &mut self,
        command: &mut C,
        view: HeadView<'_>,
        _before: Regs,
        after: Regs,
        section: ScannedItem<'_>,
        out: &mut W,
    ) -> Result<(), WriteFailed> {
        command.take_item(view, after, section, &self.line, &mut self.pending, out)
    }
}

/// Has the task `command` handle the items that lie completely in the chunk, from `ahead` on, up to
/// a timestamp that it leaves to `TaskState::take`, and writes their output to `out`. Returns how
/// many bytes ahead these items take, the registers after them, and whether a write failed. `regs`
/// are the registers before them.
// The loop of each task is a function of its own, so that it has all registers.
#[inline(never)]
pub(crate) fn take_each<L: LineMemory, C: AheadTask<L>, W: Sink>(
    command: &mut C,
    view: HeadView<'_>,
    regs: Regs,
    ahead: Ahead<'_>,
    out: &mut W,
) -> AheadEnd
    requires failures { (W.device out.old).failures < 2 ^ 64 - 1 }
    requires ready { C.is_ready command.old ≡ true }
    requires within { passed_of ahead ≤ length (bytes_of ahead) }
    ensures { RunsOver view.entry ahead.entry regs (C.task_state command.old) (C.task_state command.new)
        (W.device out.old) (W.device out.new) result }
{
    let pending = PendingCopy::new();
    let line = L::new();
    let walked = walk_ahead(command, WalkState { pending, line }, view, regs, ahead, out);
    let ahead = walked.ahead;
    let regs = walked.regs;
    let mut state = walked.visit;
    match walked.ended {
        Ok(_) => ended_at(ahead, regs, state.pending.flush(ahead.bytes(), out)),
        Err(failed) => ended_at(ahead, regs, Err(failed)),
    }
}

/// Returns an item that `next_item` returned, with its text: no bytes of the chunk are its own, and
/// nothing is known of its size (`size_or_zero` is 0).
#[inline(always)]
fn without_bytes<'a>(item: Item, text: &'a [u8]) -> ScannedItem<'a>
    ensures item { result.item ≡ item }
    ensures text { result.text ≡ text.entry }
    ensures bytes { result.bytes.now ≡ [] }
    ensures next { (view : HeadView) → HasGoodText view.codes.now text.now item
        → IsNoTimestamp item → IsNextItem view result }
{
    ScannedItem {
        item,
        text,
        size_or_zero: 0,
        bytes: &[],
        begin: 0,
        at: 0,
        code_at: 0,
        end: 0,
        bits: None,
        binary: false,
    }
}

/// Has the task `command` handle an item that `next_item` returned, and writes its output to `out`.
/// Returns false: the item does not end the run. `text` is a change's text; for other items it may
/// be anything. `regs` are the registers after the item. Fails if a write does.
// The item has no bytes in the chunk, so nothing of it stays pending: `pending` need no flush.
#[inline(always)]
pub(crate) fn take_given<L: LineMemory, C: AheadTask<L>, W: Sink>(
    command: &mut C,
    view: HeadView<'_>,
    regs: Regs,
    item: Item,
    text: &[u8],
    out: &mut W,
) -> Result<bool, WriteFailed>
    requires failures { (W.device out.old).failures < 2 ^ 64 - 1 }
    requires ready { C.is_ready command.old ≡ true }
    requires no_stop { (time : ℕ) → item ≡ Item.Time time
        → C.stops_before command.old time ≡ false }
    requires sound { HasGoodText view.codes.now text.now item }
    ensures takes { TakesEach view.entry regs item text.now (Keeps (C.task_state command.old))
        (Keeps (C.task_state command.new)) (request_in (C.task_state command.old))
        (W.device out.old) (W.device out.new) result }
    ensures counts { Counts (W.device out.old) (W.device out.new) result }
    ensures same { SameTask (C.task_state command.old) (C.task_state command.new) }
    ensures on { IfOk result (λ ended. ended ≡ false) }
{
    if let Item::Time(time) = item {
        command.note_time(time);
        return Ok(false);
    }
    let line = L::new();
    let mut pending = PendingCopy::new();
    let scanned = without_bytes(item, text);
    command.take_item(view, regs, scanned, &line, &mut pending, out)?;
    Ok(false)
}
