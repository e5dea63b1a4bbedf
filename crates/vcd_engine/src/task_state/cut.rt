//! `cut`: the values before a time, and the items from then up to another time.
ghost use Rattle.std.specs.Prelude.{◌≡◌, false, ◌≤◌, ◌-◌, ◌^◌, ◌<◌, [], List, true, not, nat_le, nat_lt};
ghost use Rattle.vcd_engine.specs.Names.{AreCut, AtClose, BeginsAs, BeginsBy, BodyItem, Counts, cut_close, HasGoodText, HasRoomFor, HasValues, Header, IsViewOf, lent_to, PutsStart, Request, room_size, SameSpan, span_in, StartsOver, Takes, TakesEach, TakesTime, value_before};
ghost use Rattle.vcd_engine.specs.declared.task.Task.TheVariants as task;

use crate::item_text::{ItemText, may_keep};
use crate::pending::PendingCopy;
use crate::task::Room;
use crate::task_state::last_time_of;
use crate::task_state::walk::{AheadTask, KnownLine, NoLine, take_given};
use vcd_body::{Item, Regs, ScannedItem, Stop, Table, put_short, put_time, set_item};
use vcd_head::{put_head, select};
use vcd_text::{Sink, WriteFailed, put};
use vcd_view::HeadView;

/// What `cut` keeps: the values until the start section is written (`started`), and from then on
/// the time whose line was written last.
#[derive(Drop)]
pub(crate) struct Cut<'r> {
    from: u64,
    to: u64,
    table: Table<'r>,
    text: ItemText,
    started: bool,
}

/// Writes the start section of a `cut`: the line of the time `from`, and inside `$dumpvars` the
/// value in the table of each code that has one and is no event. Fails if a write does.
#[inline(never)]
fn put_start_section<W: Sink>(
    table: &Table<'_>,
    view: HeadView<'_>,
    from: u64,
    out: &mut W,
) -> Result<(), WriteFailed>
    requires { (W.device out.old).failures < 2 ^ 64 - 1 }
    ensures takes { PutsStart view.entry table.now from (W.device out.old) (W.device out.new) result }
    ensures counts { Counts (W.device out.old) (W.device out.new) result }
{
    put_time(from, out)?;
    put(out, b"$dumpvars\n")?;
    for (code, declared) in view.codes.iter().enumerate() {
        if !declared.event {
            put_short(view, table, code, out)?;
        }
    }
    put(out, b"$end\n")
}

impl<'r> Cut<'r> {
    /// Begins the task `cut` from `from` to `to`, in ticks: writes the header, and the start
    /// section if `from` is 0. `from` is at most `to`. Values are kept in memory of `room`, which
    /// has the lengths that `Task::need` returns. Fails if a write does.
    pub(crate) fn start<W: Sink>(
        view: HeadView<'_>,
        room: Room<'r>,
        from: u64,
        to: u64,
        out: &mut W,
    ) -> Result<Cut<'r>, Stop>
        requires failures { (W.device out.old).failures < 2 ^ 64 - 1 }
        requires order { from ≤ to }
        requires room { HasRoomFor (task.Cut from to) view room }
        ensures starts { StartsOver view.entry (λ m h. AreCut m h []) (Request.Cut from to)
            (W.device out.old) (W.device out.new) result }
        ensures begins { BeginsAs span_in lent_to (Request.Cut from to) (room_size room.entry)
            (W.device out.old) (W.device out.new) result }
    {
        let marks = room.marks;
        let marks = &mut marks[..view.rows.len()];
        if let Err(name) = select(view, &[], marks) {
            return Err(Stop::Unmatched { name });
        }
        put_head(view, marks, out)?;
        let mut cut = Cut {
            from,
            to,
            table: Table::new(view, room.values, room.slots, room.shares),
            text: ItemText::new(),
            started: false,
        };
        cut.begin_by(view, 0, out)?;
        Ok(cut)
    }

    /// Writes the start section if it is not written yet and `time`, that of a timestamp, is at
    /// least `from`. Then the time whose line was written last is `from`. Otherwise nothing
    /// changes. Fails if a write does.
    fn begin_by<W: Sink>(
        &mut self,
        view: HeadView<'_>,
        time: u64,
        out: &mut W,
    ) -> Result<(), WriteFailed>
        requires { (W.device out.old).failures < 2 ^ 64 - 1 }
        ensures begins { (h : Header) (items : List BodyItem) → IsViewOf view.entry h
            → (self.old.started ≡ false → HasValues self.old.table h
            (λ c. value_before items c self.old.from))
            → BeginsBy h items time self.old self.new (W.device out.old) (W.device out.new) result }
        ensures counts { Counts (W.device out.old) (W.device out.new) result }
        ensures same { SameSpan self.old self.new }
    {
        if self.started || time < self.from {
            return Ok(());
        }
        put_start_section(&self.table, view, self.from, out)?;
        self.text = ItemText::after_time(self.from);
        self.started = true;
        Ok(())
    }

    /// Returns whether the start section, with the values just before `from`, was written.
    #[inline(always)]
    pub(crate) fn has_begun(&self) -> bool
        ensures { result ≡ self.now.started }
    {
        self.started
    }

    /// Handles a timestamp of this time, and returns whether it is above `to`, which ends the run.
    /// Writes the start section if it is not written yet and `time` is at least `from`, and at the
    /// end of the run the line of `to`, unless it was written last. Fails if a write does.
    fn take_time<W: Sink>(
        &mut self,
        view: HeadView<'_>,
        time: u64,
        out: &mut W,
    ) -> Result<bool, WriteFailed>
        requires { (W.device out.old).failures < 2 ^ 64 - 1 }
        ensures takes { TakesTime view.entry time (AreCut self.old) (AreCut self.new)
            (span_in self.old) (W.device out.old) (W.device out.new) result }
        ensures counts { Counts (W.device out.old) (W.device out.new) result }
        ensures same { SameSpan self.old self.new }
    {
        self.begin_by(view, time, out)?;
        if time <= self.to {
            return Ok(false);
        }
        self.text.close(Some(self.to), out)?;
        Ok(true)
    }

    /// Handles an item that `next_item` returned, and returns whether it ends the run, as a
    /// timestamp above `to` does. Until the start section is written, it sets the value of a change
    /// in the table; from then on it writes the item if `may_keep` allows it. `text` is a change's
    /// text; for other items it may be anything. `regs` are the registers after the item. Fails if
    /// a write does.
    #[inline(never)]
    pub(crate) fn take<W: Sink>(
        &mut self,
        view: HeadView<'_>,
        regs: Regs,
        item: Item,
        text: &[u8],
        out: &mut W,
    ) -> Result<bool, WriteFailed>
        requires failures { (W.device out.old).failures < 2 ^ 64 - 1 }
        requires sound { HasGoodText view.codes.now text.now item }
        ensures takes { TakesEach view.entry regs item text.now (AreCut self.old) (AreCut self.new)
            (span_in self.old) (W.device out.old) (W.device out.new) result }
        ensures counts { Counts (W.device out.old) (W.device out.new) result }
        ensures same { SameSpan self.old self.new }
    {
        if let Item::Time(time) = item {
            return self.take_time(view, time, out);
        }
        if self.started {
            return take_given::<KnownLine, _, _>(self, view, regs, item, text, out);
        }
        take_given::<NoLine, _, _>(self, view, regs, item, text, out)
    }

    /// Writes the end of a `cut` whose body has ended: the start section if it is not written yet,
    /// otherwise the line of the last timestamp, unless there is none or it was written last.
    /// `regs` are the registers after all items. Fails if a write does.
    pub(crate) fn close<W: Sink>(
        &self,
        view: HeadView<'_>,
        regs: Regs,
        out: &mut W,
    ) -> Result<(), WriteFailed>
        requires { (W.device out.old).failures < 2 ^ 64 - 1 }
        ensures takes { AtClose view.entry regs (λ h items. AreCut self.now h items
            → Takes (W.device out.old) (W.device out.new)
            (cut_close h self.now.from self.now.to items) result) }
        ensures counts { Counts (W.device out.old) (W.device out.new) result }
    {
        if !self.started {
            return put_start_section(&self.table, view, self.from, out);
        }
        self.text.close(last_time_of(regs), out)
    }
}

// Before the start section is written.
impl<'r> AheadTask<NoLine> for Cut<'r> {
    ghost use Rattle.vcd_engine.specs.declared.task_state.TaskState.TheVariants as task_state;

    ghost task_state = { λ command. task_state.Cut command };

    ghost is_ready = { λ command. not command.started };

    ghost stops_before = { λ command time. nat_le command.from time };

    /// Returns whether the time is at least `from`: a walk then has to stop before a timestamp of
    /// this time, since the start section is written there.
    #[inline(always)]
    fn ends_before(&self, time: u64) -> bool {
        self.from <= time
    }

    /// Does nothing.
    #[inline(always)]
    fn note_time(&mut self, _time: u64) {}

    /// Sets the value of a change in the table. Any other item changes nothing. It writes nothing,
    /// and never fails.
    #[inline(always)]
    fn take_item<W: Sink>(
        &mut self,
        _view: HeadView<'_>,
        _regs: Regs,
        scanned: ScannedItem<'_>,
        _line: &NoLine,
        _pending: &mut PendingCopy,
        _out: &mut W,
    ) -> Result<(), WriteFailed> {
        set_item(&mut self.table, scanned.item, scanned.text, scanned.bits);
        Ok(())
    }
}

// Once the start section is written.
impl<'r> AheadTask<KnownLine> for Cut<'r> {
    ghost use Rattle.vcd_engine.specs.declared.task_state.TaskState.TheVariants as task_state;

    ghost task_state = { λ command. task_state.Cut command };

    ghost is_ready = { λ command. command.started };

    ghost stops_before = { λ command time. nat_lt command.to time };

    /// Returns whether the time is above `to`: a timestamp of this time ends the `cut`.
    #[inline(always)]
    fn ends_before(&self, time: u64) -> bool {
        self.to < time
    }

    /// Does nothing: the line of a time is written with the first item after it.
    #[inline(always)]
    fn note_time(&mut self, _time: u64) {}

    /// Adds the item to the output, through `pending`, if `may_keep` allows it, after the line of
    /// its time. `regs` are the registers after the item, and `line` says where the chunk has that
    /// line, if that is known. Fails if a write does.
    #[inline(always)]
    fn take_item<W: Sink>(
        &mut self,
        view: HeadView<'_>,
        regs: Regs,
        scanned: ScannedItem<'_>,
        line: &KnownLine,
        pending: &mut PendingCopy,
        out: &mut W,
    ) -> Result<(), WriteFailed> {
        if !may_keep(view, regs, scanned.item) {
            return Ok(());
        }
        self.text
            .queue(view, regs.time, scanned, line, pending, out)
    }
}
