//! `sample`: the values of selected variables at some times.
ghost use Rattle.std.specs.Prelude.{◌≡◌, ◌≢◌, ◌-◌, ◌^◌, ◌<◌, [], nat_le, None, true, IfOk, MatchResult, map, string_bytes};
ghost use Rattle.vcd_engine.specs.Names.{AreSampled, asked_in, close_text, ClosesOver, Counts, first_unmatched, HasGoodText, HasRoomFor, Header, is_due, IsFirstUnmatched, IsStrictlyIncreasing, IsUnmatched, IsViewOf, IsWithin, lent_to_sample, position_or_len, Request, room_size, SameSample, TakesEach, TakesTime};
ghost use Rattle.vcd_engine.specs.declared.task.Task.TheVariants as task;

use crate::leads::lead_on;
use crate::pending::PendingCopy;
use crate::sample_lines::put_samples;
use crate::task::Room;
use crate::task_state::walk::{AheadTask, NoLine, take_given};
use vcd_body::{Item, Regs, ScannedItem, Stop, Table, set_item};
use vcd_head::select;
use vcd_text::{Sink, WriteFailed};
use vcd_view::HeadView;

/// What `sample` keeps: the times and names that were asked for, the times whose lines are not
/// written yet (`rest`), the current values, and the flags that lead from row to row.
#[derive(Drop)]
pub(crate) struct Sample<'n, 'r> {
    times: &'n [u64],
    names: &'n [String],
    rest: &'n [u64],
    table: Table<'r>,
    marks: &'r [u8],
}

/// Returns how many of `times`, which increase, are below `time`.
#[inline(always)]
fn count_below(times: &[u64], time: u64) -> usize
    ensures { result ≡ position_or_len (λ due. nat_le time due) times.now }
{
    times
        .iter()
        .position(|due| *due >= time)
        .unwrap_or(times.len())
}

impl<'n, 'r> Sample<'n, 'r> {
    /// Begins the task `sample` at these times for the variables that the names select (all if
    /// there are no names): marks them in memory of `room`, which has the lengths that `Task::need`
    /// returns. Writes nothing. `times` has at least one time, in ticks, and each is above the one
    /// before it. Fails at a name that selects nothing.
    pub(crate) fn start(
        view: HeadView<'_>,
        room: Room<'r>,
        times: &'n [u64],
        names: &'n [String],
    ) -> Result<Sample<'n, 'r>, Stop>
        requires some { times.now ≢ [] }
        requires rising { IsStrictlyIncreasing times.now }
        requires room { HasRoomFor (task.Sample times names) view room }
        ensures starts { (h : Header) → IsViewOf view.entry h
            → MatchResult result (λ s. AreSampled s h []
            × (first_unmatched (map string_bytes names.now) h.declarations ≡ None))
            (IsFirstUnmatched (map string_bytes names.now) h) }
        ensures asked { MatchResult result (λ s. asked_in s
            ≡ Request.Sample times.now (map string_bytes names.now)) IsUnmatched }
        ensures room { IfOk result (λ s. IsWithin (lent_to_sample s) (room_size room.entry)) }
    {
        let marks = room.marks;
        let marks = &mut marks[..view.rows.len()];
        if let Err(name) = select(view, names, marks) {
            return Err(Stop::Unmatched { name });
        }
        lead_on(view, marks);
        Ok(Sample {
            times,
            names,
            rest: times,
            table: Table::new(view, room.values, room.slots, room.shares),
            marks,
        })
    }

    /// Handles a timestamp of this time, and returns whether it is above all times asked for, which
    /// ends the run. Writes the lines of those below it that are not written yet. Fails if a write
    /// does.
    fn take_time<W: Sink>(
        &mut self,
        view: HeadView<'_>,
        time: u64,
        out: &mut W,
    ) -> Result<bool, WriteFailed>
        requires { (W.device out.old).failures < 2 ^ 64 - 1 }
        ensures takes { TakesTime view.entry time (AreSampled self.old) (AreSampled self.new)
            (asked_in self.old) (W.device out.old) (W.device out.new) result }
        ensures counts { Counts (W.device out.old) (W.device out.new) result }
        ensures same { SameSample self.old self.new }
    {
        let (due, rest) = self.rest.split_at(count_below(self.rest, time));
        put_samples(&self.table, view, self.marks, due, out)?;
        self.rest = rest;
        Ok(rest.is_empty())
    }

    /// Handles an item that `next_item` returned, and returns whether it ends the run, as a
    /// timestamp above all times asked for does. Sets the value of a change in the table; at a
    /// timestamp writes the lines of the times below it that are not written yet. `text` is a
    /// change's text; for other items it may be anything. `regs` are the registers after the item.
    /// Fails if a write does.
    #[inline(always)]
    pub(crate) fn take<W: Sink>(
        &mut self,
        view: HeadView<'_>,
        regs: Regs,
        item: Item,
        text: &[u8],
        out: &mut W,
    ) -> Result<bool, WriteFailed>
        requires failures { (W.device out.old).failures < 2 ^ 64 - 1 }
        requires sound { HasGoodText view.codes.now text.now item }
        ensures takes { TakesEach view.entry regs item text.now (AreSampled self.old)
            (AreSampled self.new) (asked_in self.old) (W.device out.old) (W.device out.new) result }
        ensures counts { Counts (W.device out.old) (W.device out.new) result }
        ensures same { SameSample self.old self.new }
    {
        if let Item::Time(time) = item {
            return self.take_time(view, time, out);
        }
        take_given::<NoLine, _, _>(self, view, regs, item, text, out)
    }

    /// Writes the lines of the times asked for that are not written yet, at the end of the body.
    /// Fails if a write does.
    pub(crate) fn close<W: Sink>(&self, view: HeadView<'_>, out: &mut W) -> Result<(), WriteFailed>
        requires { (W.device out.old).failures < 2 ^ 64 - 1 }
        ensures takes { ClosesOver view.entry (AreSampled self.now)
            (close_text (asked_in self.now)) (W.device out.old) (W.device out.new) result }
        ensures counts { Counts (W.device out.old) (W.device out.new) result }
    {
        put_samples(&self.table, view, self.marks, self.rest, out)
    }
}

impl<'n, 'r> AheadTask<NoLine> for Sample<'n, 'r> {
    ghost use Rattle.vcd_engine.specs.declared.task_state.TaskState.TheVariants as task_state;

    ghost task_state = { λ command. task_state.Sample command };

    ghost is_ready = { λ _. true };

    ghost stops_before = { λ command time. is_due command.rest.now time };

    /// Returns whether lines have to be written before a timestamp of this time: whether it is
    /// above a time asked for whose lines are not written yet. It is true too if no such time is
    /// left.
    #[inline(always)]
    fn ends_before(&self, time: u64) -> bool {
        match self.rest {
            [first, ..] => *first < time,
            [] => true,
        }
    }

    /// Does nothing.
    #[inline(always)]
    fn note_time(&mut self, _time: u64) {}

    /// Sets the value of a change in the table. Any other item changes nothing. It writes nothing,
    /// and never fails.
    #[inline(always)]
    fn take_item<W: Sink>(
        &mut self,
        _view: HeadView<'_>,
        _regs: Regs,
        scanned: ScannedItem<'_>,
        _line: &NoLine,
        _pending: &mut PendingCopy,
        _out: &mut W,
    ) -> Result<(), WriteFailed> {
        set_item(&mut self.table, scanned.item, scanned.text, scanned.bits);
        Ok(())
    }
}
