//! `pick`: the dump of the selected variables.
ghost use Rattle.std.specs.Prelude.{◌≡◌, ◌-◌, ◌^◌, ◌<◌, map, string_bytes, IfOk, MatchResult, [], List, length, true, false};
ghost use Rattle.vcd_engine.specs.Names.{ArePicked, AreRegsAfter, BodyItem, Counts, CountsStop, flags_in, HasRoomFor, Header, is_kept, last_mark, last_time_of, names_in, pick_close, Request, StartsOver, StopsUnread, Takes};
ghost use Rattle.vcd_engine.specs.declared.task.Task.TheVariants as task;

use crate::item_text::{ItemText, may_keep};
use crate::pending::PendingCopy;
use crate::selection::select_codes;
use crate::task::Room;
use crate::task_state::last_time_of;
use crate::task_state::walk::{AheadTask, KnownLine};
use vcd_body::{Item, Regs, ScannedItem, Stop};
use vcd_head::{is_marked, put_head};
use vcd_text::{Sink, WriteFailed};
use vcd_view::HeadView;

/// What `pick` keeps: the names that were asked for, a flag for each code that they select, and
/// the time whose line was written last.
#[derive(Drop)]
pub(crate) struct Pick<'n, 'r> {
    names: &'n [String],
    flags: &'r mut [u8],
    text: ItemText,
}

impl<'n, 'r> Pick<'n, 'r> {
    /// Begins the task `pick` for the variables that the names select (all if there are no names):
    /// marks them in memory of `room`, which has the lengths that `Task::need` returns, and writes
    /// their header. Fails at a name that selects nothing, before anything is written, and at a
    /// failed write.
    pub(crate) fn start<W: Sink>(
        view: HeadView<'_>,
        room: Room<'r>,
        names: &'n [String],
        out: &mut W,
    ) -> Result<Pick<'n, 'r>, Stop>
        requires failures { (W.device out.old).failures < 2 ^ 64 - 1 }
        requires room { HasRoomFor (task.Pick names) view room }
        ensures starts { StartsOver view.entry (λ p h. ArePicked p h [])
            (Request.Pick (map string_bytes names.entry.now))
            (W.device out.old) (W.device out.new) result }
        ensures names { MatchResult result
            (λ p. names_in p ≡ map string_bytes names.entry.now) StopsUnread }
        ensures room { IfOk result (λ p. flags_in p ≡ length view.entry.codes.now) }
        ensures failures { CountsStop (W.device out.old) (W.device out.new) result }
    {
        let marks = room.marks;
        let marks = &mut marks[..view.rows.len()];
        let flags = room.values;
        let flags = &mut flags[..view.codes.len()];
        select_codes(view, names, marks, flags)?;
        put_head(view, marks, out)?;
        Ok(Pick {
            names,
            flags,
            text: ItemText::new(),
        })
    }

    /// Returns whether `pick` writes an item: the begin or end of a section, or a change of a
    /// selected code, but not of an event inside a section. `regs` are the registers after the
    /// item.
    #[inline(always)]
    fn keeps(&self, view: HeadView<'_>, regs: Regs, item: Item) -> bool
        ensures { result ≡ is_kept self.now.flags.now view.entry regs item }
    {
        let chosen = match item {
            Item::Change { code, .. } => is_marked(self.flags, code),
            Item::Time(_) | Item::Begin(_) | Item::End | Item::Finish => true,
        };
        chosen && may_keep(view, regs, item)
    }

    /// Writes the end of a `pick`: the line of the last timestamp, unless there is none or it was
    /// written last. `regs` are the registers after all items. Fails if a write does.
    pub(crate) fn close<W: Sink>(&self, regs: Regs, out: &mut W) -> Result<(), WriteFailed>
        requires { (W.device out.old).failures < 2 ^ 64 - 1 }
        ensures takes { (h : Header) (items : List BodyItem) → AreRegsAfter items regs
            → last_time_of regs ≡ last_mark items → ArePicked self.now h items
            → Takes (W.device out.old) (W.device out.new)
            (pick_close h (names_in self.now) items) result }
        ensures counts { Counts (W.device out.old) (W.device out.new) result }
    {
        self.text.close(last_time_of(regs), out)
    }
}

impl<'n, 'r> AheadTask<KnownLine> for Pick<'n, 'r> {
    ghost use Rattle.vcd_engine.specs.declared.task_state.TaskState.TheVariants as task_state;

    ghost task_state = { λ command. task_state.Pick command };

    ghost is_ready = { λ _. true };

    ghost stops_before = { λ _ _. false };

    /// Returns false: no timestamp ends `pick` or has output by itself.
    #[inline(always)]
    fn ends_before(&self, _time: u64) -> bool {
        false
    }

    /// Does nothing: the line of a time is written with the first item after it.
    #[inline(always)]
    fn note_time(&mut self, _time: u64) {}

    /// Adds the item to the output, through `pending`, if `keeps` allows it, after the line of its
    /// time. `regs` are the registers after the item, and `line` says where the chunk has that
    /// line, if that is known. Fails if a write does.
    #[inline(always)]
    fn take_item<W: Sink>(
        &mut self,
        view: HeadView<'_>,
        regs: Regs,
        scanned: ScannedItem<'_>,
        line: &KnownLine,
        pending: &mut PendingCopy,
        out: &mut W,
    ) -> Result<(), WriteFailed> {
        if !self.keeps(view, regs, scanned.item) {
            return Ok(());
        }
        self.text
            .queue(view, regs.time, scanned, line, pending, out)
    }
}
