//! `check`: counts what a dump has.
ghost use Rattle.std.specs.Prelude.{◌≡◌, ◌-◌, ◌^◌, ◌<◌, [], List, true, false};
ghost use Rattle.vcd_engine.specs.Names.{AreCounted, BodyItem, check_close, Counts, Header, IsViewOf, last_mark, last_time_of, Takes};

use crate::pending::PendingCopy;
use crate::report::{declared_in, put_report};
use crate::task_state::last_time_of;
use crate::task_state::walk::{AheadTask, NoLine};
use vcd_body::{Item, Regs, ScannedItem};
use vcd_text::{Sink, WriteFailed};
use vcd_view::HeadView;

/// The counts of `check`: timestamps, sections and value changes so far.
#[derive(Clone, Copy)]
pub(crate) struct Check {
    times: u64,
    sections: u64,
    changes: u64,
}

impl Check {
    /// Returns the counts of `check` before the first item: all 0.
    pub(crate) fn start() -> Check
        ensures { AreCounted [] result }
    {
        Check {
            times: 0,
            sections: 0,
            changes: 0,
        }
    }

    /// Writes the seven lines of the report of `check`. `regs` are the registers after all items.
    /// Fails if a write does.
    pub(crate) fn close<W: Sink>(
        &self,
        view: HeadView<'_>,
        regs: Regs,
        out: &mut W,
    ) -> Result<(), WriteFailed>
        requires { (W.device out.old).failures < 2 ^ 64 - 1 }
        ensures takes { (h : Header) (items : List BodyItem) → IsViewOf view.entry h
            → last_time_of regs ≡ last_mark items → AreCounted items self.now
            → Takes (W.device out.old) (W.device out.new) (check_close h items) result }
        ensures counts { Counts (W.device out.old) (W.device out.new) result }
    {
        let declared = declared_in(view.rows);
        let counts = [
            ("scopes", declared.scopes as u64),
            ("variables", declared.variables as u64),
            ("codes", view.codes.len() as u64),
            ("times", self.times),
            ("sections", self.sections),
            ("changes", self.changes),
        ];
        put_report(out, &counts, last_time_of(regs))
    }
}

// An input is shorter than 2^63 bytes, so no count wraps.
impl AheadTask<NoLine> for Check {
    ghost use Rattle.vcd_engine.specs.declared.task_state.TaskState.TheVariants as task_state;

    ghost task_state = { λ command. task_state.Check command };

    ghost is_ready = { λ _. true };

    ghost stops_before = { λ _ _. false };

    /// Returns false: no timestamp ends `check` or has output.
    #[inline(always)]
    fn ends_before(&self, _time: u64) -> bool {
        false
    }

    /// Counts a timestamp.
    #[inline(always)]
    fn note_time(&mut self, _time: u64) {
        self.times = self.times.wrapping_add(1);
    }

    /// Counts a value change, or a section at its begin. Any other item changes nothing. It writes
    /// nothing, and never fails.
    #[inline(always)]
    fn take_item<W: Sink>(
        &mut self,
        _view: HeadView<'_>,
        _regs: Regs,
        scanned: ScannedItem<'_>,
        _line: &NoLine,
        _pending: &mut PendingCopy,
        _out: &mut W,
    ) -> Result<(), WriteFailed> {
        match scanned.item {
            Item::Begin(_) => self.sections = self.sections.wrapping_add(1),
            Item::Change { .. } => self.changes = self.changes.wrapping_add(1),
            Item::Time(_) => {}
            Item::End => {}
            Item::Finish => {}
        }
        Ok(())
    }
}
