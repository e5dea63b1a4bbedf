//! `edges`: how often the values of the selected variables change, rise and fall.
ghost use Rattle.std.specs.Prelude.{◌≡◌, ◌-◌, ◌^◌, ◌<◌, ◌∷◌, ◌++◌, [], List, Some, length, map, slice_get, string_bytes, true, false, IfOk, MatchResult};
ghost use Rattle.vcd_engine.specs.Names.{AreEdges, BodyItem, change_to, ClosesOver, Counts, Device, edges_close, HasRoomFor, Header, HeadView, IdCode, IsGoodText, IsUnmatched, IsViewOf, IsWithin, leaves_open, names_counted, Request, room_in_edges, room_size, SameEdges, Starts};
ghost use Rattle.vcd_engine.specs.declared.task.Task.TheVariants as task;

use crate::pending::PendingCopy;
use crate::tally::{count_trigger, put_edges_lines, take_value};
use crate::task::Room;
use crate::task_state::walk::{AheadTask, NoLine};
use vcd_body::{Form, Item, Regs, ScannedItem, Stop, Table};
use vcd_head::select;
use vcd_text::{Sink, WriteFailed};
use vcd_view::{Code, HeadView};

/// What `edges` keeps: the names that were asked for, a mark for each row that they select, and the
/// values and counters of all codes.
#[derive(Drop)]
pub(crate) struct Edges<'n, 'r> {
    names: &'n [String],
    marks: &'r mut [u8],
    table: Table<'r>,
}

impl<'n, 'r> Edges<'n, 'r> {
    /// Begins the task `edges` for the variables that the names select (all if there are no names):
    /// marks them in memory of `room`, which has the lengths that `Task::need` returns. Writes
    /// nothing. Fails at a name that selects nothing.
    pub(crate) fn start(
        view: HeadView<'_>,
        room: Room<'r>,
        names: &'n [String],
    ) -> Result<Edges<'n, 'r>, Stop>
        requires room { HasRoomFor (task.Edges names) view room }
        ensures starts { (h : Header) (out : Device) → IsViewOf view.entry h
            → Starts (λ e. AreEdges e h []) (Request.Edges (map string_bytes names.entry.now)) h
            out out result }
        ensures names { MatchResult result
            (λ e. names_counted e ≡ map string_bytes names.entry.now) IsUnmatched }
        ensures room { IfOk result (λ e. IsWithin (room_in_edges e) (room_size room.entry)) }
    {
        let marks = room.marks;
        let marks = &mut marks[..view.rows.len()];
        if let Err(name) = select(view, names, marks) {
            return Err(Stop::Unmatched { name });
        }
        let table = Table::new(view, room.values, room.slots, room.shares);
        Ok(Edges {
            names,
            marks,
            table,
        })
    }

    /// Handles a change of the code at index `code` of `codes`, whose size the look-up did not
    /// return. For an event it counts the change, unless `inside` says that a section is open. For
    /// any other code it sets the value by this form and text. If there was another value before,
    /// it counts the change, with its rise or fall.
    // It takes no view: with one, `edges` of 27,505 codes takes 7 % more.
    #[cold]
    #[inline(never)]
    fn take_at(&mut self, codes: &[Code], inside: bool, code: usize, form: Form, text: &[u8])
        requires sound { IsGoodText codes.now code form text.now }
        ensures takes { (view : HeadView) (h : Header) (items : List BodyItem) (c : IdCode)
            → view.codes.now ≡ codes.now → IsViewOf view h → slice_get h.codes code ≡ Some c
            → inside ≡ leaves_open items → length items < 2 ^ 63 → AreEdges self.old h items
            → AreEdges self.new h (items ++ change_to c form text.now ∷ []) }
        ensures same { SameEdges self.old self.new }
    {
        let declared = codes[code];
        if declared.event {
            count_trigger(&mut self.table, code, inside);
        } else {
            take_value(&mut self.table, code, declared.size, form, text, None);
        }
    }

    /// Writes a line for each selected variable: its path, and how often its value changes, rises
    /// and falls. Fails if a write does.
    pub(crate) fn close<W: Sink>(&self, view: HeadView<'_>, out: &mut W) -> Result<(), WriteFailed>
        requires { (W.device out.old).failures < 2 ^ 64 - 1 }
        ensures takes { ClosesOver view.entry (AreEdges self.now)
            (λ h. edges_close h (names_counted self.now))
            (W.device out.old) (W.device out.new) result }
        ensures counts { Counts (W.device out.old) (W.device out.new) result }
    {
        put_edges_lines(&self.table, view, self.marks, out)
    }
}

impl<'n, 'r> AheadTask<NoLine> for Edges<'n, 'r> {
    ghost use Rattle.vcd_engine.specs.declared.task_state.TaskState.TheVariants as task_state;

    ghost task_state = { λ command. task_state.Edges command };

    ghost is_ready = { λ _. true };

    ghost stops_before = { λ _ _. false };

    /// Returns false: no timestamp ends `edges` or has output.
    #[inline(always)]
    fn ends_before(&self, _time: u64) -> bool {
        false
    }

    /// Does nothing.
    #[inline(always)]
    fn note_time(&mut self, _time: u64) {}

    /// Sets the value of a change in the table, and counts the change if the value differs, or if
    /// it is of an event outside a section. Any other item changes nothing. `regs` are the
    /// registers after the item. It writes nothing, and never fails.
    #[inline(always)]
    fn take_item<W: Sink>(
        &mut self,
        view: HeadView<'_>,
        regs: Regs,
        scanned: ScannedItem<'_>,
        _line: &NoLine,
        _pending: &mut PendingCopy,
        _out: &mut W,
    ) -> Result<(), WriteFailed> {
        let Item::Change { code, form } = scanned.item else {
            return Ok(());
        };
        if scanned.size_or_zero == 0 {
            self.take_at(view.codes, regs.section.is_some(), code, form, scanned.text);
            return Ok(());
        }
        take_value(
            &mut self.table,
            code,
            scanned.size_or_zero,
            form,
            scanned.text,
            scanned.bits,
        );
        Ok(())
    }
}
