//! What each task keeps between items, and what it does with an item.
ghost use Rattle.std.specs.Prelude.{◌≡◌, ◌-◌, ◌^◌, ◌<◌, [], ⊤};
ghost use Rattle.vcd_engine.specs.Names.{BeginsAs, HasRoomFor, IsValid, Keeps, last_time_of, may_end_early, Request, request_in, request_of, room_of, room_size, RoomSize, StartsOver};
ghost use Rattle.vcd_engine.specs.Plan.{KeepsPlan};

pub(crate) mod check;
pub(crate) mod cut;
pub(crate) mod edges;
pub(crate) mod pick;
pub(crate) mod sample;
pub(crate) mod walk;

use crate::task::{Room, Task};
use crate::task_state::walk::{KnownLine, NoLine, take_each, take_given};
use vcd_body::{Item, Regs, Stop};
use vcd_run::AheadEnd;
use vcd_text::{Ahead, Sink, WriteFailed};
use vcd_view::HeadView;

/// What a task keeps between items.
#[derive(Drop)]
pub(crate) enum TaskState<'n, 'r> {
    Check(check::Check),
    Pick(pick::Pick<'n, 'r>),
    Cut(cut::Cut<'r>),
    Sample(sample::Sample<'n, 'r>),
    Edges(edges::Edges<'n, 'r>),
}

/// Returns the time of the last timestamp by these registers; `None` if there was none.
pub(crate) fn last_time_of(regs: Regs) -> Option<u64>
    ensures { result ≡ last_time_of regs }
{
    if regs.marked {
        return Some(regs.time);
    }
    None
}

impl<'n, 'r> TaskState<'n, 'r> {
    /// Begins a task over the body of this header, and writes what comes before all items: for
    /// `pick` and `cut` a header. The times of the task are in order, and `room` has the lengths
    /// that `Task::need` returns.
    ///
    /// # Errors
    ///
    /// `Stop::Unmatched` at a name that selects nothing: nothing was written. `Stop::Write` if a
    /// write failed.
    pub(crate) fn start<W: Sink>(
        task: Task<'n>,
        view: HeadView<'_>,
        room: Room<'r>,
        out: &mut W,
    ) -> Result<TaskState<'n, 'r>, Stop>
        requires failures { (W.device out.old).failures < 2 ^ 64 - 1 }
        requires valid { IsValid (request_of task) }
        requires room { HasRoomFor task view room }
        ensures starts { StartsOver view.entry (λ m h. Keeps m h []) (request_of task.entry)
            (W.device out.old) (W.device out.new) result }
        ensures begins { BeginsAs request_in room_of (request_of task.entry)
            (room_size room.entry) (W.device out.old) (W.device out.new) result }
    {
        match task {
            Task::Check => Ok(TaskState::Check(check::Check::start())),
            Task::Pick(names) => Ok(TaskState::Pick(pick::Pick::start(view, room, names, out)?)),
            Task::Cut { from, to } => Ok(TaskState::Cut(cut::Cut::start(
                view, room, from, to, out,
            )?)),
            Task::Sample { times, names } => {
                Ok(TaskState::Sample(sample::Sample::start(view, room, times, names)?))
            }
            Task::Edges(names) => Ok(TaskState::Edges(edges::Edges::start(view, room, names)?)),
        }
    }
}

impl<'n, 'r> vcd_run::Task for TaskState<'n, 'r> {
    ghost keeps = { λ m p h items. KeepsPlan m p h items };

    ghost tells = { λ _ _ _. ⊤ };

    ghost is_ready = { λ _. ⊤ };

    ghost Fixed = { Request × RoomSize };

    ghost fixed = { λ m. (request_in m, room_of m) };

    ghost may_end = { λ asked. may_end_early asked.0 };

    /// Handles an item that `next_item` returned, writes its output to `out`, and returns whether
    /// it ends the run. `text` is a change's text; for other items it may be anything. `regs` are
    /// the registers after the item. Fails if a write does.
    #[inline(always)]
    fn take<W: Sink>(
        &mut self,
        view: HeadView<'_>,
        regs: Regs,
        item: Item,
        text: &[u8],
        out: &mut W,
    ) -> Result<bool, WriteFailed> {
        match self {
            TaskState::Check(check) => {
                take_given::<NoLine, _, _>(check, view, regs, item, text, out)
            }
            TaskState::Pick(pick) => take_given::<KnownLine, _, _>(
                pick, view, regs, item, text, out,
            ),
            TaskState::Cut(cut) => cut.take(view, regs, item, text, out),
            TaskState::Sample(sample) => sample.take(view, regs, item, text, out),
            TaskState::Edges(edges) => {
                take_given::<NoLine, _, _>(edges, view, regs, item, text, out)
            }
        }
    }

    /// Handles the items that lie completely in the chunk, from `ahead` on, up to a bad item or a
    /// timestamp that `take` has to handle, and writes their output to `out`. Returns how many
    /// bytes ahead they take, the registers after them, and whether a write failed; if one did, the
    /// run is over. `regs` are the registers before these items.
    // A loop for each task, so that no loop asks for the task at each item.
    fn take_ahead<W: Sink>(
        &mut self,
        view: HeadView<'_>,
        regs: Regs,
        ahead: Ahead<'_>,
        out: &mut W,
    ) -> AheadEnd {
        match self {
            TaskState::Check(check) => { take_each::<NoLine, _, _>(check, view, regs, ahead, out) }
            TaskState::Pick(pick) => { take_each::<KnownLine, _, _>(pick, view, regs, ahead, out) }
            TaskState::Cut(cut) => {
                if cut.has_begun() {
                    take_each::<KnownLine, _, _>(cut, view, regs, ahead, out)
                } else {
                    take_each::<NoLine, _, _>(cut, view, regs, ahead, out)
                }
            }
            TaskState::Sample(sample) => {
                take_each::<NoLine, _, _>(sample, view, regs, ahead, out)
            }
            TaskState::Edges(edges) => { take_each::<NoLine, _, _>(edges, view, regs, ahead, out) }
        }
    }

    /// Writes the output at the end of a body without fault: counts, values, or the line of the
    /// last time. `regs` are the registers there. Fails if a write does.
    // Not inlined, so that the loop over items need not keep what only this call needs.
    #[inline(never)]
    fn close<W: Sink>(
        &mut self,
        view: HeadView<'_>,
        regs: Regs,
        out: &mut W,
    ) -> Result<(), WriteFailed> {
        match self {
            TaskState::Check(check) => check.close(view, regs, out),
            TaskState::Pick(pick) => pick.close(regs, out),
            TaskState::Cut(cut) => cut.close(view, regs, out),
            TaskState::Sample(sample) => sample.close(view, out),
            TaskState::Edges(edges) => edges.close(view, out),
        }
    }
}
