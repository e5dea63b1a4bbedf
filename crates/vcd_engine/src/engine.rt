//! A run of a task over the items of a body: the loop of `vcd_run`, begun with a task, and the same
//! run one item a call. It knows no single command.
ghost use Rattle.std.specs.Prelude.{◌≡◌, ◌-◌, ◌^◌, ◌<◌, [], true, IfOk};
ghost use Rattle.vcd_engine.specs.Names.{BeginsAs, EndsAsAsked, HasRoomFor, Holds, is_going, IsValid, IsWithinEachBound, MayRun, MayStep, request_of, request_of_engine, room_in, room_size, RunsTask, StartsOver, Steps, StepsOver, view_in};
ghost use Rattle.vcd_body.specs.Answer.{goes_on};
ghost use Rattle.vcd_body.specs.Prompt.{HasPassedOn, LeavesSink};
ghost use Rattle.vcd_body.specs.Whole.{HoldsItem};
ghost use Rattle.vcd_text.specs.Ahead.{ahead_of};
ghost use Rattle.vcd_text.specs.Feed.{limit_of, source_of};

use crate::task::{Room, Task};
use crate::task_state::TaskState;
use std::mem::size_of;
use vcd_body::{Done, More, Regs, Stop};
use vcd_run::run_to_end;
use vcd_text::{Bytes, Feed, Sink, Source};
use vcd_view::HeadView;

/// A task between two items of a body: its header's view, the registers, and what it keeps.
#[derive(Drop)]
// Each loan has a lifetime of its own, as in a feed. The view is behind a reference, because a
// `Result` cannot hold its ghost field beside the `&mut` of the room.
pub struct Engine<'v, 'n, 'r> {
    view: &'v HeadView<'v>,
    regs: Regs,
    task_state: TaskState<'n, 'r>,
    going: bool,
}

// The memory bound reserves 512 bytes for each input, for what is kept of it between two calls.
const _: () = prove!(
    size_of::<Engine<'static, 'static, 'static>>()
        + size_of::<Feed<'static, 'static, 'static, 'static, Bytes<'static>>>()
        <= 512
);

/// Returns whether the run goes on after this result of a step.
#[inline(always)]
fn goes_on(stepped: Result<More, Stop>) -> bool
    ensures { result ≡ goes_on stepped }
{
    match stepped {
        Ok(More::Again) => true,
        Ok(More::Ended(_)) | Err(_) => false,
    }
}

impl<'v, 'n, 'r> Engine<'v, 'n, 'r> {
    /// Returns an engine that runs a task over the body of this header, before its first item, and
    /// writes what comes before all items: for `pick` and `cut` a header. The times of the task are
    /// in order, and `room` has the lengths that `Task::need` returns.
    ///
    /// # Errors
    ///
    /// `Stop::Unmatched` at a name that selects nothing: nothing was written. `Stop::Write` if a
    /// write failed, after a prefix.
    pub fn start<W: Sink>(
        task: Task<'n>,
        view: &'v HeadView<'v>,
        room: Room<'r>,
        out: &mut W,
    ) -> Result<Engine<'v, 'n, 'r>, Stop>
        requires failures { (W.device out.old).failures < 2 ^ 64 - 1 }
        requires valid { IsValid (request_of task) }
        requires room { HasRoomFor task view.now room }
        requires bound { IsWithinEachBound view.now (room_size room) }
        ensures starts { StartsOver view.now (λ engine h. Holds engine h []) (request_of task.entry)
            (W.device out.old) (W.device out.new) result }
        ensures begins { BeginsAs request_of_engine room_in (request_of task.entry)
            (room_size room.entry) (W.device out.old) (W.device out.new) result }
        ensures going { IfOk result (λ engine. is_going engine ≡ true) }
        ensures view { IfOk result (λ engine. view_in engine ≡ view.now) }
    {
        let task_state = TaskState::start(task, *view, room, out)?;
        Ok(Engine {
            view,
            regs: Regs::new(),
            task_state,
            going: true,
        })
    }

    /// Returns whether `step` may be called: false once a step has returned anything but `Again`.
    #[inline]
    pub fn going(&self) -> bool
        ensures { result ≡ is_going self.now }
    {
        self.going
    }
}

/// Handles the next item of the feed, and writes its output, or that at the end of the body, to
/// `out`. Returns `Again` if the run goes on, otherwise what ended it. After any result but `Again`
/// do not call it again.
///
/// # Errors
///
/// The fault of the body or a failed read: nothing was written. `Stop::Write` if a write failed.
#[inline(always)]
pub fn step<S: Source, W: Sink>(
    engine: &mut Engine<'_, '_, '_>,
    feed: &mut Feed<'_, '_, '_, '_, S>,
    out: &mut W,
) -> Result<More, Stop>
    requires step { MayStep S.failures engine.old feed.old (W.device out.old) }
    ensures gives { Steps W.device engine.old engine.new feed.old feed.new out.old out.new result }
    ensures over { StepsOver S.failures engine.old engine.new feed.old feed.new
        (W.device out.old) (W.device out.new) result }

    // An item that lies completely in the chunk is taken without a read, and a failed read leaves
    // the sink as it was.
    ensures ahead { HoldsItem (limit_of feed.old) (ahead_of feed.old)
        → source_of feed.new ≡ source_of feed.old }
    ensures sink { LeavesSink out.old out.new result }
{
    let view = *engine.view;
    let stepped = vcd_run::step(&mut engine.task_state, view, &mut engine.regs, feed, out);
    engine.going = goes_on(stepped);
    stepped
}

/// Runs a task over the body that follows the header of `view`, and returns what ended it:
/// `Done::Whole` at the end of the body, or `Done::Early` at a timestamp after which the task needs
/// no items. The feed is right after that header, the times of the task are in order, and `room`
/// has the lengths that `Task::need` returns.
///
/// # Errors
///
/// `Stop::Unmatched` at a name that selects nothing, before anything is read or written; the first
/// fault of the body; a failed read; `Stop::Write` if a write failed.
pub fn run_task<S: Source, W: Sink>(
    task: Task<'_>,
    view: HeadView<'_>,
    feed: &mut Feed<'_, '_, '_, '_, S>,
    room: Room<'_>,
    out: &mut W,
) -> Result<Done, Stop>
    requires run { MayRun S.failures feed.old view (room_size room) (W.device out.old) }
    requires valid { IsValid (request_of task) }
    requires room { HasRoomFor task view room }
    ensures runs { RunsTask S.failures (request_of task.entry) view.entry feed.old feed.new
        (W.device out.old) (W.device out.new) result }
    ensures answer { EndsAsAsked (request_of task.entry) result }

    // If a read fails, the sink keeps nothing back of the output that was due before that read.
    ensures passed_on { HasPassedOn (W.kept_back out.new) result }
{
    let mut task_state = TaskState::start(task, view, room, out)?;
    run_to_end(&mut task_state, view, feed, out)
}
