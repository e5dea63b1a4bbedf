//! The commands over items. Each is a call with its task.
ghost use Rattle.std.specs.Prelude.{◌≢◌, ◌≤◌, [], map, string_bytes};
ghost use Rattle.vcd_body.specs.Prompt.{HasPassedOn};
ghost use Rattle.vcd_engine.specs.Names.{HasRoomFor, IsStrictlyIncreasing, MayRun, no_room, Request, room_size, RunsTask, RunsWhole};

use crate::engine::run_task;
use crate::task::{Room, Task};
use vcd_body::{Done, Stop};
use vcd_text::{Feed, Sink, Source};
use vcd_view::HeadView;

/// Reads the body that follows the header of `view`, writes the seven lines of its report (counts,
/// and the last time), and returns `Done::Whole`. Fails at the first fault of the body, at a failed
/// read, and at a failed write. At a fault nothing is written.
pub fn check<S: Source, W: Sink>(
    view: HeadView<'_>,
    feed: &mut Feed<'_, '_, '_, '_, S>,
    out: &mut W,
) -> Result<Done, Stop>
    requires run { MayRun S.failures feed.old view no_room (W.device out.old) }
    ensures runs { RunsWhole S.failures Request.Check view.entry
        feed.old feed.new (W.device out.old) (W.device out.new) result }
    ensures passed_on { HasPassedOn (W.kept_back out.new) result }
{
    let room = Room {
        values: &mut [],
        slots: &mut [],
        shares: &mut [],
        marks: &mut [],
    };
    run_task(Task::Check, view, feed, room, out)
}

/// Writes a dump of the variables that the names select (all if there are no names): first the
/// header of these and of the scopes around them. Then it reads the body that follows the header of
/// `view`, writes its sections and the changes of these variables, each after the line of its time,
/// and returns `Done::Whole`. `room` has the lengths that `Task::need` returns.
///
/// A name that selects nothing is refused before anything is read or written. Fails at the first
/// fault of the body, at a failed read, and at a failed write.
pub fn pick<S: Source, W: Sink>(
    view: HeadView<'_>,
    feed: &mut Feed<'_, '_, '_, '_, S>,
    room: Room<'_>,
    names: &[String],
    out: &mut W,
) -> Result<Done, Stop>
    requires run { MayRun S.failures feed.old view (room_size room) (W.device out.old) }
    requires room { HasRoomFor (Task.Pick names) view room }
    ensures runs { RunsWhole S.failures (Request.Pick (map string_bytes names.now)) view.entry
        feed.old feed.new (W.device out.old) (W.device out.new) result }
    ensures passed_on { HasPassedOn (W.kept_back out.new) result }
{
    run_task(Task::Pick(names), view, feed, room, out)
}

/// Reads the body that follows the header of `view`, and then writes a line for each variable that
/// the names select (all if there are no names): its path, and how often its value changes, rises
/// and falls. Returns `Done::Whole`. `room` has the lengths that `Task::need` returns.
///
/// A name that selects nothing is refused before anything is read. Fails at the first fault of the
/// body, at a failed read, and at a failed write. At a fault nothing is written.
pub fn edges<S: Source, W: Sink>(
    view: HeadView<'_>,
    feed: &mut Feed<'_, '_, '_, '_, S>,
    room: Room<'_>,
    names: &[String],
    out: &mut W,
) -> Result<Done, Stop>
    requires run { MayRun S.failures feed.old view (room_size room) (W.device out.old) }
    requires room { HasRoomFor (Task.Edges names) view room }
    ensures runs { RunsWhole S.failures (Request.Edges (map string_bytes names.now)) view.entry
        feed.old feed.new (W.device out.old) (W.device out.new) result }
    ensures passed_on { HasPassedOn (W.kept_back out.new) result }
{
    run_task(Task::Edges(names), view, feed, room, out)
}

/// Writes a dump of the time from `from` to `to`: the header of all variables, the timestamp `from`
/// and one section with the values just before it, and then the sections and changes up to `to`,
/// each after the line of its time. Times are in ticks, and `from` is at most `to`. `room` has the
/// lengths that `Task::need` returns. A timestamp above `to` ends the run: then the call returns
/// `Done::Early`, otherwise `Done::Whole`. Fails at the first fault of the body, at a failed read,
/// and at a failed write.
pub fn cut<S: Source, W: Sink>(
    view: HeadView<'_>,
    feed: &mut Feed<'_, '_, '_, '_, S>,
    room: Room<'_>,
    from: u64,
    to: u64,
    out: &mut W,
) -> Result<Done, Stop>
    requires run { MayRun S.failures feed.old view (room_size room) (W.device out.old) }
    requires order { from ≤ to }
    requires room { HasRoomFor (Task.Cut from to) view room }
    ensures runs { RunsTask S.failures (Request.Cut from to) view.entry
        feed.old feed.new (W.device out.old) (W.device out.new) result }
    ensures passed_on { HasPassedOn (W.kept_back out.new) result }
{
    run_task(Task::Cut { from, to }, view, feed, room, out)
}

/// Writes, for each of the times, the lines of the variables that the names select (all if there
/// are no names): the time, the path and the value, in full. There is at least one time, in ticks,
/// and each is above the one before it. `room` has the lengths that `Task::need` returns. A
/// timestamp above the last of them ends the run: then the call returns `Done::Early`, otherwise
/// `Done::Whole`.
///
/// A name that selects nothing is refused before anything is read or written. Fails at the first
/// fault of the body, at a failed read, and at a failed write.
pub fn sample<S: Source, W: Sink>(
    view: HeadView<'_>,
    feed: &mut Feed<'_, '_, '_, '_, S>,
    room: Room<'_>,
    times: &[u64],
    names: &[String],
    out: &mut W,
) -> Result<Done, Stop>
    requires run { MayRun S.failures feed.old view (room_size room) (W.device out.old) }
    requires some { times.now ≢ [] }
    requires rising { IsStrictlyIncreasing times.now }
    requires room { HasRoomFor (Task.Sample times names) view room }
    ensures runs { RunsTask S.failures (Request.Sample times.now (map string_bytes names.now)) view.entry
        feed.old feed.new (W.device out.old) (W.device out.new) result }
    ensures passed_on { HasPassedOn (W.kept_back out.new) result }
{
    run_task(Task::Sample { times, names }, view, feed, room, out)
}
