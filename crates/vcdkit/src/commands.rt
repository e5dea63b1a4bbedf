//! A command over one input, as a job.
ghost use Rattle.std.specs.Prelude.{◌≡◌, ◌+◌, ◌-◌, ◌^◌, ◌<◌, IfSome, false};
ghost use Rattle.vcdkit.specs.Names.{AreWithinBound, chunk_len_of, CountsWrites, Does, EndsAtStop, HasNotFailed, HasPassedOnAt, is_merge, IsEnough, IsLentWithin, IsValid, limit_of, model_want, names_asked, program_name, reads_failed, refusal_of, request_for, request_of_task, room_size, SameLoans, source_of, stop_writes, work_of};

use crate::tasks::{need_of, room_for, task_of};
use std::alloc::Global;
use vcd_body::{Done, Stop};
use vcd_engine::{Room, Task, list, run_task};
use vcd_job::{Answer, Failure, Lengths, OneInput, answered, say, say_both};
use vcd_text::{Feed, Sink, Source};
use vcd_view::HeadView;
use vcd_words::{Job, Refusal, Want};

/// The name of the program in its messages.
pub const PROGRAM: &str = "vcdkit";

/// Runs the task over the body that follows the header of `view`, in this room, which has the
/// lengths that `need_of` returns, or writes the list of variables if `task` is `None`. Returns
/// what ended it. Fails if the task or the list does. It gets no allocator, so it takes no memory,
/// and all that it is lent is within the bound.
fn run_in<S: Source, W: Sink>(
    task: Option<Task<'_>>,
    view: HeadView<'_>,
    feed: &mut Feed<'_, '_, '_, '_, S>,
    room: Room<'_>,
    out: &mut W,
) -> Result<Done, Stop>
    requires feed_failures { S.failures (source_of feed.old) < 2 ^ 64 - 1 }
    requires out_failures { (W.device out.old).failures < 2 ^ 64 - 1 }
    requires open { HasNotFailed feed.old }
    requires valid { IfSome task (λ some. IsValid (request_of_task some)) }
    requires room { IsEnough task view room }
    requires bound { AreWithinBound (limit_of feed.old) (chunk_len_of feed.old) view
        (room_size room) }
    ensures bound { IsLentWithin feed.old view.entry (room_size room.entry) }
    ensures gives { Does (request_for task.entry) view.entry feed.old feed.new
        (W.device out.old) (W.device out.new) result }
    ensures reads { S.failures (source_of feed.new)
        ≡ S.failures (source_of feed.old) + reads_failed result }
    ensures writes { CountsWrites W.device out.old out.new (stop_writes result) }
    ensures last { EndsAtStop (S.last_failed (source_of feed.new)) result }
    ensures passed_on { HasPassedOnAt (W.kept_back out.new) result }
    ensures loans { SameLoans feed.old feed.new }
{
    match task {
        Some(task) => run_task(task, view, feed, room, out),
        None => list(view, out),
    }
}

/// The commands over one input.
pub(crate) struct Commands;

impl OneInput for Commands {
    type Job = Job;

    type Refusal = Refusal;

    ghost program = { program_name };

    ghost is_ready = { λ job. is_merge job.task ≡ false };

    ghost work = { λ job. work_of (model_want job.task) };

    ghost limit = { λ job. job.limit };

    ghost chunk = { λ job. job.chunk };

    ghost asked = { λ job. names_asked job.task };

    ghost refusal = { λ _ why name. refusal_of why name };

    ghost answers = { λ status. status ≡ 0 };

    /// Returns `vcdkit`.
    fn program() -> &'static str {
        PROGRAM
    }

    /// Returns 1.
    fn faulty() -> u8 {
        1
    }

    /// Returns the lengths that the job says.
    fn lengths(job: &Job) -> Lengths {
        Lengths {
            limit: job.limit,
            chunk: job.chunk,
        }
    }

    /// Returns the names of variables on the command line.
    fn names(job: &Job) -> &[String] {
        job.task.names()
    }

    /// Runs the command over the body that follows the header of `view`: converts the times of a
    /// `sample` to ticks, takes memory, and then calls `run_in`, which takes no more.
    fn run_over<S: Source, W: Sink>(
        alloc: Global,
        job: &mut Job,
        view: HeadView<'_>,
        feed: &mut Feed<'_, '_, '_, '_, S>,
        out: &mut W,
    ) -> Result<Answer<Refusal>, Failure> {
        if let Err(why) = job.task.write_ticks(view) {
            return Ok(Answer::Refused(why));
        }
        let task = match task_of(&job.task, view) {
            Ok(task) => task,
            Err(why) => return Ok(Answer::Refused(why)),
        };
        let need = need_of(task, view);
        let mut memory = room_for(alloc, need)?;
        let room = Room {
            values: &mut memory.values,
            slots: &mut memory.slots,
            shares: &mut memory.shares,
            marks: &mut memory.marks,
        };
        answered(run_in(task, view, feed, room, out))
    }

    /// Writes the line that says why the times of a command are refused, after its header was read.
    fn refuse<E: Sink>(_job: &Job, why: Refusal, name: &str, err: &mut E) -> u8 {
        match why {
            Refusal::NoTimescale => say_both(PROGRAM, err, name, ": no timescale", 1),
            Refusal::OutOfRange => say(PROGRAM, err, "time out of range", 2),
            Refusal::FromAboveTo => say(PROGRAM, err, "--from is above --to", 2),
            Refusal::NotRising => say(PROGRAM, err, "times must rise", 2),
        }
    }
}
