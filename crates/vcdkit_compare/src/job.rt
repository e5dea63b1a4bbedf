//! A comparison over the body of a dump, as a job.
ghost use Rattle.std.specs.Prelude.{◌≡◌, ◌-◌, ◌^◌, ◌<◌, ◌≤◌, ⊤, []};
ghost use Rattle.vcdkit_compare.specs.Names.{Answers, AreOfJob, BodyEnds, chunk_len_of, count_line, CountsAt, CountsWrites, EndsAtRead, failure_of, fault_end, Finishes, HasNotFailed, HasPassedOn, IsLentWithin, IsRoomFor, late, name_of, names_of, outermost, program_line, program_name, PutsTo, query_of, refusal_of, refused, SameLoans, source_of, speech_in, work_in, writes_failed};

use crate::program::VcdkitCompare;
use crate::room::room_for;
use std::alloc::Global;
use vcd_body::{Done, Stop};
use vcd_compare::{Answer as Compared, Asked, Pairs, PairsFault, Room, compare, pairs_of};
use vcd_compare_words::Comparing;
use vcd_job::{Answer, Failure, Lengths, OneInput};
use vcd_text::{Feed, Sink, Source, WriteFailed, put, put_number};
use vcd_view::{HeadView, need};

/// Why a comparison is refused over an input.
#[derive(Clone, Copy, PartialEq, Eq, Debug)]
pub enum Refusal {
    /// The name that this says selects nothing.
    Unselected(PairsFault),
    /// The dump ends at this time, and values were to be compared only after it.
    Late(u64),
}

/// Writes how many pairs were compared. Fails if a write does.
fn put_count<W: Sink>(count: usize, out: &mut W) -> Result<(), WriteFailed>
    requires { (W.device out.old).failures < 2 ^ 64 - 1 }
    ensures { PutsTo W.device out.old out.new (count_line count) result }
{
    put(out, b"compared ")?;
    put_number(out, count as u64)?;
    put(out, b"\n")
}

/// Returns what is answered to a comparison that returned `answer` over `count` pairs. Before that
/// it writes how many were compared, unless the dump ended too early. Fails if a write does.
fn finished<W: Sink>(
    answer: Compared,
    asked: Asked,
    count: usize,
    out: &mut W,
) -> Result<Answer<Refusal>, Failure>
    requires { (W.device out.old).failures < 2 ^ 64 - 1 }
    ensures { Finishes asked answer count (W.device out.old) (W.device out.new) result }
{
    if answer.done == Done::Whole && answer.last < asked.from {
        return Ok(Answer::Refused(Refusal::Late(answer.last)));
    }
    if put_count(count, out).is_err() {
        return Err(Failure::Stopped(Stop::Write));
    }
    Ok(Answer::Status(u8::from(answer.differs || count == 0)))
}

/// Compares these pairs over the body that follows the header of `view`, in this room. Returns what
/// is answered. Fails as the comparison does. It gets no allocator, so it takes no memory, and all
/// that it is lent is within the bound.
fn compare_in<S: Source, W: Sink>(
    job: &Comparing,
    view: HeadView<'_>,
    feed: &mut Feed<'_, '_, '_, '_, S>,
    room: Room<'_>,
    pairs: &Pairs,
    out: &mut W,
) -> Result<Answer<Refusal>, Failure>
    requires feed_failures { S.failures (source_of feed.old) < 2 ^ 64 - 1 }
    requires out_failures { (W.device out.old).failures < 2 ^ 64 - 1 }
    requires unfailed { HasNotFailed feed.old }
    requires chunk { chunk_len_of feed.old ≤ 65536 }
    requires pairs { AreOfJob job.now view pairs.now }
    requires room { IsRoomFor view pairs.now room }
    ensures bound { IsLentWithin feed.old view.entry pairs.now room.entry
        (query_of job.now) (outermost (names_of job.now)) }
    ensures ends { BodyEnds W.Sink (work_in job.now) (speech_in job.now) view.entry
        feed.old feed.new out.old out.new result }
    ensures reads { CountsAt S.failures 0 (source_of feed.old) (source_of feed.new) result }
    ensures writes { CountsWrites W.device out.old out.new (writes_failed (failure_of result)) }
    ensures last { EndsAtRead (S.last_failed (source_of feed.new)) (failure_of result) }
    ensures passed_on { HasPassedOn W.kept_back out.old out.new (failure_of result) }
    ensures loans { SameLoans feed.old feed.new }
    ensures answers { Answers (λ status. status ≤ 1) result }
{
    match compare(view, feed, room, pairs, job.asked, out) {
        Ok(answer) => finished(answer, job.asked, pairs.count(), out),
        Err(stop) => Err(Failure::of_stop(stop, 0)),
    }
}

/// Returns what is answered if there are no pairs, for this reason.
fn refused_for(fault: PairsFault) -> Result<Answer<Refusal>, Failure>
    ensures { result ≡ fault_end fault }
{
    match fault {
        PairsFault::OutOfMemory => Err(Failure::OutOfMemory),
        fault => Ok(Answer::Refused(Refusal::Unselected(fault))),
    }
}

/// Compares what the job asks for over the body that follows the header of `view`: finds the pairs,
/// takes memory, and then calls `compare_in`, which takes no more. Returns the exit status, or why
/// the job is refused. Fails if memory runs out, or if `compare_in` fails.
fn compare_body<S: Source, W: Sink>(
    alloc: Global,
    job: &Comparing,
    view: HeadView<'_>,
    feed: &mut Feed<'_, '_, '_, '_, S>,
    out: &mut W,
) -> Result<Answer<Refusal>, Failure>
    requires feed_failures { S.failures (source_of feed.old) < 2 ^ 64 - 1 }
    requires out_failures { (W.device out.old).failures < 2 ^ 64 - 1 }
    requires unfailed { HasNotFailed feed.old }
    requires chunk { chunk_len_of feed.old ≤ 65536 }
    ensures ends { BodyEnds W.Sink (work_in job.now) (speech_in job.now) view.entry
        feed.old feed.new out.old out.new result }
    ensures reads { CountsAt S.failures 0 (source_of feed.old) (source_of feed.new) result }
    ensures writes { CountsWrites W.device out.old out.new (writes_failed (failure_of result)) }
    ensures last { EndsAtRead (S.last_failed (source_of feed.new)) (failure_of result) }
    ensures passed_on { HasPassedOn W.kept_back out.old out.new (failure_of result) }
    ensures loans { SameLoans feed.old feed.new }
    ensures answers { Answers (λ status. status ≤ 1) result }
{
    let pairs = match pairs_of(alloc, view, &job.names, &job.exceptions) {
        Ok(pairs) => pairs,
        Err(fault) => return refused_for(fault),
    };
    let mut memory = room_for(alloc, need(view), &pairs)?;
    let room = Room {
        values: &mut memory.values,
        slots: &mut memory.slots,
        shares: &mut memory.shares,
        triggers: &mut memory.triggers,
        flags: &mut memory.flags,
        classes: &mut memory.classes,
        last: &mut memory.last,
        earlier: &mut memory.earlier,
        due: &mut memory.due,
        skips: &mut memory.skips,
    };
    compare_in(job, view, feed, room, &pairs, out)
}

/// Returns the name of the job that this fault is about, or an empty one if there is none.
fn name_of(job: &Comparing, fault: PairsFault) -> &[u8]
    ensures { result.now ≡ name_of job.now fault }
{
    let name = match fault {
        PairsFault::One(at) => job.names.get(at).map(|two| two.one.as_slice()),
        PairsFault::Other(at) => job.names.get(at).map(|two| two.other.as_slice()),
        PairsFault::Exception(at) => job.exceptions.get(at).map(|name| name.as_slice()),
        PairsFault::OutOfMemory => None,
    };
    name.unwrap_or(b"")
}

/// Writes the line that this name selects nothing. Fails if a write does.
fn put_unselected<E: Sink>(name: &[u8], err: &mut E) -> Result<(), WriteFailed>
    requires { (E.device err.old).failures < 2 ^ 64 - 1 }
    ensures { PutsTo E.device err.old err.new
        (program_line program_name (refused name.now).message) result }
{
    put(err, b"vcdkit-compare: ")?;
    put(err, name)?;
    put(err, b": selects nothing\n")
}

/// Writes the line that the dump ends at `last`, before `from`. Fails if a write does.
fn put_late<E: Sink>(from: u64, last: u64, err: &mut E) -> Result<(), WriteFailed>
    requires { (E.device err.old).failures < 2 ^ 64 - 1 }
    ensures { PutsTo E.device err.old err.new
        (program_line program_name (late from last []).message) result }
{
    put(err, b"vcdkit-compare: --from: ")?;
    put_number(err, from)?;
    put(err, b" is after the end of the dump, ")?;
    put_number(err, last)?;
    put(err, b"\n")
}

/// Writes the line that says why the job is refused. Fails if a write does.
fn put_refusal<E: Sink>(job: &Comparing, why: Refusal, err: &mut E) -> Result<(), WriteFailed>
    requires { (E.device err.old).failures < 2 ^ 64 - 1 }
    ensures { PutsTo E.device err.old err.new
        (program_line program_name (refusal_of job.now why).message) result }
{
    match why {
        Refusal::Unselected(fault) => put_unselected(name_of(job, fault), err),
        Refusal::Late(last) => put_late(job.asked.from, last, err),
    }
}

impl OneInput for VcdkitCompare {
    type Job = Comparing;

    type Refusal = Refusal;

    ghost program = { program_name };

    ghost is_ready = { λ _. ⊤ };

    ghost work = { λ job. work_in job };

    ghost limit = { λ _. 1048576 };

    ghost chunk = { λ _. 65536 };

    ghost asked = { λ _. [] };

    ghost refusal = { λ job why _. refusal_of job why };

    ghost answers = { λ status. status ≤ 1 };

    /// Returns `vcdkit-compare`.
    fn program() -> &'static str {
        "vcdkit-compare"
    }

    /// Returns 2.
    fn faulty() -> u8 {
        2
    }

    /// Returns 1 MiB for a token, and 64 KiB for a read.
    fn lengths(_job: &Comparing) -> Lengths {
        Lengths {
            limit: 1_048_576,
            chunk: 65_536,
        }
    }

    /// Returns no names: a name that selects nothing is a refusal.
    fn names(_job: &Comparing) -> &[String] {
        &[]
    }

    /// Compares over the body that follows the header of `view`.
    fn run_over<S: Source, W: Sink>(
        alloc: Global,
        job: &mut Comparing,
        view: HeadView<'_>,
        feed: &mut Feed<'_, '_, '_, '_, S>,
        out: &mut W,
    ) -> Result<Answer<Refusal>, Failure> {
        compare_body(alloc, job, view, feed, out)
    }

    /// Writes the line that says why the job was refused, and returns 2.
    fn refuse<E: Sink>(job: &Comparing, why: Refusal, _name: &str, err: &mut E) -> u8 {
        let _ = put_refusal(job, why, err);
        2
    }
}
