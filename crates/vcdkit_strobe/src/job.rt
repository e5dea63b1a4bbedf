//! A strobe of the body of a dump, as a job.
ghost use Rattle.std.specs.Prelude.{◌≡◌, ◌-◌, ◌^◌, ◌<◌, ◌≤◌, ⊤, vec_len};
ghost use Rattle.vcdkit_strobe.specs.Names.{Answers, AreOfJob, ArePlacesOf, BodyEnds, chunk_len_of, CountsAt, CountsWrites, edges_end, EndsAtRead, failure_of, HasNotFailed, HasPassedOn, IsHeadMemory, IsLentWithin, IsRoomFor, model_why, no_clock_line, no_clock_text, no_edge, program_line, program_name, PutsTo, refusal_of, SameLoans, source_of, speech_in, strobe_in, word_at, work_in, writes_failed};

use crate::program::VcdkitStrobe;
use crate::room::{HeadMemory, codes_memory, head_memory, room_memory};
use std::alloc::Global;
use vcd_body::{Done, Stop};
use vcd_head::{flag_codes, select};
use vcd_job::{Answer, Failure, Lengths, OneInput};
use vcd_strobe::{NoClock, Room, Strobe, find_clocks, places_of, set_roles, strobe};
use vcd_strobe_words::Strobing;
use vcd_text::{Feed, Sink, Source, WriteFailed, put, put_number};
use vcd_view::{HeadView, need};

/// Why a strobe is refused over an input.
#[derive(Clone, Copy, PartialEq, Eq, Debug)]
pub enum Refusal {
    /// The name at this index, the first such one, is that of no clock.
    NoClock(usize, NoClock),
    /// No clock had an edge before the dump ended.
    NoEdge,
}

/// Returns what is answered to a strobe that returned `end` after this many edges.
fn finished(end: Result<Done, Stop>, edges: u64) -> Result<Answer<Refusal>, Failure>
    ensures { result ≡ edges_end edges end }
{
    match end {
        Ok(Done::Whole) if edges == 0 => Ok(Answer::Refused(Refusal::NoEdge)),
        Ok(_) => Ok(Answer::Status(0)),
        Err(stop) => Err(Failure::of_stop(stop, 0)),
    }
}

/// Writes the strobe of the marked variables over the body that follows the header of `view`,
/// whose places are `places`. Returns what is answered. Fails as the strobe does. It gets no
/// allocator, so it takes no memory, and all that it is lent is within the bound.
fn strobe_in<S: Source, W: Sink>(
    job: &Strobing,
    view: HeadView<'_>,
    places: HeadView<'_>,
    room: Room<'_>,
    head: &HeadMemory,
    feed: &mut Feed<'_, '_, '_, '_, S>,
    out: &mut W,
) -> Result<Answer<Refusal>, Failure>
    requires feed_failures { S.failures (source_of feed.old) < 2 ^ 64 - 1 }
    requires out_failures { (W.device out.old).failures < 2 ^ 64 - 1 }
    requires unfailed { HasNotFailed feed.old }
    requires chunk { chunk_len_of feed.old ≤ 65536 }
    requires head { IsHeadMemory view (vec_len job.now.clocks) head.now }
    requires selected { AreOfJob job.now view head.now }
    requires places { ArePlacesOf job.now view places room }
    requires room { IsRoomFor view places room }
    ensures bound { IsLentWithin feed.old view.entry places.entry room.entry head.now
        (vec_len job.now.clocks) }
    ensures ends { BodyEnds W.Sink (work_in job.now) (speech_in job.now) view.entry
        feed.old feed.new out.old out.new result }
    ensures reads { CountsAt S.failures 0 (source_of feed.old) (source_of feed.new) result }
    ensures writes { CountsWrites W.device out.old out.new (writes_failed (failure_of result)) }
    ensures last { EndsAtRead (S.last_failed (source_of feed.new)) (failure_of result) }
    ensures passed_on { HasPassedOn W.kept_back out.old out.new (failure_of result) }
    ensures loans { SameLoans feed.old feed.new }
    ensures answers { Answers (λ status. status ≡ 0) result }
{
    let mut state = Strobe::new(places, room, &head.clocks, &head.id);
    let end = strobe(view, feed, &mut state, &head.marks, out);
    finished(end, state.edges)
}

/// Writes the strobe that the job asks for over the body that follows the header of `view`: takes
/// memory, and then calls `strobe_in`, which takes no more. Returns the exit status, or why the job
/// is refused. Fails if memory runs out, if a name selects nothing, or if `strobe_in` fails.
fn strobe_body<S: Source, W: Sink>(
    alloc: Global,
    job: &Strobing,
    view: HeadView<'_>,
    feed: &mut Feed<'_, '_, '_, '_, S>,
    out: &mut W,
) -> Result<Answer<Refusal>, Failure>
    requires feed_failures { S.failures (source_of feed.old) < 2 ^ 64 - 1 }
    requires out_failures { (W.device out.old).failures < 2 ^ 64 - 1 }
    requires unfailed { HasNotFailed feed.old }
    requires chunk { chunk_len_of feed.old ≤ 65536 }
    ensures ends { BodyEnds W.Sink (work_in job.now) (speech_in job.now) view.entry
        feed.old feed.new out.old out.new result }
    ensures reads { CountsAt S.failures 0 (source_of feed.old) (source_of feed.new) result }
    ensures writes { CountsWrites W.device out.old out.new (writes_failed (failure_of result)) }
    ensures last { EndsAtRead (S.last_failed (source_of feed.new)) (failure_of result) }
    ensures passed_on { HasPassedOn W.kept_back out.old out.new (failure_of result) }
    ensures loans { SameLoans feed.old feed.new }
    ensures answers { Answers (λ status. status ≡ 0) result }
{
    let mut head = head_memory(alloc, view, job.clocks.len())?;
    if let Err((index, why)) = find_clocks(view, &job.clocks, &mut head.clocks) {
        return Ok(Answer::Refused(Refusal::NoClock(index, why)));
    }
    let (marks, flags) = (&mut head.marks, &mut head.flags);
    if let Err(name) = select(view, &job.names, marks) {
        return Err(Failure::Stopped(Stop::Unmatched { name }));
    }
    flag_codes(view, marks, flags);
    let mut codes = codes_memory(alloc, view.codes.len())?;
    let places = places_of(view, &mut codes);
    let mut memory = room_memory(alloc, need(places), view.codes.len())?;
    set_roles(&head.flags, &mut memory.roles);
    let room = Room {
        values: &mut memory.values,
        slots: &mut memory.slots,
        shares: &mut memory.shares,
        roles: &mut memory.roles,
        listed: &mut memory.listed,
    };
    strobe_in(job, view, places, room, &head, feed, out)
}

/// Writes why a name is that of no clock. Fails if a write does.
fn put_reason<E: Sink>(why: NoClock, err: &mut E) -> Result<(), WriteFailed>
    requires { (E.device err.old).failures < 2 ^ 64 - 1 }
    ensures { PutsTo E.device err.old err.new (no_clock_text (model_why why)) result }
{
    match why {
        NoClock::Missing => put(err, b"no such variable"),
        NoClock::Several => put(err, b"several variables have this path"),
        NoClock::Event => put(err, b"it is an event"),
        NoClock::Real => put(err, b"it is a real number"),
        NoClock::Wide(size) => {
            put(err, b"it has ")?;
            put_number(err, size as u64)?;
            put(err, b" bits: write PATH@PLACE")
        }
        NoClock::High(size) => {
            put(err, b"the highest place is ")?;
            put_number(err, size.saturating_sub(1) as u64)
        }
    }
}

/// Writes the line that the name of a clock, with this argument, is that of none. Fails if a write
/// does.
fn put_no_clock<E: Sink>(word: &[u8], why: NoClock, err: &mut E) -> Result<(), WriteFailed>
    requires { (E.device err.old).failures < 2 ^ 64 - 1 }
    ensures { PutsTo E.device err.old err.new
        (program_line program_name (no_clock_line word.now why).message) result }
{
    put(err, b"vcdkit-strobe: ")?;
    put(err, word)?;
    put(err, b": ")?;
    put_reason(why, err)?;
    put(err, b"\n")
}

/// Writes the line that the dump of this name has no edge. Fails if a write does.
fn put_no_edge<E: Sink>(name: &[u8], err: &mut E) -> Result<(), WriteFailed>
    requires { (E.device err.old).failures < 2 ^ 64 - 1 }
    ensures { PutsTo E.device err.old err.new
        (program_line program_name (no_edge name.now).message) result }
{
    put(err, b"vcdkit-strobe: ")?;
    put(err, name)?;
    put(err, b": no edge\n")
}

/// Returns the argument of the clock's name at this index; an empty one if there is none.
fn word_at(job: &Strobing, at: usize) -> &[u8]
    ensures { result.now ≡ word_at job.now at }
{
    match job.clocks.get(at) {
        Some(name) => name.word.as_bytes(),
        None => b"",
    }
}

impl OneInput for VcdkitStrobe {
    type Job = Strobing;

    type Refusal = Refusal;

    ghost program = { program_name };

    ghost is_ready = { λ _. ⊤ };

    ghost work = { λ job. work_in job };

    ghost limit = { λ job. job.limit };

    ghost chunk = { λ _. 65536 };

    ghost asked = { λ job. (strobe_in job).names };

    ghost refusal = { λ job why name. refusal_of job why name };

    ghost answers = { λ status. status ≡ 0 };

    /// Returns `vcdkit-strobe`.
    fn program() -> &'static str {
        "vcdkit-strobe"
    }

    /// Returns 2.
    fn faulty() -> u8 {
        2
    }

    /// Returns the token limit of the job, and 64 KiB for a read.
    fn lengths(job: &Strobing) -> Lengths {
        Lengths {
            limit: job.limit,
            chunk: 65_536,
        }
    }

    /// Returns the names of what is written.
    fn names(job: &Strobing) -> &[String] {
        &job.names
    }

    /// Writes the strobe over the body that follows the header of `view`.
    fn run_over<S: Source, W: Sink>(
        alloc: Global,
        job: &mut Strobing,
        view: HeadView<'_>,
        feed: &mut Feed<'_, '_, '_, '_, S>,
        out: &mut W,
    ) -> Result<Answer<Refusal>, Failure> {
        strobe_body(alloc, job, view, feed, out)
    }

    /// Writes the line that says why the job was refused, and returns 1 if there was no edge,
    /// otherwise 2.
    fn refuse<E: Sink>(job: &Strobing, why: Refusal, name: &str, err: &mut E) -> u8 {
        match why {
            Refusal::NoClock(index, why) => {
                let _ = put_no_clock(word_at(job, index), why, err);
                2
            }
            Refusal::NoEdge => {
                let _ = put_no_edge(name.as_bytes(), err);
                1
            }
        }
    }
}
