//! A job over one input, from its reader to its output, its message and its status.
ghost use Rattle.std.specs.Prelude.{◌≡◌, ◌-◌, ◌^◌, ◌<◌, ◌≤◌, map, string_bytes};
ghost use Rattle.vcd_job.specs.Names.{Answers, CountsAt, CountsWrites, EndsAtRead, EndsSo, FailOnce, failure_of, HasPassedOn, InputEnds, MayFailOnce, PassesOn, RunsWork, speech_of, writes_failed};

use crate::answer::Answer;
use crate::failure::Failure;
use crate::inputs::{MAX_DECLARATIONS, Reading, read_head_of, windows_for};
use crate::message::{name_at, report};
use crate::one_input::OneInput;
use std::alloc::Global;
use std::hash::BuildHasher;
use vcd_text::{Feed, Sink, Source};

/// Runs a job over its input: takes its buffers, reads its header, and then runs it over the body.
/// Returns its answer. Fails at a fault of the input, if a read or a write fails, or if memory runs
/// out.
fn run_input<J: OneInput, S: Source, W: Sink, B: BuildHasher>(
    alloc: Global,
    job: &mut J::Job,
    reader: &mut S,
    out: &mut W,
    hasher: &B,
) -> Result<Answer<J::Refusal>, Failure>
    requires ready { J.is_ready job.old }
    requires reader_failures { S.failures reader.old < 2 ^ 64 - 1 }
    requires out_failures { (W.device out.old).failures < 2 ^ 64 - 1 }
    ensures ends { InputEnds S.Source W.Sink (J.work job.old) (speech_of J.OneInput job.old)
        (J.limit job.old) (J.chunk job.old) reader.old reader.new out.old out.new result }
    ensures reads { CountsAt S.failures 0 reader.old reader.new result }
    ensures writes { CountsWrites W.device out.old out.new (writes_failed (failure_of result)) }
    ensures last { EndsAtRead (S.last_failed reader.new) (failure_of result) }
    ensures passed_on { HasPassedOn W.kept_back out.old out.new (failure_of result) }
    ensures answers { Answers J.answers result }
    ensures asked { J.asked job.new ≡ J.asked job.old }
    ensures refusal { J.refusal job.new ≡ J.refusal job.old }
{
    let mut memory = windows_for(alloc, J::lengths(job), 1)?;
    let mut feed = Feed::new(
        reader,
        &mut memory.chunks,
        &mut memory.tokens,
        &mut memory.values,
    );
    let reading = Reading {
        alloc,
        hasher,
        most: MAX_DECLARATIONS,
    };
    let head = read_head_of(&reading, 0, &mut feed)?;
    J::run_over(alloc, job, head.view(), &mut feed, out)
}

/// Runs a job over a reader, and returns the exit status, at most 3. The first of `names` is the
/// name of the reader in messages. The output goes to `out`, which is not flushed, and the message
/// to `err`, whose errors are ignored.
///
/// Memory is taken for the windows, while the header is read, and then for what the job works in,
/// and none after that. Nothing is written to `out` before all of it was taken.
///
/// Codes are hashed with numbers that the hasher returns. What is written does not depend on them.
pub fn run_one<J: OneInput, S: Source, W: Sink, E: Sink, B: BuildHasher>(
    alloc: Global,
    mut job: J::Job,
    names: &[String],
    reader: &mut S,
    out: &mut W,
    err: &mut E,
    hasher: &B,
) -> u8
    requires ready { J.is_ready job }
    requires reader { S.failures reader.old < 2 ^ 64 - 1 }
    requires sinks { MayFailOnce W.Sink E.Sink out.old err.old }
    ensures failures { FailOnce W.Sink E.Sink out.old out.new err.old err.new }

    // It succeeds or fails, over any reader and writers. It fails with a failed read only if a read
    // failed, the last one; likewise for a write.
    ensures ends { EndsSo J.OneInput S.Source W.Sink E.Sink job (map string_bytes names.now)
        reader.old reader.new out.old out.new err.old err.new result }

    // No status is above 3.
    ensures low { result ≤ 3 }

    // If a read failed, the output keeps nothing back, unless it did so before the run.
    ensures passed_on { PassesOn S.failures W.kept_back reader.old reader.new out.old out.new }

    // Over a reader whose bytes are known, it is the outcome of its work, and no more was read than
    // what settles it.
    ensures gives { RunsWork J.OneInput S.Source W.Sink E.Sink job (map string_bytes names.now)
        reader.old reader.new out.old out.new err.old err.new result }
{
    match run_input::<J, S, W, B>(alloc, &mut job, reader, out, hasher) {
        Ok(Answer::Status(status)) => status,
        Ok(Answer::Refused(why)) => J::refuse(&job, why, name_at(names, 0), err),
        Err(failure) => report(
            J::program(),
            failure,
            names,
            J::names(&job),
            J::faulty(),
            err,
        ),
    }
}
