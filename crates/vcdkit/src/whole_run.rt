//! A job, from its readers to its output, its message and its status.
ghost use Rattle.std.specs.Prelude.{◌≡◌, ◌-◌, ◌^◌, ◌<◌, map, length, string_bytes, false};
ghost use Rattle.vcdkit.specs.Names.{AreReaders, AreWithin, CountsReadsOf, CountsWrites, EndsAtReadOf, EndsSo, FailOnce, failure_of, HasPassedOn, is_merge, MayFailOnce, merge_end, Merges, Narrows, PassesOn, RunsJob, writes_failed};

use crate::commands::{Commands, PROGRAM};
use std::alloc::Global;
use std::hash::{BuildHasher, BuildHasherDefault, FoldHasher};
use vcd_body::{Done, Stop};
use vcd_job::{Failure, Lengths, read_heads, report, run_one, windows_for};
use vcd_merge::{Windows, merge};
use vcd_text::{Sink, Source};
use vcd_words::Job;

/// Returns how a run ended if its merge returned `answer`: a stop becomes a failure.
fn merged(answer: Result<Done, Stop>) -> Result<Done, Failure>
    ensures { result ≡ merge_end answer }
{
    match answer {
        Ok(done) => Ok(done),
        Err(stop) => Err(Failure::Stopped(stop)),
    }
}

/// Runs the merge `job` over these inputs, 1 to 64: takes their buffers, reads their headers in
/// order, and then merges. Returns what ended it. Fails at a fault of an input, if a read or a
/// write fails, or if memory runs out.
fn run_merge<S: Source, W: Sink, B: BuildHasher>(
    alloc: Global,
    job: &Job,
    readers: &mut [S],
    out: &mut W,
    hasher: &B,
) -> Result<Done, Failure>
    requires readers { AreReaders S.failures readers.old }
    requires out_failures { (W.device out.old).failures < 2 ^ 64 - 1 }
    ensures ends { Merges S.Source W.Sink job.now readers.old readers.new out.old out.new result }
    ensures reads { CountsReadsOf S.failures readers.old readers.new (failure_of result) }
    ensures writes { CountsWrites W.device out.old out.new (writes_failed (failure_of result)) }
    ensures last { EndsAtReadOf (map S.last_failed readers.new) (failure_of result) }
    ensures passed_on { HasPassedOn W.kept_back out.old out.new (failure_of result) }
{
    let lengths = Lengths {
        limit: job.limit,
        chunk: job.chunk,
    };
    let mut memory = windows_for(alloc, lengths, readers.len())?;
    let mut windows = Windows {
        chunks: &mut memory.chunks,
        tokens: &mut memory.tokens,
        values: &mut memory.values,
    };
    let mut inputs = read_heads(alloc, readers, &mut windows, hasher)?;
    merged(merge(&inputs.heads, readers, &mut windows, &mut inputs.seats, out))
}

/// Runs a job over the readers, and returns the exit status, as `run` does. Codes are hashed with
/// numbers that the hasher returns. What is written does not depend on them. If the author of a
/// dump does not know these numbers, as with `RandomState`, no choice of codes takes long to find.
pub fn run_with_hasher<S: Source, W: Sink, E: Sink, B: BuildHasher>(
    alloc: Global,
    job: Job,
    names: &[String],
    readers: &mut [S],
    out: &mut W,
    err: &mut E,
    hasher: &B,
) -> u8
    requires names { length names.now ≡ length readers.old }
    requires readers { AreReaders S.failures readers.old }
    requires alone { is_merge job.task ≡ false → length readers.old ≡ 1 }
    requires sinks { MayFailOnce W.Sink E.Sink out.old err.old }
    ensures failures { FailOnce W.Sink E.Sink out.old out.new err.old err.new }
    ensures ends { EndsSo S.Source W.Sink E.Sink job (map string_bytes names.now)
        readers.old readers.new out.old out.new err.old err.new result }
    ensures passed_on { PassesOn S.failures W.kept_back readers.old readers.new out.old out.new }
    ensures gives { RunsJob S.Source W.Sink E.Sink job (map string_bytes names.now)
        readers.old readers.new out.old out.new err.old err.new result }
{
    if job.task.is_merge() {
        match run_merge(alloc, &job, readers, out, hasher) {
            Ok(_) => return 0,
            Err(failure) => return report(PROGRAM, failure, names, job.task.names(), 1, err),
        }
    }
    run_one::<Commands, S, W, E, B>(alloc, job, names, &mut readers[0], out, err, hasher)
}

/// How long a window is at least after it was shortened. A shorter one would save nothing.
const SHORTEST: usize = 4_096;

/// Returns this job with buffers for chunk and token of at most `longest` bytes, or 4,096 if
/// `longest` is less. If it is `None`, the job stays as it is.
fn narrowed(job: Job, longest: Option<usize>) -> Job
    ensures { Narrows longest job result }
{
    let Some(most) = longest else {
        return job;
    };
    let length = most.max(SHORTEST);
    Job {
        limit: job.limit.min(length),
        chunk: job.chunk.min(length),
        task: job.task,
    }
}

/// Runs a job over the readers, and returns the exit status. `longest` is how many bytes each of
/// them returns at most, if that is known: then the buffers are no longer than that, or than 4,096
/// bytes if it is less, so that a run over small inputs takes and clears less memory. What is
/// written is the same. The other arguments, the output and the status are those of
/// `run_with_hasher`.
///
/// With `None` there is nothing to prove. A length that is too low is excluded by `within`, since a
/// token of a good dump that is longer would be refused.
pub fn run_within<S: Source, W: Sink, E: Sink, B: BuildHasher>(
    alloc: Global,
    job: Job,
    longest: Option<usize>,
    names: &[String],
    readers: &mut [S],
    out: &mut W,
    err: &mut E,
    hasher: &B,
) -> u8
    requires names { length names.now ≡ length readers.old }
    requires readers { AreReaders S.failures readers.old }
    requires alone { is_merge job.task ≡ false → length readers.old ≡ 1 }
    requires within { AreWithin S.rest longest readers.old }
    requires sinks { MayFailOnce W.Sink E.Sink out.old err.old }
    ensures failures { FailOnce W.Sink E.Sink out.old out.new err.old err.new }
    ensures ends { EndsSo S.Source W.Sink E.Sink job (map string_bytes names.now)
        readers.old readers.new out.old out.new err.old err.new result }
    ensures passed_on { PassesOn S.failures W.kept_back readers.old readers.new out.old out.new }

    // The outcome is that under the token limit of the job, not of a shorter buffer.
    ensures gives { RunsJob S.Source W.Sink E.Sink job (map string_bytes names.now)
        readers.old readers.new out.old out.new err.old err.new result }
{
    let narrow = narrowed(job, longest);
    run_with_hasher(alloc, narrow, names, readers, out, err, hasher)
}

/// Runs a job over the readers, and returns the exit status. `names` are the names of the readers
/// in messages, one for each reader. A merge has 1 to 64 readers, any other job one. The output
/// goes to `out`, which is not flushed, and the message to `err`, whose errors are ignored.
///
/// The status is 0 if the job is done; 1 for a fault of an input, for a name that selects nothing,
/// and for a unit without a time scale; 2 for times that are out of range or out of order in ticks;
/// 3 if a read or a write fails, and if memory runs out.
///
/// Memory is taken for the windows, while the headers are read, and then for what the task works
/// in, and none after that. Nothing is written to `out` before all of it was taken.
///
/// Codes are hashed with numbers that everybody may know, so codes can be crafted that take long to
/// find. Use `run_with_hasher` for dumps that are not trusted.
pub fn run<S: Source, W: Sink, E: Sink>(
    alloc: Global,
    job: Job,
    names: &[String],
    readers: &mut [S],
    out: &mut W,
    err: &mut E,
) -> u8
    requires names { length names.now ≡ length readers.old }
    requires readers { AreReaders S.failures readers.old }
    requires alone { is_merge job.task ≡ false → length readers.old ≡ 1 }
    requires sinks { MayFailOnce W.Sink E.Sink out.old err.old }
    ensures failures { FailOnce W.Sink E.Sink out.old out.new err.old err.new }

    // It succeeds or fails, over any readers and writers. It fails with a failed read only if a
    // read of the reader that is named failed, its last one, and none of another; likewise for a
    // write.
    ensures ends { EndsSo S.Source W.Sink E.Sink job (map string_bytes names.now)
        readers.old readers.new out.old out.new err.old err.new result }

    // If a read failed, the output keeps nothing back, unless it did so before the run.
    ensures passed_on { PassesOn S.failures W.kept_back readers.old readers.new out.old out.new }

    // Over readers whose bytes are known, it is the outcome of the definitions, and no more was
    // read than what settles it.
    ensures gives { RunsJob S.Source W.Sink E.Sink job (map string_bytes names.now)
        readers.old readers.new out.old out.new err.old err.new result }
{
    let hasher: BuildHasherDefault<FoldHasher> = BuildHasherDefault::new();
    run_with_hasher(alloc, job, names, readers, out, err, &hasher)
}
