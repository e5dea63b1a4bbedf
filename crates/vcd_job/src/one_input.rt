//! What a job over one input is.
ghost use Rattle.std.specs.Prelude.{◌≡◌, ℕ, ◌-◌, ◌^◌, ◌<◌, ◌≤◌, List, map, string_bytes};
ghost use Rattle.vcd_job.specs.Parts.{Answers, BodyEnds, chunk_len_of, CountsAt, CountsWrites, EndsAtRead, failure_of, HasNotFailed, HasPassedOn, Outcome, Reports, SameLoans, shown_message, source_of, speech, Work, writes_failed};

use crate::answer::Answer;
use crate::failure::Failure;
use crate::inputs::Lengths;
use std::alloc::Global;
use vcd_text::{Feed, Sink, Source};
use vcd_view::HeadView;

/// A job over one input. `run_one` runs any job.
pub trait OneInput {
    /// What is done.
    type Job: Drop;

    /// Why a job is refused over an input.
    type Refusal: Drop;

    // The name of the program in messages.
    ghost program: { List ℕ };

    // What a job has to be for a run.
    ghost is_ready: { Self.Job → Type 0 };

    // What a job is: its definition.
    ghost work: { Self.Job → Work };

    // How long a token may be, and how much is read in one call.
    ghost limit: { Self.Job → ℕ };

    ghost chunk: { Self.Job → ℕ };

    // The names of variables that a job was asked for, of which `Stop::Unmatched` names one.
    ghost asked: { Self.Job → List (List ℕ) };

    // The message and the status of a refusal over an input of this name.
    ghost refusal: { Self.Job → Self.Refusal → List ℕ → Outcome };

    // Which statuses a run has that is neither refused nor fails.
    ghost answers: { ℕ → Type 0 };

    /// Returns the name of the program in messages.
    fn program() -> &'static str
        ensures { result.now ≡ program };

    /// Returns the exit status for a fault of the input and for a name that selects nothing.
    fn faulty() -> u8
        ensures status { (job : Self.Job) → (work job).faulty ≡ result }
        ensures low { result ≤ 3 };

    /// Returns how long a token may be, and how much is read in one call.
    fn lengths(job: &Self::Job) -> Lengths
        ensures { (result.limit ≡ limit job.now) × (result.chunk ≡ chunk job.now) };

    /// Returns the names of variables that the job was asked for.
    fn names(job: &Self::Job) -> &[String]
        ensures { map string_bytes result.now ≡ asked job.now };

    /// Runs the job over the body that follows the header of `view`, and returns the exit status,
    /// or why it is refused. Fails at a fault of the body, if a read or a write fails, or if memory
    /// runs out. Nothing is written before all memory was taken.
    fn run_over<S: Source, W: Sink>(
        alloc: Global,
        job: &mut Self::Job,
        view: HeadView<'_>,
        feed: &mut Feed<'_, '_, '_, '_, S>,
        out: &mut W,
    ) -> Result<Answer<Self::Refusal>, Failure>
        requires ready { is_ready job.old }
        requires feed_failures { S.failures (source_of feed.old) < 2 ^ 64 - 1 }
        requires out_failures { (W.device out.old).failures < 2 ^ 64 - 1 }
        requires unfailed { HasNotFailed feed.old }
        requires chunk { chunk_len_of feed.old ≤ 65536 }
        ensures ends { BodyEnds W.Sink (work job.old)
            (speech (asked job.old) (refusal job.old) (work job.old)) view.entry
            feed.old feed.new out.old out.new result }
        ensures reads { CountsAt S.failures 0 (source_of feed.old) (source_of feed.new) result }
        ensures writes { CountsWrites W.device out.old out.new (writes_failed (failure_of result)) }
        ensures last { EndsAtRead (S.last_failed (source_of feed.new)) (failure_of result) }
        ensures passed_on { HasPassedOn W.kept_back out.old out.new (failure_of result) }
        ensures loans { SameLoans feed.old feed.new }
        ensures answers { Answers answers result }
        ensures asked { asked job.new ≡ asked job.old }
        ensures refusal { refusal job.new ≡ refusal job.old };

    /// Writes the line that says why a job was refused over an input of this name, and returns the
    /// exit status. A failed write is ignored.
    fn refuse<E: Sink>(job: &Self::Job, why: Self::Refusal, name: &str, err: &mut E) -> u8
        requires { (E.device err.old).failures < 2 ^ 64 - 1 }
        ensures line { Reports E.device err.old err.new
            (shown_message program (refusal job.now why name.now).message)
            (refusal job.now why name.now).status result }
        ensures low { result ≤ 3 };
}
