//! What a program is: from a parsed command line to a job, and from a job to an exit status.
ghost use Rattle.std.specs.Prelude.{◌≡◌, ℕ, ◌-◌, ◌+◌, ◌^◌, ◌<◌, ◌≤◌, All, Bool, List, [], length, Option, Result, Ok, IfErr, IfOk, map, string_bytes, true};
ghost use Rattle.vcd_program.specs.Parts.{App, AreWithin, ArgMatches, Device, Input, is_simple_and_free, IsAsked, IsRefusal, IsWhole, LeavesOf, MayFailOnce, memory_outcome, Outcome, PassesOn, Reports, shown_message, Supply, Text, text_of, UseFault};

use clap::{ArgMatches, Command};
use std::alloc::{AllocError, Global};
use std::hash::BuildHasher;
use vcd_text::{Sink, Source};
use vcd_words::UseFault;

/// A program over inputs, which writes one output and at most one message. `run_program` and
/// `run_process` run any program.
pub trait Program {
    /// What a command line asks for.
    type Job: Drop;

    // Its name in messages.
    ghost name: { List ℕ };

    // How its command line is parsed.
    ghost app: { App };

    // What it may make of a parsed command line: a job, or a fault of its words. Memory may run out
    // only if the words have no fault.
    ghost asks: { ArgMatches → Result Self.Job UseFault → Type 0 };

    // The inputs that a parsed command line names, in order.
    ghost inputs: { ArgMatches → List (Option Text) };

    // The outcome of a parsed command line over inputs with these names: its definition.
    ghost outcome: { ArgMatches → List Text → List Input → Outcome };

    // What it says of a fault of the words.
    ghost refusal: { UseFault → Outcome };

    // How a job ends over any inputs with these names: of each input how many reads had failed
    // before and have after, and whether the last one did; output, error stream and status.
    ghost ends: { Self.Job → List Text → List ℕ → List ℕ → List Bool
        → Device → Device → Device → Device → ℕ → Type 0 };

    // How inputs with these texts are read, of which this is left, for an outcome and if memory
    // runs out: how far, and when, in view of the output.
    ghost reads: { Self.Job → Bool → List Text → List Supply → List Supply → List Input
        → Device → Device → Type 0 };

    /// Returns its name in messages.
    fn name() -> &'static str
        ensures { result.now ≡ name };

    /// Returns the line that the error stream gets if an input comes from a terminal.
    fn waiting() -> &'static [u8];

    /// Returns the definition of the command line for `clap`. Fails if memory runs out.
    fn command_of<'a>(alloc: Global) -> Result<Command<'a>, AllocError>
        ensures whole { IfOk result (λ command. IsWhole command app) }
        ensures simple { is_simple_and_free app ≡ true };

    /// Returns what a parsed command line asks for. Fails with the first fault of its words, or if
    /// memory runs out.
    fn job_of<'a>(alloc: Global, matches: &ArgMatches<'a>) -> Result<Self::Job, UseFault<'a>>
        ensures asks { asks matches.now result }
        ensures refusal { IfErr result (λ fault.
            IsRefusal fault (outcome matches.now [] []) (refusal fault)) };

    /// Returns the names of the inputs of a parsed command line, which asks for this job, in order;
    /// `None` in the list is standard input. Fails if memory runs out.
    fn inputs_of<'a>(
        alloc: Global,
        job: &Self::Job,
        matches: &ArgMatches<'a>,
    ) -> Result<Vec<Option<&'a str>>, AllocError>
        requires { asks matches.now (Ok job.now) }
        ensures { IfOk result (λ names. map text_of names.items ≡ inputs matches.now) };

    /// Writes the line about a fault of the words, and returns the exit status, at most 3. A failed
    /// write is ignored.
    fn use_fault<E: Sink>(fault: UseFault<'_>, err: &mut E) -> u8
        requires { (E.device err.old).failures < 2 ^ 64 - 1 }
        ensures line { Reports E.device err.old err.new
            (shown_message name (refusal fault.entry).message)
            (refusal fault.entry).status result }
        ensures quiet { (refusal fault.entry).output ≡ [] }
        ensures memory { refusal UseFault.OutOfMemory ≡ memory_outcome }
        ensures low { result ≤ 3 };

    /// Runs a job over the readers, and returns the exit status, at most 3. `names` are what they
    /// are called in messages, and `longest` is how many bytes each of them returns at most, if
    /// that is known. Output goes to `out`, which is not flushed, and a message to `err`, of which
    /// a failed write is ignored. What is written does not depend on the numbers that the hasher
    /// returns.
    fn run_within<S: Source, W: Sink, E: Sink, B: BuildHasher>(
        alloc: Global,
        job: Self::Job,
        longest: Option<usize>,
        names: &[String],
        readers: &mut [S],
        out: &mut W,
        err: &mut E,
        hasher: &B,
    ) -> u8
        requires asked { IsAsked asks inputs job (map string_bytes names.now) }
        requires names { length names.now ≡ length readers.old }
        requires readers { All (λ r. S.failures r < 2 ^ 64 - 1) readers.old }
        requires within { AreWithin S.rest longest readers.old }
        requires sinks { MayFailOnce W.Sink E.Sink out.old err.old }
        ensures failures { (E.device err.new).failures ≤ (E.device err.old).failures + 1 }
        ensures low { result ≤ 3 }
        ensures ends { ends job (map string_bytes names.now) (map S.failures readers.old)
            (map S.failures readers.new) (map S.last_failed readers.new) (W.device out.old)
            (W.device out.new) (E.device err.old) (E.device err.new) result }
        ensures passed_on { PassesOn S.failures W.kept_back
            readers.old readers.new out.old out.new }
        ensures leaves { LeavesOf name asks outcome reads S.Source W.Sink E.Sink job
            (map string_bytes names.now) readers.old readers.new out.old out.new
            err.old err.new result };
}
