//! A program over one input, by its job.
ghost use Rattle.std.specs.Prelude.{◌≡◌, IfOk, List, option_and_then, Result, true};
ghost use Rattle.vcd_program.specs.Parts.{App, ArgMatches, EndsAlone, file_asked, HasLaw, Input, input_named, is_simple_and_free, IsWhole, only_input, Outcome, Reads, speech_of, Text, text_of, use_outcome, UseFault};

use crate::program::Program;
use clap::{ArgMatches, Command};
use std::alloc::{AllocError, Global};
use std::hash::BuildHasher;
use vcd_job::{OneInput, run_one, use_fault};
use vcd_text::{Sink, Source};
use vcd_words::{UseFault, file_of, is_standard_input};

/// A program whose job has one input: the file that is the word `input` of its command line, or
/// standard input. It is a `Program`.
pub trait OneInputProgram: OneInput {
    // How its command line is parsed, what it may make of it, and the outcome: as of a `Program`.
    ghost app: { App };

    ghost asks: { ArgMatches → Result Self.Job UseFault → Type 0 };

    ghost outcome: { ArgMatches → List Text → List Input → Outcome };

    /// Returns the line that the error stream gets if the input comes from a terminal.
    fn waiting() -> &'static [u8];

    /// Returns the definition of the command line for `clap`. Fails if memory runs out.
    fn command_of<'a>(alloc: Global) -> Result<Command<'a>, AllocError>
        ensures whole { IfOk result (λ command. IsWhole command app) }
        ensures simple { is_simple_and_free app ≡ true };

    /// Returns what a parsed command line asks for. Fails with the first fault of its words, or if
    /// memory runs out.
    fn job_of<'a>(alloc: Global, matches: &ArgMatches<'a>) -> Result<Self::Job, UseFault<'a>>
        ensures { asks matches.now result };

    /// Does nothing. The contract says that the outcome of words is that of their job, or what is
    /// said of their fault.
    fn law()
        ensures { HasLaw Self.OneInput asks outcome };
}

/// Returns the name of the input of a parsed command line. `None` if it is standard input: if no
/// file is named, or the file `-`.
fn input_of<'a>(matches: &ArgMatches<'a>) -> Option<&'a str>
    ensures { text_of result ≡ option_and_then input_named (file_asked matches.now) }
{
    let word = file_of(matches)?;
    if is_standard_input(word) {
        return None;
    }
    Some(word)
}

impl<P: OneInputProgram> Program for P {
    type Job = P::Job;

    ghost name = { P.program };

    ghost app = { P.app };

    ghost asks = { P.asks };

    ghost inputs = { only_input };

    ghost outcome = { P.outcome };

    ghost refusal = { use_outcome };

    ghost ends = { λ job. EndsAlone P.program P.answers (speech_of P.OneInput job) };

    ghost reads = { λ job ended texts. Reads (P.work job) (P.limit job) (P.chunk job) ended };

    /// Returns the name of its job's program.
    fn name() -> &'static str {
        P::program()
    }

    /// Returns its own line.
    fn waiting() -> &'static [u8] {
        P::waiting()
    }

    /// Returns its own definition.
    fn command_of<'a>(alloc: Global) -> Result<Command<'a>, AllocError> {
        P::command_of(alloc)
    }

    /// Returns its job.
    fn job_of<'a>(alloc: Global, matches: &ArgMatches<'a>) -> Result<P::Job, UseFault<'a>> {
        P::law();
        P::job_of(alloc, matches)
    }

    /// Returns the name of its only input.
    fn inputs_of<'a>(
        alloc: Global,
        _job: &P::Job,
        matches: &ArgMatches<'a>,
    ) -> Result<Vec<Option<&'a str>>, AllocError> {
        let mut inputs = Vec::new(alloc);
        inputs.push(input_of(matches))?;
        Ok(inputs)
    }

    /// Writes the line about a fault of the words.
    fn use_fault<E: Sink>(fault: UseFault<'_>, err: &mut E) -> u8 {
        use_fault(P::program(), fault, err)
    }

    /// Runs its job over the only reader.
    fn run_within<S: Source, W: Sink, E: Sink, B: BuildHasher>(
        alloc: Global,
        job: P::Job,
        _longest: Option<usize>,
        names: &[String],
        readers: &mut [S],
        out: &mut W,
        err: &mut E,
        hasher: &B,
    ) -> u8 {
        P::law();
        run_one::<P, S, W, E, B>(alloc, job, names, &mut readers[0], out, err, hasher)
    }
}
