//! `vcdkit` as a program.
ghost use Rattle.std.specs.Prelude.{◌≡◌};
ghost use Rattle.vcd_program.specs.VcdkitNames.{Asks, EndsSo, inputs_asked, outcome_of, program_app, program_name, Reads, use_outcome};

use crate::program::Program;
use clap::{ArgMatches, Command};
use std::alloc::{AllocError, Global};
use std::hash::BuildHasher;
use vcd_text::{Sink, Source};
use vcd_words::{Job, UseFault};
use vcdkit::PROGRAM;

/// The program `vcdkit`.
pub struct Vcdkit;

impl Program for Vcdkit {
    type Job = Job;

    ghost name = { program_name };

    ghost app = { program_app };

    ghost asks = { λ matches result. Asks matches result };

    ghost inputs = { λ matches. inputs_asked matches };

    ghost outcome = { λ matches names inputs. outcome_of matches names inputs };

    ghost refusal = { λ fault. use_outcome fault };

    ghost ends = { λ job names before after last_failed out out2 err err2 status.
        EndsSo job names before after last_failed out out2 err err2 status };

    ghost reads = { λ job ended texts old new inputs out out2.
        Reads job ended texts old new inputs out out2 };

    /// Returns `vcdkit`.
    fn name() -> &'static str {
        PROGRAM
    }

    /// Returns the line that says that a dump is read from a terminal.
    fn waiting() -> &'static [u8] {
        b"vcdkit: the dump comes from standard input (for a file, write -i FILE; for merge, FILE)\n"
    }

    /// Returns the definition of the command line with the seven commands.
    fn command_of<'a>(alloc: Global) -> Result<Command<'a>, AllocError> {
        vcd_words::command_of(alloc)
    }

    /// Returns the job that a parsed command line asks for.
    fn job_of<'a>(alloc: Global, matches: &ArgMatches<'a>) -> Result<Job, UseFault<'a>> {
        vcd_words::job_of(alloc, matches)
    }

    /// Returns the names of all files of a merge, and of the only input of any other job.
    fn inputs_of<'a>(
        alloc: Global,
        job: &Job,
        matches: &ArgMatches<'a>,
    ) -> Result<Vec<Option<&'a str>>, AllocError> {
        vcd_host::inputs_of(alloc, job.task.is_merge(), matches)
    }

    /// Writes the line about a fault of the words.
    fn use_fault<E: Sink>(fault: UseFault<'_>, err: &mut E) -> u8 {
        vcdkit::use_fault(PROGRAM, fault, err)
    }

    /// Runs a job over its readers.
    fn run_within<S: Source, W: Sink, E: Sink, B: BuildHasher>(
        alloc: Global,
        job: Job,
        longest: Option<usize>,
        names: &[String],
        readers: &mut [S],
        out: &mut W,
        err: &mut E,
        hasher: &B,
    ) -> u8 {
        vcdkit::run_within(alloc, job, longest, names, readers, out, err, hasher)
    }
}
