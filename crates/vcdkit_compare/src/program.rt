//! `vcdkit-compare` as a program.
ghost use Rattle.vcd_compare_words.specs.Asked.{Asks};
ghost use Rattle.vcd_compare_words.specs.Words.{compare_app};
ghost use Rattle.vcdkit_compare.specs.Program.{outcome_of};

use clap::{ArgMatches, Command};
use std::alloc::{AllocError, Global};
use vcd_compare_words::Comparing;
use vcd_program::OneInputProgram;
use vcd_words::UseFault;

/// The program `vcdkit-compare`.
pub struct VcdkitCompare;

impl OneInputProgram for VcdkitCompare {
    ghost app = { compare_app };

    ghost asks = { Asks };

    ghost outcome = { outcome_of };

    /// Returns the line that says that a dump is read from a terminal.
    fn waiting() -> &'static [u8] {
        b"vcdkit-compare: the dump comes from standard input (for a file, write -i FILE)\n"
    }

    /// Returns the definition of the command line.
    fn command_of<'a>(alloc: Global) -> Result<Command<'a>, AllocError> {
        vcd_compare_words::command_of(alloc)
    }

    /// Returns the comparison that a parsed command line asks for.
    fn job_of<'a>(alloc: Global, matches: &ArgMatches<'a>) -> Result<Comparing, UseFault<'a>> {
        vcd_compare_words::job_of(alloc, matches)
    }

    /// The outcome of words is the `comparison` of what they ask for.
    fn law() {}
}
