//! `vcdkit-strobe` as a program.
ghost use Rattle.vcd_strobe_words.specs.Asked.{Asks};
ghost use Rattle.vcd_strobe_words.specs.Words.{strobe_app};
ghost use Rattle.vcdkit_strobe.specs.Program.{outcome_of};

use clap::{ArgMatches, Command};
use std::alloc::{AllocError, Global};
use vcd_program::OneInputProgram;
use vcd_strobe_words::Strobing;
use vcd_words::UseFault;

/// The program `vcdkit-strobe`.
pub struct VcdkitStrobe;

impl OneInputProgram for VcdkitStrobe {
    ghost app = { strobe_app };

    ghost asks = { Asks };

    ghost outcome = { outcome_of };

    /// Returns the line that says that a dump is read from a terminal.
    fn waiting() -> &'static [u8] {
        b"vcdkit-strobe: the dump comes from standard input (for a file, write -i FILE)\n"
    }

    /// Returns the definition of the command line.
    fn command_of<'a>(alloc: Global) -> Result<Command<'a>, AllocError> {
        vcd_strobe_words::command_of(alloc)
    }

    /// Returns the strobe that a parsed command line asks for.
    fn job_of<'a>(alloc: Global, matches: &ArgMatches<'a>) -> Result<Strobing, UseFault<'a>> {
        vcd_strobe_words::job_of(alloc, matches)
    }

    /// The outcome of words is the `strobe` of what they ask for.
    fn law() {}
}
