//! A second program, which shows that the layer is about no command of `vcdkit`: it writes its
//! argument as a line, and has no input.
ghost use Rattle.std.specs.Prelude.{◌≡◌, ◌++◌, ◌-◌, ◌^◌, ◌<◌, ◌≤◌, ◌+◌, [], codes, IfErr, IfOk, map, string_bytes};
ghost use Rattle.vcd_program_tests.specs.EchoNames.{as_line, Asks, echo_app, echo_name, Ends, outcome_of, PutsTo, use_outcome, word_of};

use clap::{Arg, ArgMatches, Command};
use std::alloc::{AllocError, Global};
use std::hash::BuildHasher;
use vcd_program::Program;
use vcd_text::{Sink, Source, WriteFailed, put};
use vcd_words::UseFault;
use vcdkit::{use_fault, write_fault};

/// The program `echo`.
pub struct Echo;

/// What it is to write.
#[derive(Drop)]
pub struct Line {
    /// The text of the line.
    pub text: String,
}

/// Writes this text as a line. Fails if a write does.
fn put_line<W: Sink>(out: &mut W, text: &str) -> Result<(), WriteFailed>
    requires { (W.device out.old).failures < 2 ^ 64 - 1 }
    ensures { PutsTo W.device out.old out.new (as_line text.now) result }
{
    put(out, text.as_bytes())?;
    put(out, b"\n")
}

impl Program for Echo {
    type Job = Line;

    ghost name = { echo_name };

    ghost app = { echo_app };

    ghost asks = { λ matches result. Asks matches result };

    ghost inputs = { λ _. [] };

    ghost outcome = { λ matches _ _. outcome_of (word_of matches) };

    ghost refusal = { λ fault. use_outcome fault };

    ghost ends = { λ line _ before after _ out out2 err err2 status.
        Ends line before after out out2 err err2 status };

    ghost reads = { λ _ _ _ _ _ inputs _ _. inputs ≡ [] };

    /// Returns `echo`.
    fn name() -> &'static str {
        "echo"
    }

    /// Returns nothing: it reads no terminal.
    fn waiting() -> &'static [u8] {
        b""
    }

    /// Returns the definition of the command line: one argument.
    fn command_of<'a>(alloc: Global) -> Result<Command<'a>, AllocError> {
        let word = Arg::new(alloc, "word").value_name("WORD").required(true);
        Command::new(alloc, "echo").arg(word)
    }

    /// Returns the argument of a parsed command line.
    fn job_of<'a>(alloc: Global, matches: &ArgMatches<'a>) -> Result<Line, UseFault<'a>> {
        let Some(word) = matches.get_str("word") else {
            return Err(UseFault::BadWords);
        };
        match String::from_str(alloc, word) {
            Ok(text) => Ok(Line { text }),
            Err(_) => Err(UseFault::OutOfMemory),
        }
    }

    /// Returns no names.
    fn inputs_of<'a>(
        alloc: Global,
        _job: &Line,
        _matches: &ArgMatches<'a>,
    ) -> Result<Vec<Option<&'a str>>, AllocError> {
        Ok(Vec::new(alloc))
    }

    /// Writes the line about a fault of the words.
    fn use_fault<E: Sink>(fault: UseFault<'_>, err: &mut E) -> u8 {
        use_fault("echo", fault, err)
    }

    /// Writes the line.
    fn run_within<S: Source, W: Sink, E: Sink, B: BuildHasher>(
        _alloc: Global,
        job: Line,
        _longest: Option<usize>,
        _names: &[String],
        _readers: &mut [S],
        out: &mut W,
        err: &mut E,
        _hasher: &B,
    ) -> u8 {
        match put_line(out, job.text.as_str()) {
            Ok(()) => 0,
            Err(_) => write_fault("echo", err),
        }
    }
}
