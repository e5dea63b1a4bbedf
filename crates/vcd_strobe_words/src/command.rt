//! The command line: which words it accepts.
ghost use Rattle.std.specs.Prelude.{IfOk, false};
ghost use Rattle.vcd_strobe_words.specs.Names.{clock_rule, input_rule, IsLocal, IsWhole, limit_rule, names_rule, strobe_app};

use clap::{Arg, ArgAction, Command};
use std::alloc::{AllocError, Global};

const USAGE: &str = "vcdkit-strobe [--rise CLOCK]... [--fall CLOCK]... [OPTION]... [NAME]...";

const AFTER: &str = "Examples:
  vcdkit-strobe --rise tb.clk -i sim.vcd tb.dut
  vcdkit cut --from 100us sim.vcd | vcdkit-strobe --rise tb.clk --fall tb.clk

The output is a dump without a time scale. Edge n, counted from 1, is at time n
in it. Each variable has the value that it has just before the edge, as a
flip-flop samples it. The time of the edge in the input is the variable
strobe.time.

CLOCK is the path of a variable of one bit, or PATH@PLACE: a bit of a wider one,
counted from 0 on the right. An edge goes from 0 to 1, or with --fall from 1 to
0, never from or to x or z. Several edges at one time count as one.

NAME is a variable, or a scope with everything in it; without names, all are
written. The trigger of an event is written at the first edge after its time.

Exit status:
  0  success: there is an edge
  1  no clock has an edge
  2  not a valid dump: the message says where and why; or a usage error, also
     what is no clock, or a name that selects nothing
  3  I/O error or out of memory";

/// Returns the definition of an option `--NAME CLOCK`, where NAME is `name`, for `clap`. It may be
/// repeated.
fn clock<'a>(alloc: Global, name: &'a str, help: &'a str) -> Arg<'a>
    ensures { IsLocal result (clock_rule name.entry.now) }
{
    Arg::new(alloc, name)
        .long(name)
        .value_name("CLOCK")
        .action(ArgAction::Append)
        .help(help)
}

/// Returns the definition of the option `-i` for `clap`.
fn input<'a>(alloc: Global) -> Arg<'a>
    ensures { IsLocal result input_rule }
{
    Arg::new(alloc, "input")
        .short('i')
        .value_name("FILE")
        .help("The dump; - means standard input, the default")
}

/// Returns the definition of the option `--token-limit` for `clap`.
fn token_limit<'a>(alloc: Global) -> Arg<'a>
    ensures { IsLocal result limit_rule }
{
    Arg::new(alloc, "token-limit")
        .long("token-limit")
        .value_name("N")
        .help("Maximum token length: 64 to 16777216 [default: 1048576]")
}

/// Returns the definition of the arguments `NAME` for `clap`.
fn names<'a>(alloc: Global) -> Arg<'a>
    ensures { IsLocal result (names_rule false) }
{
    Arg::new(alloc, "names")
        .value_name("NAME")
        .num_args(1..)
        .help("Variables or scopes to write [default: all variables]")
}

/// Returns the definition of the program `vcdkit-strobe`, by which `clap` parses the command line.
/// Fails if memory runs out.
pub fn command_of<'a>(alloc: Global) -> Result<Command<'a>, AllocError>
    ensures { IfOk result (λ command. IsWhole command strobe_app) }
{
    let rise = clock(
        alloc,
        "rise",
        "Write values at its rising edges; may be repeated",
    );
    let fall = clock(
        alloc,
        "fall",
        "Write values at its falling edges; may be repeated",
    );
    Command::new(alloc, "vcdkit-strobe")
        .version("0.1.0")
        .about("Writes the values of a dump just before each edge of its clocks")
        .override_usage(USAGE)
        .after_help(AFTER)
        .arg(rise)?
        .arg(fall)?
        .arg(input(alloc))?
        .arg(token_limit(alloc))?
        .arg(names(alloc))
}
