//! The command line: which words it accepts.
ghost use Rattle.std.specs.Prelude.{IfOk, true};
ghost use Rattle.vcd_compare_words.specs.Names.{App, compare_app, except_rule, flag_rule, input_rule, IsLocal, IsWhole, lines_app, names_app, names_rule, time_or_rule, values_app};

use clap::{Arg, ArgAction, Command};
use std::alloc::{AllocError, Global};

const USAGE: &str = "vcdkit-compare [OPTIONS] [-i FILE] X=Y...";

const AFTER: &str = "Examples:
  vcdkit merge a.vcd b.vcd | vcdkit-compare in1=in2
  vcdkit-compare -i sim.vcd --except tb.a.debug tb.a=tb.b

X and Y are variables, or scopes with everything in them. Each variable that X
selects is compared with the one whose path has Y in place of X. X ends at the
first =. Times are in ticks.

--except skips each pair whose X variable NAME selects. A name of Y skips only
variables without a counterpart.

The last values of a dump that ends early are compared up to the end of the
other one. To stop earlier, set --to.

In a script, use bash's 'set -o pipefail', so that a failed merge fails the
pipe. The script vcdkit-diff does the merge and the comparison of two files.

Exit status:
  0  no difference, and at least one pair was compared
  1  a difference, or no pair was compared
  2  not a valid dump: the message says where and why; or a usage error,
     including a name that selects nothing, or a --from after the end of the
     dump
  3  I/O error or out of memory";

/// Returns the definition of an option `--NAME` without a value, where NAME is `name`, for `clap`,
/// with the help text `help`.
fn flag<'a>(alloc: Global, name: &'a str, help: &'a str) -> Arg<'a>
    ensures { IsLocal result (flag_rule name.entry.now) }
{
    Arg::new(alloc, name)
        .long(name)
        .action(ArgAction::SetTrue)
        .help(help)
}

/// Returns the definition of an option `--NAME`, where NAME is `name`, for `clap`. Its value is a
/// time, `default` without the option.
fn time<'a>(alloc: Global, name: &'a str, default: &'a str, help: &'a str) -> Arg<'a>
    ensures { IsLocal result (time_or_rule name.entry.now default.entry.now) }
{
    Arg::new(alloc, name)
        .long(name)
        .value_name("TICKS")
        .default_value(default)
        .hide_default_value(true)
        .help(help)
}

/// Returns the definition of the program with the options that say which lines are written. Fails
/// if memory runs out.
fn with_lines<'a>(alloc: Global, program: Command<'a>) -> Result<Command<'a>, AllocError>
    ensures { (before : App) → IsWhole program.entry before
        → IfOk result (λ command. IsWhole command (lines_app before)) }
{
    let first = flag(
        alloc,
        "first",
        "Stop after the first time at which a pair differs",
    );
    let program = program.arg(first)?;
    let always = flag(
        alloc,
        "always",
        "Write a line at each change while a pair differs",
    );
    program.arg(always)
}

/// Returns the definition of the program with the options that say which values are compared, and
/// which of them match. Fails if memory runs out.
fn with_values<'a>(alloc: Global, program: Command<'a>) -> Result<Command<'a>, AllocError>
    ensures { (before : App) → IsWhole program.entry before
        → IfOk result (λ command. IsWhole command (values_app before)) }
{
    let from = time(
        alloc,
        "from",
        "0",
        "The first time at which values are compared",
    );
    let program = program.arg(from)?;
    let greatest = "18446744073709551615";
    let to = time(alloc, "to", greatest, "The last time [default: the end]");
    let program = program.arg(to)?;
    let x_of_a = flag(alloc, "x-of-a", "An x of X matches every digit");
    let program = program.arg(x_of_a)?;
    let x_of_b = flag(alloc, "x-of-b", "An x of Y matches every digit");
    program.arg(x_of_b)
}

/// Returns the definition of the option `--except` for `clap`.
fn except<'a>(alloc: Global) -> Arg<'a>
    ensures { IsLocal result except_rule }
{
    Arg::new(alloc, "except")
        .long("except")
        .value_name("NAME")
        .action(ArgAction::Append)
        .help("Skip a variable or a scope of X; may be repeated")
}

/// Returns the definition of the option `-i` for `clap`.
fn input<'a>(alloc: Global) -> Arg<'a>
    ensures { IsLocal result input_rule }
{
    Arg::new(alloc, "input")
        .short('i')
        .value_name("FILE")
        .help("The dump; - means standard input, the default")
}

/// Returns the definition of the arguments `X=Y` for `clap`, of which there has to be one.
fn names<'a>(alloc: Global) -> Arg<'a>
    ensures { IsLocal result (names_rule true) }
{
    Arg::new(alloc, "names")
        .value_name("X=Y")
        .num_args(1..)
        .required(true)
        .help("What to compare: two variables, or two scopes")
}

/// Returns the definition of the program with its names and its file. Fails if memory runs out.
fn with_names<'a>(alloc: Global, program: Command<'a>) -> Result<Command<'a>, AllocError>
    ensures { (before : App) → IsWhole program.entry before
        → IfOk result (λ command. IsWhole command (names_app before)) }
{
    program
        .arg(except(alloc))?
        .arg(input(alloc))?
        .arg(names(alloc))
}

/// Returns the definition of the program `vcdkit-compare`, by which `clap` parses the command line.
/// Fails if memory runs out.
pub fn command_of<'a>(alloc: Global) -> Result<Command<'a>, AllocError>
    ensures { IfOk result (λ command. IsWhole command compare_app) }
{
    let program = Command::new(alloc, "vcdkit-compare")
        .version("0.1.0")
        .about("Compares two parts of a dump")
        .override_usage(USAGE)
        .after_help(AFTER);
    let program = with_lines(alloc, program)?;
    let program = with_values(alloc, program)?;
    with_names(alloc, program)
}
