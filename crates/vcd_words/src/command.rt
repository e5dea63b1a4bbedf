//! The command line: which words it accepts, and the exit status if it does not.
ghost use Rattle.std.specs.Prelude.{◌≡◌, true, IfOk};
ghost use Rattle.vcd_words.specs.Names.{file_app, App, cut_app, IsLocal, IsWhole, kind_of, limit_rule, merge_app, named_app, new_app, one_input_app, parse_status_of, program_app, sample_app, time_rule, with_subcommand};

use crate::help;
use crate::help::Help;
use clap::error::ErrorKind;
use clap::{Arg, Command, Error};
use std::alloc::{AllocError, Global};

/// Returns the definition of the option `--token-limit` for `clap`.
fn token_limit<'a>(alloc: Global) -> Arg<'a>
    ensures { IsLocal result limit_rule }
{
    Arg::new(alloc, "token-limit")
        .long("token-limit")
        .value_name("N")
        .help("Maximum token length: 64 to 16777216 [default: 1048576]")
}

/// Returns the definition of a command of this name for `clap`, with these help texts, and no
/// options yet.
fn new_command<'a>(alloc: Global, name: &'a str, help: Help<'a>) -> Command<'a>
    ensures { IsWhole result (new_app name.entry.now) }
{
    Command::new(alloc, name)
        .about(help.about)
        .override_usage(help.usage)
        .after_help(help.after)
}

/// Returns the definition of a command that reads one input for `clap`, with this name, these help
/// texts, and its options `-i` and `--token-limit`. Fails if memory runs out.
fn one_input<'a>(alloc: Global, name: &'a str, help: Help<'a>) -> Result<Command<'a>, AllocError>
    ensures { IfOk result (λ command. IsWhole command (one_input_app name.entry.now)) }
{
    let input = Arg::new(alloc, "input")
        .short('i')
        .value_name("FILE")
        .help("The dump; - means standard input, the default");
    new_command(alloc, name, help)
        .arg(input)?
        .arg(token_limit(alloc))
}

/// Returns the definition of a command that reads one input and takes no names of variables, for
/// `clap`, with this name and these help texts. Its file may come without `-i`. Fails if memory
/// runs out.
// Both forms have one id, so they are one argument, which may be given once. `conflicts_with` would
// refuse both forms together too, but then `clap` does not say which words it accepts.
fn with_file<'a>(alloc: Global, name: &'a str, help: Help<'a>) -> Result<Command<'a>, AllocError>
    ensures { IfOk result (λ command. IsWhole command (file_app name.entry.now)) }
{
    let command = one_input(alloc, name, help)?;
    let file = Arg::new(alloc, "input")
        .value_name("FILE")
        .help("The dump, with or without -i");
    command.arg(file)
}

/// Returns the definition of a command that reads one input and takes names of variables, for
/// `clap`, with this name and these help texts. If `required` is true, the parse fails without
/// names. An argument without an option is a name here, so the file comes after `-i`. Fails if
/// memory runs out.
fn named<'a>(
    alloc: Global,
    name: &'a str,
    help: Help<'a>,
    required: bool,
) -> Result<Command<'a>, AllocError>
    ensures { IfOk result (λ command. IsWhole command (named_app name.entry.now required)) }
{
    let command = one_input(alloc, name, help)?;
    let names = Arg::new(alloc, "names")
        .value_name("NAME")
        .num_args(1..)
        .required(required)
        .help("A variable, or a scope with everything in it: names joined by dots");
    command.arg(names)
}

/// Returns the definition of the option `--NAME`, where NAME is `name`, for `clap`, with the help
/// text `help`. Its value is one or more times, which its help text calls `value_name`.
fn time<'a>(alloc: Global, name: &'a str, value_name: &'a str, help: &'a str) -> Arg<'a>
    ensures { IsLocal result (time_rule name.entry.now) }
{
    Arg::new(alloc, name)
        .long(name)
        .value_name(value_name)
        .help(help)
}

/// Returns the definition of the command `cut` for `clap`, with its options. Without `--from` it
/// begins at time 0, and without `--to` at the greatest time, so it goes to the end. Fails if
/// memory runs out.
fn cut<'a>(alloc: Global) -> Result<Command<'a>, AllocError>
    ensures { IfOk result (λ command. IsWhole command cut_app) }
{
    let command = with_file(alloc, "cut", help::CUT)?;
    let from = time(alloc, "from", "TIME", "The first time").default_value("0");
    let command = command.arg(from)?;
    let to = time(alloc, "to", "TIME", "The last time [default: the end]")
        .default_value("18446744073709551615")
        .hide_default_value(true);
    command.arg(to)
}

/// Returns the definition of the command `sample` for `clap`: its options, of which `--at` with the
/// times is required, and any number of names of variables. Fails if memory runs out.
fn sample<'a>(alloc: Global) -> Result<Command<'a>, AllocError>
    ensures { IfOk result (λ command. IsWhole command sample_app) }
{
    let command = named(alloc, "sample", help::SAMPLE, false)?;
    let at = time(alloc, "at", "TIME,...", "Times in increasing order").required(true);
    command.arg(at)
}

/// Returns the definition of the command `merge` for `clap`, with its files and `--token-limit`.
/// Fails if memory runs out.
fn merge<'a>(alloc: Global) -> Result<Command<'a>, AllocError>
    ensures { IfOk result (λ command. IsWhole command merge_app) }
{
    let command = new_command(alloc, "merge", help::MERGE).arg(token_limit(alloc))?;
    let files = Arg::new(alloc, "files")
        .value_name("FILE")
        .num_args(1..)
        .required(true)
        .help("Up to 64 dumps; - means standard input");
    command.arg(files)
}

/// Returns the definition of the program with this command added. Fails if memory ran out for the
/// command, or runs out here.
fn add<'a>(
    program: Command<'a>,
    command: Result<Command<'a>, AllocError>,
) -> Result<Command<'a>, AllocError>
    ensures { (before more : App) → IsWhole program.entry before
        → IfOk command.entry (λ command. IsWhole command more) → more.top.is_plain ≡ true
        → IfOk result (λ command. IsWhole command (with_subcommand before more.top)) }
{
    program.subcommand(command?)
}

/// Returns the definition of the program `vcdkit` with all its commands, by which `clap` parses the
/// command line. Fails if memory runs out.
pub fn command_of<'a>(alloc: Global) -> Result<Command<'a>, AllocError>
    ensures { IfOk result (λ command. IsWhole command program_app) }
{
    let program = new_command(alloc, "vcdkit", help::PROGRAM)
        .version("0.1.0")
        .subcommand_required(true)
        .disable_help_subcommand(true);
    let program = add(program, with_file(alloc, "check", help::CHECK))?;
    let program = add(program, with_file(alloc, "list", help::LIST))?;
    let program = add(program, named(alloc, "pick", help::PICK, true))?;
    let program = add(program, cut(alloc))?;
    let program = add(program, sample(alloc))?;
    let program = add(program, named(alloc, "edges", help::EDGES, false))?;
    add(program, merge(alloc))
}

/// Returns the exit status of the program if `clap` returned this error for the command line: 0 for
/// help and the version, 3 if memory ran out, otherwise 2.
pub fn parse_status(error: &Error) -> u8
    ensures { result ≡ parse_status_of (kind_of error.now) }
{
    match error.kind() {
        ErrorKind::DisplayHelp | ErrorKind::DisplayVersion => 0,
        ErrorKind::OutOfMemory => 3,
        _ => 2,
    }
}
