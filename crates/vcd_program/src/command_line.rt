//! From the words of the command line to the exit status, for any program.
ghost use Rattle.std.specs.Prelude.{◌≡◌, ◌-◌, ◌^◌, ◌<◌, ◌≤◌, ◌+◌, map, Ok, string_bytes};
ghost use Rattle.vcd_program.specs.Names.{Answers, Finishes, KeepsNoneBack, kind_of, MayFailOnce, RunsMatches, RunsOn, RunsWords};

use crate::program::Program;
use clap::{ArgMatches, Error};
use std::alloc::Global;
use std::hash::BuildHasher;
use vcd_host::{Host, OpenStop, Output, called, max_bytes_of_all, open_inputs};
use vcd_text::{Sink, put};
use vcd_words::{UseFault, parse_status};
use vcdkit::{open_fault, write_fault};

/// Runs a job, which the parsed command line `matches` asks for: has `host` open its inputs, runs
/// it over them, and returns the exit status, as `run_program` does. Output goes to `out`, which is
/// not flushed, and messages go to `err`. If memory runs out or an input cannot be opened, the
/// status is 3, and nothing is written to `out`.
fn run_job<P: Program, H: Host, W: Sink, E: Sink, B: BuildHasher>(
    alloc: Global,
    job: P::Job,
    matches: &ArgMatches<'_>,
    host: &mut H,
    out: &mut W,
    err: &mut E,
    hasher: &B,
) -> u8
    requires sinks { MayFailOnce W.Sink E.Sink out.old err.old }
    requires job { P.asks matches.now (Ok job) }
    ensures runs { RunsMatches P.Program H.opens H.Input.Source W.Sink E.Sink
        matches.now host.old host.new out.old out.new err.old err.new result }
    ensures failures { (E.device err.new).failures ≤ (E.device err.old).failures + 1 }
    ensures low { result ≤ 3 }
{
    let Ok(asked) = P::inputs_of(alloc, &job, matches) else {
        return P::use_fault(UseFault::OutOfMemory, err);
    };
    match open_inputs(alloc, asked.as_slice(), host) {
        Ok(mut inputs) => {
            let longest = max_bytes_of_all(host, &inputs.readers);
            P::run_within(
                alloc,
                job,
                longest,
                inputs.names.as_slice(),
                inputs.readers.as_mut_slice(),
                out,
                err,
                hasher,
            )
        }
        Err(OpenStop::Unopened(name)) => open_fault(P::name(), called(name), err),
        Err(OpenStop::OutOfMemory) => P::use_fault(UseFault::OutOfMemory, err),
    }
}

/// Does what a parsed command line asks for, and returns the exit status, as `run_program` does.
/// `host` opens the inputs, output goes to `out`, which is not flushed, and messages go to `err`.
/// If it asks for no valid job, only a line is written to `err`, and no input is opened; the status
/// is then 2, or 3 if memory ran out.
fn run_matches<P: Program, H: Host, W: Sink, E: Sink, B: BuildHasher>(
    alloc: Global,
    matches: &ArgMatches<'_>,
    host: &mut H,
    out: &mut W,
    err: &mut E,
    hasher: &B,
) -> u8
    requires sinks { MayFailOnce W.Sink E.Sink out.old err.old }
    ensures runs { RunsMatches P.Program H.opens H.Input.Source W.Sink E.Sink
        matches.now host.old host.new out.old out.new err.old err.new result }
    ensures failures { (E.device err.new).failures ≤ (E.device err.old).failures + 1 }
    ensures low { result ≤ 3 }
{
    match P::job_of(alloc, matches) {
        Ok(job) => run_job::<P, _, _, _, _>(alloc, job, matches, host, out, err, hasher),
        Err(fault) => P::use_fault(fault, err),
    }
}

/// Writes the text of `error`, which `clap` returned for a command line: it was not accepted, or
/// asks for help or the version. Returns the exit status. Help and the version go to `out`, all
/// else to `err`. The status is 0 if help or the version was written, 3 if memory runs out or `out`
/// cannot be written, otherwise 2.
fn answer<P: Program, W: Sink, E: Sink>(
    alloc: Global,
    error: &Error,
    out: &mut W,
    err: &mut E,
) -> u8
    requires sinks { MayFailOnce W.Sink E.Sink out.old err.old }
    ensures answers { Answers P.name (kind_of error.now)
        (W.device out.old) (W.device out.new) (E.device err.old) (E.device err.new) result }
    ensures failures { (E.device err.new).failures ≤ (E.device err.old).failures + 1 }
    ensures low { result ≤ 3 }
{
    let status = parse_status(error);
    if status == 3 {
        return P::use_fault(UseFault::OutOfMemory, err);
    }
    let Ok(text) = error.to_string(alloc) else {
        return P::use_fault(UseFault::OutOfMemory, err);
    };
    if status == 2 {
        let _ = put(err, text.as_bytes());
        return status;
    }
    if put(out, text.as_bytes()).is_err() {
        return write_fault(P::name(), err);
    }
    status
}

/// Parses these arguments, the program's name first among them, does what they ask for, and returns
/// the exit status, as `run_program` does. `host` opens the inputs, output goes to `out`, which is
/// not flushed, and messages go to `err`.
fn parse_and_run<P: Program, H: Host, W: Sink, E: Sink, B: BuildHasher>(
    alloc: Global,
    words: &[String],
    host: &mut H,
    out: &mut W,
    err: &mut E,
    hasher: &B,
) -> u8
    requires sinks { MayFailOnce W.Sink E.Sink out.old err.old }
    ensures runs { RunsWords P.Program (map string_bytes words.now) H.opens
        H.Input.Source W.Sink E.Sink host.old host.new out.old out.new err.old err.new result }
    ensures failures { (E.device err.new).failures ≤ (E.device err.old).failures + 1 }
    ensures low { result ≤ 3 }
{
    let Ok(command) = P::command_of(alloc) else {
        return P::use_fault(UseFault::OutOfMemory, err);
    };
    match command.try_get_matches_from(words) {
        Ok(matches) => run_matches::<P, _, _, _, _>(alloc, &matches, host, out, err, hasher),
        Err(error) => answer::<P, _, _>(alloc, &error, out, err),
    }
}

/// Runs the program with these arguments, its own name first among them, flushes the output, and
/// returns the exit status. `host` opens the inputs, output goes to `out`, and messages go to
/// `err`.
///
/// The status is 0 for help and the version, 2 for arguments that are refused, and 3 if an input
/// cannot be opened, if memory runs out, or if a read or a write fails. Any other status is that of
/// the outcome of the program.
/// Identifier codes are hashed with numbers that the hasher returns; what is written does not
/// depend on them.
pub fn run_program<P: Program, H: Host, W: Output, E: Sink, B: BuildHasher>(
    alloc: Global,
    words: &[String],
    host: &mut H,
    out: &mut W,
    err: &mut E,
    hasher: &B,
) -> u8
    requires out_failures { (W.device out.old).failures < 2 ^ 64 - 1 }
    requires err_failures { (E.device err.old).failures < 2 ^ 64 - 2 }
    ensures runs { Finishes P.name W.device W.flushes (λ now err_now status. RunsOn
        P.Program (map string_bytes words.now) H.opens
        H.Input.rest H.Input.failures H.Input.last_failed host.old host.new
        (W.device out.old) (W.device now) (E.device err.old) err_now status
        (KeepsNoneBack W.kept_back out.old now))
        out.new (E.device err.new) result }
    ensures low { result ≤ 3 }
{
    let status = parse_and_run::<P, _, _, _, _>(alloc, words, host, out, err, hasher);
    let flushed = out.flush();
    if status < 3 && flushed.is_err() {
        return write_fault(P::name(), err);
    }
    status
}
