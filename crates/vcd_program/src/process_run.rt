//! A program as a process runs it: over the arguments, the files and the streams of any process.
ghost use Rattle.std.specs.Prelude.{◌≡◌, ◌-◌, ◌^◌, ◌<◌, ◌≤◌, map, string_bytes};
ghost use Rattle.vcd_program.specs.ProcessRun.{Delivers, RunsAs, RunsGiven, RunsOver};

use crate::command_line::run_program;
use crate::process::{Process, ProcessHost};
use crate::program::Program;
use std::alloc::Global;
use std::hash::{BuildHasher, BuildHasherDefault, FoldHasher};
use vcd_host::Output;
use vcd_text::Sink;

/// Runs the program with these arguments over the inputs of the process behind `host`, and returns
/// the exit status, as `run_program` does. Output goes to `out`, and messages go to `err`.
fn run_hosted<A: Program, P: Process, W: Output, E: Sink, B: BuildHasher>(
    alloc: Global,
    host: &mut ProcessHost<'_, P>,
    words: &[String],
    out: &mut W,
    err: &mut E,
    hasher: &B,
) -> u8
    requires out_failures { (W.device out.old).failures < 2 ^ 64 - 1 }
    requires err_failures { (E.device err.old).failures < 2 ^ 64 - 2 }
    ensures loan { host.new.process.ghost_name ≡ host.old.process.ghost_name }
    ensures runs { RunsOver A.Program P.Process P.File.Read P.Input.Read W.Sink W.flushes host.old.is_seeded
        host.old.process.now host.new.process.now (map string_bytes words.now)
        out.old out.new (E.device err.old) (E.device err.new) result }
    ensures low { result ≤ 3 }
{
    run_program::<A, _, _, _, _>(alloc, words, host, out, err, hasher)
}

/// Runs the program with these arguments over the inputs of the process, and returns the exit
/// status, as `run_program` does. Output goes to `out`, and messages go to `err`. If `is_seeded` is
/// false, the process has no random numbers, and each read of an input fails.
fn run_over<A: Program, P: Process, W: Output, E: Sink, B: BuildHasher>(
    alloc: Global,
    process: &mut P,
    is_seeded: bool,
    words: &[String],
    out: &mut W,
    err: &mut E,
    hasher: &B,
) -> u8
    requires out_failures { (W.device out.old).failures < 2 ^ 64 - 1 }
    requires err_failures { (E.device err.old).failures < 2 ^ 64 - 2 }
    ensures runs { RunsOver A.Program P.Process P.File.Read P.Input.Read W.Sink W.flushes is_seeded
        process.old process.new (map string_bytes words.now)
        out.old out.new (E.device err.old) (E.device err.new) result }
    ensures low { result ≤ 3 }
{
    let mut host = ProcessHost { process, is_seeded };
    run_hosted::<A, _, _, _, _>(alloc, &mut host, words, out, err, hasher)
}

/// Runs the program with these arguments, its own name first among them, over the inputs of the
/// process, and returns the exit status, as `run_program` does. Output goes to `out`, and messages
/// go to `err`, which is not flushed.
///
/// Identifier codes are hashed with random numbers of the process, so that nobody can make a dump
/// whose codes are slow to find. If it has none, each read of an input fails.
pub(crate) fn run_words<A: Program, P: Process, W: Output, E: Sink>(
    alloc: Global,
    process: &mut P,
    words: &[String],
    out: &mut W,
    err: &mut E,
) -> u8
    requires out_failures { (W.device out.old).failures < 2 ^ 64 - 1 }
    requires err_failures { (E.device err.old).failures < 2 ^ 64 - 2 }
    ensures runs { RunsGiven A.Program P.Process P.File.Read P.Input.Read W.Sink W.flushes
        process.old process.new (map string_bytes words.now)
        out.old out.new (E.device err.old) (E.device err.new) result }
    ensures low { result ≤ 3 }
{
    match process.seed() {
        Some(hasher) => run_over::<A, _, _, _, _>(alloc, process, true, words, out, err, &hasher),
        None => {
            let hasher: BuildHasherDefault<FoldHasher> = BuildHasherDefault::new();
            run_over::<A, _, _, _, _>(alloc, process, false, words, out, err, &hasher)
        }
    }
}

/// Runs the program over the process, as `run_process` does, but does not flush `err`.
fn run_unflushed<A: Program, P: Process, W: Output, E: Sink>(
    alloc: Global,
    process: &mut P,
    out: &mut W,
    err: &mut E,
) -> u8
    requires out_failures { (W.device out.old).failures < 2 ^ 64 - 1 }
    requires err_failures { (E.device err.old).failures < 2 ^ 64 - 2 }
    ensures runs { RunsAs A.Program P.Process P.File.Read P.Input.Read W.Sink W.flushes
        process.old process.new out.old out.new (E.device err.old) (E.device err.new) result }
    ensures low { result ≤ 3 }
{
    match process.words(alloc) {
        Ok(words) => run_words::<A, _, _, _>(alloc, process, words.as_slice(), out, err),
        Err(fault) => A::use_fault(fault, err),
    }
}

/// Runs the program with the arguments, the files and the standard input of the process, flushes
/// the output and then the error stream, and returns the exit status, as `run_program` does. Output
/// goes to `out`, and messages go to `err`. The status is 2 if an argument is not UTF-8, and 3 if
/// there is no memory for the arguments. If the error stream cannot be flushed, this is ignored.
///
/// If the process has no random numbers, with which codes are hashed, each read of an input fails.
pub fn run_process<A: Program, P: Process, W: Output, E: Output>(
    alloc: Global,
    process: &mut P,
    out: &mut W,
    err: &mut E,
) -> u8
    requires out_failures { (W.device out.old).failures < 2 ^ 64 - 1 }
    requires err_failures { (E.device err.old).failures < 2 ^ 64 - 2 }
    ensures runs { Delivers E.device E.flushes (λ shown. RunsAs A.Program P.Process P.File.Read P.Input.Read
        W.Sink W.flushes process.old process.new out.old out.new (E.device err.old) shown result)
        err.new }
    ensures low { result ≤ 3 }
{
    let status = run_unflushed::<A, _, _, _>(alloc, process, out, err);
    let _ = err.flush();
    status
}
