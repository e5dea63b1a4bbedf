//! The lines on the error stream, and the exit statuses. A line begins with the name of the
//! program, which each function takes first; if a write of it fails, a prefix of it was written.
ghost use Rattle.std.specs.Prelude.{◌≡◌, ◌-◌, ◌^◌, ◌<◌, ◌++◌, [], codes, decimal, flat_map, map, string_bytes};
ghost use Rattle.vcd_job.specs.Names.{failure_message, failure_status, name_at, OutOfMemory, program_line, Puts, PutsTo, Reports, shown_message, stop_message, stop_status, unopened_outcome, use_outcome, Write};

use crate::failure::Failure;
use vcd_body::Stop;
use vcd_text::{Sink, WriteFailed, put, put_number, text_of};
use vcd_words::UseFault;

/// Writes these texts one after the other. Fails if a write does; then a prefix was written.
fn put_texts<E: Sink>(err: &mut E, texts: &[&[u8]]) -> Result<(), WriteFailed>
    requires failures { (E.device err.old).failures < 2 ^ 64 - 1 }
    ensures { PutsTo E.device err.old err.new (flat_map (λ text. text.now) texts.now) result }
{
    for text in texts {
        put(err, text)?;
    }
    Ok(())
}

/// Writes the line `PROGRAM: NAME:LINE: TEXT`, about a fault in the input `name`. Fails if a write
/// does.
fn put_fault<'a, E: Sink>(
    program: &'a str,
    err: &mut E,
    name: &'a str,
    line: u64,
    text: &'a str,
) -> Result<(), WriteFailed>
    requires { (E.device err.old).failures < 2 ^ 64 - 1 }
    ensures { Puts (E.device err.old) (E.device err.new) (program_line program.now
        (name.now ++ codes ":" ++ decimal line ++ codes ": " ++ text.now)) result }
{
    put_texts(err, &[program.as_bytes(), b": ", name.as_bytes(), b":"])?;
    put_number(err, line)?;
    put_texts(err, &[b": ", text.as_bytes(), b"\n"])
}

/// Writes one line of the name `program`, `: `, `first` and `second`, and returns `status`. A
/// failed write is ignored.
pub fn say_both<'a, E: Sink>(
    program: &'a str,
    err: &mut E,
    first: &'a str,
    second: &'a str,
    status: u8,
) -> u8
    requires { (E.device err.old).failures < 2 ^ 64 - 1 }
    ensures { Reports E.device err.old err.new
        (program_line program.now (first.now ++ second.now)) status result }
{
    let texts = [
        program.as_bytes(),
        b": ",
        first.as_bytes(),
        second.as_bytes(),
        b"\n",
    ];
    let _ = put_texts(err, &texts);
    status
}

/// Writes one line of the name `program`, `: ` and `text`, and returns `status`. A failed write is
/// ignored.
pub fn say<E: Sink>(program: &'static str, err: &mut E, text: &str, status: u8) -> u8
    requires { (E.device err.old).failures < 2 ^ 64 - 1 }
    ensures { Reports E.device err.old err.new (program_line program.now text.now) status result }
{
    say_both(program, err, text, "", status)
}

/// Returns the name at index `place`, or an empty one if there is none.
pub fn name_at(names: &[String], place: usize) -> &str
    ensures { result.now ≡ name_at (map string_bytes names.now) place }
{
    match names.get(place) {
        Some(name) => name.as_str(),
        None => "",
    }
}

/// Writes the line that says why a run stopped, and returns the exit status: 3 if a read or a write
/// failed, otherwise `faulty`. `names` are those of the inputs, and `asked` are the names of
/// variables on the command line. A failed write to `err` is ignored.
fn report_stop<E: Sink>(
    program: &'static str,
    stop: Stop,
    names: &[String],
    asked: &[String],
    faulty: u8,
    err: &mut E,
) -> u8
    requires { (E.device err.old).failures < 2 ^ 64 - 1 }
    ensures { Reports E.device err.old err.new
        (shown_message program.now (stop_message
        (map string_bytes names.now) (map string_bytes asked.now) stop))
        (stop_status faulty stop) result }
{
    match stop {
        Stop::Dump { input, line, fault } => {
            let _ = put_fault(program, err, name_at(names, input), line, text_of(fault));
            faulty
        }
        Stop::Read { input } => say_both(program, err, name_at(names, input), ": read failed", 3),
        Stop::Write => say(program, err, "write failed", 3),
        Stop::Unmatched { name } => {
            say_both(
                program,
                err,
                name_at(asked, name),
                ": selects nothing",
                faulty,
            )
        }
    }
}

/// Writes the line that says why a run failed, and returns the exit status: `faulty` for a fault of
/// an input and for a name that selects nothing, otherwise 3. `names` are those of the inputs, and
/// `asked` are the names of variables on the command line. A failed write to `err` is ignored.
pub fn report<E: Sink>(
    program: &'static str,
    failure: Failure,
    names: &[String],
    asked: &[String],
    faulty: u8,
    err: &mut E,
) -> u8
    requires { (E.device err.old).failures < 2 ^ 64 - 1 }
    ensures { Reports E.device err.old err.new (shown_message program.now (failure_message
        (map string_bytes names.now) (map string_bytes asked.now) failure))
        (failure_status faulty failure) result }
{
    match failure {
        Failure::Stopped(stop) => report_stop(program, stop, names, asked, faulty, err),
        Failure::OutOfMemory => say(program, err, "out of memory", 3),
    }
}

/// Writes the line that says that the output could not be written, and returns the exit status 3. A
/// failed write to `err` is ignored.
pub fn write_fault<E: Sink>(program: &'static str, err: &mut E) -> u8
    requires { (E.device err.old).failures < 2 ^ 64 - 1 }
    ensures { Reports E.device err.old err.new
        (shown_message program.now (stop_message [] [] Write)) 3 result }
{
    report_stop(program, Stop::Write, &[], &[], 3, err)
}

/// Writes the line that says what is wrong with the arguments of the command line, and returns the
/// exit status: 3 if memory ran out, otherwise 2. An empty message is no line. A failed write to
/// `err` is ignored.
pub fn use_fault<E: Sink>(program: &'static str, fault: UseFault<'_>, err: &mut E) -> u8
    requires { (E.device err.old).failures < 2 ^ 64 - 1 }
    ensures { Reports E.device err.old err.new
        (shown_message program.now (use_outcome fault.entry).message)
        (use_outcome fault.entry).status result }
{
    match fault {
        UseFault::BadWords => say(program, err, "bad words", 2),
        UseFault::BadLimit(word) => say_both(program, err, "bad token limit: ", word, 2),
        UseFault::BadTime(word) => say_both(program, err, "bad time: ", word, 2),
        UseFault::FromAboveTo => say(program, err, "--from is above --to", 2),
        UseFault::NotRising => say(program, err, "times must rise", 2),
        UseFault::TooManyFiles => say(program, err, "too many files", 2),
        UseFault::InputTwice => say(program, err, "standard input twice", 2),
        UseFault::BadArgument("", "") => 2,
        UseFault::BadArgument(first, second) => say_both(program, err, first, second, 2),
        UseFault::OutOfMemory => report(program, Failure::OutOfMemory, &[], &[], 3, err),
    }
}

/// Writes the line that says that the file of this name cannot be opened, and returns the exit
/// status 3. A failed write to `err` is ignored.
pub fn open_fault<E: Sink>(program: &'static str, name: &str, err: &mut E) -> u8
    requires { (E.device err.old).failures < 2 ^ 64 - 1 }
    ensures { Reports E.device err.old err.new
        (shown_message program.now (unopened_outcome name.now).message)
        (unopened_outcome name.now).status result }
{
    say_both(program, err, name, ": cannot be opened", 3)
}
