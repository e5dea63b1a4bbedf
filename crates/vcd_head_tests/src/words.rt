// Command lines: which are accepted, and what they ask for.
ghost use Rattle.std.specs.Prelude.{◌≡◌, ◌≤◌, IfOk, true};
ghost use Rattle.vcd_words.specs.Job.{is_asked};

use clap::error::ErrorKind;
use clap::{ArgMatches, Command, Error};
use std::alloc::{AllocError, Global};
use std::process::Abort;
use vcd_words::{Job, UseFault, Want, Words, command_of, input_of, job_of, parse_status, want_of};

// The token limit if no argument sets one.
const LIMIT: usize = 1_048_576;

// What the parse of these words returns: nothing if they are accepted, otherwise its kind and the
// exit status.
fn answer(alloc: Global, words: &[&str]) -> Result<Option<(ErrorKind, u8)>, AllocError> {
    match command_of(alloc)?.try_get_matches_from(words) {
        Ok(_) => Ok(None),
        Err(error) => Ok(Some((error.kind(), parse_status(&error)))),
    }
}

// What the parse of words returns that are accepted, that ask for a text, and that are refused.
const TAKEN: Option<(ErrorKind, u8)> = None;

const HELP: Option<(ErrorKind, u8)> = Some((ErrorKind::DisplayHelp, 0));

const VERSION: Option<(ErrorKind, u8)> = Some((ErrorKind::DisplayVersion, 0));

const NO_COMMAND: Option<(ErrorKind, u8)> = Some((ErrorKind::MissingSubcommand, 2));

const BAD_COMMAND: Option<(ErrorKind, u8)> = Some((ErrorKind::InvalidSubcommand, 2));

const UNKNOWN: Option<(ErrorKind, u8)> = Some((ErrorKind::UnknownArgument, 2));

const MISSING: Option<(ErrorKind, u8)> = Some((ErrorKind::MissingRequiredArgument, 2));

const NO_VALUE: Option<(ErrorKind, u8)> = Some((ErrorKind::InvalidValue, 2));

const TWICE: Option<(ErrorKind, u8)> = Some((ErrorKind::ArgumentConflict, 2));

// Words, the program's name first, and what their parse returns.
static ANSWERS: [(&[&str], Option<(ErrorKind, u8)>); 52] = [
    // A command.
    (&["vcdkit", "check"], TAKEN),
    (&["vcdkit", "--help"], HELP),
    (&["vcdkit", "check", "--help"], HELP),
    (&["vcdkit", "--version"], VERSION),
    (&["vcdkit", "-V"], VERSION),
    (&["vcdkit"], NO_COMMAND),
    (&["vcdkit", "chek"], BAD_COMMAND),
    (&["vcdkit", "help"], BAD_COMMAND),
    (&["vcdkit", "check", "a.vcd", "b.vcd"], UNKNOWN),
    (&["vcdkit", "--more"], UNKNOWN),
    // Options of each command.
    (&["vcdkit", "list"], TAKEN),
    (&["vcdkit", "list", "--help"], HELP),
    (&["vcdkit", "list", "-h"], HELP),
    (&["vcdkit", "check", "-i", "-"], TAKEN),
    (&["vcdkit", "check", "-i"], NO_VALUE),
    (&["vcdkit", "check", "--token-limit"], NO_VALUE),
    (&["vcdkit", "list", "--limit", "64"], UNKNOWN),
    (&["vcdkit", "list", "--input", "a.vcd"], UNKNOWN),
    (&["vcdkit", "-i", "a.vcd", "check"], UNKNOWN),
    (&["vcdkit", "check", "-i", "a.vcd", "-i", "b.vcd"], TWICE),
    // A file without its option.
    (&["vcdkit", "check", "a.vcd"], TAKEN),
    (&["vcdkit", "check", "-"], TAKEN),
    (&["vcdkit", "list", "--token-limit", "64", "a.vcd"], TAKEN),
    (&["vcdkit", "list", "--", "-i"], TAKEN),
    (&["vcdkit", "check", "-i", "a.vcd", "b.vcd"], TWICE),
    (&["vcdkit", "check", "b.vcd", "-i", "a.vcd"], TWICE),
    (&["vcdkit", "cut", "-i", "a.vcd", "a.vcd"], TWICE),
    // Names.
    (&["vcdkit", "pick", "tb"], TAKEN),
    (&["vcdkit", "pick", "a", "b", "c"], TAKEN),
    (&["vcdkit", "pick", "--help"], HELP),
    (&["vcdkit", "pick"], MISSING),
    (&["vcdkit", "pick", "-i", "f.vcd"], MISSING),
    (&["vcdkit", "pick", "-a"], UNKNOWN),
    (&["vcdkit", "list", "tb", "tc"], UNKNOWN),
    // The times of a cut.
    (&["vcdkit", "cut", "--to", "5", "--from", "x"], TAKEN),
    (&["vcdkit", "cut", "--help"], HELP),
    (&["vcdkit", "cut"], TAKEN),
    (&["vcdkit", "cut", "--from", "5"], TAKEN),
    (&["vcdkit", "cut", "--to", "5", "a.vcd"], TAKEN),
    (&["vcdkit", "cut", "--from"], NO_VALUE),
    (&["vcdkit", "cut", "--to"], NO_VALUE),
    (&["vcdkit", "list", "--to", "5"], UNKNOWN),
    (
        &["vcdkit", "cut", "--from", "1", "--to", "5", "tb", "tc"],
        UNKNOWN,
    ),
    (
        &["vcdkit", "cut", "--from", "1", "--from", "2", "--to", "5"],
        TWICE,
    ),
    // The times of a sample.
    (&["vcdkit", "sample", "--at", "5"], TAKEN),
    (&["vcdkit", "sample", "a", "--at=5,x", "b"], TAKEN),
    (&["vcdkit", "sample", "--help"], HELP),
    (&["vcdkit", "sample"], MISSING),
    (&["vcdkit", "sample", "a"], MISSING),
    (&["vcdkit", "sample", "--at"], NO_VALUE),
    (&["vcdkit", "edges", "--at", "5"], UNKNOWN),
    (&["vcdkit", "sample", "--at", "1", "--at", "2"], TWICE),
];

#[test]
fn words_are_taken_or_answered(rt: HostRuntime) {
    for (words, wanted) in &ANSWERS {
        assert_eq!(rt; answer(rt.alloc(), words), Ok(*wanted), "of {words:?}");
    }
    assert_eq!(rt; parse_status(&Error::from(AllocError)), 3);
}

// What these words of a command line match, if they do.
fn matches_of<'a>(command: Command<'a>, words: &'a [&'a str]) -> Option<ArgMatches<'a>> {
    match command.try_get_matches_from(words) {
        Ok(matches) => Some(matches),
        Err(_) => None,
    }
}

// Whether these words ask for this job, or are refused for this fault.
fn is_answered<'a>(
    alloc: Global,
    words: &'a [&'a str],
    wanted: Result<Job, UseFault<'_>>,
) -> Result<bool, AllocError> {
    Ok(match matches_of(command_of(alloc)?, words) {
        Some(matches) => job_of(alloc, &matches) == wanted,
        None => false,
    })
}

// What good words ask for.
fn wanted(alloc: Global, words: Words<'_, '_>) -> Result<Want, AllocError>
    ensures { IfOk result (λ want. is_asked want ≡ true) }
{
    match want_of(alloc, words) {
        Ok(want) => Ok(want),
        Err(_) => Err(AllocError),
    }
}

// Whether these words ask for this with this token limit.
fn is_job<'a>(
    alloc: Global,
    words: &'a [&'a str],
    want: Words<'_, '_>,
    limit: usize,
) -> Result<bool, AllocError>
    requires { (64 ≤ limit) × (limit ≤ 16777216) }
{
    let want = wanted(alloc, want)?;
    let job = Job {
        task: want,
        limit,
        chunk: 65_536,
    };
    is_answered(alloc, words, Ok(job))
}

// These words ask for this with this token limit.
fn ask<R: Abort + AllocGlobal>(rt: &R, words: &[&str], want: Words<'_, '_>, limit: usize) {
    assert!(rt; 64 <= limit && limit <= 16_777_216);
    assert_eq!(rt;
        is_job(rt.alloc(), words, want, limit),
        Ok(true),
        "of {words:?}"
    );
}

// These words are refused for this fault.
fn refuse<'a, R: Abort + AllocGlobal>(rt: &R, words: &'a [&'a str], fault: UseFault<'a>) {
    assert_eq!(rt;
        is_answered(rt.alloc(), words, Err(fault)),
        Ok(true),
        "of {words:?}"
    );
}

// Words, what they ask for, and the token limit.
static ASKS: [(&[&str], Words<'static, 'static>, usize); 28] = [
    (&["vcdkit", "check"], Words::Check, LIMIT),
    (&["vcdkit", "check", "-i", "63"], Words::Check, LIMIT),
    (&["vcdkit", "list", "-i", "f.vcd"], Words::List, LIMIT),
    (
        &["vcdkit", "list", "--token-limit=100", "-if.vcd"],
        Words::List,
        100,
    ),
    // Names, which may be any text after two dashes.
    (
        &["vcdkit", "pick", "tb.clk", "u"],
        Words::Pick(&["tb.clk", "u"]),
        LIMIT,
    ),
    (
        &[
            "vcdkit",
            "pick",
            "-i",
            "f.vcd",
            "b",
            "--token-limit",
            "64",
            "a",
            "b",
        ],
        Words::Pick(&["b", "a", "b"]),
        64,
    ),
    (
        &["vcdkit", "pick", "--", "-i", ""],
        Words::Pick(&["-i", ""]),
        LIMIT,
    ),
    // Token limits.
    (
        &["vcdkit", "check", "--token-limit", "64"],
        Words::Check,
        64,
    ),
    (
        &["vcdkit", "check", "--token-limit", "065"],
        Words::Check,
        65,
    ),
    (
        &["vcdkit", "check", "--token-limit", "16777216"],
        Words::Check,
        16_777_216,
    ),
    (
        &["vcdkit", "check", "--token-limit", "00000000000000000064"],
        Words::Check,
        64,
    ),
    // Times of a cut, which has all of the dump without them.
    (
        &["vcdkit", "cut", "--from", "4", "--to", "5"],
        Words::Cut("4", "5"),
        LIMIT,
    ),
    (
        &["vcdkit", "cut", "--from", "5", "--to", "5"],
        Words::Cut("5", "5"),
        LIMIT,
    ),
    (
        &["vcdkit", "cut", "--from", "9ns", "--to", "4"],
        Words::Cut("9ns", "4"),
        LIMIT,
    ),
    (
        &["vcdkit", "cut", "--from", "9", "--to", "4ns"],
        Words::Cut("9", "4ns"),
        LIMIT,
    ),
    (
        &["vcdkit", "cut", "--from", "0s", "--to", "1fs"],
        Words::Cut("0s", "1fs"),
        LIMIT,
    ),
    (
        &["vcdkit", "cut"],
        Words::Cut("0", "18446744073709551615"),
        LIMIT,
    ),
    (
        &["vcdkit", "cut", "--from", "5"],
        Words::Cut("5", "18446744073709551615"),
        LIMIT,
    ),
    (
        &["vcdkit", "cut", "f.vcd", "--to", "9ns"],
        Words::Cut("0", "9ns"),
        LIMIT,
    ),
    // Times of a sample, with names and without.
    (
        &["vcdkit", "sample", "--at", "5"],
        Words::Sample("5", None),
        LIMIT,
    ),
    (
        &["vcdkit", "sample", "--at", "0,1,20"],
        Words::Sample("0,1,20", None),
        LIMIT,
    ),
    (
        &["vcdkit", "sample", "--at", "9ns,4"],
        Words::Sample("9ns,4", None),
        LIMIT,
    ),
    (
        &["vcdkit", "sample", "--at", "4,9ns"],
        Words::Sample("4,9ns", None),
        LIMIT,
    ),
    (
        &["vcdkit", "sample", "--at", "5ns,5ns"],
        Words::Sample("5ns,5ns", None),
        LIMIT,
    ),
    (
        &["vcdkit", "sample", "b", "--at", "9ns,4", "a"],
        Words::Sample("9ns,4", Some(&["b", "a"])),
        LIMIT,
    ),
    // Merges that read standard input once, and a file twice.
    (&["vcdkit", "merge", "-"], Words::Merge(&["f.vcd"]), LIMIT),
    (
        &["vcdkit", "merge", "a.vcd", "-", "a.vcd"],
        Words::Merge(&["f.vcd"]),
        LIMIT,
    ),
    (
        &["vcdkit", "merge", "--", "./-", "-", "--", "", "-a"],
        Words::Merge(&["f.vcd"]),
        LIMIT,
    ),
];

#[test]
fn words_ask_for_a_want_and_a_limit(rt: HostRuntime) {
    for (words, want, limit) in &ASKS {
        ask(&rt, words, *want, *limit);
    }
}

// Words that are refused, and the fault.
static REFUSED: [(&[&str], UseFault<'static>); 30] = [
    (&["vcdkit", "merge", "-", "-"], UseFault::InputTwice),
    (
        &["vcdkit", "merge", "a.vcd", "-", "b.vcd", "-"],
        UseFault::InputTwice,
    ),
    (
        &["vcdkit", "merge", "-", "--", "-", "a.vcd"],
        UseFault::InputTwice,
    ),
    (
        &["vcdkit", "check", "--token-limit", ""],
        UseFault::BadLimit(""),
    ),
    (
        &["vcdkit", "check", "--token-limit", "0"],
        UseFault::BadLimit("0"),
    ),
    (
        &["vcdkit", "check", "--token-limit", "63"],
        UseFault::BadLimit("63"),
    ),
    (
        &["vcdkit", "check", "--token-limit", "16777217"],
        UseFault::BadLimit("16777217"),
    ),
    (
        &["vcdkit", "check", "--token-limit", "000000000000000000064"],
        UseFault::BadLimit("000000000000000000064"),
    ),
    (
        &["vcdkit", "check", "--token-limit", "18446744073709551680"],
        UseFault::BadLimit("18446744073709551680"),
    ),
    (
        &["vcdkit", "check", "--token-limit", "99999999999999999999"],
        UseFault::BadLimit("99999999999999999999"),
    ),
    (
        &["vcdkit", "check", "--token-limit", "+64"],
        UseFault::BadLimit("+64"),
    ),
    (
        &["vcdkit", "check", "--token-limit", "6 4"],
        UseFault::BadLimit("6 4"),
    ),
    (
        &["vcdkit", "check", "--token-limit", "64 "],
        UseFault::BadLimit("64 "),
    ),
    (
        &["vcdkit", "check", "--token-limit", "0x64"],
        UseFault::BadLimit("0x64"),
    ),
    (
        &["vcdkit", "check", "--token-limit", "1e3"],
        UseFault::BadLimit("1e3"),
    ),
    (
        &["vcdkit", "check", "--token-limit", "1_000"],
        UseFault::BadLimit("1_000"),
    ),
    (
        &["vcdkit", "check", "--token-limit", "６４"],
        UseFault::BadLimit("６４"),
    ),
    // A bad limit counts before bad times.
    (
        &["vcdkit", "pick", "a", "--token-limit", "63"],
        UseFault::BadLimit("63"),
    ),
    (
        &[
            "vcdkit",
            "cut",
            "--from",
            "x",
            "--to",
            "5",
            "--token-limit",
            "63",
        ],
        UseFault::BadLimit("63"),
    ),
    (
        &["vcdkit", "sample", "--at", "x", "--token-limit", "63"],
        UseFault::BadLimit("63"),
    ),
    // Times of a cut, and of a sample.
    (
        &["vcdkit", "cut", "--from", "5", "--to", "4"],
        UseFault::FromAboveTo,
    ),
    (
        &["vcdkit", "cut", "--from", "x", "--to", "y"],
        UseFault::BadTime("x"),
    ),
    (
        &["vcdkit", "cut", "--from", "5", "--to", "15NS"],
        UseFault::BadTime("15NS"),
    ),
    (
        &["vcdkit", "cut", "--from", "", "--to", "5"],
        UseFault::BadTime(""),
    ),
    (
        &["vcdkit", "sample", "--at", "5,5", "a"],
        UseFault::NotRising,
    ),
    (
        &["vcdkit", "sample", "--at", "1,3,2,4", "a"],
        UseFault::NotRising,
    ),
    (
        &["vcdkit", "sample", "--at", "5,", "a"],
        UseFault::BadTime(""),
    ),
    (
        &["vcdkit", "sample", "--at", "", "a"],
        UseFault::BadTime(""),
    ),
    (
        &["vcdkit", "sample", "--at", "15NS", "a"],
        UseFault::BadTime("15NS"),
    ),
    (
        &["vcdkit", "sample", "--at", "2,1,x,y", "a"],
        UseFault::BadTime("x"),
    ),
];

#[test]
fn words_are_refused_for_their_first_fault(rt: HostRuntime) {
    for (words, fault) in &REFUSED {
        refuse(&rt, words, *fault);
    }
}

#[test]
fn a_merge_has_one_to_64_files(rt: HostRuntime) {
    let mut words = ["f.vcd"; 67];
    words[0] = "vcdkit";
    words[1] = "merge";
    ask(&rt, &words[..3], Words::Merge(&words[2..3]), LIMIT);
    ask(&rt, &words[..66], Words::Merge(&words[2..66]), LIMIT);
    refuse(&rt, &words, UseFault::TooManyFiles);
}

// Whether these words name this input.
fn is_input<'a>(
    alloc: Global,
    words: &'a [&'a str],
    input: Option<&str>,
) -> Result<bool, AllocError> {
    Ok(match matches_of(command_of(alloc)?, words) {
        Some(matches) => input_of(&matches) == input,
        None => false,
    })
}

// Words, and the input that they name.
static INPUTS: [(&[&str], Option<&str>); 8] = [
    (&["vcdkit", "check", "--token-limit", "64"], None),
    (&["vcdkit", "list", "-i", "f.vcd"], Some("f.vcd")),
    (&["vcdkit", "check", "-i", ""], Some("")),
    (&["vcdkit", "list", "f.vcd"], Some("f.vcd")),
    (&["vcdkit", "cut", "f.vcd", "--to", "5"], Some("f.vcd")),
    (&["vcdkit", "check", "-"], Some("-")),
    (&["vcdkit", "check", "--", "-i"], Some("-i")),
    (&["vcdkit", "pick", "f.vcd", "tb"], None),
];

#[test]
fn an_input_is_named_by_its_option_or_alone(rt: HostRuntime) {
    for (words, input) in &INPUTS {
        let is = is_input(rt.alloc(), words, *input);
        assert_eq!(rt; is, Ok(true), "of {words:?}");
    }
}
