//! A job: what is done, and how its input is read; or why there is no job.
ghost use Rattle.std.specs.Prelude.{◌≡◌, ◌≤◌, IfErr, IfOk, OnOk, Some, None, true, cond, map, string_bytes};
ghost use Rattle.vcd_words.specs.Names.{AsksFor, decimal_value, HasTicks, is_asked, is_limit, is_merge, IsFaultIn, IsFaultOf, job_asked, KeepsRequest, limit_of, model_want, names_asked, text_of, UseFault};

use crate::moment_word::number_of;
use crate::refusal::Refusal;
use crate::sample_ticks::write_times;
use crate::words::{limit_word, want_of, words_in};
use clap::ArgMatches;
use std::alloc::{AllocError, Global};
use vcd_head::Moment;
use vcd_view::HeadView;

/// What is done with the input.
#[derive(PartialEq, Eq, Debug, Drop)]
pub enum Want {
    /// Counts what the dump has.
    Check,
    /// Lists the variables of the dump.
    List,
    /// Writes the dump of the variables that these names select.
    Pick(Vec<String>),
    /// Writes the dump from the first of these times to the last.
    Cut(Moment, Moment),
    /// Writes the values of the variables that these names select (of all without names) at times
    /// with these numbers, and these units, one for each number. Numbers and units are apart, so
    /// that ticks can be written over the numbers.
    Sample(Vec<u64>, Vec<Option<i8>>, Vec<String>),
    /// Counts how often the variables that these names select (all without names) change, rise and
    /// fall.
    Edges(Vec<String>),
    /// Writes the changes of all inputs in one order of time.
    Merge,
}

impl Want {
    /// Converts the times of a sample to ticks of the time scale of this header, rounded down, in
    /// place. For any other want nothing changes. Fails with the reason if a time has a unit but
    /// the header no time scale, if it is 2^64 ticks or more, or if the times do not increase in
    /// ticks; then the times may have any values.
    pub fn write_ticks(&mut self, view: HeadView<'_>) -> Result<(), Refusal>
        requires { is_asked self.old ≡ true }
        ensures same { KeepsRequest view.entry (model_want self.old) (model_want self.new) result }
        ensures ticks { OnOk result (HasTicks self.new) }
        ensures asked { is_asked self.new ≡ true }
        ensures names { names_asked self.new ≡ names_asked self.old }
        ensures kind { is_merge self.new ≡ is_merge self.old }
    {
        match self {
            Want::Sample(numbers, units, _) => write_times(numbers, units, view),
            Want::Check
            | Want::List
            | Want::Pick(_)
            | Want::Cut(..)
            | Want::Edges(_)
            | Want::Merge => Ok(()),
        }
    }

    /// Returns whether this is a merge, the only command that may have several inputs.
    pub fn is_merge(&self) -> bool
        ensures { result ≡ is_merge self.now }
    {
        matches!(self, Want::Merge)
    }

    /// Returns the names of variables on the command line, each of which has to select something.
    /// There are none if the command takes no names, or is about all variables.
    pub fn names(&self) -> &[String]
        ensures { map string_bytes result.now ≡ names_asked self.now }
    {
        match self {
            Want::Check | Want::List | Want::Cut(..) | Want::Merge => &[],
            Want::Pick(names) | Want::Sample(_, _, names) | Want::Edges(names) => names.as_slice(),
        }
    }
}

/// What is done, and how the input is read.
#[derive(PartialEq, Eq, Debug, Drop)]
pub struct Job {
    /// What is done.
    pub task: Want,
    /// How long a token may be, in bytes.
    pub limit: usize,
    /// How much is read in one call, in bytes.
    pub chunk: usize,
    pub ghost asked: { is_asked task ≡ true },
    pub ghost limit_in_range: { (64 ≤ limit) × (limit ≤ 16777216) },
    pub ghost chunk_in_range: { (1 ≤ chunk) × (chunk ≤ 65536) },
}

/// Why there is no job.
#[derive(Clone, Copy, PartialEq, Eq, Debug)]
pub enum UseFault<'a> {
    /// The words name no command, or one without names or times that it needs.
    BadWords,
    /// This word is no token limit.
    BadLimit(&'a str),
    /// This word is no time.
    BadTime(&'a str),
    /// The start of a cut is above its end.
    FromAboveTo,
    /// The times of a sample do not increase.
    NotRising,
    /// A merge has more than 64 files.
    TooManyFiles,
    /// A merge has standard input more than once among its files.
    InputTwice,
    /// The message about an argument of another program, in two parts. `job_of` returns none.
    BadArgument(&'a str, &'a str),
    /// Memory ran out.
    OutOfMemory,
}

impl<'a> From<AllocError> for UseFault<'a> {
    ghost from_gives = { λ _ fault. fault ≡ UseFault.OutOfMemory };

    /// Returns `OutOfMemory`.
    fn from(_error: AllocError) -> UseFault<'a> {
        UseFault::OutOfMemory
    }
}

/// How long a token may be if no argument sets one, in bytes.
const DEFAULT_LIMIT: usize = 1_048_576;

// The least and the greatest token limit.
const LEAST_LIMIT: u64 = 64;

const MAX_LIMIT: u64 = 16_777_216;

/// How much is read in one call, in bytes.
const CHUNK: usize = 65_536;

/// Returns the token limit, in bytes, that a word spells. `None` if the word is not 1 to 20 digits,
/// or if the number is below 64 or above 16,777,216.
fn limit_in(word: &str) -> Option<usize>
    ensures { result ≡ cond (is_limit word.now) (Some (decimal_value word.now)) None }
{
    let limit = number_of(word.as_bytes())?;
    if limit < LEAST_LIMIT || MAX_LIMIT < limit {
        return None;
    }
    Some(limit as usize)
}

/// Returns the token limit, in bytes, that the value of `--token-limit` asks for, or 1,048,576 if
/// there is none. Fails with `BadLimit` if the word is not 1 to 20 digits, or if the number is
/// below 64 or above 16,777,216.
fn limit_of<'a>(word: Option<&'a str>) -> Result<usize, UseFault<'a>>
    ensures limit { IfOk result (λ limit. limit_of (text_of word.entry) ≡ Ok limit) }
    ensures range { IfOk result (λ limit. (64 ≤ limit) × (limit ≤ 16777216)) }
    ensures fault { IfErr result (λ fault. IsFaultIn fault (limit_of (text_of word.entry))) }
{
    match word {
        None => Ok(DEFAULT_LIMIT),
        Some(text) => limit_in(text).ok_or(UseFault::BadLimit(text)),
    }
}

/// Returns what a parsed command line asks for: the command with copies of its names and times, and
/// its limits. Fails with the first fault of the words, or if memory runs out. It takes no memory
/// before the words were checked.
pub fn job_of<'a>(alloc: Global, matches: &ArgMatches<'a>) -> Result<Job, UseFault<'a>>
    ensures job { IfOk result (λ job. AsksFor matches.now job.task job.limit) }
    ensures chunk { IfOk result (λ job. job.chunk ≡ 65536) }
    ensures fault { IfErr result (λ fault. IsFaultOf fault (job_asked matches.now)) }
{
    let Some(words) = words_in(matches) else {
        return Err(UseFault::BadWords);
    };
    let limit = limit_of(limit_word(matches))?;
    let task = want_of(alloc, words)?;
    Ok(Job {
        task,
        limit,
        chunk: CHUNK,
    })
}
