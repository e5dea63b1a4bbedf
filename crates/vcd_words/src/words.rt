//! What the words of the command line ask for, borrowed from their matches.
ghost use Rattle.std.specs.Prelude.{◌≡◌, IfOk, codes, count_by, map, option_map, string_bytes};
ghost use Rattle.vcd_words.specs.Names.{command_named, command_used, complete, files_asked, GivesWant, input_asked, is_standard_input, merge_command, some_names, some_of, texts_of, values_after, want_of, word_after, words_command};

use crate::job::{UseFault, Want};
use crate::moment_word::{cut_of, sample_of};
use clap::ArgMatches;
use std::alloc::{AllocError, Global};

/// How many files a merge may have.
pub const MAX_FILES: usize = 64;

/// A command with its words.
#[derive(Clone, Copy, PartialEq, Eq, Debug)]
pub enum Words<'m, 'a> {
    Check,
    List,
    Pick(&'m [&'a str]),
    Cut(&'a str, &'a str),
    Sample(&'a str, Option<&'m [&'a str]>),
    Edges(Option<&'m [&'a str]>),
    Merge(&'m [&'a str]),
}

/// Returns the first value of the argument `id` of the command in a parsed command line. `None` if
/// there is no command, or if the argument has no value.
fn value_of<'a>(matches: &ArgMatches<'a>, id: &str) -> Option<&'a str>
    ensures { option_map (λ word. word.now) result ≡ word_after matches.now id.now }
{
    let (_, options) = matches.subcommand()?;
    options.get_str(id)
}

/// Returns the input file that a parsed command line names. `None` if it names no file, which means
/// standard input; the word `-` means it too.
pub fn input_of<'a>(matches: &ArgMatches<'a>) -> Option<&'a str>
    ensures { option_map (λ name. name.now) result ≡ input_asked matches.now }
{
    value_of(matches, "input")
}

/// Returns the value of `--token-limit` in a parsed command line; `None` if there is none.
pub(crate) fn limit_word<'a>(matches: &ArgMatches<'a>) -> Option<&'a str>
    ensures { option_map (λ word. word.now) result ≡ word_after matches.now (codes "token-limit") }
{
    value_of(matches, "token-limit")
}

/// Returns all values of the argument `id` of the command in a parsed command line. `None` if there
/// is no command, or if the argument has no value.
fn values_of<'m, 'a>(matches: &'m ArgMatches<'a>, id: &str) -> Option<&'m [&'a str]>
    ensures { texts_of result ≡ some_of (values_after matches.now id.now) }
{
    let (_, options) = matches.subcommand()?;
    let words = options.get_strs(id)?;
    (!words.is_empty()).then_some(words)
}

/// Returns the names of variables in a parsed command line; `None` if there are none.
fn names_of<'m, 'a>(matches: &'m ArgMatches<'a>) -> Option<&'m [&'a str]>
    ensures { texts_of result ≡ some_of (values_after matches.now (codes "names")) }
{
    values_of(matches, "names")
}

/// Returns the files that a parsed command line names for a merge; `None` if it names none.
pub fn files_of<'m, 'a>(matches: &'m ArgMatches<'a>) -> Option<&'m [&'a str]>
    ensures { texts_of result ≡ some_of (files_asked matches.now) }
{
    values_of(matches, "files")
}

/// Returns the command `name`, with its arguments in a parsed command line. `None` if there is no
/// such command, or if names, times or files that it needs are missing.
fn words_named<'m, 'a>(name: &str, matches: &'m ArgMatches<'a>) -> Option<Words<'m, 'a>>
    ensures { option_map words_command result ≡ complete (command_named name.now matches.now) }
{
    match name {
        "check" => Some(Words::Check),
        "list" => Some(Words::List),
        "pick" => Some(Words::Pick(names_of(matches)?)),
        "cut" => Some(Words::Cut(value_of(matches, "from")?, value_of(matches, "to")?)),
        "sample" => Some(Words::Sample(value_of(matches, "at")?, names_of(matches))),
        "edges" => Some(Words::Edges(names_of(matches))),
        "merge" => Some(Words::Merge(files_of(matches)?)),
        _ => None,
    }
}

/// Returns the command of a parsed command line, with its arguments. `None` if there is no command,
/// or if names, times or files that it needs are missing.
pub(crate) fn words_in<'m, 'a>(matches: &'m ArgMatches<'a>) -> Option<Words<'m, 'a>>
    ensures { option_map words_command result ≡ complete (command_used matches.now) }
{
    words_named(matches.subcommand_name()?, matches)
}

/// Returns copies of these names. Fails if memory runs out.
fn copied(alloc: Global, names: &[&str]) -> Result<Vec<String>, AllocError>
    ensures { IfOk result (λ copies. map string_bytes copies.items
        ≡ map (λ name. name.now) names.now) }
{
    let mut copies = Vec::new(alloc);
    for name in names {
        copies.push(String::from_str(alloc, name)?)?;
    }
    Ok(copies)
}

/// Returns copies of these names; no names if `names` is `None`. Fails if memory runs out.
pub fn copied_some(alloc: Global, names: Option<&[&str]>) -> Result<Vec<String>, AllocError>
    ensures { IfOk result (λ copies. map string_bytes copies.items ≡ some_names names.entry) }
{
    match names {
        Some(names) => copied(alloc, names),
        None => Ok(Vec::new(alloc)),
    }
}

/// Returns whether this name of a file means standard input: whether it is `-`.
pub fn is_standard_input(file: &str) -> bool
    ensures { result ≡ is_standard_input file.now }
{
    file == "-"
}

/// Returns how many of these names of files mean standard input (`-`).
fn count_standard_inputs(files: &[&str]) -> usize
    ensures { result ≡ count_by is_standard_input (map (λ file. file.now) files.now) }
{
    files.iter().filter(|file| is_standard_input(file)).count()
}

/// Returns the want of a `merge` of these files. Fails with `TooManyFiles` if there are more than
/// 64, and with `InputTwice` if more than one of them is standard input.
fn merge_of<'a>(files: &[&str]) -> Result<Want, UseFault<'a>>
    ensures { GivesWant (want_of (merge_command files.now)) result }
{
    if files.len() > MAX_FILES {
        return Err(UseFault::TooManyFiles);
    }
    if count_standard_inputs(files) > 1 {
        return Err(UseFault::InputTwice);
    }
    Ok(Want::Merge)
}

/// Returns what this command with its arguments asks for, with copies of its names. Fails with the
/// first fault of the arguments, or if memory runs out.
pub fn want_of<'a>(alloc: Global, words: Words<'_, 'a>) -> Result<Want, UseFault<'a>>
    ensures { GivesWant (want_of (words_command words.entry)) result }
{
    Ok(match words {
        Words::Check => Want::Check,
        Words::List => Want::List,
        Words::Pick(names) => Want::Pick(copied(alloc, names)?),
        Words::Cut(from, to) => cut_of(from, to)?,
        Words::Sample(at, names) => sample_of(alloc, at, names)?,
        Words::Edges(names) => Want::Edges(copied_some(alloc, names)?),
        Words::Merge(files) => merge_of(files)?,
    })
}
