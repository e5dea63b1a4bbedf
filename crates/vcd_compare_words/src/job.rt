//! What a command line asks for, or why it asks for nothing.
ghost use Rattle.std.specs.Prelude.{◌≡◌, Ok, IfErr, IfOk, [], codes, unwrap_or};
ghost use Rattle.vcd_compare_words.specs.Names.{Asks, asked_by, extent_of, HasFault, model_asked, model_extent, ticks_asked, word_of, words_of};

use crate::names::{check_names, copied_names, copied_words};
use clap::ArgMatches;
use std::alloc::Global;
use vcd_compare::{Asked, Extent, NamePair};
use vcd_words::{UseFault, is_set, number_of, word_of, words_of};

/// What is compared.
#[derive(Drop)]
pub struct Comparing {
    /// The names: a variable of the first is compared with one of the second.
    pub names: Vec<NamePair>,
    /// The names of what is left out.
    pub exceptions: Vec<Vec<u8>>,
    /// What is asked for besides.
    pub asked: Asked,
}

/// Returns the number of ticks that is the value of the option `id`. Fails with `BadWords` if it
/// has no value, and with `BadTime` if the value is not 1 to 20 digits below 2^64.
fn ticks_of<'a>(matches: &ArgMatches<'a>, id: &str) -> Result<u64, UseFault<'a>>
    ensures ticks { IfOk result (λ ticks. ticks_asked (word_of matches.now id.now) ≡ Ok ticks) }
    ensures fault { IfErr result (λ fault.
        HasFault fault (ticks_asked (word_of matches.now id.now))) }
{
    let Some(word) = word_of(matches, id) else {
        return Err(UseFault::BadWords);
    };
    number_of(word.as_bytes()).ok_or(UseFault::BadTime(word))
}

/// Returns which lines are asked for. Fails if both options are there.
fn extent_of<'a>(first: bool, always: bool) -> Result<Extent, UseFault<'a>>
    ensures extent { IfOk result (λ extent. extent_of first always ≡ Ok (model_extent extent)) }
    ensures fault { IfErr result (λ fault. HasFault fault (extent_of first always)) }
{
    match (first, always) {
        (true, true) => Err(UseFault::BadArgument("--first and --always exclude each other", "")),
        (true, false) => Ok(Extent::First),
        (false, true) => Ok(Extent::Always),
        (false, false) => Ok(Extent::EachPair),
    }
}

/// Returns what a parsed command line asks for besides the names. Fails if a time is no number, if
/// there is no time in the window, or if the options exclude each other.
fn asked_of<'a>(matches: &ArgMatches<'a>) -> Result<Asked, UseFault<'a>>
    ensures asked { IfOk result (λ asked. asked_by matches.now
        ≡ Ok (model_asked asked (unwrap_or (words_of matches.now (codes "except")) []))) }
    ensures fault { IfErr result (λ fault. HasFault fault (asked_by matches.now)) }
{
    let from = ticks_of(matches, "from")?;
    let to = ticks_of(matches, "to")?;
    if to < from {
        return Err(UseFault::FromAboveTo);
    }
    let extent = extent_of(is_set(matches, "first"), is_set(matches, "always"))?;
    Ok(Asked {
        from,
        to,
        x_of_one: is_set(matches, "x-of-a"),
        x_of_other: is_set(matches, "x-of-b"),
        extent,
    })
}

/// Returns what a parsed command line asks for, with copies of its names. Fails with the first
/// fault of the words, or if memory runs out. It takes no memory before the words were checked.
pub fn job_of<'a>(alloc: Global, matches: &ArgMatches<'a>) -> Result<Comparing, UseFault<'a>>
    ensures { Asks matches.now result }
{
    let asked = asked_of(matches)?;
    let Some(words) = words_of(matches, "names") else {
        return Err(UseFault::BadWords);
    };
    check_names(words)?;
    Ok(Comparing {
        names: copied_names(alloc, words)?,
        exceptions: copied_words(alloc, words_of(matches, "except"))?,
        asked,
    })
}
