//! The clocks that words name.
ghost use Rattle.std.specs.Prelude.{◌≡◌, ◌++◌, IfOk, OnOk, Ok, IfErr, length, map};
ghost use Rattle.vcd_strobe_words.specs.Names.{clock_asked, clocks_asked, clocks_or_fault, HasFault, model_name, place_asked, some_names};

use std::alloc::{AllocError, Global};
use vcd_strobe::ClockName;
use vcd_words::{UseFault, number_of};

/// How many clocks a strobe may have.
const MAX_CLOCKS: usize = 64;

/// Returns how many words there are; 0 if `words` is `None`.
fn count_of(words: Option<&[&str]>) -> usize
    ensures { result ≡ length (some_names words.entry) }
{
    words.map_or(0, |words| words.len())
}

/// Checks how many clocks words name, at their rising edges and at their falling ones. Fails if
/// there is none, or if there are more than 64.
pub(crate) fn check_clocks<'a>(
    rises: Option<&[&'a str]>,
    falls: Option<&[&'a str]>,
) -> Result<(), UseFault<'a>>
    ensures clocks { let asked = clocks_asked (some_names rises.entry) (some_names falls.entry) in
        OnOk result (clocks_or_fault asked ≡ Ok asked) }
    ensures fault { IfErr result (λ fault. HasFault fault
        (clocks_or_fault (clocks_asked (some_names rises.entry) (some_names falls.entry)))) }
{
    let rises = count_of(rises);
    let falls = count_of(falls);
    if rises == 0 && falls == 0 {
        return Err(UseFault::BadArgument("no clock: write --rise CLOCK or --fall CLOCK", ""));
    }
    if MAX_CLOCKS < rises || MAX_CLOCKS - rises < falls {
        return Err(UseFault::BadArgument("more than 64 clocks", ""));
    }
    Ok(())
}

/// Returns the path and the place of a bit that a word `PATH@PLACE` has, where PLACE is a number
/// below 2^64 in 1 to 20 digits; its last `@` ends the path. Any other word is a path without a
/// place.
fn path_and_place(word: &str) -> (&str, Option<u64>)
    ensures { (result.0.now, result.1) ≡ place_asked word.now }
{
    let Some((path, digits)) = word.rsplit_once('@') else {
        return (word, None);
    };
    match number_of(digits.as_bytes()) {
        Some(place) => (path, Some(place)),
        None => (word, None),
    }
}

/// Returns the clock that a word names, whose falling edges count if `falls` is set. Fails if
/// memory runs out.
fn clock_name(alloc: Global, word: &str, falls: bool) -> Result<ClockName, AllocError>
    ensures { IfOk result (λ name. model_name name ≡ clock_asked falls word.now) }
{
    let (path, place) = path_and_place(word);
    Ok(ClockName {
        word: String::from_str(alloc, word)?,
        path: String::from_str(alloc, path)?,
        place,
        falls,
    })
}

/// Adds the clocks that words name; none if `words` is `None`. Fails if memory runs out.
pub(crate) fn add_clocks(
    alloc: Global,
    words: Option<&[&str]>,
    falls: bool,
    clocks: &mut Vec<ClockName>,
) -> Result<(), AllocError>
    ensures { OnOk result (map model_name clocks.new.items
        ≡ map model_name clocks.old.items ++ map (clock_asked falls) (some_names words.entry)) }
{
    let Some(words) = words else {
        return Ok(());
    };
    for word in words {
        clocks.push(clock_name(alloc, *word, falls)?)?;
    }
    Ok(())
}
