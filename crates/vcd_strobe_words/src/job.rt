//! What a command line asks for, or why it asks for nothing.
ghost use Rattle.vcd_strobe_words.specs.Names.{Asks};

use crate::clocks::{add_clocks, check_clocks};
use crate::limit::limit_of;
use crate::strobing::Strobing;
use clap::ArgMatches;
use std::alloc::Global;
use vcd_words::{UseFault, copied_some, word_of, words_of};

/// Returns what a parsed command line asks for, with copies of its names. Fails with the first
/// fault of the words, or if memory runs out. It takes no memory before the words were checked.
pub fn job_of<'a>(alloc: Global, matches: &ArgMatches<'a>) -> Result<Strobing, UseFault<'a>>
    ensures { Asks matches.now result }
{
    let rises = words_of(matches, "rise");
    let falls = words_of(matches, "fall");
    check_clocks(rises, falls)?;
    let limit = limit_of(word_of(matches, "token-limit"))?;
    let mut clocks = Vec::new(alloc);
    add_clocks(alloc, rises, false, &mut clocks)?;
    add_clocks(alloc, falls, true, &mut clocks)?;
    let names = copied_some(alloc, words_of(matches, "names"))?;
    Ok(Strobing {
        clocks,
        names,
        limit,
    })
}
