//! Which inputs words ask for.
ghost use Rattle.std.specs.Prelude.{◌≡◌, IfOk, map, option_and_then};
ghost use Rattle.vcd_host.specs.Names.{input_asked, input_named, inputs_for, text_of};

use clap::ArgMatches;
use std::alloc::{AllocError, Global};
use vcd_words::{files_of, input_of, is_standard_input};

/// Returns the name of a file on the command line as the name of an input: `None` for `-`, which is
/// standard input.
fn input_named(word: &str) -> Option<&str>
    ensures { text_of result ≡ input_named word.now }
{
    if is_standard_input(word) {
        return None;
    }
    Some(word)
}

/// Returns the name of the input of a parsed command line whose command has only one. `None` if it
/// is standard input: if no file is named, or the file `-`.
fn only_input<'a>(matches: &ArgMatches<'a>) -> Option<&'a str>
    ensures { text_of result ≡ option_and_then input_named (input_asked matches.now) }
{
    input_named(input_of(matches)?)
}

/// Returns the names of the inputs of a parsed command line: of all files of a merge if `merge` is
/// true, otherwise of the only input. `None` in the list is standard input. Without files a merge
/// has no inputs. Fails if memory runs out.
pub fn inputs_of<'a>(
    alloc: Global,
    merge: bool,
    matches: &ArgMatches<'a>,
) -> Result<Vec<Option<&'a str>>, AllocError>
    ensures { IfOk result (λ inputs. map text_of inputs.items ≡ inputs_for merge matches.now) }
{
    let mut inputs = Vec::new(alloc);
    if !merge {
        inputs.push(only_input(matches))?;
        return Ok(inputs);
    }
    let Some(files) = files_of(matches) else {
        return Ok(inputs);
    };
    for file in files {
        inputs.push(input_named(file))?;
    }
    Ok(inputs)
}
