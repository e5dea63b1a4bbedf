//! What a parsed command line without commands has for an option.
ghost use Rattle.std.specs.Prelude.{◌≡◌, option_map};
ghost use Rattle.vcd_words.specs.Names.{file_asked, is_set, texts_of, word_of, words_of};

use clap::ArgMatches;

/// Returns the first value of the argument `id` in a parsed command line. `None` if it has none.
pub fn word_of<'a>(matches: &ArgMatches<'a>, id: &str) -> Option<&'a str>
    ensures { option_map (λ word. word.now) result ≡ word_of matches.now id.now }
{
    matches.get_str(id)
}

/// Returns all values of the argument `id` in a parsed command line. `None` if it has none.
pub fn words_of<'m, 'a>(matches: &'m ArgMatches<'a>, id: &str) -> Option<&'m [&'a str]>
    ensures { texts_of result ≡ words_of matches.now id.now }
{
    matches.get_strs(id)
}

/// Returns whether a parsed command line has the option `id`, which has no value.
pub fn is_set(matches: &ArgMatches<'_>, id: &str) -> bool
    ensures { result ≡ is_set matches.now id.now }
{
    match word_of(matches, id) {
        Some(word) => word == "true",
        None => false,
    }
}

/// Returns the input file that a parsed command line names. `None` if it names no file, which means
/// standard input; the word `-` means it too.
pub fn file_of<'a>(matches: &ArgMatches<'a>) -> Option<&'a str>
    ensures { option_map (λ name. name.now) result ≡ file_asked matches.now }
{
    word_of(matches, "input")
}
