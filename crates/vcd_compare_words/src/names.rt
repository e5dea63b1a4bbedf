//! The names of what is compared, and of what is not.
ghost use Rattle.std.specs.Prelude.{◌≡◌, ◌++◌, ◌∷◌, [], List, Ok, Some, IfErr, IfOk, OnOk, filter_map, option_map, unwrap_or};
ghost use Rattle.vcd_compare_words.specs.Names.{HasFault, Names, names_asked, names_in, names_of, some_names_asked, texts, texts_in, texts_of, two_names};

use std::alloc::{AllocError, Global};
use vcd_compare::NamePair;
use vcd_words::UseFault;

/// Returns the two names of the argument `X=Y`. `None` if it has no `=`, or if one name is empty.
fn two_names(word: &str) -> Option<(&str, &str)>
    ensures { option_map (λ two. (two.0.now, two.1.now)) result ≡ two_names word.now }
{
    let (one, other) = word.split_once('=')?;
    (!one.is_empty() && !other.is_empty()).then_some((one, other))
}

/// Checks an argument. Fails if it is not of the form `X=Y`, or if X is Y.
fn check_name<'a>(word: &'a str) -> Result<(), UseFault<'a>>
    ensures names { OnOk result ((n : Names) × (names_of word.entry.now ≡ Ok n)) }
    ensures fault { IfErr result (λ fault. HasFault fault (names_of word.entry.now)) }
{
    let Some((one, other)) = two_names(word) else {
        return Err(UseFault::BadArgument("not of the form X=Y: ", word));
    };
    if one == other {
        return Err(UseFault::BadArgument(one, ": is compared with itself"));
    }
    Ok(())
}

/// Checks arguments. Fails at the first that is not of the form `X=Y`, or of which X is Y. It takes
/// no memory.
fn check_each<'a>(words: &[&'a str]) -> Result<(), UseFault<'a>>
    ensures names { OnOk result ((ns : List Names) × (names_asked (texts words.now) ≡ Ok ns)) }
    ensures fault { IfErr result (λ fault. HasFault fault (names_asked (texts words.now))) }
{
    for word in words {
        check_name(*word)?;
    }
    Ok(())
}

/// Checks arguments, of which there has to be one, as `check_each` does.
pub(crate) fn check_names<'a>(words: &[&'a str]) -> Result<(), UseFault<'a>>
    ensures names { OnOk result ((ns : List Names)
        × (some_names_asked (Some (texts words.now)) ≡ Ok ns)
        × (names_asked (texts words.now) ≡ Ok ns)) }
    ensures fault { IfErr result (λ fault.
        HasFault fault (some_names_asked (Some (texts words.now)))) }
{
    if words.is_empty() {
        return Err(UseFault::BadWords);
    }
    check_each(words)
}

/// Returns a copy of the bytes of this text. Fails if memory runs out.
fn copy_of(alloc: Global, text: &str) -> Result<Vec<u8>, AllocError>
    ensures { IfOk result (λ copy. copy.items ≡ text.now) }
{
    Vec::from_slice(alloc, text.as_bytes())
}

/// Returns a copy of two names. Fails if memory runs out.
fn pair_of(alloc: Global, one: &str, other: &str) -> Result<NamePair, AllocError>
    ensures one { IfOk result (λ pair. pair.one.items ≡ one.now) }
    ensures other { IfOk result (λ pair. pair.other.items ≡ other.now) }
{
    Ok(NamePair {
        one: copy_of(alloc, one)?,
        other: copy_of(alloc, other)?,
    })
}

/// Adds copies of the names of an argument of the form `X=Y`. Adds nothing if it has another form.
/// Fails if memory runs out.
fn add_names(alloc: Global, word: &str, names: &mut Vec<NamePair>) -> Result<(), AllocError>
    ensures { OnOk result (names_in names.new.items
        ≡ names_in names.old.items ++ filter_map two_names (word.now ∷ [])) }
{
    let Some((one, other)) = two_names(word) else {
        return Ok(());
    };
    names.push(pair_of(alloc, one, other)?)?;
    Ok(())
}

/// Returns copies of the names of the arguments of the form `X=Y`. Fails if memory runs out.
pub(crate) fn copied_names(alloc: Global, words: &[&str]) -> Result<Vec<NamePair>, AllocError>
    ensures { IfOk result (λ names.
        names_in names.items ≡ filter_map two_names (texts words.now)) }
{
    let mut names = Vec::new(alloc);
    for word in words {
        add_names(alloc, *word, &mut names)?;
    }
    Ok(names)
}

/// Returns copies of these words. Fails if memory runs out.
fn copied(alloc: Global, words: &[&str]) -> Result<Vec<Vec<u8>>, AllocError>
    ensures { IfOk result (λ copies. texts_in copies.items ≡ texts words.now) }
{
    let mut copies = Vec::new(alloc);
    for word in words {
        copies.push(copy_of(alloc, *word)?)?;
    }
    Ok(copies)
}

/// Returns copies of these words; none if `words` is `None`. Fails if memory runs out.
pub(crate) fn copied_words(
    alloc: Global,
    words: Option<&[&str]>,
) -> Result<Vec<Vec<u8>>, AllocError>
    ensures { IfOk result (λ copies.
        texts_in copies.items ≡ unwrap_or (texts_of words.entry) []) }
{
    match words {
        Some(words) => copied(alloc, words),
        None => Ok(Vec::new(alloc)),
    }
}
