//! The arguments of a command line, from bytes.
ghost use Rattle.std.specs.Prelude.{◌≡◌, ◌∷◌, ◌++◌, [], codes, map, string_bytes, IfErr, IfOk, OnOk};
ghost use Rattle.vcdkit_c.specs.Names.{bytes_of, HasNoText, Refused};

use crate::lent::Lent;
use std::alloc::{AllocError, Global};
use std::str;

/// Why there are no arguments.
#[derive(Clone, Copy)]
pub(crate) enum Refused {
    /// One of them is not UTF-8.
    BadWords,
    /// Memory ran out.
    OutOfMemory,
}

impl From<AllocError> for Refused {
    ghost from_gives = { λ _ refused. refused ≡ Refused.OutOfMemory };

    /// Returns `OutOfMemory`.
    fn from(_error: AllocError) -> Refused {
        Refused::OutOfMemory
    }
}

/// Appends a copy of `word` to `all`. Fails if memory runs out; then `all` does not change.
fn push(alloc: Global, word: &str, all: &mut Vec<String>) -> Result<(), AllocError>
    ensures { OnOk result (map string_bytes all.new.items
        ≡ map string_bytes all.old.items ++ word.now ∷ []) }
{
    Ok(all.push(String::from_str(alloc, word)?)?)
}

/// Returns the words of a command line: the program's name, and then copies of these arguments.
/// Fails if one of them is not UTF-8, or if memory runs out.
pub(crate) fn words_of(alloc: Global, words: &[Lent<'_>]) -> Result<Vec<String>, Refused>
    ensures words { IfOk result (λ all. map string_bytes all.items
        ≡ codes "vcdkit" ∷ map bytes_of words.now) }
    ensures refused { IfErr result (HasNoText (map bytes_of words.now)) }
{
    let mut all = Vec::new(alloc);
    push(alloc, "vcdkit", &mut all)?;
    for word in words {
        let Ok(text) = str::from_utf8(word.bytes) else {
            return Err(Refused::BadWords);
        };
        push(alloc, text, &mut all)?;
    }
    Ok(all)
}
