//! The token limit that words ask for.
ghost use Rattle.std.specs.Prelude.{◌≡◌, ◌≤◌, IfErr, IfOk, Ok, Some, None, cond};
ghost use Rattle.vcd_strobe_words.specs.Names.{decimal_value, HasFault, is_limit, limit_asked, text_of};

use vcd_words::{UseFault, number_of};

/// How long a token may be if no word says so, in bytes.
const DEFAULT_LIMIT: usize = 1_048_576;

// The least and the greatest token limit.
const LEAST_LIMIT: u64 = 64;

const MAX_LIMIT: u64 = 16_777_216;

/// Returns the token limit, in bytes, that a word spells. `None` if it spells none.
fn limit_in(word: &str) -> Option<usize>
    ensures { result ≡ cond (is_limit word.now) (Some (decimal_value word.now)) None }
{
    let limit = number_of(word.as_bytes())?;
    if limit < LEAST_LIMIT || MAX_LIMIT < limit {
        return None;
    }
    Some(limit as usize)
}

/// Returns the token limit, in bytes, that the value of `--token-limit` asks for, or 1,048,576 if
/// there is none. Fails with `BadLimit` if the word spells none.
pub(crate) fn limit_of<'a>(word: Option<&'a str>) -> Result<usize, UseFault<'a>>
    ensures limit { IfOk result (λ limit. limit_asked (text_of word.entry) ≡ Ok limit) }
    ensures range { IfOk result (λ limit. (64 ≤ limit) × (limit ≤ 16777216)) }
    ensures fault { IfErr result (λ fault. HasFault fault (limit_asked (text_of word.entry))) }
{
    match word {
        None => Ok(DEFAULT_LIMIT),
        Some(text) => limit_in(text).ok_or(UseFault::BadLimit(text)),
    }
}
