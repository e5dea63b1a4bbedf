// Tokens of a header, one after the other.
ghost use Rattle.std.specs.Prelude.{◌≡◌, ◌-◌, ◌^◌, ◌<◌, IfOk};
ghost use Rattle.vcd_head.specs.Names.{IsFound, MovesFurther, MovesOn, ReadsEnd, ReadsNext, ReadsWord, is_end, source_of, token_of, value_of};

use crate::fault::HeadFault;
use vcd_text::{Feed, Halt, Next, Source};

/// Reads the next token; `Feed::token` then returns it. Fails with `EndOfInput` if the input has
/// ended, with `TokenTooLong` or `InputTooLong`, and with `ReadFailed` if the source failed.
#[inline(always)]
pub(crate) fn next_token<S: Source>(feed: &mut Feed<'_, '_, '_, '_, S>) -> Result<(), HeadFault>
    requires { S.failures (source_of feed.old) < 2 ^ 64 - 1 }
    ensures reads { ReadsNext feed.old feed.new result }
    ensures value { value_of feed.new ≡ value_of feed.old }
    ensures goes { MovesFurther S.failures feed.old feed.new result }
{
    match feed.next() {
        Ok(Next::Token) => Ok(()),
        Ok(Next::Finish) => Err(HeadFault::EndOfInput),
        Err(Halt::TokenTooLong) => Err(HeadFault::TokenTooLong),
        Err(Halt::InputTooLong) => Err(HeadFault::InputTooLong),
        Err(Halt::ReadFailed) => Err(HeadFault::ReadFailed),
    }
}

/// Reads the next token, and returns whether it is `$end`. Fails as `next_token` does.
#[inline(always)]
pub(crate) fn next_ends<S: Source>(feed: &mut Feed<'_, '_, '_, '_, S>) -> Result<bool, HeadFault>
    requires { S.failures (source_of feed.old) < 2 ^ 64 - 1 }
    ensures reads { ReadsNext feed.old feed.new result }
    ensures end { IfOk result (λ ends. ends ≡ is_end (token_of feed.new).bytes) }
    ensures value { value_of feed.new ≡ value_of feed.old }
    ensures goes { MovesFurther S.failures feed.old feed.new result }
{
    next_token(feed)?;
    Ok(vcd_view::is_end(feed.token()))
}

/// Reads the next token, which must not be `$end`. Fails with `fault` if it is, and as `next_token`
/// does if none can be read. `fault` must not be `ReadFailed`.
#[inline(always)]
pub(crate) fn next_word<S: Source>(
    feed: &mut Feed<'_, '_, '_, '_, S>,
    fault: HeadFault,
) -> Result<(), HeadFault>
    requires failures { S.failures (source_of feed.old) < 2 ^ 64 - 1 }
    requires found { IsFound fault }
    ensures reads { ReadsWord fault feed.old feed.new result }
    ensures value { value_of feed.new ≡ value_of feed.old }
    ensures advances { MovesOn S.failures feed.old feed.new result }
{
    if next_ends(feed)? {
        return Err(fault);
    }
    Ok(())
}

/// Reads the next token, which has to be `$end`. Fails with `fault` if it is another one, and as
/// `next_token` does if none can be read. `fault` must not be `ReadFailed`.
#[inline(always)]
pub(crate) fn next_end<S: Source>(
    feed: &mut Feed<'_, '_, '_, '_, S>,
    fault: HeadFault,
) -> Result<(), HeadFault>
    requires failures { S.failures (source_of feed.old) < 2 ^ 64 - 1 }
    requires found { IsFound fault }
    ensures reads { ReadsEnd fault feed.old feed.new result }
    ensures advances { MovesOn S.failures feed.old feed.new result }
{
    if next_ends(feed)? {
        return Ok(());
    }
    Err(fault)
}
