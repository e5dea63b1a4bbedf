// Tokens of a body, one after the other.
ghost use Rattle.std.specs.Prelude.{◌≡◌, ◌-◌, ◌^◌, ◌<◌, IfOk, true};
ghost use Rattle.vcd_body.specs.Names.{Advances, GoesFurther, NeedsOneToken, ReadsInner, ReadsToken, TakesToken, Token, call_end, seen, source_of, value_of};

use crate::fault::BodyFault;
use vcd_text::{Feed, Halt, Next, Source};

/// Reads the next token, and returns whether there was one: false at the end of the input. Fails if
/// a read fails, or if the token or the input is too long.
#[inline(always)]
pub(crate) fn next_token<S: Source>(feed: &mut Feed<'_, '_, '_, '_, S>) -> Result<bool, BodyFault>
    requires { S.failures (source_of feed.old) < 2 ^ 64 - 1 }
    ensures reads { ReadsToken feed.old feed.new result }
    ensures ahead { TakesToken feed.old feed.new result }
    ensures advances { Advances S.failures feed.old feed.new (call_end result) }
    ensures progress { IfOk result (λ more. more ≡ true → seen feed.old < seen feed.new) }
    ensures bounded { seen feed.new < 2 ^ 63 }
    ensures value { value_of feed.new ≡ value_of feed.old }
{
    match feed.next() {
        Ok(Next::Token) => Ok(true),
        Ok(Next::Finish) => Ok(false),
        Err(Halt::TokenTooLong) => Err(BodyFault::TokenTooLong),
        Err(Halt::InputTooLong) => Err(BodyFault::InputTooLong),
        Err(Halt::ReadFailed) => Err(BodyFault::ReadFailed),
    }
}

/// Reads the next token of a phrase that has begun. Fails with `EndOfInput` if there is none, and
/// if a read fails, or if the token or the input is too long.
#[inline(always)]
pub(crate) fn next_inner<S: Source>(feed: &mut Feed<'_, '_, '_, '_, S>) -> Result<(), BodyFault>
    requires { S.failures (source_of feed.old) < 2 ^ 64 - 1 }
    ensures reads { ReadsInner feed.old feed.new result }
    ensures ahead { NeedsOneToken feed.old feed.new }
    ensures goes { GoesFurther S.failures feed.old feed.new (call_end result) result }
    ensures value { value_of feed.new ≡ value_of feed.old }
{
    if next_token(feed)? {
        return Ok(());
    }
    Err(BodyFault::EndOfInput)
}
