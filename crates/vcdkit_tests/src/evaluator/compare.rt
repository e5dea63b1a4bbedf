// Whether `run` and the evaluator leave the same for each part that an input begins with.
ghost use Rattle.std.specs.Prelude.{◌≤◌};

use super::again::{is_merge_read_again, is_read_again, say};
use super::product::{LIMIT, run_one, run_two};
use std::alloc::{AllocError, Global};
use vcd_evaluator::{Command, Input, Left, evaluate};

fn are_same(one: &Left, other: &Left) -> bool {
    one.output.as_slice() == other.output.as_slice()
        && one.message.as_slice() == other.message.as_slice()
        && one.status == other.status
}

// A command over a text, read by chunks of this many bytes, ends with exactly this.
fn is_left(
    alloc: Global,
    command: Command<'_>,
    text: &[u8],
    chunk: usize,
    said: &Left,
) -> Result<bool, AllocError>
    requires { (1 ≤ chunk) × (chunk ≤ 65536) }
{
    Ok(are_same(&run_one(alloc, command, text, chunk)?, said))
}

// A command over a text ends with what the evaluator says, read byte by byte and in one read, and
// what it writes is read again.
fn is_right(alloc: Global, command: Command<'_>, text: &[u8]) -> Result<bool, AllocError> {
    let said = say(alloc, command, text)?;
    Ok(
        is_left(alloc, command, text, 1, &said)?
            && is_left(alloc, command, text, 65_536, &said)?
            && is_read_again(alloc, command, text, &said)?,
    )
}

// The smallest size at which the text, cut off, is not right.
pub(crate) fn first_wrong(
    alloc: Global,
    command: Command<'_>,
    text: &[u8],
) -> Result<Option<usize>, AllocError> {
    for size in 0..=text.len() {
        if !is_right(alloc, command, &text[..size])? {
            return Ok(Some(size));
        }
    }
    Ok(None)
}

// What the evaluator says of a merge.
fn say_merged(alloc: Global, first: &[u8], second: &[u8]) -> Result<Left, AllocError> {
    let inputs = [
        Input {
            name: "a.vcd",
            bytes: first,
            fails: false,
        },
        Input {
            name: "b.vcd",
            bytes: second,
            fails: false,
        },
    ];
    evaluate(alloc, Command::Merge, LIMIT, inputs.as_slice())
}

// A merge, read by chunks of this many bytes, ends with exactly this.
fn is_left_merged(
    alloc: Global,
    first: &[u8],
    second: &[u8],
    chunk: usize,
    said: &Left,
) -> Result<bool, AllocError>
    requires { (1 ≤ chunk) × (chunk ≤ 65536) }
{
    Ok(are_same(&run_two(alloc, first, second, chunk)?, said))
}

// A merge ends with what the evaluator says, and what it writes is read again.
fn is_merged(alloc: Global, first: &[u8], second: &[u8]) -> Result<bool, AllocError> {
    let said = say_merged(alloc, first, second)?;
    Ok(
        is_left_merged(alloc, first, second, 1, &said)?
            && is_left_merged(alloc, first, second, 65_536, &said)?
            && is_merge_read_again(alloc, first, second, &said)?,
    )
}

// The smallest size at which the first input of a merge, cut off, is not right.
pub(crate) fn first_wrong_of_first(
    alloc: Global,
    first: &[u8],
    second: &[u8],
) -> Result<Option<usize>, AllocError> {
    for size in 0..=first.len() {
        if !is_merged(alloc, &first[..size], second)? {
            return Ok(Some(size));
        }
    }
    Ok(None)
}

// The smallest size at which the second input of a merge, cut off, is not right.
pub(crate) fn first_wrong_of_second(
    alloc: Global,
    first: &[u8],
    second: &[u8],
) -> Result<Option<usize>, AllocError> {
    for size in 0..=second.len() {
        if !is_merged(alloc, first, &second[..size])? {
            return Ok(Some(size));
        }
    }
    Ok(None)
}
