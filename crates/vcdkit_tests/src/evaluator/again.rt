// What was written is read again, by the evaluator.
use super::product::LIMIT;
use std::alloc::{AllocError, Global};
use vcd_evaluator::{Command, Input, Left, evaluate};

// What the evaluator says of a command over a text.
pub(crate) fn say(alloc: Global, command: Command<'_>, text: &[u8]) -> Result<Left, AllocError> {
    let inputs = [Input {
        name: "(stdin)",
        bytes: text,
        fails: false,
    }];
    evaluate(alloc, command, LIMIT, inputs.as_slice())
}

// A text is a dump without a fault.
pub(crate) fn is_dump(alloc: Global, text: &[u8]) -> Result<bool, AllocError> {
    Ok(say(alloc, Command::Check, text)?.status == 0)
}

// One command over a text and another over a written one give the same, without a message.
fn agree(
    alloc: Global,
    (one, text): (Command<'_>, &[u8]),
    (other, written): (Command<'_>, &[u8]),
) -> Result<bool, AllocError> {
    let before = say(alloc, one, text)?;
    let after = say(alloc, other, written)?;
    Ok(
        before.status == 0
            && after.status == 0
            && before.output.as_slice() == after.output.as_slice(),
    )
}

// All values of a written text, at each of these times, are those that names select of the text
// that it was made of.
fn has_values(
    alloc: Global,
    times: &str,
    names: &[&str],
    text: &[u8],
    written: &[u8],
) -> Result<bool, AllocError> {
    let selected = Command::Sample { times, names };
    let all = Command::Sample { times, names: &[] };
    agree(alloc, (selected, text), (all, written))
}

// What a pick has written has the variables that its names select, their values and their changes.
fn is_picked(
    alloc: Global,
    names: &[&str],
    text: &[u8],
    written: &[u8],
) -> Result<bool, AllocError> {
    let selected = Command::Edges(names);
    let all = Command::Edges(&[]);
    Ok(
        agree(alloc, (selected, text), (all, written))?
            && has_values(alloc, "0,4,5,7", names, text, written)?,
    )
}

// What a cut has written has all declarations, and the values at its first and its last time.
fn is_cut(
    alloc: Global,
    (from, to): (&str, &str),
    text: &[u8],
    written: &[u8],
) -> Result<bool, AllocError> {
    Ok(
        agree(alloc, (Command::List, text), (Command::List, written))?
            && has_values(alloc, from, &[], text, written)?
            && has_values(alloc, to, &[], text, written)?,
    )
}

// If a command has written something over a text, that is a dump with the text's declarations and
// values.
pub(crate) fn is_read_again(
    alloc: Global,
    command: Command<'_>,
    text: &[u8],
    left: &Left,
) -> Result<bool, AllocError> {
    let written = left.output.as_slice();
    match command {
        _ if left.status != 0 => Ok(true),
        Command::Pick(names) => {
            Ok(is_dump(alloc, written)? && is_picked(alloc, names, text, written)?)
        }
        Command::Cut { from, to } => {
            Ok(is_dump(alloc, written)? && is_cut(alloc, (from, to), text, written)?)
        }
        _ => Ok(true),
    }
}

// A row of `list` without its last word, the code, which a merge assigns anew.
fn without_code(row: &[u8]) -> &[u8] {
    let end = row.iter().rposition(|byte| *byte == b' ').unwrap_or(0);
    &row[..end]
}

// A row of `sample` without its first word, the time, which a merge gives in ticks of its own.
fn without_time(row: &[u8]) -> &[u8] {
    let begin = row.iter().position(|byte| *byte == b' ').unwrap_or(0);
    &row[begin..]
}

// The rows of two lists have the same paths, types and sizes, in order.
fn have_same_variables(rows: &[u8], others: &[u8]) -> bool {
    let variables = rows.split(|byte| *byte == b'\n').map(without_code);
    variables.eq(others.split(|byte| *byte == b'\n').map(without_code))
}

// The rows of two samples have the same paths and values, in order.
fn have_same_values(rows: &[u8], others: &[u8]) -> bool {
    let values = rows.split(|byte| *byte == b'\n').map(without_time);
    values.eq(others.split(|byte| *byte == b'\n').map(without_time))
}

// A text inside a scope of its own, as a merge has it.
fn inside(alloc: Global, scope: &str, text: &[u8]) -> Result<Vec<u8>, AllocError> {
    let mut inside = Vec::new(alloc);
    inside.extend_from_slice(b"$scope module ")?;
    inside.extend_from_slice(scope.as_bytes())?;
    inside.extend_from_slice(b" $end\n")?;
    inside.extend_from_slice(text)?;
    Ok(inside)
}

// What a merge has written has the variables of both texts, those of the first before those of the
// second.
fn has_variables(
    alloc: Global,
    first: &[u8],
    second: &[u8],
    written: &[u8],
) -> Result<bool, AllocError> {
    let mut rows = say(alloc, Command::List, first)?.output;
    rows.extend_from_slice(say(alloc, Command::List, second)?.output.as_slice())?;
    let listed = say(alloc, Command::List, written)?;
    Ok(have_same_variables(rows.as_slice(), listed.output.as_slice()))
}

// What a merge has written has the changes of a text inside this scope, and its values.
fn has_input(alloc: Global, scope: &str, text: &[u8], written: &[u8]) -> Result<bool, AllocError> {
    let names = [scope];
    let names = names.as_slice();
    let times = "0ns,1ns,2ns,4ns,5ns,6ns";
    let before = say(alloc, Command::Sample { times, names: &[] }, text)?;
    let after = say(alloc, Command::Sample { times, names }, written)?;
    Ok(
        agree(
            alloc,
            (Command::Edges(&[]), text),
            (Command::Edges(names), written),
        )? && before.status == 0
            && after.status == 0
            && have_same_values(before.output.as_slice(), after.output.as_slice()),
    )
}

// If a merge of two texts has written something, that is a dump with the variables, the changes and
// the values of both.
pub(crate) fn is_merge_read_again(
    alloc: Global,
    first: &[u8],
    second: &[u8],
    left: &Left,
) -> Result<bool, AllocError> {
    let written = left.output.as_slice();
    if left.status != 0 {
        return Ok(true);
    }
    let first = inside(alloc, "in1", first)?;
    let second = inside(alloc, "in2", second)?;
    let (first, second) = (first.as_slice(), second.as_slice());
    Ok(
        is_dump(alloc, written)?
            && has_variables(alloc, first, second, written)?
            && has_input(alloc, "in1", first, written)?
            && has_input(alloc, "in2", second, written)?,
    )
}
