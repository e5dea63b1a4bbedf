// Times on the command line, and their ticks.
use crate::command::Command;
use crate::number::{number_of, power_of_ten};
use crate::refusal::Refusal;
use crate::scale::{Scale, split_digits, unit_of};
use std::alloc::{AllocError, Global};

// How many digits a time may have.
const MAX_DIGITS: usize = 20;

// A number of ticks, or of a unit, which is a power of ten in femtoseconds.
#[derive(Clone, Copy)]
pub(crate) struct Moment {
    number: u64,
    unit: Option<u8>,
}

fn moment_of<'a>(word: &'a [u8]) -> Result<Moment, Refusal<'a>> {
    let (digits, unit) = split_digits(word);
    match (number_of(digits), unit_of(unit)) {
        _ if digits.len() > MAX_DIGITS => Err(Refusal::BadTime(word)),
        (Some(number), None) if unit.is_empty() => Ok(Moment { number, unit: None }),
        (Some(number), Some(exponent)) => Ok(Moment {
            number,
            unit: Some(exponent),
        }),
        _ => Err(Refusal::BadTime(word)),
    }
}

// Returns the times of a cut or of a sample, in the order of the arguments.
fn words_to_moments<'a>(alloc: Global, command: Command<'a>) -> Result<Vec<Moment>, Refusal<'a>> {
    let mut moments = Vec::new(alloc);
    match command {
        Command::Cut { from, to } => {
            moments.push(moment_of(from.as_bytes())?)?;
            moments.push(moment_of(to.as_bytes())?)?;
        }
        Command::Sample { times, .. } => {
            for word in times.as_bytes().split(|byte| *byte == b',') {
                moments.push(moment_of(word)?)?;
            }
        }
        _ => {}
    }
    Ok(moments)
}

fn have_units(moments: &[Moment]) -> bool {
    moments.iter().any(|moment| moment.unit.is_some())
}

// Returns whether each time is above the one before it.
fn do_rise(times: &[u64]) -> bool {
    times
        .iter()
        .zip(times.iter().skip(1))
        .all(|(earlier, later)| *earlier < *later)
}

// Fails if the times are not in order.
fn check_order<'a>(command: Command<'a>, times: &[u64]) -> Result<(), Refusal<'a>> {
    match (command, times) {
        (Command::Cut { .. }, [from, to]) if to < from => Err(Refusal::FromAboveTo),
        (Command::Sample { .. }, _) if !do_rise(times) => Err(Refusal::NotRising),
        _ => Ok(()),
    }
}

fn numbers_of(alloc: Global, moments: &[Moment]) -> Result<Vec<u64>, AllocError> {
    let mut numbers = Vec::new(alloc);
    for moment in moments {
        numbers.push(moment.number)?;
    }
    Ok(numbers)
}

// Returns the times of a command. Fails if none of them has a unit and they are not in order.
pub(crate) fn moments_of<'a>(
    alloc: Global,
    command: Command<'a>,
) -> Result<Vec<Moment>, Refusal<'a>> {
    let moments = words_to_moments(alloc, command)?;
    if !have_units(moments.as_slice()) {
        let numbers = numbers_of(alloc, moments.as_slice())?;
        check_order(command, numbers.as_slice())?;
    }
    Ok(moments)
}

// Returns this many of a unit in ticks of a scale: the first tick that is not earlier, or the last
// one that is not later.
fn ticks_in(number: u64, unit: u8, scale: Scale, up: bool) -> Option<u64> {
    let factor = power_of_ten(unit.saturating_sub(scale.exponent));
    let divisor = power_of_ten(scale.exponent.saturating_sub(unit));
    let whole = number.checked_div(divisor)?;
    let rest = number.checked_rem(divisor)?;
    let ticks = whole.checked_mul(factor)?;
    if up && rest > 0 {
        ticks.checked_add(1)
    } else {
        Some(ticks)
    }
}

fn ticks_of<'a>(
    moment: Moment,
    scale: Option<Scale>,
    up: bool,
    name: &'a str,
) -> Result<u64, Refusal<'a>> {
    match (moment.unit, scale) {
        (None, _) => Ok(moment.number),
        (Some(_), None) => Err(Refusal::NoScale(name)),
        (Some(unit), Some(scale)) => match ticks_in(moment.number, unit, scale, up) {
            Some(ticks) => Ok(ticks),
            None => Err(Refusal::OutOfRange),
        },
    }
}

// Returns the times in ticks of the input of this name, in order. Without a scale, the first time
// with a unit is refused before one that is out of range.
pub(crate) fn times_of<'a>(
    alloc: Global,
    command: Command<'a>,
    moments: &[Moment],
    scale: Option<Scale>,
    name: &'a str,
) -> Result<Vec<u64>, Refusal<'a>> {
    let mut times = Vec::new(alloc);
    for (place, moment) in moments.iter().enumerate() {
        let up = place == 0 && matches!(command, Command::Cut { .. });
        times.push(ticks_of(*moment, scale, up, name)?)?;
    }
    check_order(command, times.as_slice())?;
    Ok(times)
}
