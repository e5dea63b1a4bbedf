// Why a run writes a message, and no output but what it wrote before.
use crate::command::Left;
use crate::fault::{Fault, Wrong};
use crate::text::Text;
use std::alloc::{AllocError, AllocFailed, Global};

#[derive(Clone, Copy)]
pub(crate) enum Refusal<'a> {
    // A fault of the input of this name.
    Fault(&'a str, Fault),
    // A name that selects nothing.
    Unmatched(&'a str),
    // A word that is no time.
    BadTime(&'a [u8]),
    FromAboveTo,
    NotRising,
    // A time has a unit, and the input of this name has no time scale.
    NoScale(&'a str),
    OutOfRange,
    NoMemory,
}

impl<'a> From<AllocError> for Refusal<'a> {
    fn from(_error: AllocError) -> Refusal<'a> {
        Refusal::NoMemory
    }
}

impl<'a, T: Drop> From<AllocFailed<T>> for Refusal<'a> {
    fn from(_error: AllocFailed<T>) -> Refusal<'a> {
        Refusal::NoMemory
    }
}

fn put_fault(text: &mut Text, name: &str, fault: Fault) {
    text.put(name.as_bytes());
    if !is_failed_read(fault) {
        text.put(b":");
        text.put_number(fault.line);
    }
    text.put(b": ");
    text.put(fault.wrong.text().as_bytes());
}

fn is_failed_read(fault: Fault) -> bool {
    matches!(fault.wrong, Wrong::ReadFailed)
}

fn put_reason(text: &mut Text, refusal: Refusal<'_>) {
    match refusal {
        Refusal::Fault(name, fault) => put_fault(text, name, fault),
        Refusal::Unmatched(name) => {
            text.put(name.as_bytes());
            text.put(b": selects nothing");
        }
        Refusal::BadTime(word) => {
            text.put(b"bad time: ");
            text.put(word);
        }
        Refusal::FromAboveTo => text.put(b"--from is above --to"),
        Refusal::NotRising => text.put(b"times must rise"),
        Refusal::NoScale(name) => {
            text.put(name.as_bytes());
            text.put(b": no timescale");
        }
        Refusal::OutOfRange => text.put(b"time out of range"),
        Refusal::NoMemory => text.put(b"out of memory"),
    }
}

fn status_of(refusal: Refusal<'_>) -> u8 {
    match refusal {
        Refusal::Fault(_, fault) if is_failed_read(fault) => 3,
        Refusal::Fault(..) | Refusal::Unmatched(_) | Refusal::NoScale(_) => 1,
        Refusal::NoMemory => 3,
        _ => 2,
    }
}

// Returns the outcome of a run that is refused after this output.
pub(crate) fn refused(
    alloc: Global,
    output: Text,
    refusal: Refusal<'_>,
) -> Result<Left, AllocError> {
    let mut message = Text::new(alloc);
    message.put(b"vcdkit: ");
    put_reason(&mut message, refusal);
    message.put(b"\n");
    left(output, message, status_of(refusal))
}

// Returns the outcome of a run that has ended well, or with a fault of the input of this name.
pub(crate) fn left_with(
    alloc: Global,
    output: Text,
    name: &str,
    fault: Option<Fault>,
) -> Result<Left, AllocError> {
    match fault {
        Some(fault) => refused(alloc, output, Refusal::Fault(name, fault)),
        None => left(output, Text::new(alloc), 0),
    }
}

fn left(output: Text, message: Text, status: u8) -> Result<Left, AllocError> {
    Ok(Left {
        output: output.finish()?,
        message: message.finish()?,
        status,
    })
}
