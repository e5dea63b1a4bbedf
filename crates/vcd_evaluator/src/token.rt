// The tokens of an input, with their lines.
use crate::fault::{Fault, Wrong};

#[derive(Clone, Copy)]
pub(crate) struct Token<'t> {
    pub(crate) text: &'t [u8],
    // How many bytes come before it.
    pub(crate) start: usize,
    // 1 plus the line feeds before its first byte.
    pub(crate) line: u64,
}

impl<'t> Token<'t> {
    pub(crate) fn is(&self, word: &[u8]) -> bool {
        self.text == word
    }

    // Returns the first byte, and those after it.
    pub(crate) fn parts(&self) -> Option<(u8, &'t [u8])> {
        let (first, rest) = self.text.split_first()?;
        Some((*first, rest))
    }

    // Returns the fault that this is wrong at the token.
    pub(crate) fn fault(&self, wrong: Wrong) -> Fault {
        Fault {
            wrong,
            line: self.line,
        }
    }

    // Fails with this fault at the token unless the check holds.
    pub(crate) fn check(&self, holds: bool, wrong: Wrong) -> Result<(), Fault> {
        if holds {
            Ok(())
        } else {
            Err(self.fault(wrong))
        }
    }
}

// Returns whether a byte is white space: space, tab, line feed, vertical tab, form feed or carriage
// return.
pub(crate) fn is_white(byte: u8) -> bool {
    byte == b' ' || (9..=13).contains(&byte)
}

// Returns the bytes before the first one that is white, or is not, and the rest.
pub(crate) fn split_before(bytes: &[u8], white: bool) -> (&[u8], &[u8]) {
    match bytes.iter().position(|byte| is_white(*byte) == white) {
        Some(place) => bytes.split_at(place),
        None => bytes.split_at(bytes.len()),
    }
}

// Returns how many line feeds there are.
pub(crate) fn feeds_in(bytes: &[u8]) -> u64 {
    let mut feeds: u64 = 0;
    for byte in bytes {
        if *byte == b'\n' {
            feeds = feeds.saturating_add(1);
        }
    }
    feeds
}
