// The tokens of an input, and the reading of them in order.
use crate::command::Input;
use crate::fault::{Fault, Wrong};
use crate::token::{Token, feeds_in, split_before};
use std::alloc::{AllocError, Global};

#[derive(Drop)]
pub(crate) struct Reader<'t> {
    bytes: &'t [u8],
    tokens: Vec<Token<'t>>,
    // How many tokens were taken.
    place: usize,
    // The fault of one more token that is asked for after all of them.
    pub(crate) ending: Fault,
}

// Returns the fault of a token that is asked for after all that an input has.
fn end_of(input: &Input<'_>) -> Fault {
    let line = feeds_in(input.bytes).saturating_add(1);
    let wrong = if input.fails {
        Wrong::ReadFailed
    } else {
        Wrong::EndOfInput
    };
    Fault { wrong, line }
}

// Returns the token that comes first in `rest`, the last of some bytes, and what follows it. `line`
// is the line of the first byte of `rest`.
fn split_token<'t>(bytes: &'t [u8], rest: &'t [u8], line: u64) -> (Token<'t>, &'t [u8]) {
    let (white, from_token) = split_before(rest, false);
    let (text, after) = split_before(from_token, true);
    let token = Token {
        text,
        start: bytes.len().saturating_sub(from_token.len()),
        line: line.saturating_add(feeds_in(white)),
    };
    (token, after)
}

impl<'t> Reader<'t> {
    // Returns a reader of the tokens of an input, with a token limit.
    pub(crate) fn new(
        alloc: Global,
        input: &Input<'t>,
        limit: usize,
    ) -> Result<Reader<'t>, AllocError> {
        let mut tokens = Vec::new(alloc);
        let mut ending = end_of(input);
        let mut rest = input.bytes;
        let mut line: u64 = 1;
        for _ in 0..input.bytes.len() {
            let (token, after) = split_token(input.bytes, rest, line);
            if token.text.len() > limit {
                ending = token.fault(Wrong::TokenTooLong);
                break;
            }
            if token.text.is_empty() || input.fails && after.is_empty() {
                break;
            }
            tokens.push(token)?;
            rest = after;
            line = token.line;
        }
        Ok(Reader {
            bytes: input.bytes,
            tokens,
            place: 0,
            ending,
        })
    }

    // Returns how many tokens there are.
    pub(crate) fn len(&self) -> usize {
        self.tokens.len()
    }

    // Returns the next token, and does not take it.
    pub(crate) fn peek(&self) -> Result<Token<'t>, Fault> {
        match self.tokens.as_slice().get(self.place) {
            Some(token) => Ok(*token),
            None => Err(self.ending),
        }
    }

    // Takes the next token. Fails if there is none.
    pub(crate) fn need(&mut self) -> Result<Token<'t>, Fault> {
        let token = self.peek()?;
        self.place = self.place.saturating_add(1);
        Ok(token)
    }

    // Takes the next token; `None` at the end of the input.
    pub(crate) fn next(&mut self) -> Result<Option<Token<'t>>, Fault> {
        match self.need() {
            Ok(token) => Ok(Some(token)),
            Err(fault) => match fault.wrong {
                Wrong::EndOfInput => Ok(None),
                _ => Err(fault),
            },
        }
    }

    // Takes the tokens up to the first `$end`, and returns the bytes from the first of them to the
    // last before that `$end`.
    pub(crate) fn need_words(&mut self) -> Result<&'t [u8], Fault> {
        let start = self.peek()?.start;
        let mut end = start;
        for _ in 0..self.tokens.len() {
            let token = self.need()?;
            if token.is(b"$end") {
                break;
            }
            end = token.start.saturating_add(token.text.len());
        }
        Ok(self.bytes.get(start..end).unwrap_or(b""))
    }

    // Takes a token. Fails if it is not `$end`.
    pub(crate) fn need_end(&mut self, wrong: Wrong) -> Result<(), Fault> {
        let token = self.need()?;
        token.check(token.is(b"$end"), wrong)
    }

    // Takes a token. Fails if it is `$end`.
    pub(crate) fn need_word(&mut self, wrong: Wrong) -> Result<Token<'t>, Fault> {
        let token = self.need()?;
        token.check(!token.is(b"$end"), wrong)?;
        Ok(token)
    }
}
