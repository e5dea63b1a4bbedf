// The reading of a body.
use crate::fault::{Fault, Wrong};
use crate::header::{Code, find_code};
use crate::item::{Body, Change, Item, Said};
use crate::number::number_of;
use crate::reader::Reader;
use crate::token::Token;
use crate::value::Value;
use crate::word::{Keyword, Lead, is_digit, keyword_of, lead_of};
use std::alloc::{AllocError, Global};

// How many bytes a real text may have.
const MAX_REAL: usize = 64;

// What is known of the items before a phrase.
#[derive(Clone, Copy)]
struct Before {
    time: u64,
    in_section: bool,
}

impl Before {
    fn after(self, said: &Said<'_>) -> Before {
        match said {
            Said::Time(time) => Before {
                time: *time,
                ..self
            },
            Said::Begin(_) => Before {
                in_section: true,
                ..self
            },
            Said::End => Before {
                in_section: false,
                ..self
            },
            Said::Change(_) => self,
        }
    }
}

#[derive(Clone, Copy)]
enum Phrase<'t> {
    Comment,
    Item(Item<'t>),
    Finish,
}

// Returns the code with this text. Fails at the token if there is none.
fn code_at<'t>(codes: &[Code<'t>], token: Token<'_>, text: &[u8]) -> Result<Code<'t>, Fault> {
    match find_code(codes, text) {
        Some(code) => Ok(code),
        None => Err(token.fault(Wrong::UnknownCode)),
    }
}

fn read_mark<'t>(token: Token<'t>, digits: &[u8], before: Before) -> Result<Said<'t>, Fault> {
    let Some(time) = number_of(digits) else {
        return Err(token.fault(Wrong::BadTime));
    };
    token.check(!before.in_section, Wrong::TimeInSection)?;
    token.check(before.time <= time, Wrong::TimeBack)?;
    Ok(Said::Time(time))
}

fn read_scalar<'t>(token: Token<'t>, codes: &[Code<'t>]) -> Result<Said<'t>, Fault> {
    let (digit, text) = token.text.split_at(token.text.len().min(1));
    token.check(!text.is_empty(), Wrong::BadValue)?;
    let code = code_at(codes, token, text)?;
    Ok(Said::Change(Change {
        code,
        value: Value::Digits(digit),
    }))
}

fn read_vector<'t>(
    token: Token<'t>,
    digits: &'t [u8],
    codes: &[Code<'t>],
    reader: &mut Reader<'t>,
) -> Result<Said<'t>, Fault> {
    let are_digits = digits.iter().all(|digit| is_digit(*digit));
    token.check(!digits.is_empty() && are_digits, Wrong::BadValue)?;
    let name = reader.need()?;
    let code = code_at(codes, name, name.text)?;
    let fits = code.is_event || digits.len() <= code.size;
    name.check(fits, Wrong::TooWide)?;
    Ok(Said::Change(Change {
        code,
        value: Value::Digits(digits),
    }))
}

fn read_real<'t>(
    token: Token<'t>,
    text: &'t [u8],
    codes: &[Code<'t>],
    reader: &mut Reader<'t>,
) -> Result<Said<'t>, Fault> {
    token.check(!text.is_empty(), Wrong::BadValue)?;
    token.check(text.len() <= MAX_REAL, Wrong::RealTooLong)?;
    let name = reader.need()?;
    let code = code_at(codes, name, name.text)?;
    Ok(Said::Change(Change {
        code,
        value: Value::Real(text),
    }))
}

// Reads a phrase that begins with no keyword, and returns what it says.
fn read_plain<'t>(
    token: Token<'t>,
    codes: &[Code<'t>],
    before: Before,
    reader: &mut Reader<'t>,
) -> Result<Said<'t>, Fault> {
    let Some((first, rest)) = token.parts() else {
        return Err(token.fault(Wrong::UnknownCommand));
    };
    match lead_of(first) {
        Lead::Mark => read_mark(token, rest, before),
        Lead::Scalar => read_scalar(token, codes),
        Lead::Vector => read_vector(token, rest, codes, reader),
        Lead::Real => read_real(token, rest, codes, reader),
        Lead::Other => Err(token.fault(Wrong::UnknownCommand)),
    }
}

// Reads the phrase of a keyword other than `$comment`, and returns what it says.
fn read_keyword<'t>(token: Token<'t>, keyword: Keyword, before: Before) -> Result<Said<'t>, Fault> {
    match keyword {
        Keyword::Dump(section) if !before.in_section => Ok(Said::Begin(section)),
        Keyword::End if before.in_section => Ok(Said::End),
        _ => Err(token.fault(Wrong::OutOfPlace)),
    }
}

fn read_phrase<'t>(
    codes: &[Code<'t>],
    before: Before,
    reader: &mut Reader<'t>,
) -> Result<Phrase<'t>, Fault> {
    let Some(token) = reader.next()? else {
        return if before.in_section {
            Err(reader.ending)
        } else {
            Ok(Phrase::Finish)
        };
    };
    let said = match keyword_of(token.text) {
        Some(Keyword::Comment) => {
            reader.need_words()?;
            return Ok(Phrase::Comment);
        }
        Some(keyword) => read_keyword(token, keyword, before)?,
        None => read_plain(token, codes, before, reader)?,
    };
    Ok(Phrase::Item(Item {
        said,
        line: token.line,
        time: before.time,
        in_section: before.in_section,
    }))
}

// Reads the body of a dump with these codes.
pub(crate) fn read_body<'t>(
    alloc: Global,
    codes: &[Code<'t>],
    reader: &mut Reader<'t>,
) -> Result<Body<'t>, AllocError> {
    let mut items = Vec::new(alloc);
    let mut before = Before {
        time: 0,
        in_section: false,
    };
    let mut fault = None;
    for _ in 0..=reader.len() {
        match read_phrase(codes, before, reader) {
            Ok(Phrase::Comment) => {}
            Ok(Phrase::Item(item)) => {
                before = before.after(&item.said);
                items.push(item)?;
            }
            Ok(Phrase::Finish) => break,
            Err(found) => {
                fault = Some(found);
                break;
            }
        }
    }
    Ok(Body { items, fault })
}
