// The reading of a header.
use crate::fault::{Fault, Wrong};
use crate::header::{Code, Declaration, Header, Variable, find_code};
use crate::number::number_of;
use crate::reader::Reader;
use crate::scale::read_scale;
use crate::stop::Stop;
use crate::token::Token;
use crate::word::{Keyword, Lead, keyword_of, lead_of};
use std::alloc::Global;

// How many scopes may be open at the same time.
const MAX_OPEN: usize = 1000;

// How many bits a variable may have.
const MAX_BITS: u64 = 16_777_215;

// Reads what follows `$scope`.
fn read_scope<'t>(reader: &mut Reader<'t>) -> Result<Declaration<'t>, Fault> {
    let kind = reader.need_word(Wrong::BadScope)?;
    let name = reader.need_word(Wrong::BadScope)?;
    reader.need_end(Wrong::BadScope)?;
    Ok(Declaration::Scope {
        kind: kind.text,
        name: name.text,
    })
}

// Reads the size of a variable.
fn read_size(reader: &mut Reader<'_>) -> Result<usize, Fault> {
    let token = reader.need()?;
    match number_of(token.text) {
        Some(size) if 1 <= size && size <= MAX_BITS => Ok(size as usize),
        _ => Err(token.fault(Wrong::BadVariable)),
    }
}

// Reads the code of a variable. Each declaration of a code has to agree with the first.
fn read_code<'t>(
    header: &Header<'t>,
    size: usize,
    is_event: bool,
    reader: &mut Reader<'t>,
) -> Result<Code<'t>, Fault> {
    let token = reader.need()?;
    let is_printable = token.text.iter().all(|byte| (33..=126).contains(byte));
    token.check(is_printable, Wrong::BadVariable)?;
    match find_code(header.codes.as_slice(), token.text) {
        Some(code) => {
            let is_same = code.size == size && code.is_event == is_event;
            token.check(is_same, Wrong::CodeDiffers)?;
            Ok(code)
        }
        None => Ok(Code {
            text: token.text,
            size,
            is_event,
            number: header.codes.len(),
        }),
    }
}

// Reads what follows `$var`.
fn read_variable<'t>(header: &Header<'t>, reader: &mut Reader<'t>) -> Result<Variable<'t>, Fault> {
    let kind = reader.need_word(Wrong::BadVariable)?;
    let size = read_size(reader)?;
    let code = read_code(header, size, kind.is(b"event"), reader)?;
    let name = reader.peek()?;
    name.check(!name.is(b"$end"), Wrong::BadVariable)?;
    let reference = reader.need_words()?;
    Ok(Variable {
        kind: kind.text,
        code,
        reference,
    })
}

// Reads a declaration.
fn read_declaration<'t>(
    header: &mut Header<'t>,
    token: Token<'t>,
    keyword: Keyword,
    reader: &mut Reader<'t>,
    allowed: usize,
) -> Result<(), Stop> {
    token.check(header.declarations.len() < allowed, Wrong::TooMany)?;
    match keyword {
        Keyword::Scope => {
            token.check(header.open_scopes() < MAX_OPEN, Wrong::TooDeep)?;
            let scope = read_scope(reader)?;
            header.declarations.push(scope)?;
        }
        Keyword::Upscope => {
            token.check(header.open_scopes() > 0, Wrong::NoScope)?;
            reader.need_end(Wrong::BadScope)?;
            header.declarations.push(Declaration::Up)?;
        }
        _ => {
            let variable = read_variable(header, reader)?;
            header.declare(variable)?;
        }
    }
    Ok(())
}

// Reads a command that begins with no keyword. A command that this program does not know is
// ignored.
fn read_other(token: Token<'_>, reader: &mut Reader<'_>) -> Result<(), Fault> {
    match token.parts() {
        Some((b'$', [_, ..])) => {
            reader.need_words()?;
            Ok(())
        }
        Some((first, _)) if !matches!(lead_of(first), Lead::Other) => {
            Err(token.fault(Wrong::OutOfPlace))
        }
        _ => Err(token.fault(Wrong::UnknownCommand)),
    }
}

// Reads a command of the header, other than `$enddefinitions`.
fn read_command<'t>(
    header: &mut Header<'t>,
    token: Token<'t>,
    reader: &mut Reader<'t>,
    allowed: usize,
) -> Result<(), Stop> {
    let Some(keyword) = keyword_of(token.text) else {
        return Ok(read_other(token, reader)?);
    };
    match keyword {
        Keyword::Comment => {
            reader.need_words()?;
        }
        Keyword::Date => {
            let words = reader.need_words()?;
            header.date = words;
        }
        Keyword::Version => {
            let words = reader.need_words()?;
            header.version = words;
        }
        Keyword::Timescale => header.scale = Some(read_scale(reader)?),
        Keyword::Scope | Keyword::Upscope | Keyword::Var => {
            read_declaration(header, token, keyword, reader, allowed)?;
        }
        Keyword::EndDefinitions | Keyword::Dump(_) | Keyword::End => {
            return Err(Stop::At(token.fault(Wrong::OutOfPlace)));
        }
    }
    Ok(())
}

// Reads a header, which may have at most `allowed` declarations.
pub(crate) fn read_header<'t>(
    alloc: Global,
    reader: &mut Reader<'t>,
    allowed: usize,
) -> Result<Header<'t>, Stop> {
    let mut header = Header::new(alloc);
    for _ in 0..reader.len() {
        let token = reader.need()?;
        if token.is(b"$enddefinitions") {
            reader.need_end(Wrong::OutOfPlace)?;
            return Ok(header);
        }
        read_command(&mut header, token, reader, allowed)?;
    }
    Err(Stop::At(reader.ending))
}
